use mir_lex::{LexFault, TokenKind, tokens};
use std::test::Fail;

/// A name for each fault, with its line and its column.
fn told(fault: LexFault) -> (&'static str, u32, u32) {
    match fault {
        LexFault::BadByte { place } => ("BadByte", place.line, place.column),
        LexFault::OpenText { place } => ("OpenText", place.line, place.column),
        LexFault::NumberTooWide { place } => ("NumberTooWide", place.line, place.column),
        LexFault::NameTooLong { place } => ("NameTooLong", place.line, place.column),
        LexFault::Memory => ("Memory", 0, 0),
    }
}

#[test]
fn each_fault_has_its_place(rt: HostRuntime) -> Result<(), Fail> {
    for (text, kind, line, column) in [
        (b"fn /".as_slice(), "BadByte", 1, 4),
        (b"a\n\tb #".as_slice(), "BadByte", 2, 4),
        (b"12x".as_slice(), "BadByte", 1, 3),
        (b"8_u9".as_slice(), "BadByte", 1, 2),
        (b"8_u81".as_slice(), "BadByte", 1, 5),
        (b"// \xFF\r\n\xFF".as_slice(), "BadByte", 2, 1),
        (b"x \"a\\\"".as_slice(), "OpenText", 1, 3),
        (b"\"a\nb\"".as_slice(), "OpenText", 1, 1),
        (b"'ab'".as_slice(), "OpenText", 1, 1),
        (b"''".as_slice(), "OpenText", 1, 1),
        (b"'\\u{D800}'".as_slice(), "OpenText", 1, 1),
        (b"'\xC0\x80'".as_slice(), "OpenText", 1, 1),
        (b"a::<impl b<c>".as_slice(), "OpenText", 1, 4),
        (
            b"340282366920938463463374607431768211456".as_slice(),
            "NumberTooWide",
            1,
            1,
        ),
    ] {
        let Err(fault) = tokens(rt.alloc(), text) else {
            return Err("tokens".into());
        };
        assert_eq!(rt; told(fault), (kind, line, column));
    }
    Ok(())
}

#[test]
fn each_token_is_its_slice(rt: HostRuntime) -> Result<(), Fail> {
    let text =
        b"_1=const 08_u8;//x\n->=>::<impl <a>>'\\u{e9}''a \"\\\"\"'\xC3\xA9'340282366920938463463374607431768211455";
    let tokens = tokens(rt.alloc(), text.as_slice())?;
    let mut count = 0;
    for (kind, bytes) in [
        (TokenKind::Word, b"_1".as_slice()),
        (TokenKind::Sign, b"=".as_slice()),
        (TokenKind::Word, b"const".as_slice()),
        (TokenKind::Number, b"08_u8".as_slice()),
        (TokenKind::Sign, b";".as_slice()),
        (TokenKind::Sign, b"->".as_slice()),
        (TokenKind::Sign, b"=>".as_slice()),
        (TokenKind::Sign, b"::".as_slice()),
        (TokenKind::ImplSegment, b"<impl <a>>".as_slice()),
        (TokenKind::Character, b"'\\u{e9}'".as_slice()),
        (TokenKind::Lifetime, b"'a".as_slice()),
        (TokenKind::Text, b"\"\\\"\"".as_slice()),
        (TokenKind::Character, b"'\xC3\xA9'".as_slice()),
        (
            TokenKind::Number,
            b"340282366920938463463374607431768211455".as_slice(),
        ),
    ] {
        let token = tokens.get(count).ok_or("too few tokens")?;
        assert_eq!(rt; token.kind, kind);
        assert_eq!(rt; token.text(text.as_slice()), bytes);
        count += 1;
    }
    assert_eq!(rt; tokens.len(), count);
    Ok(())
}

#[test]
fn long_names_fault_at_the_word(rt: HostRuntime) -> Result<(), Fail> {
    let mut text = vec![in rt.alloc(); b'a'; 258]?;
    let Err(word) = tokens(rt.alloc(), &text) else {
        return Err("a word".into());
    };
    assert_eq!(rt; told(word), ("NameTooLong", 1, 1));
    text[0] = b'\'';
    let Err(lifetime) = tokens(rt.alloc(), &text) else {
        return Err("a lifetime".into());
    };
    assert_eq!(rt; told(lifetime), ("NameTooLong", 1, 2));
    Ok(())
}

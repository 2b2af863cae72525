ghost use Rattle.std.specs.Prelude.{◌≡◌, ◌+◌, ◌<◌, ◌^◌, length};
ghost use Rattle.mir_ir.specs.Names.{int_of_name};
ghost use Rattle.mir_lex.specs.Views.{decimal, digits_of, suffix_of};
ghost use Rattle.mir_grammar.specs.Lexemes.{signs, words, number_among, word_class, typed_class, suffix_class, fits_plus, fits_minus};
ghost use Rattle.mir_pieces.specs.Seen.{texts_now, local_class, class_in};

use mir_ir::IntTy;
use mir_lex::{TokenKind, capped_number, digits_of, is_label, is_local, number_within, suffix_of};

/// The signs, in the order of their classes.
const SIGNS: [&[u8]; 21] = [
    b"(", b")", b"[", b"]", b"{", b"}", b"<", b">", b",", b";", b":", b"::", b".", b"=", b"&",
    b"*", b"!", b"+", b"-", b"->", b"=>",
];

/// The words of the grammar, in the order of their classes.
const WORDS: [&[u8]; 79] = [
    b"bool",
    b"char",
    b"i8",
    b"i16",
    b"i32",
    b"i64",
    b"i128",
    b"isize",
    b"u8",
    b"u16",
    b"u32",
    b"u64",
    b"u128",
    b"usize",
    b"str",
    b"dyn",
    b"const",
    b"mut",
    b"as",
    b"of",
    b"copy",
    b"move",
    b"true",
    b"false",
    b"Add",
    b"Sub",
    b"Mul",
    b"Div",
    b"Rem",
    b"BitXor",
    b"BitAnd",
    b"BitOr",
    b"Shl",
    b"Shr",
    b"Eq",
    b"Lt",
    b"Le",
    b"Ne",
    b"Ge",
    b"Gt",
    b"Offset",
    b"AddWithOverflow",
    b"SubWithOverflow",
    b"MulWithOverflow",
    b"Not",
    b"Neg",
    b"PtrMetadata",
    b"discriminant",
    b"Len",
    b"SizeOf",
    b"AlignOf",
    b"raw",
    b"IntToInt",
    b"PtrToPtr",
    b"PointerCoercion",
    b"Unsize",
    b"MutToConstPointer",
    b"StorageLive",
    b"StorageDead",
    b"nop",
    b"ConstEvalCounter",
    b"PlaceMention",
    b"goto",
    b"return",
    b"unreachable",
    b"switchInt",
    b"otherwise",
    b"drop",
    b"assert",
    b"success",
    b"unwind",
    b"continue",
    b"terminate",
    b"resume",
    b"cleanup",
    b"fn",
    b"let",
    b"debug",
    b"scope",
];

/// The number of the first text of a table that it is, counted from `first`, or another number.
fn number_among(table: &[&[u8]], first: u32, text: &[u8], other: u32) -> u32
    requires { first + length table.now < 2 ^ 32 }
    ensures { result ≡ number_among (texts_now table.now) first text.now other }
{
    match table {
        [] => other,
        [word, rest @ ..] => {
            if *word == text {
                first
            } else {
                number_among(rest, first + 1, text, other)
            }
        }
    }
}

fn sign_class(sign: &[u8]) -> u32
    ensures { result ≡ number_among signs 1 sign.now 0 }
{
    number_among(&SIGNS, 1, sign, 0)
}

fn word_number(word: &[u8]) -> u32
    ensures { result ≡ number_among words 100 word.now 33 }
{
    number_among(&WORDS, 100, word, 33)
}

/// The class of a local: that of `_0` is its own.
fn local_class(local: &[u8]) -> u32
    ensures { result ≡ local_class local.now }
{
    match local {
        [] => 30,
        [_, digits @ ..] => { if capped_number(digits) == 0 { 30 } else { 31 } }
    }
}

fn word_class(word: &[u8]) -> u32
    ensures { result ≡ word_class word.now }
{
    if is_local(word) {
        local_class(word)
    } else if is_label(word) {
        32
    } else {
        word_number(word)
    }
}

/// The value is a number of the type.
fn fits_plus(ty: IntTy, value: u128) -> bool
    ensures { result ≡ fits_plus ty value }
{
    match ty {
        IntTy::I8 => value < 128,
        IntTy::I16 => value < 32_768,
        IntTy::I32 => value < 2_147_483_648,
        IntTy::I64 => value < 9_223_372_036_854_775_808,
        IntTy::I128 => value < 170_141_183_460_469_231_731_687_303_715_884_105_728,
        IntTy::Isize => value < 9_223_372_036_854_775_808,
        IntTy::U8 => value < 256,
        IntTy::U16 => value < 65_536,
        IntTy::U32 => value < 4_294_967_296,
        IntTy::U64 => value < 18_446_744_073_709_551_616,
        IntTy::U128 => true,
        IntTy::Usize => value < 18_446_744_073_709_551_616,
    }
}

/// The value with a minus is a number of the type.
fn fits_minus(ty: IntTy, value: u128) -> bool
    ensures { result ≡ fits_minus ty value }
{
    match ty {
        IntTy::I8 => value == 0 || value <= 128,
        IntTy::I16 => value == 0 || value <= 32_768,
        IntTy::I32 => value == 0 || value <= 2_147_483_648,
        IntTy::I64 => value == 0 || value <= 9_223_372_036_854_775_808,
        IntTy::I128 => value == 0 || value <= 170_141_183_460_469_231_731_687_303_715_884_105_728,
        IntTy::Isize => value == 0 || value <= 9_223_372_036_854_775_808,
        IntTy::U8 | IntTy::U16 | IntTy::U32 | IntTy::U64 | IntTy::U128 | IntTy::Usize => value == 0,
    }
}

fn typed_class(plus: bool, minus: bool) -> u32
    ensures { result ≡ typed_class plus minus }
{
    match (plus, minus) {
        (true, true) => 36,
        (true, false) => 37,
        (false, true) => 38,
        (false, false) => 39,
    }
}

fn number_class(number: &[u8]) -> u32
    ensures { result ≡ suffix_class (decimal (digits_of number.now)) (int_of_name (suffix_of number.now)) }
{
    match IntTy::from_name(suffix_of(number)) {
        None => 35,
        Some(ty) => match number_within(10, u128::MAX, digits_of(number)) {
            None => 39,
            Some(value) => typed_class(fits_plus(ty, value), fits_minus(ty, value)),
        },
    }
}

/// The class of a token of these bytes.
pub fn class_in(kind: TokenKind, text: &[u8]) -> u32
    ensures { result ≡ class_in kind text.now }
{
    match kind {
        TokenKind::Word => word_class(text),
        TokenKind::Number => number_class(text),
        TokenKind::Text => 40,
        TokenKind::Character => 41,
        TokenKind::Lifetime => 42,
        TokenKind::ImplSegment => 43,
        TokenKind::Sign => sign_class(text),
    }
}

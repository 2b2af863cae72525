ghost use Rattle.std.specs.Prelude.{◌≡◌};
ghost use Rattle.std.specs.List.{list_any};
ghost use Rattle.std.specs.Option.{option_copied};
ghost use Rattle.std.specs.Str.{bytes_eq};
ghost use Rattle.mir_pieces.specs.Seen.{texts_now};
ghost use Rattle.mir_text.specs.Answers.{is_unsupported, unsupported_in};

use mir_pieces::Piece;

/// Words of rustc's MIR that are known and not read.
const WORDS: [&[u8]; 16] = [
    b"falseEdge",
    b"falseUnwind",
    b"yield",
    b"coroutine_drop",
    b"tailcall",
    b"asm",
    b"FakeRead",
    b"AscribeUserType",
    b"Retag",
    b"Coverage",
    b"Deinit",
    b"copy_nonoverlapping",
    b"assume",
    b"const",
    b"static",
    b"promoted",
];

fn is_among(table: &[&[u8]], word: &[u8]) -> bool
    ensures { result ≡ list_any (bytes_eq word.now) (texts_now table.now) }
{
    match table {
        [] => false,
        [first, rest @ ..] => word == *first || is_among(rest, word),
    }
}

fn is_unsupported(word: &[u8]) -> bool
    ensures { result ≡ is_unsupported word.now }
{
    is_among(&WORDS, word)
}

/// The first of these tokens, where it is a word that is known and not read.
pub fn unsupported_in<'a>(tokens: &[Piece<'a>]) -> Option<&'a [u8]>
    ensures { option_copied result ≡ unsupported_in tokens.now }
{
    match tokens {
        [] => None,
        [token, ..] => {
            if is_unsupported(token.text()) {
                Some(token.text())
            } else {
                None
            }
        }
    }
}

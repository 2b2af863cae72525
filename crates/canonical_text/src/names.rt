ghost use Rattle.std.specs.Prelude.{◌≡◌, ◌++◌, ◌+◌, ◌-◌, ◌^◌, ◌==◌, ◌<◌, if◌then◌else◌, OnOk};
ghost use Rattle.std.specs.List.{list_any};
ghost use Rattle.std.specs.Str.{bytes_eq};
ghost use Rattle.mir_lex.specs.Bytes.{is_word_byte};
ghost use Rattle.mir_lex.specs.Tokens.{opens_impl};
ghost use Rattle.canonical_text.specs.Names.{announces_path, colons_before, is_reserved, open_behind, path_written, position_behind, texts_now};

use crate::positions::Position;
use crate::pushes::push_text;
use mir_lex::{is_word_byte, opens_impl};
use vk_core::{Name, NoMemory};

/// Words that begin a value otherwise than as a path.
const VALUE_WORDS: [&[u8]; 30] = [
    b"const",
    b"copy",
    b"move",
    b"Add",
    b"Sub",
    b"Mul",
    b"Div",
    b"Rem",
    b"BitXor",
    b"BitAnd",
    b"BitOr",
    b"Shl",
    b"Shr",
    b"Eq",
    b"Lt",
    b"Le",
    b"Ne",
    b"Ge",
    b"Gt",
    b"Offset",
    b"AddWithOverflow",
    b"SubWithOverflow",
    b"MulWithOverflow",
    b"Not",
    b"Neg",
    b"PtrMetadata",
    b"discriminant",
    b"Len",
    b"SizeOf",
    b"AlignOf",
];

const CONSTANT_WORDS: [&[u8]; 2] = [b"true", b"false"];

/// Words of types, and `mut`, which has its own meaning behind `&`.
const TYPE_WORDS: [&[u8]; 17] = [
    b"bool", b"char", b"i8", b"i16", b"i32", b"i64", b"i128", b"isize", b"u8", b"u16", b"u32",
    b"u64", b"u128", b"usize", b"str", b"dyn", b"mut",
];

fn is_among(table: &[&[u8]], word: &[u8]) -> bool
    ensures { result ≡ list_any (bytes_eq word.now) (texts_now table.now) }
{
    match table {
        [] => false,
        [first, rest @ ..] => word == *first || is_among(rest, word),
    }
}

/// Whether a word begins something else than a path at a position.
#[tactic(auto, unfolding(crate::specs::Names::is_reserved))]
fn is_reserved(position: Position, word: &[u8]) -> bool
    ensures { result ≡ is_reserved position word.now }
{
    match position {
        Position::AsValue => is_among(&VALUE_WORDS, word),
        Position::AsConstant => is_among(&CONSTANT_WORDS, word),
        Position::AsType => is_among(&TYPE_WORDS, word),
        Position::Alone => false,
    }
}

/// Whether a path alone stands behind a word and a blank.
fn announces_path(word: &[u8]) -> bool
    ensures { result ≡ announces_path word.now }
{
    word == b"as".as_slice() || word == b"dyn".as_slice()
}

/// The position of the word that stands before what comes behind a byte.
fn position_behind(position: Position, word: &[u8], byte: u8) -> Position
    ensures { result ≡ position_behind position word.now byte }
{
    if is_word_byte(byte) {
        position
    } else if byte == b':' || byte == b' ' && announces_path(word) {
        Position::Alone
    } else {
        Position::AsType
    }
}

/// How many `<` of an impl segment are open behind a byte, before these bytes.
fn open_behind(depth: usize, byte: u8, rest: &[u8]) -> usize
    requires room { depth < 2 ^ 64 - 1 }
    ensures { result ≡ open_behind depth byte rest.now }
{
    if byte == b'<' {
        if depth == 0 && !opens_impl(rest) {
            0
        } else {
            depth + 1
        }
    } else if byte == b'>' {
        depth.saturating_sub(1)
    } else {
        depth
    }
}

fn colons_before(
    position: Position,
    word: &[u8],
    depth: usize,
    byte: u8,
    rest: &[u8],
) -> &'static str
    ensures { result.now ≡ colons_before position word.now depth byte rest.now }
{
    if byte == b'<' && depth == 0 && !opens_impl(rest) && is_reserved(position, word) {
        "::"
    } else {
        ""
    }
}

/// Where the word starts that ends behind the byte at this place, where the word before the byte starts there.
fn word_start(start: usize, at: usize, byte: u8) -> usize
    requires room { at < 2 ^ 64 - 1 }
    ensures { result ≡ (if is_word_byte byte then start else at + 1) }
{
    if is_word_byte(byte) { start } else { at + 1 }
}

/// Adds the name of a path that stands at a position, with `::` before arguments where it would not read back without.
#[tactic(auto, unfolding(crate::specs::Names::path_written))]
pub fn push_path(out: &mut Vec<u8>, position: Position, path: &Name) -> Result<(), NoMemory>
    ensures { OnOk result (out.new.items ≡ out.old.items ++ path_written position path.now) }
{
    let name = path.as_bytes();
    let mut here = position;
    let mut start = 0;
    let mut depth = 0;
    let mut at = 0;
    while at < name.len() {
        let byte = name[at];
        let rest = &name[at + 1..];
        let word = &name[start..at];
        push_text(out, colons_before(here, word, depth, byte, rest))?;
        out.push(byte)?;
        here = position_behind(here, word, byte);
        depth = open_behind(depth, byte, rest);
        start = word_start(start, at, byte);
        at += 1;
    }
    Ok(())
}

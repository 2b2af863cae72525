ghost use Rattle.std.specs.Prelude.{◌≡◌};
ghost use Rattle.grammar_words.specs.Grammar.{starts};
ghost use Rattle.grammar_words.specs.Classes.{has, inside};
ghost use Rattle.mir_grammar.specs.Lexemes.{class_of};

use crate::piece::Piece;

/// The words of the grammar, and any other.
pub const ANY_WORD: [u32; 80] = [
    33, 100, 101, 102, 103, 104, 105, 106, 107, 108, 109, 110, 111, 112, 113, 114, 115, 116, 117,
    118, 119, 120, 121, 122, 123, 124, 125, 126, 127, 128, 129, 130, 131, 132, 133, 134, 135, 136,
    137, 138, 139, 140, 141, 142, 143, 144, 145, 146, 147, 148, 149, 150, 151, 152, 153, 154, 155,
    156, 157, 158, 159, 160, 161, 162, 163, 164, 165, 166, 167, 168, 169, 170, 171, 172, 173, 174,
    175, 176, 177, 178,
];

/// `::`
pub const COLONS: [u32; 1] = [12];

/// `<`
pub const LESS: [u32; 1] = [7];

/// `>`
pub const GREATER: [u32; 1] = [8];

/// `,`
pub const COMMA: [u32; 1] = [9];

/// `;`
pub const SEMICOLON: [u32; 1] = [10];

/// `(`
pub const OPEN_PAREN: [u32; 1] = [1];

/// `)`
pub const CLOSE_PAREN: [u32; 1] = [2];

/// `[`
pub const OPEN_BRACKET: [u32; 1] = [3];

/// `]`
pub const CLOSE_BRACKET: [u32; 1] = [4];

/// `&`
pub const AMPERSAND: [u32; 1] = [15];

/// `*`
pub const STAR: [u32; 1] = [16];

/// `+`
pub const PLUS: [u32; 1] = [18];

/// `mut`
pub const MUT: [u32; 1] = [117];

/// `const`
pub const CONST: [u32; 1] = [116];

/// `dyn`
pub const DYN: [u32; 1] = [115];

/// `as`
pub const AS: [u32; 1] = [118];

/// A lifetime.
pub const LIFETIME: [u32; 1] = [42];

/// An impl segment.
pub const IMPL_SEGMENT: [u32; 1] = [43];

/// A number without a type.
pub const NUMBER: [u32; 1] = [35];

/// What stands in angle brackets as it is written: a number or a lifetime.
pub const WRITTEN: [u32; 2] = [35, 42];

/// What goes on with a path.
pub const STEP_FIRSTS: [u32; 2] = [12, 7];

/// `!`, and the words that are types.
pub const PLAIN: [u32; 16] = [
    17, 100, 101, 102, 103, 104, 105, 106, 107, 108, 109, 110, 111, 112, 113, 114,
];

/// The words that are types, and `dyn`.
pub const TYPE_WORDS: [u32; 16] = [
    100, 101, 102, 103, 104, 105, 106, 107, 108, 109, 110, 111, 112, 113, 114, 115,
];

/// What begins a type that is no path.
pub const FORMED_FIRSTS: [u32; 21] = [
    17, 1, 3, 15, 16, 100, 101, 102, 103, 104, 105, 106, 107, 108, 109, 110, 111, 112, 113, 114,
    115,
];

/// Words that begin a path at the place of a type.
pub const PATH_WORDS: [u32; 64] = [
    33, 116, 117, 118, 119, 120, 121, 122, 123, 124, 125, 126, 127, 128, 129, 130, 131, 132, 133,
    134, 135, 136, 137, 138, 139, 140, 141, 142, 143, 144, 145, 146, 147, 148, 149, 150, 151, 152,
    153, 154, 155, 156, 157, 158, 159, 160, 161, 162, 163, 164, 165, 166, 167, 168, 169, 170, 171,
    172, 173, 174, 175, 176, 177, 178,
];

/// These without `mut`.
pub const PATH_WORDS_BUT_MUT: [u32; 63] = [
    33, 116, 118, 119, 120, 121, 122, 123, 124, 125, 126, 127, 128, 129, 130, 131, 132, 133, 134,
    135, 136, 137, 138, 139, 140, 141, 142, 143, 144, 145, 146, 147, 148, 149, 150, 151, 152, 153,
    154, 155, 156, 157, 158, 159, 160, 161, 162, 163, 164, 165, 166, 167, 168, 169, 170, 171, 172,
    173, 174, 175, 176, 177, 178,
];

/// What begins a type.
pub const TYPE_FIRSTS: [u32; 87] = [
    17, 1, 3, 15, 16, 43, 7, 33, 100, 101, 102, 103, 104, 105, 106, 107, 108, 109, 110, 111, 112,
    113, 114, 115, 116, 117, 118, 119, 120, 121, 122, 123, 124, 125, 126, 127, 128, 129, 130, 131,
    132, 133, 134, 135, 136, 137, 138, 139, 140, 141, 142, 143, 144, 145, 146, 147, 148, 149, 150,
    151, 152, 153, 154, 155, 156, 157, 158, 159, 160, 161, 162, 163, 164, 165, 166, 167, 168, 169,
    170, 171, 172, 173, 174, 175, 176, 177, 178,
];

/// These without `mut`.
pub const TYPE_FIRSTS_BUT_MUT: [u32; 86] = [
    17, 1, 3, 15, 16, 43, 7, 33, 100, 101, 102, 103, 104, 105, 106, 107, 108, 109, 110, 111, 112,
    113, 114, 115, 116, 118, 119, 120, 121, 122, 123, 124, 125, 126, 127, 128, 129, 130, 131, 132,
    133, 134, 135, 136, 137, 138, 139, 140, 141, 142, 143, 144, 145, 146, 147, 148, 149, 150, 151,
    152, 153, 154, 155, 156, 157, 158, 159, 160, 161, 162, 163, 164, 165, 166, 167, 168, 169, 170,
    171, 172, 173, 174, 175, 176, 177, 178,
];

/// What begins an argument in angle brackets.
pub const ARGUMENT_FIRSTS: [u32; 89] = [
    35, 42, 17, 1, 3, 15, 16, 43, 7, 33, 100, 101, 102, 103, 104, 105, 106, 107, 108, 109, 110,
    111, 112, 113, 114, 115, 116, 117, 118, 119, 120, 121, 122, 123, 124, 125, 126, 127, 128, 129,
    130, 131, 132, 133, 134, 135, 136, 137, 138, 139, 140, 141, 142, 143, 144, 145, 146, 147, 148,
    149, 150, 151, 152, 153, 154, 155, 156, 157, 158, 159, 160, 161, 162, 163, 164, 165, 166, 167,
    168, 169, 170, 171, 172, 173, 174, 175, 176, 177, 178,
];

fn has(set: &[u32], class: u32) -> bool
    ensures { result ≡ has set.now class }
{
    let mut left = set;
    while let [member, rest @ ..] = left {
        if *member == class {
            return true;
        }
        left = rest;
    }
    false
}

/// A token of these classes.
#[tactic(auto, unfolding(grammar_words::specs::Classes::inside))]
pub fn inside(set: &[u32], token: &Piece<'_>) -> bool
    ensures { result ≡ inside class_of set.now token.now }
{
    has(set, token.class())
}

/// A token of these classes comes.
pub fn starts(set: &[u32], tokens: &[Piece<'_>]) -> bool
    ensures { result ≡ starts (inside class_of set.now) tokens.now }
{
    match tokens {
        [] => false,
        [token, ..] => inside(set, token),
    }
}

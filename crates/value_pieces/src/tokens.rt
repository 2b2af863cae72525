ghost use Rattle.std.specs.Prelude.{◌≡◌, IfOk};
ghost use Rattle.mir_grammar.specs.Lexemes.{local_number, number_type, char_value, text_body};

use mir_ir::IntTy;
use mir_lex::{between, capped_number, character_value, suffix_of};
use mir_pieces::Piece;
use sqlite_items::Items;
use std::alloc::Global;
use vk_core::NoMemory;

/// The number of a local, and 4096 where it is past the limit.
#[tactic(auto, unfolding(mir_grammar::specs::Lexemes::local_number))]
pub fn local_number(local: &Piece<'_>) -> u32
    ensures { result ≡ local_number local.now }
{
    match local.text() {
        [] => 0,
        [_, digits @ ..] => capped_number(digits),
    }
}

/// The type behind a number.
#[tactic(auto, unfolding(mir_grammar::specs::Lexemes::number_type))]
pub fn number_type(number: &Piece<'_>) -> Option<IntTy>
    ensures { result ≡ number_type number.now }
{
    IntTy::from_name(suffix_of(number.text()))
}

/// The number of a character.
#[tactic(auto, unfolding(mir_grammar::specs::Lexemes::char_value))]
pub fn char_value(character: &Piece<'_>) -> u32
    ensures { result ≡ char_value character.now }
{
    character_value(character.text())
}

/// What stands between the quotes of a text.
#[tactic(auto, unfolding(mir_grammar::specs::Lexemes::text_body))]
pub fn text_body(alloc: Global, text: &Piece<'_>) -> Result<Items<u8>, NoMemory>
    ensures { IfOk result (λ body. body ≡ text_body text.now) }
{
    let body = Items::from_slice(alloc, between(text.text()))?;
    Ok(body)
}

/// The same tokens. What a reader leaves goes through this into a loop's next turn.
pub fn same<'t, 'a>(tokens: &'t [Piece<'a>]) -> &'t [Piece<'a>]
    ensures { result.now ≡ tokens.now }
{
    tokens
}

ghost use Rattle.std.specs.Prelude.{◌≡◌, ◌∷◌, [], IfOk, true, false};
ghost use Rattle.grammar_words.specs.Reading.{made};
ghost use Rattle.grammar_words.specs.Classes.{tok, past, ended, perhaps};
ghost use Rattle.grammar_words.specs.Coded.{counted};
ghost use Rattle.mir_grammar.specs.Lexemes.{class_of};
ghost use Rattle.mir_grammar.specs.Types.{any_word};
ghost use Rattle.mir_grammar.specs.Values.{plain_kind, to_plain_kind, coercion, to_coercion, coercion_at, kind_at};
ghost use Rattle.mir_pieces.specs.Views.{read_view};

use crate::sets::{COERCIONS, PLAIN_KINDS, POINTER_COERCION};
use mir_ir::CastKind;
use mir_pieces::{ANY_WORD, CLOSE_PAREN, COMMA, OPEN_PAREN, Piece, Read, starts, token};

fn plain_kind(word: &[u8]) -> CastKind
    ensures { result ≡ plain_kind word.now }
{
    if b"IntToInt".as_slice() == word {
        CastKind::IntToInt
    } else {
        CastKind::PtrToPtr
    }
}

#[tactic(auto, unfolding(mir_grammar::specs::Values::to_plain_kind))]
fn to_plain_kind(word: &Piece<'_>) -> CastKind
    ensures { result ≡ to_plain_kind word.now }
{
    plain_kind(word.text())
}

fn coercion(word: &[u8]) -> CastKind
    ensures { result ≡ coercion word.now }
{
    if b"Unsize".as_slice() == word {
        CastKind::Unsize
    } else {
        CastKind::MutToConstPointer
    }
}

#[tactic(auto, unfolding(mir_grammar::specs::Values::to_coercion))]
fn to_coercion(word: &Piece<'_>, origin: bool) -> CastKind
    ensures { result ≡ to_coercion (word.now, origin) }
{
    let _origin = origin;
    coercion(word.text())
}

/// `,` and a word, which says where a coercion comes from.
#[tactic(auto, unfolding(grammar_words::specs::Reading::made, grammar_words::specs::Reading::chained))]
fn origin<'t, 'a>(tokens: &'t [Piece<'a>]) -> Read<'t, 'a, bool>
    ensures { IfOk result (λ read. read_view read ≡ counted (made (λ t. true) (past class_of (9 ∷ []) (tok class_of any_word)) tokens.now)) }
{
    match token(&COMMA, tokens) {
        Ok((_comma, rest)) => match token(&ANY_WORD, rest) {
            Ok((_word, rest)) => Ok(Ok((true, rest))),
            Err(stop) => Ok(Err(stop)),
        },
        Err(stop) => Ok(Err(stop)),
    }
}

#[tactic(auto, unfolding(grammar_words::specs::Reading::choose))]
fn perhaps_origin<'t, 'a>(tokens: &'t [Piece<'a>]) -> Read<'t, 'a, bool>
    ensures { IfOk result (λ read. read_view read ≡ counted (perhaps class_of (9 ∷ []) false (made (λ t. true) (past class_of (9 ∷ []) (tok class_of any_word))) tokens.now)) }
{
    if starts(&COMMA, tokens) {
        let read = origin(tokens)?;
        Ok(read)
    } else {
        Ok(Ok((false, tokens)))
    }
}

/// What stands in the parentheses of a pointer coercion.
#[tactic(auto, unfolding(grammar_words::specs::Reading::made, grammar_words::specs::Reading::chained))]
fn coercion_inside<'t, 'a>(tokens: &'t [Piece<'a>]) -> Read<'t, 'a, CastKind>
    ensures { IfOk result (λ read. read_view read ≡ counted (coercion_at tokens.now)) }
{
    match token(&COERCIONS, tokens) {
        Ok((word, rest)) => match perhaps_origin(rest)? {
            Ok((origin, rest)) => Ok(Ok((to_coercion(word, origin), rest))),
            Err(stop) => Ok(Err(stop)),
        },
        Err(stop) => Ok(Err(stop)),
    }
}

#[tactic(auto, unfolding(grammar_words::specs::Reading::made, grammar_words::specs::Reading::chained))]
fn coercion_in_parentheses<'t, 'a>(tokens: &'t [Piece<'a>]) -> Read<'t, 'a, CastKind>
    ensures { IfOk result (λ read. read_view read ≡ counted (past class_of (1 ∷ []) (ended class_of coercion_at (2 ∷ [])) tokens.now)) }
{
    match token(&OPEN_PAREN, tokens) {
        Ok((_open, rest)) => match coercion_inside(rest)? {
            Ok((kind, rest)) => match token(&CLOSE_PAREN, rest) {
                Ok((_close, rest)) => Ok(Ok((kind, rest))),
                Err(stop) => Ok(Err(stop)),
            },
            Err(stop) => Ok(Err(stop)),
        },
        Err(stop) => Ok(Err(stop)),
    }
}

#[tactic(auto, unfolding(grammar_words::specs::Reading::made, grammar_words::specs::Reading::chained))]
fn pointer_kind<'t, 'a>(tokens: &'t [Piece<'a>]) -> Read<'t, 'a, CastKind>
    ensures { IfOk result (λ read. read_view read ≡ counted (past class_of (154 ∷ []) (past class_of (1 ∷ []) (ended class_of coercion_at (2 ∷ []))) tokens.now)) }
{
    match token(&POINTER_COERCION, tokens) {
        Ok((_word, rest)) => {
            let read = coercion_in_parentheses(rest)?;
            Ok(read)
        }
        Err(stop) => Ok(Err(stop)),
    }
}

#[tactic(auto, unfolding(grammar_words::specs::Reading::made))]
fn word_kind<'t, 'a>(tokens: &'t [Piece<'a>]) -> Read<'t, 'a, CastKind>
    ensures { IfOk result (λ read. read_view read ≡ counted (made to_plain_kind (tok class_of (152 ∷ 153 ∷ [])) tokens.now)) }
{
    match token(&PLAIN_KINDS, tokens) {
        Ok((word, rest)) => Ok(Ok((to_plain_kind(word), rest))),
        Err(stop) => Ok(Err(stop)),
    }
}

/// The kind of a cast.
#[tactic(auto, unfolding(grammar_words::specs::Reading::choose))]
pub fn cast_kind<'t, 'a>(tokens: &'t [Piece<'a>]) -> Read<'t, 'a, CastKind>
    ensures { IfOk result (λ read. read_view read ≡ counted (kind_at tokens.now)) }
{
    let read = if starts(&PLAIN_KINDS, tokens) {
        word_kind(tokens)?
    } else {
        pointer_kind(tokens)?
    };
    Ok(read)
}

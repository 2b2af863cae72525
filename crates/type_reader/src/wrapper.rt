ghost use Rattle.std.specs.Prelude.{◌≡◌, ◌∷◌, [], ◌++◌, IfOk, Some, codes};
ghost use Rattle.grammar_words.specs.Reading.{made};
ghost use Rattle.grammar_words.specs.Coded.{counted};
ghost use Rattle.mir_grammar.specs.Names.{to_array};
ghost use Rattle.mir_grammar.specs.Types.{array_end_at};
ghost use Rattle.mir_pieces.specs.Views.{read_view, token_view};
ghost use Rattle.type_reader.specs.Wrappers.{array_front, lifetime_front, target_front, ref_front, raw_front, wrapper_front, array_end, wrapper_end, bound, dyn_end, count_at};

use grammar_words::Stop;
use mir_grammar::Named;
use mir_ir::Ty;
use mir_pieces::{
    AMPERSAND, CLOSE_BRACKET, COLONS, CONST, LIFETIME, MUT, NUMBER, OPEN_BRACKET, PLUS, Piece,
    Read, SEMICOLON, STAR, Want, starts, to_dyn, to_raw, to_ref, to_slice, token,
};
use sqlite_items::{Boxed, Items};
use std::alloc::Global;
use vk_core::NoMemory;

/// How a type has another one inside.
#[derive(Clone, Copy, Debug)]
pub enum Wrapper {
    /// `[T]` or `[T; N]`.
    Array,
    /// `&T`, or `&mut T` where it is true.
    Ref(bool),
    /// `*const T`, or `*mut T` where it is true.
    Raw(bool),
}

/// What stands before an inner type, what is wanted there, and the tokens from there on.
type Front<'t, 'a> = Result<((Wrapper, Want), &'t [Piece<'a>]), Stop>;

#[tactic(auto, unfolding(grammar_words::specs::Reading::made, grammar_words::specs::Reading::chained, crate::specs::Wrappers::array_front))]
fn array_front<'t, 'a>(tokens: &'t [Piece<'a>]) -> Front<'t, 'a>
    ensures { read_view result ≡ counted (array_front tokens.now) }
{
    let (_bracket, rest) = token(&OPEN_BRACKET, tokens)?;
    Ok(((Wrapper::Array, Want::AnyType), rest))
}

#[tactic(auto, unfolding(grammar_words::specs::Reading::made, grammar_words::specs::Reading::chained, grammar_words::specs::Reading::choose, crate::specs::Wrappers::target_front))]
fn target_front<'t, 'a>(tokens: &'t [Piece<'a>]) -> Front<'t, 'a>
    ensures { read_view result ≡ counted (target_front tokens.now) }
{
    if starts(&MUT, tokens) {
        let (_mut, rest) = token(&MUT, tokens)?;
        if starts(&COLONS, rest) {
            Ok(((Wrapper::Ref(false), Want::BehindMut), rest))
        } else {
            Ok(((Wrapper::Ref(true), Want::AnyType), rest))
        }
    } else {
        Ok(((Wrapper::Ref(false), Want::NotMut), tokens))
    }
}

/// A lifetime, or nothing.
#[tactic(auto, unfolding(grammar_words::specs::Reading::made, grammar_words::specs::Reading::choose, crate::specs::Wrappers::lifetime_front))]
fn lifetime<'t, 'a>(tokens: &'t [Piece<'a>]) -> Result<(bool, &'t [Piece<'a>]), Stop>
    ensures { read_view result ≡ counted (lifetime_front tokens.now) }
{
    if starts(&LIFETIME, tokens) {
        let (_lifetime, rest) = token(&LIFETIME, tokens)?;
        Ok((true, rest))
    } else {
        Ok((false, tokens))
    }
}

#[tactic(auto, unfolding(grammar_words::specs::Reading::made, grammar_words::specs::Reading::chained, crate::specs::Wrappers::ref_front))]
fn ref_front<'t, 'a>(tokens: &'t [Piece<'a>]) -> Front<'t, 'a>
    ensures { read_view result ≡ counted (ref_front tokens.now) }
{
    let (_and, rest) = token(&AMPERSAND, tokens)?;
    let (_lifetime, rest) = lifetime(rest)?;
    let (front, rest) = target_front(rest)?;
    Ok((front, rest))
}

#[tactic(auto, unfolding(grammar_words::specs::Reading::made, grammar_words::specs::Reading::chained, grammar_words::specs::Reading::choose, crate::specs::Wrappers::raw_front))]
fn raw_front<'t, 'a>(tokens: &'t [Piece<'a>]) -> Front<'t, 'a>
    ensures { read_view result ≡ counted (raw_front tokens.now) }
{
    let (_star, rest) = token(&STAR, tokens)?;
    if starts(&MUT, rest) {
        let (_mut, rest) = token(&MUT, rest)?;
        Ok(((Wrapper::Raw(true), Want::AnyType), rest))
    } else {
        let (_const, rest) = token(&CONST, rest)?;
        Ok(((Wrapper::Raw(false), Want::AnyType), rest))
    }
}

/// What stands before the inner type.
#[tactic(auto, unfolding(grammar_words::specs::Reading::choose, crate::specs::Wrappers::wrapper_front))]
pub fn wrapper_front<'t, 'a>(tokens: &'t [Piece<'a>]) -> Front<'t, 'a>
    ensures { read_view result ≡ counted (wrapper_front tokens.now) }
{
    if starts(&OPEN_BRACKET, tokens) {
        array_front(tokens)
    } else if starts(&AMPERSAND, tokens) {
        ref_front(tokens)
    } else {
        raw_front(tokens)
    }
}

fn counted_text(alloc: Global, item: &[u8], number: &[u8]) -> Result<Items<u8>, NoMemory>
    ensures { IfOk result (λ text. text ≡ codes "[" ++ (item.now ++ (codes "; " ++ (number.now ++ codes "]")))) }
{
    let mut out = Vec::new(alloc);
    out.extend_from_slice(b"[")?;
    out.extend_from_slice(item)?;
    out.extend_from_slice(b"; ")?;
    out.extend_from_slice(number)?;
    out.extend_from_slice(b"]")?;
    Ok(Items::from_vec(out))
}

/// `[T; N]`.
#[tactic(auto, unfolding(mir_grammar::specs::Names::to_array))]
fn to_counted(alloc: Global, item: Named, number: &Piece<'_>) -> Result<Named, NoMemory>
    ensures { IfOk result (λ named. named ≡ to_array (item, Some number.now)) }
{
    let text = counted_text(alloc, item.text.as_slice(), number.text())?;
    let Named { ty, is_long, .. } = item;
    let item = Boxed::new(alloc, ty)?;
    Ok(Named {
        ty: Ty::Array {
            item,
            count: number.number_value(),
        },
        text,
        is_long,
        argument: None,
        start: 0,
    })
}

/// `; N ]`
#[tactic(auto, unfolding(grammar_words::specs::Reading::made, grammar_words::specs::Reading::chained, crate::specs::Wrappers::count_at))]
fn count<'t, 'a>(tokens: &'t [Piece<'a>]) -> Result<(&'t Piece<'a>, &'t [Piece<'a>]), Stop>
    ensures { token_view result ≡ counted (count_at tokens.now) }
{
    let (_semicolon, rest) = token(&SEMICOLON, tokens)?;
    let (number, rest) = token(&NUMBER, rest)?;
    let (_bracket, rest) = token(&CLOSE_BRACKET, rest)?;
    Ok((number, rest))
}

/// `]` or `; N ]`
#[tactic(auto, unfolding(grammar_words::specs::Reading::made, grammar_words::specs::Reading::choose, crate::specs::Wrappers::array_end))]
fn close_array<'t, 'a>(alloc: Global, item: Named, tokens: &'t [Piece<'a>]) -> Read<'t, 'a, Named>
    ensures { IfOk result (λ read. read_view read ≡ counted (array_end item tokens.now)) }
{
    if starts(&CLOSE_BRACKET, tokens) {
        let (_bracket, rest) = match token(&CLOSE_BRACKET, tokens) {
            Ok(read) => read,
            Err(stop) => return Ok(Err(stop)),
        };
        let named = to_slice(alloc, item)?;
        Ok(Ok((named, rest)))
    } else {
        let (number, rest) = match count(tokens) {
            Ok(read) => read,
            Err(stop) => return Ok(Err(stop)),
        };
        let named = to_counted(alloc, item, number)?;
        Ok(Ok((named, rest)))
    }
}

/// What stands behind the inner type.
#[tactic(auto, unfolding(crate::specs::Wrappers::wrapper_end))]
pub fn close<'t, 'a>(
    alloc: Global,
    wrapper: Wrapper,
    inner: Named,
    tokens: &'t [Piece<'a>],
) -> Read<'t, 'a, Named>
    ensures { IfOk result (λ read. read_view read ≡ counted (wrapper_end wrapper inner tokens.now)) }
{
    match wrapper {
        Wrapper::Array => {
            let read = close_array(alloc, inner, tokens)?;
            Ok(read)
        }
        Wrapper::Ref(mutable) => {
            let named = to_ref(alloc, mutable, inner)?;
            Ok(Ok((named, tokens)))
        }
        Wrapper::Raw(mutable) => {
            let named = to_raw(alloc, mutable, inner)?;
            Ok(Ok((named, tokens)))
        }
    }
}

/// `+` and a lifetime, or nothing.
#[tactic(auto, unfolding(grammar_words::specs::Reading::made, grammar_words::specs::Reading::chained, grammar_words::specs::Reading::choose, crate::specs::Wrappers::bound))]
fn bound<'t, 'a>(tokens: &'t [Piece<'a>]) -> Result<(bool, &'t [Piece<'a>]), Stop>
    ensures { read_view result ≡ counted (bound tokens.now) }
{
    if starts(&PLUS, tokens) {
        let (_plus, rest) = token(&PLUS, tokens)?;
        let (_lifetime, rest) = token(&LIFETIME, rest)?;
        Ok((true, rest))
    } else {
        Ok((false, tokens))
    }
}

/// What stands behind the path of a dyn type.
#[tactic(auto, unfolding(grammar_words::specs::Reading::made, crate::specs::Wrappers::dyn_end))]
pub fn close_dyn<'t, 'a>(alloc: Global, path: Named, tokens: &'t [Piece<'a>]) -> Read<'t, 'a, Named>
    ensures { IfOk result (λ read. read_view read ≡ counted (dyn_end path tokens.now)) }
{
    let (_bound, rest) = match bound(tokens) {
        Ok(read) => read,
        Err(stop) => return Ok(Err(stop)),
    };
    let named = to_dyn(alloc, path)?;
    Ok(Ok((named, rest)))
}

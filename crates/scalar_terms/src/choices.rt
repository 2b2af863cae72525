ghost use Rattle.std.specs.Prelude.{◌≡◌, ◌<◌, ◌^◌, IfOk, OnOk, Some, length, nat_lt, true};
ghost use Rattle.sym_terms.specs.Terms.{value, width_of};
ghost use Rattle.value_terms.specs.Made.{IsFree, IsTest};
ghost use Rattle.scalar_runs.specs.Kinds.{is_scalar_value, is_value, width_of_kind};
ghost use Rattle.scalar_runs.specs.Run.{Chooses};
ghost use Rattle.scalar_form.specs.Typing.{agree, place_kind};
ghost use Rattle.scalar_terms.specs.Joins.{AreWays};
ghost use Rattle.scalar_terms.specs.Tests.{IsLed};
ghost use Rattle.scalar_terms.specs.Ways.{AreFailures, IsWay};

use crate::failures::Failure;
use crate::join::join;
use crate::steps::set_slot;
use crate::ways::Way;
use mir_ir::{Function, PlaceExpr};
use scalar_runs::ValueKind;
use std::alloc::Global;
use sym_terms::{Term, TermId, TermOp, Terms};
use value_terms::{Slot, bit, both, but_not, either, input};
use vk_core::{BlockId, NoMemory};
use word_bits::Word;

/// The number is less than the bound, which has 32 bits as it has.
fn is_below(terms: &mut Terms, number: TermId, bound: u32) -> Result<TermId, NoMemory>
    requires inside { number.0 < length terms.old }
    requires width { width_of terms.old number.0 ≡ 32 }
    ensures { IfOk result (λ id. IsTest terms.old terms.new id.0 (λ inputs. nat_lt (value terms.old inputs number.0).value bound)) }
{
    let word = Word {
        width: 32,
        value: bound as u128,
    };
    let limit = terms.insert(Term::Constant(word))?;
    let id = terms.insert(Term::Apply {
        op: TermOp::LessUnsigned,
        a: number,
        b: limit,
    })?;
    Ok(id)
}

/// The number is a Unicode scalar value.
fn is_scalar_value(terms: &mut Terms, number: TermId) -> Result<TermId, NoMemory>
    requires inside { number.0 < length terms.old }
    requires width { width_of terms.old number.0 ≡ 32 }
    ensures { IfOk result (λ id. IsTest terms.old terms.new id.0 (λ inputs. is_scalar_value (value terms.old inputs number.0).value)) }
{
    let low = is_below(terms, number, 0xD800)?;
    let not_high = is_below(terms, number, 0xE000)?;
    let inside = is_below(terms, number, 0x110000)?;
    let high = but_not(terms, inside, not_high)?;
    let id = either(terms, low, high)?;
    Ok(id)
}

/// The word is a value of the kind.
fn is_value(terms: &mut Terms, kind: ValueKind, word: TermId) -> Result<TermId, NoMemory>
    requires inside { word.0 < length terms.old }
    requires width { width_of terms.old word.0 ≡ width_of_kind kind }
    ensures { IfOk result (λ id. IsTest terms.old terms.new id.0 (λ inputs. is_value kind (value terms.old inputs word.0))) }
{
    let _known = terms.term(word);
    match kind {
        ValueKind::Char => {
            let id = is_scalar_value(terms, word)?;
            Ok(id)
        }
        _ => {
            let id = bit(terms, true)?;
            Ok(id)
        }
    }
}

/// Stores any value of the kind, the input with the block's number, and goes on at the next block.
pub fn choose_value(
    alloc: Global,
    terms: &mut Terms,
    function: &Function,
    failures: &Vec<Failure>,
    way: &mut Way,
    ways: &mut [Option<Way>],
    block: BlockId,
    index: u32,
    kind: ValueKind,
    destination: &PlaceExpr,
    next: BlockId,
) -> Result<(), NoMemory>
    requires inside { next.0 < length ways.old }
    requires free { IsFree terms.old block.0 }
    requires way { IsWay function.now terms.old way.old }
    requires ways { AreWays function.now terms.old ways.old }
    requires failures { AreFailures terms.old failures.now.items }
    requires form { agree (place_kind function.now destination.now) (Some kind) ≡ true }
    ensures { OnOk result (IsLed function.now terms.old terms.new way.old ways.old ways.new failures.now.items failures.now.items block.0 index (λ s. Chooses kind destination.now.local.0 next.0)) }
{
    let word = input(terms, block.0 as usize, kind.width())?;
    let valid = is_value(terms, kind, word)?;
    let guard = both(terms, way.guard, valid)?;
    let set = bit(terms, true)?;
    set_slot(&mut way.slots, destination.local, Slot { set, word });
    join(
        alloc,
        terms,
        function,
        ways,
        next,
        guard,
        way.slots.as_slice(),
    )?;
    Ok(())
}

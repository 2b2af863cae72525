ghost use Rattle.std.specs.Prelude.{◌≡◌, ◌<◌, IfOk, Some, false, true};
ghost use Rattle.sym_terms.specs.Ops.{is_binary};
ghost use Rattle.sym_terms.specs.Terms.{applied};
ghost use Rattle.scalar_runs.specs.Kinds.{width_of_kind};
ghost use Rattle.scalar_runs.specs.Operators.{binary_value, cast_value, neg_value, not_value, recast_value, unary_value};
ghost use Rattle.scalar_form.specs.Typing.{binary_kind, cast_kind, has_kind, neg_kind, not_kind, operand_kind, rvalue_kind};
ghost use Rattle.scalar_runs.specs.Values.{is_signed_operand, operand_value, rvalue_value};
ghost use Rattle.value_terms.specs.Rvalues.{IsRvalue};
ghost use Rattle.value_terms.specs.Slots.{AreSlots};

use crate::made::{apply, bit, both, cast};
use crate::operators::operator_terms;
use crate::slots::{Slot, read};
use mir_ir::{BinaryOp, CastKind, Function, Operand, Rvalue};
use scalar_runs::{ValueKind, is_signed_operand, kind_of};
use sym_terms::{TermId, TermOp, Terms};
use vk_core::NoMemory;

/// A rvalue by terms: whether its operands hold values, whether the operator has a value, and the value.
#[derive(Clone, Copy, Debug)]
pub struct ValueTerms {
    pub set: TermId,
    pub lawful: TermId,
    pub word: TermId,
}

fn use_terms(
    terms: &mut Terms,
    function: &Function,
    slots: &[Slot],
    operand: &Operand,
) -> Result<ValueTerms, NoMemory>
    requires slots { AreSlots function.now terms.old slots.now }
    requires kind { has_kind (operand_kind function.now operand.now) ≡ true }
    ensures { IfOk result (λ t. IsRvalue function.now terms.old terms.new slots.now (operand_kind function.now operand.now) (λ values. operand_value function.now values operand.now) t) }
{
    let slot = read(terms, function, slots, operand)?;
    let lawful = bit(terms, true)?;
    Ok(ValueTerms {
        set: slot.set,
        lawful,
        word: slot.word,
    })
}

/// `Not` and `Neg`.
fn unary_terms(
    terms: &mut Terms,
    function: &Function,
    slots: &[Slot],
    op: TermOp,
    operand: &Operand,
) -> Result<ValueTerms, NoMemory>
    requires slots { AreSlots function.now terms.old slots.now }
    requires kind { has_kind (operand_kind function.now operand.now) ≡ true }
    requires unary { (is_binary op ≡ false) }
    ensures { IfOk result (λ t. IsRvalue function.now terms.old terms.new slots.now (operand_kind function.now operand.now) (λ values. unary_value (λ w. applied op w w) (operand_value function.now values operand.now)) t) }
{
    let slot = read(terms, function, slots, operand)?;
    let _known = terms.term(slot.word);
    let lawful = bit(terms, true)?;
    let word = apply(terms, op, slot.word, slot.word)?;
    Ok(ValueTerms {
        set: slot.set,
        lawful,
        word,
    })
}

fn not_terms(
    terms: &mut Terms,
    function: &Function,
    slots: &[Slot],
    operand: &Operand,
) -> Result<ValueTerms, NoMemory>
    requires slots { AreSlots function.now terms.old slots.now }
    requires kind { has_kind (not_kind (operand_kind function.now operand.now)) ≡ true }
    ensures { IfOk result (λ t. IsRvalue function.now terms.old terms.new slots.now (not_kind (operand_kind function.now operand.now)) (λ values. not_value (operand_value function.now values operand.now)) t) }
{
    let t = unary_terms(terms, function, slots, TermOp::Not, operand)?;
    Ok(t)
}

fn neg_terms(
    terms: &mut Terms,
    function: &Function,
    slots: &[Slot],
    operand: &Operand,
) -> Result<ValueTerms, NoMemory>
    requires slots { AreSlots function.now terms.old slots.now }
    requires kind { has_kind (neg_kind (operand_kind function.now operand.now)) ≡ true }
    ensures { IfOk result (λ t. IsRvalue function.now terms.old terms.new slots.now (neg_kind (operand_kind function.now operand.now)) (λ values. neg_value (operand_value function.now values operand.now)) t) }
{
    let t = unary_terms(terms, function, slots, TermOp::Neg, operand)?;
    Ok(t)
}

fn cast_to(
    terms: &mut Terms,
    function: &Function,
    slots: &[Slot],
    operand: &Operand,
    cast: CastKind,
    target: Option<ValueKind>,
) -> Result<ValueTerms, NoMemory>
    requires slots { AreSlots function.now terms.old slots.now }
    requires kind { has_kind (cast_kind cast (operand_kind function.now operand.now) target) ≡ true }
    ensures { IfOk result (λ t. IsRvalue function.now terms.old terms.new slots.now (cast_kind cast (operand_kind function.now operand.now) target) (λ values. cast_value cast (is_signed_operand function.now operand.now) target (operand_value function.now values operand.now)) t) }
{
    match cast {
        CastKind::IntToInt => match target {
            None => unreachable!(),
            Some(kind) => {
                let signed = is_signed_operand(function, operand);
                let t = cast_terms(terms, function, slots, operand, signed, kind)?;
                Ok(t)
            }
        },
        _ => unreachable!(),
    }
}

fn cast_terms(
    terms: &mut Terms,
    function: &Function,
    slots: &[Slot],
    operand: &Operand,
    signed: bool,
    target: ValueKind,
) -> Result<ValueTerms, NoMemory>
    requires slots { AreSlots function.now terms.old slots.now }
    requires kind { has_kind (operand_kind function.now operand.now) ≡ true }
    ensures { IfOk result (λ t. IsRvalue function.now terms.old terms.new slots.now (Some target) (λ values. recast_value signed (Some target) (operand_value function.now values operand.now)) t) }
{
    let slot = read(terms, function, slots, operand)?;
    let _known = terms.term(slot.word);
    let lawful = bit(terms, true)?;
    let word = cast(terms, slot.word, signed, target.width())?;
    Ok(ValueTerms {
        set: slot.set,
        lawful,
        word,
    })
}

fn binary_terms(
    terms: &mut Terms,
    function: &Function,
    slots: &[Slot],
    op: BinaryOp,
    a: &Operand,
    b: &Operand,
) -> Result<ValueTerms, NoMemory>
    requires slots { AreSlots function.now terms.old slots.now }
    requires kind { has_kind (binary_kind op (operand_kind function.now a.now) (operand_kind function.now b.now)) ≡ true }
    ensures { IfOk result (λ t. IsRvalue function.now terms.old terms.new slots.now (binary_kind op (operand_kind function.now a.now) (operand_kind function.now b.now)) (λ values. binary_value op (is_signed_operand function.now a.now) (operand_value function.now values a.now) (operand_value function.now values b.now)) t) }
{
    let first = read(terms, function, slots, a)?;
    let second = read(terms, function, slots, b)?;
    let set = both(terms, first.set, second.set)?;
    let result = operator_terms(
        terms,
        op,
        is_signed_operand(function, a),
        first.word,
        second.word,
    )?;
    Ok(ValueTerms {
        set,
        lawful: result.lawful,
        word: result.word,
    })
}

/// The value of a rvalue.
pub fn rvalue_terms(
    terms: &mut Terms,
    function: &Function,
    slots: &[Slot],
    value: &Rvalue,
) -> Result<ValueTerms, NoMemory>
    requires slots { AreSlots function.now terms.old slots.now }
    requires kind { has_kind (rvalue_kind function.now value.now) ≡ true }
    ensures { IfOk result (λ t. IsRvalue function.now terms.old terms.new slots.now (rvalue_kind function.now value.now) (λ values. rvalue_value function.now values value.now) t) }
{
    match value {
        Rvalue::Use(operand) => {
            let t = use_terms(terms, function, slots, operand)?;
            Ok(t)
        }
        Rvalue::Cast { operand, ty, kind } => {
            let t = cast_to(terms, function, slots, operand, *kind, kind_of(ty))?;
            Ok(t)
        }
        Rvalue::Binary { op, a, b } => {
            let t = binary_terms(terms, function, slots, *op, a, b)?;
            Ok(t)
        }
        Rvalue::Not(operand) => {
            let t = not_terms(terms, function, slots, operand)?;
            Ok(t)
        }
        Rvalue::Neg(operand) => {
            let t = neg_terms(terms, function, slots, operand)?;
            Ok(t)
        }
        _ => unreachable!(),
    }
}

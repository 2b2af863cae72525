ghost use Rattle.std.specs.Prelude.{◌≡◌, ◌+◌, ◌*◌, ◌++◌, ◌∷◌, [], ◌<◌, ◌^◌, ℕ, Bool, IfOk, OnOk, length, vec_len};
ghost use Rattle.region_pool.specs.Literals.{negation};
ghost use Rattle.region_pool.specs.Clauses.{ClauseList, AreLiterals, HasLiterals};
ghost use Rattle.bit_gates.specs.Values.{AreInOrder, IsGateOf};
ghost use Rattle.clause_form.specs.Form.{gate_clauses, clauses_of, asserted, IsClauseForm, HasOneExtension};

use bit_gates::{Gate, Gates, negation};
use region_pool::Clauses;
use std::alloc::Global;
use vk_core::NoMemory;

/// The literal of the other sign, which is of the same variable.
fn opposite(literal: u64) -> u64
    ensures value { result ≡ negation literal }
    ensures inside { (count : ℕ) → literal < 2 * count → result < 2 * count }
{
    negation(literal)
}

fn add_one(list: &mut Clauses, a: u64) -> Result<(), NoMemory>
    requires { a < 2 * list.old.variables }
    ensures variables { list.new.variables ≡ list.old.variables }
    ensures ok { OnOk result (list.new.clauses ≡ list.old.clauses ++ (a ∷ []) ∷ []) }
{
    Ok(list.add(&[a])?)
}

fn add_two(list: &mut Clauses, a: u64, b: u64) -> Result<(), NoMemory>
    requires a_inside { a < 2 * list.old.variables }
    requires b_inside { b < 2 * list.old.variables }
    ensures variables { list.new.variables ≡ list.old.variables }
    ensures ok { OnOk result (list.new.clauses ≡ list.old.clauses ++ (a ∷ b ∷ []) ∷ []) }
{
    Ok(list.add(&[a, b])?)
}

fn add_three(list: &mut Clauses, a: u64, b: u64, c: u64) -> Result<(), NoMemory>
    requires a_inside { a < 2 * list.old.variables }
    requires b_inside { b < 2 * list.old.variables }
    requires c_inside { c < 2 * list.old.variables }
    ensures variables { list.new.variables ≡ list.old.variables }
    ensures ok { OnOk result (list.new.clauses ≡ list.old.clauses ++ (a ∷ b ∷ c ∷ []) ∷ []) }
{
    Ok(list.add(&[a, b, c])?)
}

/// The variable is a conjunction.
#[tactic(auto, using(crate::proofs::ListLaws::three_added))]
fn add_and(list: &mut Clauses, x: u64, a: u64, b: u64) -> Result<(), NoMemory>
    requires x_inside { x < list.old.variables }
    requires few { list.old.variables < 2 ^ 60 }
    requires a_inside { a < 2 * list.old.variables }
    requires b_inside { b < 2 * list.old.variables }
    ensures variables { list.new.variables ≡ list.old.variables }
    ensures ok { OnOk result (list.new.clauses ≡ list.old.clauses ++ gate_clauses x (Gate.And a b)) }
{
    let yes = 2 * x;
    let no = 2 * x + 1;
    add_two(list, no, a)?;
    add_two(list, no, b)?;
    Ok(add_three(list, yes, opposite(a), opposite(b))?)
}

/// The variable is one of the two alone.
#[tactic(auto, using(crate::proofs::ListLaws::four_added))]
fn add_xor(list: &mut Clauses, x: u64, a: u64, b: u64) -> Result<(), NoMemory>
    requires x_inside { x < list.old.variables }
    requires few { list.old.variables < 2 ^ 60 }
    requires a_inside { a < 2 * list.old.variables }
    requires b_inside { b < 2 * list.old.variables }
    ensures variables { list.new.variables ≡ list.old.variables }
    ensures ok { OnOk result (list.new.clauses ≡ list.old.clauses ++ gate_clauses x (Gate.Xor a b)) }
{
    let yes = 2 * x;
    let no = 2 * x + 1;
    add_three(list, no, a, b)?;
    add_three(list, no, opposite(a), opposite(b))?;
    add_three(list, yes, opposite(a), b)?;
    Ok(add_three(list, yes, a, opposite(b))?)
}

/// The variable is a choice.
#[tactic(auto, using(crate::proofs::ListLaws::four_added))]
fn add_choose(list: &mut Clauses, x: u64, test: u64, a: u64, b: u64) -> Result<(), NoMemory>
    requires x_inside { x < list.old.variables }
    requires few { list.old.variables < 2 ^ 60 }
    requires test_inside { test < 2 * list.old.variables }
    requires a_inside { a < 2 * list.old.variables }
    requires b_inside { b < 2 * list.old.variables }
    ensures variables { list.new.variables ≡ list.old.variables }
    ensures ok { OnOk result (list.new.clauses ≡ list.old.clauses ++ gate_clauses x (Gate.Choose test a b)) }
{
    let yes = 2 * x;
    let no = 2 * x + 1;
    add_three(list, no, opposite(test), a)?;
    add_three(list, no, test, b)?;
    add_three(list, yes, opposite(test), opposite(a))?;
    Ok(add_three(list, yes, test, opposite(b))?)
}

/// The variable is the gate.
fn add_gate(list: &mut Clauses, x: u64, gate: Gate) -> Result<(), NoMemory>
    requires x_inside { x < list.old.variables }
    requires few { list.old.variables < 2 ^ 60 }
    requires reads_inside { IsGateOf list.old.variables gate }
    ensures variables { list.new.variables ≡ list.old.variables }
    ensures ok { OnOk result (list.new.clauses ≡ list.old.clauses ++ gate_clauses x gate) }
{
    match gate {
        Gate::True => Ok(add_one(list, 2 * x)?),
        Gate::And { a, b } => Ok(add_and(list, x, a, b)?),
        Gate::Xor { a, b } => Ok(add_xor(list, x, a, b)?),
        Gate::Choose { test, a, b } => Ok(add_choose(list, x, test, a, b)?),
    }
}

/// The clauses of all gates, which are the variables from `inputs` on.
fn add_gates(list: &mut Clauses, inputs: usize, gates: &[Gate]) -> Result<(), NoMemory>
    requires variables { list.old.variables ≡ inputs + length gates.now }
    requires few { list.old.variables < 2 ^ 60 }
    requires in_order { AreInOrder inputs gates.now }
    ensures variables { list.new.variables ≡ list.old.variables }
    ensures ok { OnOk result (list.new.clauses ≡ list.old.clauses ++ clauses_of inputs gates.now) }
{
    for k in 0..gates.len() {
        let gate = gates[k];
        add_gate(list, (inputs + k) as u64, gate)?;
    }
    Ok(())
}

/// A clause for each literal.
fn assert_all(list: &mut Clauses, literals: &[u64]) -> Result<(), NoMemory>
    requires { AreLiterals list.old.variables literals.now }
    ensures variables { list.new.variables ≡ list.old.variables }
    ensures ok { OnOk result (list.new.clauses ≡ list.old.clauses ++ asserted literals.now) }
{
    for k in 0..literals.len() {
        add_one(list, literals[k])?;
    }
    Ok(())
}

/// The clauses of the gates, over their variables, and one for each of the roots, which are literals of these
/// variables and are asserted.
pub fn clauses(alloc: Global, gates: &Gates, roots: &[u64]) -> Result<Clauses, NoMemory>
    requires few { vec_len gates.now.inputs + vec_len gates.now.gates < 2 ^ 60 }
    requires in_order { AreInOrder (vec_len gates.now.inputs) gates.now.gates.items }
    requires roots { AreLiterals (vec_len gates.now.inputs + vec_len gates.now.gates) roots.now }
    ensures form { IfOk result (λ list. IsClauseForm (vec_len gates.now.inputs) gates.now.gates.items roots.now list) }
    ensures one_way { (bits : ℕ → Bool) → HasOneExtension (vec_len gates.now.inputs) gates.now.gates.items bits }
{
    let inputs = gates.inputs.len();
    let mut list = Clauses::new(alloc, inputs + gates.gates.len());
    add_gates(&mut list, inputs, gates.gates.as_slice())?;
    assert_all(&mut list, roots)?;
    let _variables = list.variables();
    Ok(list)
}

ghost use Rattle.std.specs.Prelude.{◌≡◌, ◌+◌, ◌*◌, ◌^◌, ◌<◌, ◌≤◌, ℕ, Bool, true, false, not, ◌&&◌, ◌||◌, IfOk, OnOk, IfSome, slice_get, Some, if◌then◌else◌, length};
ghost use Rattle.bit_gates.specs.Values.{IsGateOf, gate_value, differ, AreInOrder};
ghost use Rattle.bit_gates.specs.Circuit.{Circuit, constant_circuit, size, value};
ghost use Rattle.bit_gates.specs.Folding.{IsFoldedOf, folded_value};
ghost use Rattle.bit_gates.specs.Made.{IsMade, Extends, IsConstant, IsInputBit};

use crate::fold::{Folded, fold_and, fold_choose, fold_or, fold_xor};
use crate::gate::{Gate, negation, signed};
use crate::table::{Spot, TRIES, Table};
use std::alloc::Global;
use std::marker::Model;
use vk_core::NoMemory;

/// No circuit has this many variables.
const LIMIT: usize = 1 << 60;

/// A circuit that grows. Equal gates are shared as far as its table knows them.
#[derive(Drop)]
pub struct Net {
    inputs: usize,
    gates: Vec<Gate>,
    table: Table,
}

impl Model for Net {
    ghost use Rattle.bit_gates.specs.Circuit.{Circuit};
    ghost use Rattle.bit_gates.specs.Inside.{circuit_of, IsKept};

    ghost Value = { Circuit };

    ghost view = { circuit_of };

    ghost invariant = { IsKept };
}

impl Net {
    /// A circuit of so many input bits and of no gates but the constant.
    pub fn new(alloc: Global, inputs: usize) -> Result<Net, NoMemory>
        ensures { IfOk result (λ net. net ≡ constant_circuit inputs) }
    {
        if inputs >= LIMIT - 1 {
            return Err(NoMemory);
        }
        let mut gates = Vec::new(alloc);
        gates.push(Gate::True)?;
        Ok(Net {
            inputs,
            gates,
            table: Table::new(alloc),
        })
    }

    /// How many input bits there are.
    pub fn inputs(&self) -> usize
        ensures { result ≡ self.now.inputs }
    {
        self.inputs
    }

    /// The gates, of which the first is the constant and each reads variables before it alone.
    pub fn gates(&self) -> &[Gate]
        ensures gates { result.now ≡ self.now.gates }
        ensures first { slice_get self.now.gates 0 ≡ Some Gate.True }
        ensures in_order { AreInOrder self.now.inputs self.now.gates }
        ensures few { size self.now < 2 ^ 60 }
    {
        self.gates.as_slice()
    }

    /// The gates, without the rest of the circuit.
    pub fn into_gates(self) -> Vec<Gate>
        ensures gates { result.items ≡ self.gates }
        ensures first { slice_get self.gates 0 ≡ Some Gate.True }
        ensures in_order { AreInOrder self.inputs self.gates }
        ensures few { size self < 2 ^ 60 }
    {
        let Net {
            inputs: _,
            gates,
            table: _table,
        } = self;
        gates
    }

    /// The literal of the constant.
    pub fn truth(&self) -> u64
        ensures { IsConstant self.now result true }
    {
        2 * self.inputs as u64
    }

    /// The literal of an input bit.
    pub fn input(&self, bit: usize) -> u64
        requires { bit < self.now.inputs }
        ensures { IsInputBit self.now result bit }
    {
        prove!(bit < self.inputs);
        2 * bit as u64
    }

    /// The literal of a truth value.
    pub fn constant(&self, bit: bool) -> u64
        ensures { IsConstant self.now result bit }
    {
        signed(self.truth(), !bit)
    }

    /// Adds a gate, and answers the literal of its variable.
    fn push(&mut self, gate: Gate) -> Result<u64, NoMemory>
        requires { IsGateOf (size self.old) gate }
        ensures { IfOk result (λ literal. IsMade self.old self.new literal (λ v. gate_value v gate)) }
    {
        let variable = self.inputs + self.gates.len();
        if variable + 1 >= LIMIT {
            return Err(NoMemory);
        }
        self.gates.push(gate)?;
        Ok(2 * variable as u64)
    }

    /// The literal of the gate with this number, if it is an equal one.
    fn literal_at(&self, at: usize, gate: Gate) -> Option<u64>
        ensures { IfSome result (λ literal. IsMade self.now self.now literal (λ v. gate_value v gate)) }
    {
        if at < self.gates.len() {
            let other = self.gates[at];
            if other == gate {
                return Some(2 * (self.inputs + at) as u64);
            }
        }
        None
    }

    /// The literal of an equal gate that is there.
    fn find(&self, gate: Gate, spot: Spot) -> Option<u64>
        ensures { IfSome result (λ literal. IsMade self.now self.now literal (λ v. gate_value v gate)) }
    {
        for step in 0..TRIES {
            let at = self.table.candidate(spot, step)?;
            if let Some(literal) = self.literal_at(at, gate) {
                return Some(literal);
            }
        }
        None
    }

    /// Remembers the last gate in the table.
    fn note_last(&mut self, spot: Spot) -> Result<(), NoMemory>
        ensures { self.new ≡ self.old }
    {
        let count = self.gates.len();
        if count > 0 {
            self.table.note(spot, count - 1)?;
        }
        Ok(())
    }

    /// The literal of a gate, which is made if no equal one is found.
    fn make(&mut self, gate: Gate) -> Result<u64, NoMemory>
        requires { IsGateOf (size self.old) gate }
        ensures { IfOk result (λ literal. IsMade self.old self.new literal (λ v. gate_value v gate)) }
    {
        let spot = Spot::of(&gate);
        if let Some(literal) = self.find(gate, spot) {
            return Ok(literal);
        }
        let literal = self.push(gate)?;
        self.note_last(spot)?;
        Ok(literal)
    }

    fn make_folded(&mut self, folded: Folded) -> Result<u64, NoMemory>
        requires { IsFoldedOf (size self.old) folded }
        ensures { IfOk result (λ literal. IsMade self.old self.new literal (λ v. folded_value v folded)) }
    {
        match folded {
            Folded::Known(literal) => Ok(literal),
            Folded::Fresh { gate, negated } => {
                let literal = self.make(gate)?;
                Ok(signed(literal, negated))
            }
        }
    }

    /// The literal that is true where both are.
    pub fn and(&mut self, a: u64, b: u64) -> Result<u64, NoMemory>
        requires a_inside { a < 2 * size self.old }
        requires b_inside { b < 2 * size self.old }
        ensures { IfOk result (λ literal. IsMade self.old self.new literal (λ v. v a && v b)) }
    {
        let folded = fold_and(self.truth(), a, b);
        Ok(self.make_folded(folded)?)
    }

    /// The literal that is true where one of the two is, or both.
    pub fn or(&mut self, a: u64, b: u64) -> Result<u64, NoMemory>
        requires a_inside { a < 2 * size self.old }
        requires b_inside { b < 2 * size self.old }
        ensures { IfOk result (λ literal. IsMade self.old self.new literal (λ v. v a || v b)) }
    {
        let folded = fold_or(self.truth(), a, b);
        Ok(self.make_folded(folded)?)
    }

    /// The literal that is true where one of the two alone is.
    pub fn xor(&mut self, a: u64, b: u64) -> Result<u64, NoMemory>
        requires a_inside { a < 2 * size self.old }
        requires b_inside { b < 2 * size self.old }
        ensures { IfOk result (λ literal. IsMade self.old self.new literal (λ v. differ (v a) (v b))) }
    {
        let folded = fold_xor(self.truth(), a, b);
        Ok(self.make_folded(folded)?)
    }

    /// The literal that is `a` where `test` is true, and else `b`.
    pub fn choose(&mut self, test: u64, a: u64, b: u64) -> Result<u64, NoMemory>
        requires test_inside { test < 2 * size self.old }
        requires a_inside { a < 2 * size self.old }
        requires b_inside { b < 2 * size self.old }
        ensures { IfOk result (λ literal. IsMade self.old self.new literal (λ v. if v test then v a else v b)) }
    {
        let folded = fold_choose(self.truth(), test, a, b);
        Ok(self.make_folded(folded)?)
    }
}

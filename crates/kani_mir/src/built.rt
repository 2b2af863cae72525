ghost use Rattle.std.specs.Prelude.{◌≡◌, ◌↔◌, IsTrue};
ghost use Rattle.std.specs.List.{list_all};
ghost use Rattle.scalar_form.specs.Form.{is_scalar};
ghost use Rattle.kani_mir.specs.Units.{HasHarnessesAlone, IsBuilt, is_harness};

use mir_ir::{Declarations, Function, Unit, UnitKind};
use mir_program::Program;
use scalar_form::is_scalar;

fn is_harness(unit: &Unit) -> bool
    ensures { result ≡ is_harness unit.now }
{
    match unit.kind {
        UnitKind::Proof => unit.stubs.is_empty(),
        UnitKind::Contract => false,
    }
}

fn are_harnesses(units: &[Unit]) -> bool
    ensures { result ≡ list_all is_harness units.now }
{
    let mut left = units;
    while let [unit, rest @ ..] = left {
        if !is_harness(unit) {
            return false;
        }
        left = rest;
    }
    true
}

fn has_harnesses_alone(declarations: &Declarations) -> bool
    ensures { IsTrue result ↔ HasHarnessesAlone declarations.now }
{
    declarations.types.is_empty()
        && declarations.traits.is_empty()
        && declarations.vtables.is_empty()
        && declarations.constants.is_empty()
        && declarations.aliases.is_empty()
        && declarations.contracts.is_empty()
        && declarations.loops.is_empty()
        && are_harnesses(declarations.units.as_slice())
}

fn are_scalar(functions: &[Function]) -> bool
    ensures { result ≡ list_all is_scalar functions.now }
{
    let mut left = functions;
    while let [function, rest @ ..] = left {
        if !is_scalar(function) {
            return false;
        }
        left = rest;
    }
    true
}

/// Whether the program is of the form that is built so far.
pub fn is_built(program: &Program) -> bool
    ensures { IsTrue result ↔ IsBuilt program.now }
{
    has_harnesses_alone(program.declarations()) && are_scalar(program.functions())
}

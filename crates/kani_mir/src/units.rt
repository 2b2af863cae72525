ghost use Rattle.std.specs.Prelude.{◌≡◌, ◌≤◌, All, IfOk, IsSome, true};
ghost use Rattle.std.specs.List.{list_all};
ghost use Rattle.scalar_form.specs.Form.{is_scalar};
ghost use Rattle.type_rules.specs.Lookup.{function_named};
ghost use Rattle.typed_program.specs.WellTyped.{IsWellTyped};
ghost use Rattle.kani_mir.specs.Told.{IsKnown};
ghost use Rattle.kani_mir.specs.Units.{AreReports, IsBuilt, IsReportOf};

use mir_ir::{Function, Unit};
use mir_program::Program;
use name_tables::Table;
use sat_core::Effort;
use scalar_verdicts::verify_scalar;
use sqlite_items::Items;
use std::alloc::Global;
use unit_reports::UnitReport;
use vk_core::{Name, NoMemory};

/// The command sets no budget for the solver.
const NO_BUDGET: u64 = 0xFFFF_FFFF_FFFF_FFFF;

fn report_of<'a>(
    alloc: Global,
    functions: &Table<'a, Function>,
    unit: &Unit,
    effort: &mut Effort,
) -> Result<UnitReport, NoMemory>
    requires known { IsKnown functions.now unit.now }
    requires forms { list_all is_scalar functions.now ≡ true }
    ensures report { IfOk result (IsReportOf functions.now unit.now) }
    ensures later { effort.old ≤ effort.new }
{
    let Some(function) = functions.find(unit.name.as_bytes()) else {
        unreachable!();
    };
    let harness = Name::from_bytes(alloc, unit.name.as_bytes())?;
    let statuses = verify_scalar(alloc, function, NO_BUDGET, effort)?;
    Ok(UnitReport { harness, statuses })
}

fn reports_on<'a>(
    alloc: Global,
    functions: &Table<'a, Function>,
    units: &[Unit],
    effort: &mut Effort,
) -> Result<Items<UnitReport>, NoMemory>
    requires known { All (IsKnown functions.now) units.now }
    requires forms { list_all is_scalar functions.now ≡ true }
    ensures reports { IfOk result (AreReports functions.now units.now) }
    ensures later { effort.old ≤ effort.new }
{
    let mut reports = Items::new(alloc);
    let mut left = units;
    while let [unit, rest @ ..] = left {
        let report = report_of(alloc, functions, unit, effort)?;
        reports.push(report)?;
        left = rest;
    }
    Ok(reports)
}

/// The reports on the units of a program, in their order.
pub fn reports_of(
    alloc: Global,
    program: &Program,
    effort: &mut Effort,
) -> Result<Items<UnitReport>, NoMemory>
    requires typed { IsWellTyped program.now }
    requires built { IsBuilt program.now }
    ensures reports { IfOk result (AreReports program.now.functions program.now.declarations.units) }
    ensures later { effort.old ≤ effort.new }
{
    let functions = Table::new(alloc, program.functions())?;
    let reports = reports_on(
        alloc,
        &functions,
        program.declarations().units.as_slice(),
        effort,
    )?;
    Ok(reports)
}

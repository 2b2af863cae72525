ghost use Rattle.std.specs.Prelude.{◌≡◌, ◌++◌, IfOk, OnOk};
ghost use Rattle.unit_reports.specs.Report.{complete_line, harness_line, report_of, unit_lines, units_lines, verdict_line};

use crate::lines::push_statuses;
use crate::pushes::{push_decimal, push_name, push_text};
use crate::status::UnitReport;
use crate::verdict::{Verdict, count_of_verdict, verdict_of};
use std::alloc::Global;
use vk_core::{Name, NoMemory};

/// The text of a run of the verifier: the lines of each unit, in their order, and the line that counts them.
pub fn report_text(alloc: Global, reports: &[UnitReport]) -> Result<Vec<u8>, NoMemory>
    ensures { IfOk result (λ bytes. bytes.items ≡ report_of reports.now) }
{
    let mut out = Vec::new(alloc);
    push_units(&mut out, reports)?;
    push_complete(&mut out, reports)?;
    Ok(out)
}

fn push_units(out: &mut Vec<u8>, reports: &[UnitReport]) -> Result<(), NoMemory>
    ensures { OnOk result (out.new.items ≡ out.old.items ++ units_lines reports.now) }
{
    for report in reports {
        push_unit(out, report)?;
    }
    Ok(())
}

fn push_unit(out: &mut Vec<u8>, report: &UnitReport) -> Result<(), NoMemory>
    ensures { OnOk result (out.new.items ≡ out.old.items ++ unit_lines report.now) }
{
    let statuses = report.statuses.as_slice();
    push_harness(out, &report.harness)?;
    push_statuses(out, &report.harness, statuses)?;
    push_verdict(out, verdict_of(statuses))?;
    Ok(())
}

fn push_harness(out: &mut Vec<u8>, harness: &Name) -> Result<(), NoMemory>
    ensures { OnOk result (out.new.items ≡ out.old.items ++ harness_line harness.now) }
{
    push_text(out, "Checking harness ")?;
    push_name(out, harness)?;
    push_text(out, "...\n")?;
    Ok(())
}

#[tactic(auto, unfolding(crate::specs::Report::verdict_line))]
fn push_verdict(out: &mut Vec<u8>, verdict: Verdict) -> Result<(), NoMemory>
    ensures { OnOk result (out.new.items ≡ out.old.items ++ verdict_line verdict) }
{
    match verdict {
        Verdict::Successful => push_text(out, "VERIFICATION:- SUCCESSFUL\n")?,
        Verdict::Failed => push_text(out, "VERIFICATION:- FAILED\n")?,
        Verdict::Undetermined => push_text(out, "VERIFICATION:- UNDETERMINED\n")?,
    }
    Ok(())
}

fn push_complete(out: &mut Vec<u8>, reports: &[UnitReport]) -> Result<(), NoMemory>
    ensures { OnOk result (out.new.items ≡ out.old.items ++ complete_line reports.now) }
{
    let successful = count_of_verdict(Verdict::Successful, reports);
    let failed = count_of_verdict(Verdict::Failed, reports);
    let undetermined = count_of_verdict(Verdict::Undetermined, reports);
    push_text(out, "Complete - ")?;
    push_decimal(out, successful as u128)?;
    push_text(out, " successful, ")?;
    push_decimal(out, failed as u128)?;
    push_text(out, " failed, ")?;
    push_decimal(out, undetermined as u128)?;
    push_text(out, " undetermined, 0 refused, ")?;
    push_decimal(out, reports.len() as u128)?;
    push_text(out, " total.\n")?;
    Ok(())
}

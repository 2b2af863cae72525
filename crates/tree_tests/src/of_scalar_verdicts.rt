use crate::of_scalar_form::returning;
use crate::of_scalar_terms::quotient;
use mir_ir::Function;
use sat_core::Effort;
use scalar_form::is_scalar;
use scalar_verdicts::verify_scalar;
use std::alloc::Global;
use std::test::Fail;
use unit_reports::{CheckStatus, UnitReport, report_text};
use vk_core::{Name, NoMemory};

const SUCCESSFUL: &[u8] =
    b"Checking harness check...\nVERIFICATION:- SUCCESSFUL\nComplete - 1 successful, 0 failed, 0 undetermined, 0 refused, 1 total.\n";

const FAILED: &[u8] =
    b"Checking harness check...\nCheck division at check bb1[0]: FAILURE \"division\"\n  choices: 0\n  steps: 2\nVERIFICATION:- FAILED\nComplete - 0 successful, 1 failed, 0 undetermined, 0 refused, 1 total.\n";

const NONE: &[u8] = b"Complete - 0 successful, 0 failed, 0 undetermined, 0 refused, 0 total.\n";

/// The statuses of a function with no limit; none where it is not of the form.
fn statuses_of(alloc: Global, function: Function) -> Result<Vec<CheckStatus>, NoMemory> {
    if is_scalar(&function) {
        let statuses = verify_scalar(alloc, &function, u64::MAX, &mut Effort::new())?;
        Ok(statuses)
    } else {
        Ok(Vec::new(alloc))
    }
}

/// The report of one unit with these statuses.
fn report_of(alloc: Global, statuses: Vec<CheckStatus>) -> Result<Vec<u8>, NoMemory> {
    let harness = Name::from_bytes(alloc, b"check")?;
    let mut reports = Vec::new(alloc);
    reports.push(UnitReport { harness, statuses })?;
    let text = report_text(alloc, reports.as_slice())?;
    Ok(text)
}

#[test]
fn a_return_is_successful(rt: HostRuntime) -> Result<(), Fail> {
    let alloc = rt.alloc();
    let statuses = statuses_of(alloc, returning(alloc)?)?;
    assert_eq!(rt; statuses.len(), 3);
    let text = report_of(alloc, statuses)?;
    assert_eq!(rt; text.as_slice(), SUCCESSFUL);
    Ok(())
}

#[test]
fn a_quotient_fails_at_the_divisor_0(rt: HostRuntime) -> Result<(), Fail> {
    let alloc = rt.alloc();
    let statuses = statuses_of(alloc, quotient(alloc, 0)?)?;
    let text = report_of(alloc, statuses)?;
    assert_eq!(rt; text.as_slice(), FAILED);
    Ok(())
}

#[test]
fn a_report_of_no_units(rt: HostRuntime) -> Result<(), Fail> {
    let text = report_text(rt.alloc(), &[])?;
    assert_eq!(rt; text.as_slice(), NONE);
    Ok(())
}

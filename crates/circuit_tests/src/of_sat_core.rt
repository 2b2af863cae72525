use region_pool::Clauses;
use sat_core::{Effort, SatAnswer, solve};
use std::alloc::Global;
use std::test::Fail;
use vk_core::NoMemory;

// Each clause over x (literals 0 and 1) and y (2 and 3) that has a literal of both: no values satisfy them.
fn four(alloc: Global) -> Result<Clauses, NoMemory> {
    let mut clauses = Clauses::new(alloc, 2);
    clauses.add([0, 2].as_slice())?;
    clauses.add([0, 3].as_slice())?;
    clauses.add([1, 2].as_slice())?;
    clauses.add([1, 3].as_slice())?;
    Ok(clauses)
}

#[test]
fn repeated_and_opposed_literals_of_a_clause_count_once(rt: HostRuntime) -> Result<(), Fail> {
    let mut clauses = Clauses::new(rt.alloc(), 3);
    clauses.add([0, 0, 2].as_slice())?;
    clauses.add([1, 1].as_slice())?;
    clauses.add([2, 3].as_slice())?;
    clauses.add([4, 3, 3].as_slice())?;
    let mut effort = Effort::new();
    let SatAnswer::Sat(values) = solve(rt.alloc(), &clauses, 9, &mut effort)? else {
        return Err("satisfiable".into());
    };
    assert_eq!(rt; values.as_slice(), [false, true, true].as_slice());
    assert_eq!(rt; effort.spent(), 0);
    Ok(())
}

#[test]
fn no_clauses_are_satisfied(rt: HostRuntime) -> Result<(), Fail> {
    let clauses = Clauses::new(rt.alloc(), 2);
    let SatAnswer::Sat(values) = solve(rt.alloc(), &clauses, 0, &mut Effort::new())? else {
        return Err("satisfiable".into());
    };
    assert_eq!(rt; values.len(), 2);
    Ok(())
}

#[test]
fn an_empty_clause_is_refuted_by_itself(rt: HostRuntime) -> Result<(), Fail> {
    let mut clauses = Clauses::new(rt.alloc(), 1);
    clauses.add([0].as_slice())?;
    clauses.add([].as_slice())?;
    let SatAnswer::Unsat(log) = solve(rt.alloc(), &clauses, 0, &mut Effort::new())? else {
        return Err("unsatisfiable".into());
    };
    assert_eq!(rt; log.len(), 1);
    assert_eq!(rt; log.literals(0), [].as_slice());
    assert_eq!(rt; log.hints(0), [1].as_slice());
    Ok(())
}

#[test]
fn a_budget_of_no_lines_is_spent_at_the_first_decision(rt: HostRuntime) -> Result<(), Fail> {
    let clauses = four(rt.alloc())?;
    let mut effort = Effort::new();
    let SatAnswer::Spent(log) = solve(rt.alloc(), &clauses, 0, &mut effort)? else {
        return Err("spent".into());
    };
    assert_eq!(rt; log.len(), 0);
    assert_eq!(rt; effort.spent(), 0);
    Ok(())
}

#[test]
fn the_empty_line_is_not_counted(rt: HostRuntime) -> Result<(), Fail> {
    let clauses = four(rt.alloc())?;
    let mut effort = Effort::new();
    let SatAnswer::Unsat(log) = solve(rt.alloc(), &clauses, 1, &mut effort)? else {
        return Err("unsatisfiable".into());
    };
    assert_eq!(rt; log.len(), 2);
    assert_eq!(rt; effort.spent(), 0);
    Ok(())
}

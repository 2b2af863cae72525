use crate::dimacs::read_dimacs;
use refute_check::{Verdict, accept};
use sat_core::{Effort, SatAnswer, solve};
use std::test::Fail;

// Four pigeons and three holes: each pigeon sits in a hole, and no two in one.
const PIGEONS: &str = "\
p cnf 12 22\n\
1 2 3 0\n\
4 5 6 0\n\
7 8 9 0\n\
10 11 12 0\n\
-1 -4 0\n\
-1 -7 0\n\
-1 -10 0\n\
-4 -7 0\n\
-4 -10 0\n\
-7 -10 0\n\
-2 -5 0\n\
-2 -8 0\n\
-2 -11 0\n\
-5 -8 0\n\
-5 -11 0\n\
-8 -11 0\n\
-3 -6 0\n\
-3 -9 0\n\
-3 -12 0\n\
-6 -9 0\n\
-6 -12 0\n\
-9 -12 0\n";

#[test]
fn four_pigeons_do_not_fit_into_three_holes(rt: HostRuntime) -> Result<(), Fail> {
    let clauses = read_dimacs(rt.alloc(), PIGEONS)?;
    assert_eq!(rt; clauses.variables(), 12);
    assert_eq!(rt; clauses.len(), 22);
    let mut effort = Effort::new();
    let SatAnswer::Unsat(log) = solve(rt.alloc(), &clauses, 531_441, &mut effort)? else {
        return Err("unsatisfiable".into());
    };
    assert_eq!(rt; accept(rt.alloc(), &clauses, &log)?, Verdict::Refuted);
    assert_eq!(rt; effort.spent(), 0);
    Ok(())
}

#[test]
fn a_budget_of_one_line_is_spent(rt: HostRuntime) -> Result<(), Fail> {
    let clauses = read_dimacs(rt.alloc(), PIGEONS)?;
    let mut effort = Effort::new();
    let SatAnswer::Spent(log) = solve(rt.alloc(), &clauses, 1, &mut effort)? else {
        return Err("spent".into());
    };
    assert_eq!(rt; log.len(), 1);
    assert_eq!(rt; effort.spent(), 1);
    // the line follows, but it is not empty
    assert_eq!(rt; accept(rt.alloc(), &clauses, &log)?, Verdict::BadLine(1));
    Ok(())
}

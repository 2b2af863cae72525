use crate::line_check::are_literals;
use crate::{Checker, Verdict, accept};
use region_pool::{Clauses, Log};
use std::alloc::Global;
use std::test::Fail;
use vk_core::NoMemory;

struct Line {
    literals: &'static [u64],
    hints: &'static [u64],
}

struct Case {
    variables: usize,
    clauses: &'static [&'static [u64]],
    lines: &'static [Line],
    verdict: Verdict,
}

// The clauses over x (literals 0 and 1) and y (2 and 3) that no assignment satisfies: each says one thing of both.
const FOUR: &[&[u64]] = &[&[0, 2], &[0, 3], &[1, 2], &[1, 3]];

static CASES: [Case; 17] = [
    // x, and then a conflict by it
    Case {
        variables: 2,
        clauses: FOUR,
        lines: &[
            Line {
                literals: &[0],
                hints: &[0, 1],
            },
            Line {
                literals: &[],
                hints: &[4, 2, 3],
            },
        ],
        verdict: Verdict::Refuted,
    },
    // the hints of the first line the other way round
    Case {
        variables: 2,
        clauses: FOUR,
        lines: &[
            Line {
                literals: &[0],
                hints: &[1, 0],
            },
            Line {
                literals: &[],
                hints: &[4, 2, 3],
            },
        ],
        verdict: Verdict::Refuted,
    },
    // hints that reach no conflict
    Case {
        variables: 2,
        clauses: FOUR,
        lines: &[
            Line {
                literals: &[0],
                hints: &[0, 2],
            },
            Line {
                literals: &[],
                hints: &[4, 2, 3],
            },
        ],
        verdict: Verdict::BadLine(0),
    },
    // a literal of no variable
    Case {
        variables: 2,
        clauses: FOUR,
        lines: &[
            Line {
                literals: &[4],
                hints: &[0, 1],
            },
            Line {
                literals: &[],
                hints: &[4, 2, 3],
            },
        ],
        verdict: Verdict::BadLine(0),
    },
    // a literal beside its negation
    Case {
        variables: 2,
        clauses: FOUR,
        lines: &[
            Line {
                literals: &[0, 1],
                hints: &[0, 1],
            },
            Line {
                literals: &[],
                hints: &[4, 2, 3],
            },
        ],
        verdict: Verdict::BadLine(0),
    },
    // a hint at the line itself
    Case {
        variables: 2,
        clauses: FOUR,
        lines: &[
            Line {
                literals: &[0],
                hints: &[0, 1],
            },
            Line {
                literals: &[],
                hints: &[5, 2, 3],
            },
        ],
        verdict: Verdict::BadLine(1),
    },
    // the lines change places
    Case {
        variables: 2,
        clauses: FOUR,
        lines: &[
            Line {
                literals: &[],
                hints: &[4, 2, 3],
            },
            Line {
                literals: &[0],
                hints: &[0, 1],
            },
        ],
        verdict: Verdict::BadLine(0),
    },
    // the last line is left out
    Case {
        variables: 2,
        clauses: FOUR,
        lines: &[Line {
            literals: &[0],
            hints: &[0, 1],
        }],
        verdict: Verdict::BadLine(1),
    },
    // a hint behind the conflict, which is not read but is there
    Case {
        variables: 2,
        clauses: FOUR,
        lines: &[
            Line {
                literals: &[0],
                hints: &[0, 1, 3],
            },
            Line {
                literals: &[],
                hints: &[4, 2, 3],
            },
        ],
        verdict: Verdict::Refuted,
    },
    // a hint behind the conflict that is not there
    Case {
        variables: 2,
        clauses: FOUR,
        lines: &[
            Line {
                literals: &[0],
                hints: &[0, 1, 4],
            },
            Line {
                literals: &[],
                hints: &[4, 2, 3],
            },
        ],
        verdict: Verdict::BadLine(0),
    },
    // x and not x
    Case {
        variables: 1,
        clauses: &[&[0], &[1]],
        lines: &[Line {
            literals: &[],
            hints: &[0, 1],
        }],
        verdict: Verdict::Refuted,
    },
    // x alone
    Case {
        variables: 1,
        clauses: &[&[0], &[1]],
        lines: &[Line {
            literals: &[],
            hints: &[0],
        }],
        verdict: Verdict::BadLine(0),
    },
    // no line
    Case {
        variables: 1,
        clauses: &[&[0], &[1]],
        lines: &[],
        verdict: Verdict::BadLine(0),
    },
    // no clauses
    Case {
        variables: 0,
        clauses: &[],
        lines: &[Line {
            literals: &[],
            hints: &[0],
        }],
        verdict: Verdict::BadLine(0),
    },
    // an empty clause
    Case {
        variables: 0,
        clauses: &[&[]],
        lines: &[Line {
            literals: &[],
            hints: &[0],
        }],
        verdict: Verdict::Refuted,
    },
    // literals that stand twice count once
    Case {
        variables: 1,
        clauses: &[&[0, 0], &[1, 1, 1]],
        lines: &[Line {
            literals: &[],
            hints: &[0, 1],
        }],
        verdict: Verdict::Refuted,
    },
    // a clause with a literal beside its negation forces nothing
    Case {
        variables: 1,
        clauses: &[&[0, 0], &[1, 1, 1], &[0, 1]],
        lines: &[Line {
            literals: &[],
            hints: &[2, 0, 1],
        }],
        verdict: Verdict::BadLine(0),
    },
];

fn clauses_of(alloc: Global, case: &Case) -> Result<Clauses, NoMemory> {
    let mut clauses = Clauses::new(alloc, case.variables);
    for literals in case.clauses {
        if are_literals(clauses.variables(), literals) {
            clauses.add(literals)?;
        }
    }
    Ok(clauses)
}

fn log_of(alloc: Global, case: &Case) -> Result<Log, NoMemory> {
    let mut log = Log::new(alloc);
    for line in case.lines {
        log.add(line.literals, line.hints)?;
    }
    Ok(log)
}

#[test]
fn logs_are_accepted_or_refused(rt: HostRuntime) -> Result<(), Fail> {
    for case in &CASES {
        let clauses = clauses_of(rt.alloc(), case)?;
        let log = log_of(rt.alloc(), case)?;
        assert_eq!(rt; accept(rt.alloc(), &clauses, &log)?, case.verdict);
    }
    Ok(())
}

#[test]
fn a_checker_takes_a_line_again(rt: HostRuntime) -> Result<(), Fail> {
    let clauses = clauses_of(rt.alloc(), &CASES[0])?;
    let log = log_of(rt.alloc(), &CASES[0])?;
    let variables = clauses.variables();
    let mut checker = Checker::new(rt.alloc(), variables);
    checker.reserve(variables)?;
    let there = log.len() == 2 && checker.room() >= variables;
    assert!(rt; there);
    assert!(rt; checker.check_line(&clauses, &log, 0));
    assert!(rt; checker.check_line(&clauses, &log, 0));
    Ok(())
}

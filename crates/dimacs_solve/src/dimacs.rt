//! The DIMACS format of clause lists.

ghost use Rattle.std.specs.Prelude.{IfOk, IfSome, ◌≡◌};
ghost use Rattle.dimacs_solve.specs.Numbers.{NumberReads};
ghost use Rattle.region_pool.specs.Clauses.{IsLiteral, AreLiterals};

use region_pool::Clauses;
use std::alloc::{AllocError, Global};
use thiserror::Error;
use vk_core::NoMemory;

/// Why a text is no clause list.
#[derive(Debug, Drop, Error)]
pub enum DimacsError {
    #[error("the text has no problem line")]
    NoProblem,
    #[error("a word is no literal of the variables")]
    BadLiteral,
    #[error("out of memory")]
    Memory,
}

impl From<NoMemory> for DimacsError {
    fn from(_error: NoMemory) -> DimacsError {
        DimacsError::Memory
    }
}

impl From<AllocError> for DimacsError {
    fn from(_error: AllocError) -> DimacsError {
        DimacsError::Memory
    }
}

/// The literal that digits name, or None for the 0 that ends a clause.
fn read_number(digits: &str, is_negated: bool, variables: usize) -> Result<Option<u64>, DimacsError>
    ensures reads { NumberReads variables is_negated digits.now result }
    ensures fits { IfOk result (λ literal. IfSome literal (IsLiteral variables)) }
{
    let Ok(number) = digits.parse::<u64>() else {
        return Err(DimacsError::BadLiteral);
    };
    if number == 0 {
        return Ok(None);
    }
    if number > variables as u64 || number > u64::MAX / 2 {
        return Err(DimacsError::BadLiteral);
    }
    Ok(Some(2 * (number - 1) + u64::from(is_negated)))
}

/// The literal of a word, or None for the 0 that ends a clause.
fn read_literal(word: &str, variables: usize) -> Result<Option<u64>, DimacsError>
    ensures { IfOk result (λ literal. IfSome literal (IsLiteral variables)) }
{
    match word.strip_prefix('-') {
        Some(digits) => read_number(digits, true, variables),
        None => read_number(word, false, variables),
    }
}

/// Reads the clauses of one line.
fn read_clauses(
    clauses: &mut Clauses,
    literals: &mut Vec<u64>,
    line: &str,
) -> Result<(), DimacsError>
    requires { AreLiterals clauses.old.variables literals.old.items }
    ensures variables { clauses.new.variables ≡ clauses.old.variables }
    ensures literals { AreLiterals clauses.new.variables literals.new.items }
{
    for word in line.split_whitespace() {
        match read_literal(word, clauses.variables())? {
            Some(literal) => {
                if literals.push(literal).is_err() {
                    return Err(DimacsError::Memory);
                }
            }
            None => {
                clauses.add(literals)?;
                literals.clear();
            }
        }
    }
    Ok(())
}

/// The count of variables of a problem line.
fn read_problem(line: &str) -> Option<usize> {
    let counts = line.strip_prefix("p cnf ")?;
    counts.split_whitespace().next()?.parse::<usize>().ok()
}

/// The count of variables of the first problem line.
fn find_problem(text: &str) -> Option<usize> {
    for line in text.lines() {
        let problem = read_problem(line);
        if problem.is_some() {
            return problem;
        }
    }
    None
}

/// Reads a clause list: a problem line, and clauses that end in 0. Lines of comments begin with `c`.
pub fn read_dimacs(alloc: Global, text: &str) -> Result<Clauses, DimacsError> {
    let Some(variables) = find_problem(text) else {
        return Err(DimacsError::NoProblem);
    };
    let mut clauses = Clauses::new(alloc, variables);
    let mut literals = Vec::new(alloc);
    for line in text.lines() {
        if !line.starts_with('c') && !line.starts_with('p') {
            read_clauses(&mut clauses, &mut literals, line)?;
        }
    }
    Ok(clauses)
}

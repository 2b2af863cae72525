//! The clauses that a search knows: the input clauses, and the lines that it learned.

ghost use Rattle.std.specs.Prelude.{◌≡◌, ◌<◌, length};
ghost use Rattle.region_pool.specs.Blocks.{block_at};
ghost use Rattle.region_pool.specs.Clauses.{AreLiterals};
ghost use Rattle.sat_core.specs.Known.{known_clauses, LinesFit};

use region_pool::{Clauses, Log};

/// Lends the clause with this number: an input clause, or from the count of these on a line.
pub fn known_clause<'a>(clauses: &'a Clauses, log: &'a Log, number: usize) -> &'a [u64]
    requires number { number < length (known_clauses clauses.now log.now) }
    requires fit { LinesFit clauses.now.variables log.now }
    ensures clause { result.now ≡ block_at (known_clauses clauses.now log.now) number }
    ensures literals { AreLiterals clauses.now.variables result.now }
{
    let count = clauses.len();
    if number < count {
        clauses.clause(number)
    } else {
        log.literals(number - count)
    }
}

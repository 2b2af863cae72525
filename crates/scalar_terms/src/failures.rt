ghost use Rattle.value_terms.specs.Made.{IsBit, holds};
ghost use Rattle.scalar_terms.specs.Ways.{IsNoted};
ghost use Rattle.std.specs.Prelude.{◌≡◌, ℕ, OnOk, false, true};

use scalar_runs::Breach;
use sym_terms::{Term, TermId, Terms};
use vk_core::NoMemory;

/// A fault, and when the run ends in it: where the term, which has one bit, is 1.
#[derive(Clone, Copy, Debug)]
pub struct Failure {
    pub breach: Breach,
    pub term: TermId,
}

/// One failure more, unless its term is the constant 0.
pub fn note(
    terms: &Terms,
    failures: &mut Vec<Failure>,
    breach: Breach,
    term: TermId,
) -> Result<(), NoMemory>
    requires { IsBit terms.now term.0 }
    ensures { OnOk result (IsNoted terms.now failures.old.items failures.new.items breach term) }
{
    if is_never(terms, term) {
        Ok(())
    } else {
        failures.push(Failure { breach, term })?;
        Ok(())
    }
}

/// Whether the term is the constant 0.
fn is_never(terms: &Terms, term: TermId) -> bool
    requires { IsBit terms.now term.0 }
    ensures { result ≡ true → (inputs : ℕ → ℕ) → holds terms.now inputs term.0 ≡ false }
{
    match terms.term(term) {
        Term::Constant(word) => word.value == 0,
        _ => false,
    }
}

ghost use Rattle.std.specs.Prelude.{◌≡◌, ◌<◌, ◌^◌};

use sym_terms::Term;
use word_bits::Word;

/// The term of a constant of 64 bits.
pub fn constant(value: u128) -> Term
    requires { value < 2 ^ 64 }
    ensures { result ≡ Term.Constant (record { width = 64; value = value }) }
{
    Term::Constant(Word { width: 64, value })
}

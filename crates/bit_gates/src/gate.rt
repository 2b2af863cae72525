ghost use Rattle.std.specs.Prelude.{◌≡◌, ℕ, Bool, ◌+◌, ◌*◌, ◌-◌, ◌%◌, ◌<◌, ◌==◌};
ghost use Rattle.region_pool.specs.Literals.{negation};
ghost use Rattle.bit_gates.specs.Values.{signed};

/// A gate over literals: `2 * v` stands for the variable `v`, and `2 * v + 1` for its negation.
#[derive(Clone, Copy, Debug, PartialEq, Eq)]
pub enum Gate {
    /// The constant.
    True,
    And { a: u64, b: u64 },
    /// One of the two alone.
    Xor { a: u64, b: u64 },
    /// `a` where `test` is true, and else `b`.
    Choose { test: u64, a: u64, b: u64 },
}

/// The literal of the same variable and the other sign.
#[tactic(auto, unfolding(region_pool::specs::Literals::negation))]
pub fn negation(literal: u64) -> u64
    ensures { result ≡ negation literal }
{
    if literal % 2 == 0 {
        literal + 1
    } else {
        literal - 1
    }
}

/// Whether the literal is a negation.
pub fn is_negated(literal: u64) -> bool
    ensures { result ≡ (literal % 2 == 1) }
{
    literal % 2 == 1
}

/// The literal of the same variable that is no negation.
pub fn positive(literal: u64) -> u64
    ensures { result ≡ literal - literal % 2 }
{
    literal - literal % 2
}

/// The literal, or its negation.
pub fn signed(literal: u64, negated: bool) -> u64
    ensures { result ≡ signed literal negated }
{
    if negated { negation(literal) } else { literal }
}

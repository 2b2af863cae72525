ghost use Rattle.std.specs.Prelude.{◌≡◌, ◌↔◌, ◌<◌, ◌≤◌, ◌*◌, length, IsTrue, All, Any, Contains, slice_set};
ghost use Rattle.region_pool.specs.Literals.{negation};
ghost use Rattle.region_pool.specs.Refutation.{negations};
ghost use Rattle.refute_check.specs.Marks.{true_literals, HasMarks, HaveMarks, ArePast, AreOld, IsSameSet};

// The literal that is true where this one is false.
pub(crate) fn negation_of(literal: u64) -> u64
    ensures { result ≡ negation literal }
{
    literal / 2 * 2 + (1 - literal % 2)
}

// Whether the literal is true.
pub(crate) fn is_true(marks: &[u64], stamp: u64, literal: u64) -> bool
    requires { literal < length marks.now }
    ensures { IsTrue result ↔ Contains (true_literals stamp marks.now) literal }
{
    marks[literal as usize] == stamp
}

// Makes each literal false.
pub(crate) fn assume_false(marks: &mut [u64], stamp: u64, literals: &[u64])
    requires marks { HaveMarks marks.old literals.now }
    requires old { AreOld stamp marks.old }
    ensures past { ArePast stamp marks.new }
    ensures assumed { IsSameSet (negations literals.now) (true_literals stamp marks.new) }
{
    for literal in literals {
        marks[negation_of(*literal) as usize] = stamp;
    }
}

// Whether some literal is true.
pub(crate) fn has_true(marks: &[u64], stamp: u64, literals: &[u64]) -> bool
    requires { HaveMarks marks.now literals.now }
    ensures { IsTrue result ↔ Any (Contains (true_literals stamp marks.now)) literals.now }
{
    literals
        .iter()
        .any(|literal| is_true(marks, stamp, *literal))
}

// Clears the marks, for when the stamps are used up.
pub(crate) fn clear(marks: &mut [u64])
    ensures { ArePast 0 marks.new }
{
    for mark in marks.iter_mut() {
        *mark = 0;
    }
}

ghost use Rattle.std.specs.Prelude.{◌≡◌};
ghost use Rattle.mir_grammar.specs.Places.{block_passed, both_passed, local_passed, long_name, none_passed};

/// The first number that no local and no block may have.
const NUMBER_LIMIT: u32 = 4096;

/// Which limits a text passes: a local's number is above 4095, a block's is, a name is longer than 256 bytes.
#[derive(Clone, Copy, Debug, PartialEq, Eq)]
pub struct Passed {
    pub locals: bool,
    pub blocks: bool,
    pub names: bool,
}

impl Passed {
    pub fn none() -> Passed
        ensures { result ≡ none_passed }
    {
        Passed {
            locals: false,
            blocks: false,
            names: false,
        }
    }

    /// What either of two texts passes.
    pub fn both(self, other: Passed) -> Passed
        ensures { result ≡ both_passed self other }
    {
        Passed {
            locals: self.locals || other.locals,
            blocks: self.blocks || other.blocks,
            names: self.names || other.names,
        }
    }

    /// What a local of this number passes.
    pub fn of_local(number: u32) -> Passed
        ensures { result ≡ local_passed number }
    {
        Passed {
            locals: number >= NUMBER_LIMIT,
            ..Passed::none()
        }
    }

    /// What a block of this number passes.
    pub fn of_block(number: u32) -> Passed
        ensures { result ≡ block_passed number }
    {
        Passed {
            blocks: number >= NUMBER_LIMIT,
            ..Passed::none()
        }
    }

    /// What a name passes that is or holds a path which is too long, or not.
    pub fn of_name(is_long: bool) -> Passed
        ensures { result ≡ long_name is_long }
    {
        Passed {
            names: is_long,
            ..Passed::none()
        }
    }
}

/// A value, and the limits that its text passes.
#[derive(Debug, Drop)]
pub struct Limited<A> {
    pub value: A,
    pub passed: Passed,
}

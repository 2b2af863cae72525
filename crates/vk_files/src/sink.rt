ghost use Rattle.std.specs.Prelude.{◌≡◌, ◌<◌, ◌≤◌, ℕ, ◌++◌, List, Option, IfOk, IfSome, OnErr, length, take};
ghost use Rattle.vk_files.specs.Causes.{HasCause};

use thiserror::Error;

/// Bytes could not be written. It comes only where the count of faults rose.
#[derive(Clone, Copy, Debug, PartialEq, Eq, Error)]
#[error("bytes could not be written")]
pub struct WriteFailed;

/// Where an output goes.
pub trait Sink {
    /// The bytes taken so far. A sink may leave it untold.
    ghost written: { Self → Option (List ℕ) };

    /// A count of the faults so far. It never falls, and ends at the greatest `u64`.
    ghost faults: { Self → ℕ };

    /// Takes some first bytes, and answers how many. Of a piece that is not empty it takes at least one byte or
    /// fails.
    fn write(&mut self, bytes: &[u8]) -> Result<usize, WriteFailed>
        ensures bound { IfOk result (λ n. n ≤ length bytes.now) }
        ensures some { IfOk result (λ n. 0 < length bytes.now → 0 < n) }
        ensures taken { IfSome (written self.old) (λ w. IfOk result (λ n. written self.new ≡ Some (w ++ take n bytes.now))) }
        ensures err { OnErr result (written self.new ≡ written self.old) }
        ensures cause { HasCause (faults self.old) (faults self.new) result };
}

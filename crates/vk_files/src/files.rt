ghost use Rattle.std.specs.Prelude.{◌≡◌, ◌<◌, ◌≤◌, ◌↔◌, ℕ, [], List, Option, Bool, IsTrue, IfOk, IfSome, length, take, drop};
ghost use Rattle.vk_files.specs.Causes.{HasCause};
ghost use Rattle.vk_files.specs.Files.{Opens};

use thiserror::Error;

/// What stands under a name.
#[derive(Clone, Copy, Debug, PartialEq, Eq)]
pub enum Opened {
    Found,
    Missing,
}

/// A file could not be opened or read. It comes only where the count of faults rose.
#[derive(Clone, Copy, Debug, PartialEq, Eq, Error)]
#[error("a file could not be read")]
pub struct ReadFailed;

/// Files that are opened and read one after the other. An open file is read to its end or left.
pub trait Files {
    /// What a name stands for: the bytes of a file, or no file. Files may leave it untold.
    ghost held: { Self → List ℕ → Option (Option (List ℕ)) };

    /// What is unread of the file that was found last. Files may leave it untold.
    ghost left: { Self → Option (List ℕ) };

    /// True exactly where the last `open_file` answered `Found`.
    ghost found: { Self → Bool };

    /// A count of the faults so far. It never falls, and ends at the greatest `u64`.
    ghost faults: { Self → ℕ };

    fn open_file(&mut self, name: &str) -> Result<Opened, ReadFailed>
        ensures keeps { (n : List ℕ) → held self.new n ≡ held self.old n }
        ensures opens { IfOk result (Opens (held self.old name.now) (left self.new)) }
        ensures finds { IsTrue (found self.new) ↔ (result ≡ Ok Opened.Found) }
        ensures cause { HasCause (faults self.old) (faults self.new) result };

    /// Reads the next bytes of the file into the front of `buf`. 0 for a buffer that has room means the end of
    /// the file. After a failed read it is open what is unread.
    fn read(&mut self, buf: &mut [u8]) -> Result<usize, ReadFailed>
        requires { IsTrue (found self.old) }
        ensures keeps { (n : List ℕ) → held self.new n ≡ held self.old n }
        ensures stays_found { IsTrue (found self.new) }
        ensures bound { IfOk result (λ n. n ≤ length buf.new) }
        ensures front { IfSome (left self.old) (λ bytes. IfOk result (λ n. (n ≤ length bytes) × (take n buf.new ≡ take n bytes))) }
        ensures rest { IfSome (left self.old) (λ bytes. IfOk result (λ n. left self.new ≡ Some (drop n bytes))) }
        ensures end { IfSome (left self.old) (λ bytes. IfOk result (λ n. n ≡ 0 → 0 < length buf.new → bytes ≡ [])) }
        ensures cause { HasCause (faults self.old) (faults self.new) result };
}

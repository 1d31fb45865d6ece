//! What each list of numbers can do, however it is kept.
ghost use Rattle.std.specs.Prelude.{◌≡◌, ℕ, ◌<◌, ◌++◌, [], ◌∷◌, List, length, set, slice_index, IfOk, OnOk, OnErr};

use std::alloc::AllocError;

/// A list of numbers that is read and written place by place. Places count from 0.
pub trait NumberList: Drop {
    ghost numbers: { Self → List ℕ };

    /// How many numbers there are: O(1).
    fn len(&self) -> usize
        ensures { result ≡ length (numbers self.now) };

    /// The number at that place: O(1).
    fn get(&self, at: usize) -> u64
        requires { at < length (numbers self.now) }
        ensures { result ≡ slice_index (numbers self.now) at };

    /// Writes another number at that place. It takes no memory.
    fn set(&mut self, at: usize, number: u64)
        requires { at < length (numbers self.old) }
        ensures { numbers self.new ≡ set (numbers self.old) at number };

    /// One more number behind the others. Without memory the list is as before.
    fn push(&mut self, number: u64) -> Result<(), AllocError>
        ensures ok { OnOk result (numbers self.new ≡ numbers self.old ++ number ∷ []) }
        ensures err { OnErr result (numbers self.new ≡ numbers self.old) };

    /// The same numbers: O(n).
    fn try_copy(&self) -> Result<Self, AllocError>
        ensures { IfOk result (λ copy. numbers copy ≡ numbers self.now) };
}

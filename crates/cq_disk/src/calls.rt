//! What is asked of a file: calls that are noted with their answers, whatever these are.
ghost use Rattle.std.specs.Prelude.{◌≡◌, ◌∷◌, ℕ, List, Bool, if◌then◌else◌};
ghost use Rattle.cq_disk.specs.Events.{Event, read, read_failed, wrote, write_failed, synced, sync_failed_event};

pub trait Calls: Drop {
    /// Each call so far with its answer, the newest first.
    ghost history: { Self → List Event };

    /// Fills the slice with the bytes from this place on. `false`: it failed, and the slice may have any bytes.
    fn read(&mut self, at: usize, bytes: &mut [u8]) -> bool
        ensures { history self.new ≡ (if result then read at bytes.new else read_failed) ∷ history self.old };

    /// Writes all of these bytes. `false`: it failed, and some of them may have been written.
    fn write(&mut self, at: usize, bytes: &[u8]) -> bool
        ensures { history self.new ≡ (if result then wrote at bytes.now else write_failed at bytes.now) ∷ history self.old };

    fn sync(&mut self) -> bool
        ensures { history self.new ≡ (if result then synced else sync_failed_event) ∷ history self.old };
}

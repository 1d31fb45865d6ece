//! Writers that know whether a write has failed.
ghost use Rattle.std.specs.Prelude.{◌≡◌, Bool, OnOk, true};
ghost use Rattle.std.specs.Io.KnownBytes.{Keeps};

use std::io;
use std::io::Write;

/// A writer that can be asked whether a call of it has failed. A write that takes nothing of
/// bytes that are not empty is such a call.
pub trait Sink: Write {
    // No write has failed while this is false.
    ghost has_failed: { Self → Bool };

    // Since the last write it was had to pass on what it may hold, and did.
    ghost has_flushed: { Self → Bool };

    /// Whether a call has failed so far.
    fn failed(&self) -> bool
        ensures { result ≡ has_failed self.now };

    /// Flushes all that was written.
    fn flush_written(&mut self) -> io::Result<()>
        ensures bytes { Keeps (Self.contents self.old) (Self.contents self.new) }
        ensures flushed { OnOk result (has_flushed self.new ≡ true) };
}

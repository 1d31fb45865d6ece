//! The call that takes a chunk, as the law of kept sessions has it.
ghost use Rattle.std.specs.Prelude.{◌≡◌, ◌≤◌, ℕ, List, length, IsTrue, OnOk};
ghost use Rattle.std.specs.Io.KnownBytes.{Appends};
ghost use Rattle.cq_kept_session.specs.Kept.{IsKept, StandsFor, session_device};
ghost use Rattle.cq_kept_session.specs.Takes.{Taken, Takes};
ghost use Rattle.cq_kept_session.specs.Texts.{as_kept};

use crate::{KeptSession, KeptSink, TakeFault};
use cq_disk::Device;
use cq_records::TEXT_LIMIT;

/// A chunk that was taken is kept, and what was written is the text of it.
pub fn take_takes<D: Device, W: KeptSink<D>>(
    session: &mut KeptSession<D>,
    chunk: &[u8],
    writer: &mut W,
) -> Result<(), TakeFault>
    requires kept { IsKept session.old }
    requires short { length chunk.now ≤ TEXT_LIMIT }
    ensures kept { OnOk result (IsKept session.new) }
    ensures takes { OnOk result (IsTrue (D.is_honest (session_device session.new)) → (bytes : List ℕ) → StandsFor session.old bytes → (taken : Taken) × (taken.chunk ≡ as_kept chunk.now)
        × Appends (W.taken writer.old) (W.taken writer.new) taken.output × Takes bytes taken session.old session.new) }
{
    session.take(chunk, writer)
}

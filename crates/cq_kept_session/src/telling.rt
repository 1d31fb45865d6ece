//! Where a session tells what its journal keeps.

use crate::KeptSession;
use cq_disk::Device;
use cq_script::{ScriptFault, Sink};

/// Where a session with a journal writes. A call of it is a moment at which somebody outside may learn of an answer: so `tell` asks that
/// the chunk is on the medium by then, and `refuse` that all that the session took is. Whatever moment a crash comes at, only what was kept
/// before was told. Each `Sink` is one.
pub trait KeptSink<D: Device> {
    ghost use Rattle.std.specs.Prelude.{◌≡◌, ◌++◌, ℕ, Bool, List, Option, Err, true, OnOk, OnErr};
    ghost use Rattle.std.specs.Io.KnownBytes.{Appends};
    ghost use Rattle.cq_lines.specs.Lines.{ended_part};
    ghost use Rattle.cq_lines.specs.declared.fault.ScriptFault.TheVariants.{WriteFailed};
    ghost use Rattle.cq_script.specs.Resumed.{HasRun};
    ghost use Rattle.cq_script.specs.Sessions.{IsSessionEndedPrefix, session_text};
    ghost use Rattle.cq_kept_session.specs.Kept.{IsKept, ended_now, run_session, session_journal, session_size};
    ghost use Rattle.cq_kept_session.specs.Served.{Refuses, no_room_text};
    ghost use Rattle.cq_kept_session.specs.Settled.{IsSettled};
    ghost use Rattle.cq_kept_session.specs.Texts.{is_ended};

    /// The bytes that it has taken, where they are known.
    ghost taken: { Self → Option (List ℕ) };

    /// No write has failed while this is false.
    ghost is_broken: { Self → Bool };

    /// Since the last write it was had to pass on what it may hold, and did.
    ghost is_passed_on: { Self → Bool };

    /// Runs the lines that end in a chunk, writes what comes of them, and passes it on.
    fn tell(&mut self, session: &mut KeptSession<D>, chunk: &[u8]) -> Result<(), ScriptFault>
        requires settled { IsSettled session.old chunk.now }
        ensures same { (session_journal session.new ≡ session_journal session.old) × (session_size session.new ≡ session_size session.old) }
        ensures ended { (before : List ℕ) → ended_now session.old ≡ is_ended before → ended_now session.new ≡ is_ended (before ++ chunk.now) }
        ensures runs { (before : List ℕ) → HasRun (session_size session.old) before (run_session session.old) → OnOk result (HasRun (session_size session.old) (before ++ chunk.now) (run_session session.new)) }
        ensures writes { (before : List ℕ) → HasRun (session_size session.old) before (run_session session.old) → (output : List ℕ)
            × Appends (taken self.old) (taken self.new) output
            × IsSessionEndedPrefix (session_size session.old) (before ++ chunk.now) (session_text (session_size session.old) (ended_part before) ++ output)
            × OnOk result (session_text (session_size session.old) (ended_part (before ++ chunk.now)) ≡ session_text (session_size session.old) (ended_part before) ++ output) }
        ensures flushed { OnOk result (is_passed_on self.new ≡ true) }
        ensures write_failed { result ≡ Err WriteFailed → is_broken self.new ≡ true };

    /// Writes that there is no room for a line, and passes it on.
    fn refuse(&mut self, session: &KeptSession<D>) -> Result<(), ScriptFault>
        requires kept { IsKept session.now }
        ensures told { OnOk result ((number : ℕ) × Appends (taken self.old) (taken self.new) (no_room_text number)) }
        ensures stops { OnErr result (Refuses (taken self.old) (taken self.new)) }
        ensures flushed { OnOk result (is_passed_on self.new ≡ true) };
}

impl<D: Device, W: Sink> KeptSink<D> for W {
    ghost taken = { W.contents };

    ghost is_broken = { W.has_failed };

    ghost is_passed_on = { W.has_flushed };

    fn tell(&mut self, session: &mut KeptSession<D>, chunk: &[u8]) -> Result<(), ScriptFault> {
        session.tell(chunk, self)
    }

    fn refuse(&mut self, session: &KeptSession<D>) -> Result<(), ScriptFault> {
        session.refuse(self)
    }
}

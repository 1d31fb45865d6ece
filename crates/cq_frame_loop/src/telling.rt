//! Where answers are told once they are settled.

use crate::fault::LoopFault;
use crate::settling::SettlingHandler;
use crate::writing::{flush_all, write_out};
use cq_lines::Sink;

/// Where a loop tells what a handler has answered. A call of it is a moment at which somebody outside may learn of an answer: so each
/// asks that all that was answered is settled by then, and that what it is given was answered on the way to the handler's state. Whatever
/// moment a crash comes at, inside a call of the loop or between two, only what was settled before was told. Each `Sink` is one.
pub trait SettledSink<H: SettlingHandler> {
    ghost use Rattle.std.specs.Prelude.{◌≡◌, ℕ, Bool, List, [], Option, true, false, vec_capacity, OnOk, IfErr};
    ghost use Rattle.std.specs.Io.KnownBytes.{Keeps};
    ghost use Rattle.cq_frame_loop.specs.Settling.{IsAnswered};
    ghost use Rattle.cq_frame_loop.specs.Writes.{IsWriting, LeavesAt, Takes};

    /// The bytes that it has taken, where they are known.
    ghost taken: { Self → Option (List ℕ) };

    /// No write has failed while this is false.
    ghost is_broken: { Self → Bool };

    /// Since the last write it was had to pass on what it may hold, and did.
    ghost is_passed_on: { Self → Bool };

    /// Writes what was told, or a prefix of it where a write fails, and clears it.
    fn tell(&mut self, handler: &H, told: &mut Vec<u8>) -> Result<(), LoopFault>
        requires settled { H.is_settled handler.now }
        requires answered { IsAnswered H.answers told.old.items handler.now }
        ensures takes { Takes result told.old.items [] (taken self.old) (taken self.new) }
        ensures leaves { IfErr result (λ fault. LeavesAt fault (is_broken self.new) (is_passed_on self.new)) }
        ensures empty { OnOk result (told.new.items ≡ []) }
        ensures capacity { vec_capacity told.new ≡ vec_capacity told.old };

    /// Passes on all that was written, and asks whether all calls went well.
    fn pass_on(&mut self) -> Result<(), LoopFault>
        ensures kept { Keeps (taken self.old) (taken self.new) }
        ensures kind { IsWriting result }
        ensures leaves { IfErr result (λ fault. LeavesAt fault (is_broken self.new) (is_passed_on self.new)) }
        ensures sound { OnOk result (is_broken self.new ≡ false) }
        ensures flushed { OnOk result (is_passed_on self.new ≡ true) };
}

impl<H: SettlingHandler, W: Sink> SettledSink<H> for W {
    ghost taken = { W.contents };

    ghost is_broken = { W.has_failed };

    ghost is_passed_on = { W.has_flushed };

    fn tell(&mut self, _handler: &H, told: &mut Vec<u8>) -> Result<(), LoopFault> {
        write_out(told, self)
    }

    fn pass_on(&mut self) -> Result<(), LoopFault> {
        flush_all(self)
    }
}

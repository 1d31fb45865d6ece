//! Handlers of frames whose answers are settled before they are told.
ghost use Rattle.std.specs.Prelude.{◌≡◌};
ghost use Rattle.cq_frame_loop.specs.declared.settling.SettledFault.TheVariants as faults;

use crate::fault::LoopFault;
use crate::handler::{ANSWER_ROOM, Unanswered};
use thiserror::Error;

/// What the answers rest on couldn't be settled: the process has to end, and nothing more is told.
#[derive(Clone, Copy, Debug, PartialEq, Eq, Error)]
#[error("what was answered could not be settled")]
pub struct Unsettled;

/// Why a loop over frames whose answers are settled did not come to the end of its input.
#[derive(Clone, Copy, Debug, PartialEq, Eq, Error)]
pub enum SettledFault {
    #[error("{0}")]
    Loop(LoopFault),
    /// What was answered couldn't be settled. Nothing that rests on it was told.
    #[error("what was answered could not be settled")]
    Unsettled,
}

impl From<LoopFault> for SettledFault {
    ghost from_gives = { λ fault it. it ≡ faults.Loop fault };

    fn from(fault: LoopFault) -> SettledFault {
        SettledFault::Loop(fault)
    }
}

/// What answers frames, and settles what it has answered, as by a sync of a journal, before any of it is told.
pub trait SettlingHandler {
    ghost use Rattle.std.specs.Prelude.{◌≡◌, ◌≤◌, ◌++◌, ℕ, List, [], Option, option_map, vec_capacity, OnOk, OnErr};
    ghost use Rattle.cq_base.specs.Relations.{IsPrefix};

    /// What it may tell of a frame, and the states before and after. None: the frame is too long.
    ghost answers: { Self → Option (List ℕ) → List ℕ → Self → Type 0 };

    /// What settling makes of a state.
    ghost rests: { Self → Self → Type 0 };

    /// What a fault makes of a state.
    ghost stops: { Self → Self → Type 0 };

    /// No fault has come.
    ghost is_ready: { Self → Type 0 };

    /// All that was answered is settled.
    ghost is_settled: { Self → Type 0 };

    /// Answers a frame; none: it is too long. What is told is what stands in `out` behind what was there, and then in `end`, which has
    /// room for `ANSWER_ROOM` bytes: so the last part of an answer never wants memory. Whatever comes of it, `out` keeps what was there.
    fn answer(
        &mut self,
        frame: Option<&[u8]>,
        out: &mut Vec<u8>,
        end: &mut Vec<u8>,
    ) -> Result<(), Unanswered>
        requires ready { is_ready self.old }
        requires empty { end.old.items ≡ [] }
        requires room { ANSWER_ROOM ≤ vec_capacity end.old }
        ensures ready { OnOk result (is_ready self.new) }
        ensures told { OnOk result ((text : List ℕ) × answers self.old (option_map (λ bytes. bytes.now) frame.entry) text self.new
            × (out.new.items ++ end.new.items ≡ out.old.items ++ text)) }
        ensures kept { OnErr result (IsPrefix out.old.items out.new.items) }
        ensures stopped { OnErr result (stops self.old self.new) }
        ensures room { ANSWER_ROOM ≤ vec_capacity end.new };

    /// Settles all that was answered.
    fn settle(&mut self) -> Result<(), Unsettled>
        requires ready { is_ready self.old }
        ensures ready { OnOk result (is_ready self.new) }
        ensures settled { OnOk result (is_settled self.new) }
        ensures rests { OnOk result (rests self.old self.new) }
        ensures stopped { OnErr result (stops self.old self.new) };

    /// What is settled behind an answer is as if it had come with it.
    ghost answers_on: { (p q r : Self) (frame : Option (List ℕ)) (text : List ℕ) → answers p frame text q → rests q r → answers p frame text r };

    /// With no fault a state is left as it is.
    ghost stops_none: { (p : Self) → stops p p };
}

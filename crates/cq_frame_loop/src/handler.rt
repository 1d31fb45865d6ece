//! Handlers of frames.

use thiserror::Error;

/// For how many bytes there is room for the last part of an answer.
pub const ANSWER_ROOM: usize = 64;

/// What became of a frame can't be told: the process has to end.
#[derive(Clone, Copy, Debug, PartialEq, Eq, Error)]
#[error("a frame could not be answered")]
pub struct Unanswered;

/// What answers frames.
pub trait FrameHandler {
    ghost use Rattle.std.specs.Prelude.{◌≡◌, ◌≤◌, ◌++◌, ℕ, List, [], Option, option_map, vec_capacity, OnOk, OnErr};
    ghost use Rattle.cq_base.specs.Relations.{IsPrefix};

    /// What it may tell of a frame, and the states before and after. None: the frame is too long.
    ghost answers: { Self → Option (List ℕ) → List ℕ → Self → Type 0 };

    /// What a frame that it can't answer makes of it.
    ghost breaks: { Self → Option (List ℕ) → Self → Type 0 };

    /// Answers a frame; none: it is too long. What is told is what stands in `out` behind what was there, and then in `end`, which has
    /// room for `ANSWER_ROOM` bytes: so the last part of an answer never wants memory. Whatever comes of it, `out` keeps what was
    /// there.
    fn answer(
        &mut self,
        frame: Option<&[u8]>,
        out: &mut Vec<u8>,
        end: &mut Vec<u8>,
    ) -> Result<(), Unanswered>
        requires empty { end.old.items ≡ [] }
        requires room { ANSWER_ROOM ≤ vec_capacity end.old }
        ensures told { OnOk result ((text : List ℕ) × answers self.old (option_map (λ bytes. bytes.now) frame.entry) text self.new
            × (out.new.items ++ end.new.items ≡ out.old.items ++ text)) }
        ensures kept { OnErr result (IsPrefix out.old.items out.new.items) }
        ensures broke { OnErr result (breaks self.old (option_map (λ bytes. bytes.now) frame.entry) self.new) }
        ensures room { ANSWER_ROOM ≤ vec_capacity end.new };
}

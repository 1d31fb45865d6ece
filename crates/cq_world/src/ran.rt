//! What came of a run.
ghost use Rattle.std.specs.Prelude.{◌≡◌, ◌<◌, ◌≤◌, ◌+◌, ◌++◌, [], ◌∷◌, None, IsOk, OnOk, OnErr};
ghost use Rattle.std.specs.Vec.{vec_len, vec_capacity};
ghost use Rattle.cq_base.specs.declared.limits.TheConstants.{SLICE_LIMIT};
ghost use Rattle.cq_events.specs.Runs.{numbered};

use cq_base::NoMemory;
use cq_chain::{Answer, WorldFault};
use std::alloc::Global;

/// What came of a run of events. Events are numbered from 1.
#[derive(Debug, Drop)]
pub struct Ran {
    /// How many events were run, refused ones among them.
    pub done: u64,
    /// The answers that were given to the clients, each with the number of its event.
    pub given: Vec<(u64, Answer)>,
    /// The events that were refused, each by its number with its first refusal.
    pub refused: Vec<(u64, WorldFault)>,
    /// The run stopped before its end, for want of memory.
    pub stop: Option<NoMemory>,
}

impl Ran {
    /// No event yet.
    pub(crate) fn new(alloc: Global) -> Ran
        ensures done { result.done ≡ 0 }
        ensures given { result.given.items ≡ [] }
        ensures refused { result.refused.items ≡ [] }
        ensures stop { result.stop ≡ None }
    {
        Ran {
            done: 0,
            given: Vec::new(alloc),
            refused: Vec::new(alloc),
            stop: None,
        }
    }

    /// Makes room for one more answer.
    pub(crate) fn reserve(&mut self) -> Result<(), NoMemory>
        ensures done { self.new.done ≡ self.old.done }
        ensures given { self.new.given.items ≡ self.old.given.items }
        ensures refused { self.new.refused ≡ self.old.refused }
        ensures stop { self.new.stop ≡ self.old.stop }
        ensures room { OnOk result (vec_len self.new.given < vec_capacity self.new.given) }
    {
        self.given.reserve(1)?;
        Ok(())
    }

    /// One more event, which wasn't refused, and gave that. Only an answer takes room.
    pub(crate) fn pass(&mut self, given: Option<Answer>) -> Result<(), NoMemory>
        requires { self.old.done < SLICE_LIMIT }
        ensures done { OnOk result (self.new.done ≡ self.old.done + 1) }
        ensures given { OnOk result (self.new.given.items ≡ self.old.given.items ++ numbered (self.old.done + 1) given) }
        ensures refused { self.new.refused ≡ self.old.refused }
        ensures stop { self.new.stop ≡ self.old.stop }
        ensures same_done { OnErr result (self.new.done ≡ self.old.done) }
        ensures same_given { OnErr result (self.new.given.items ≡ self.old.given.items) }
        ensures none { given ≡ None → IsOk result }
        ensures room { vec_len self.old.given < vec_capacity self.old.given → IsOk result }
    {
        if let Some(answer) = given {
            self.given.reserve(1)?;
            self.given.push_reserved((self.done + 1, answer));
        }
        self.done += 1;
        Ok(())
    }

    /// One more event, which was refused.
    pub(crate) fn refuse(&mut self, fault: WorldFault) -> Result<(), NoMemory>
        requires { self.old.done < SLICE_LIMIT }
        ensures done { OnOk result (self.new.done ≡ self.old.done + 1) }
        ensures given { self.new.given.items ≡ self.old.given.items }
        ensures refused { OnOk result (self.new.refused.items ≡ self.old.refused.items ++ (self.old.done + 1, fault) ∷ []) }
        ensures stop { self.new.stop ≡ self.old.stop }
        ensures same_done { OnErr result (self.new.done ≡ self.old.done) }
        ensures same_refused { OnErr result (self.new.refused.items ≡ self.old.refused.items) }
        ensures full { OnErr result (vec_capacity self.new.refused ≤ vec_len self.new.refused) }
    {
        self.refused.reserve(1)?;
        self.done += 1;
        self.refused.push_reserved((self.done, fault));
        Ok(())
    }
}

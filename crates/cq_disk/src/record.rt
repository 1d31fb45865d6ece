//! A list of calls that clauses alone read.
ghost use Rattle.std.specs.Prelude.{◌≡◌, List, [], ◌∷◌};
ghost use base.Fml.{ftrue};
ghost use Rattle.cq_disk.specs.Events.{Event};

use std::marker::Model;

/// A call on a file, with its answer.
#[derive(Clone, Copy, Drop)]
pub enum Call<'a> {
    Wrote { at: usize, bytes: &'a [u8] },
    WriteFailed { at: usize, bytes: &'a [u8] },
    Synced,
    SyncFailed,
    Read { at: usize, bytes: &'a [u8] },
    ReadFailed,
}

/// The calls on a file, the newest first. It takes no memory, and its methods do nothing at run time.
#[derive(Drop)]
pub struct Record {
    pub ghost calls: { List Event },
}

impl Model for Record {
    ghost also_owns = { λ _. ftrue };
}

impl Record {
    ghost use Rattle.cq_disk.specs.Noted.{event_of};

    /// No calls.
    pub fn new() -> Record
        ensures { result.calls ≡ [] }
    {
        Record {}
    }

    /// One call more.
    #[inline(always)]
    pub fn and(&self, _call: &Call<'_>) -> Record
        ensures { result.calls ≡ event_of _call.now ∷ self.now.calls }
    {
        Record {}
    }
}

//! An accepted send, and what is known of its deduplication id.
ghost use Rattle.std.specs.Prelude.{◌≡◌, ◌+◌, nat_lt, Some};
ghost use Rattle.cq_base.specs.declared.limits.TheConstants.{DEDUPLICATION_WINDOW};
ghost use Rattle.cq_base.specs.queue.Incarnations.{is_recent};
ghost use Rattle.cq_queue.specs.within.Windows.{known_of, answered};

use cq_base::{DEDUPLICATION_WINDOW, DedupId, Moment};
use std::alloc::AllocError;
use std::marker::Model;

/// Whether the five minutes that begin at `sent` aren't over at that moment.
fn is_within(sent: Moment, moment: Moment) -> bool
    ensures { result ≡ nat_lt moment (sent + DEDUPLICATION_WINDOW) }
{
    moment.get() < sent.get() + DEDUPLICATION_WINDOW
}

/// An accepted send, as far as its deduplication id goes.
#[derive(Drop)]
pub struct Accepted {
    pub dedup: DedupId,
    pub moment: Moment,
    pub sequence: u64,
}

impl Model for Accepted {
    ghost use Rattle.cq_base.specs.queue.Incarnations as object;

    ghost Value = { object.Accepted };

    ghost view = { λ a. record { dedup = a.dedup; moment = a.moment; sequence = a.sequence } };
}

/// What is known of the deduplication id of an accepted send.
#[derive(Clone, Copy, Drop)]
pub struct Known {
    pub moment: Moment,
    pub sequence: u64,
}

impl Known {
    /// The sequence number with which a send of that id is answered at that moment, if it repeats this one.
    pub fn answered(&self, moment: Moment) -> Option<u64>
        ensures { result ≡ answered moment (Some self.now) }
    {
        if is_within(self.moment, moment) {
            Some(self.sequence)
        } else {
            None
        }
    }
}

impl Accepted {
    /// What is known of its id.
    pub fn known(&self) -> Known
        ensures { result ≡ known_of self.now }
    {
        Known {
            moment: self.moment,
            sequence: self.sequence,
        }
    }

    /// Whether its five minutes aren't over at that moment.
    pub fn is_recent(&self, moment: Moment) -> bool
        ensures { result ≡ is_recent moment self.now }
    {
        is_within(self.moment, moment)
    }
}

/// It shares the id: O(1).
impl Clone for Accepted {
    ghost is_clone = { λ one copy. copy ≡ one };

    fn clone(&self) -> Result<Accepted, AllocError> {
        Ok(Accepted {
            dedup: self.dedup.clone()?,
            moment: self.moment,
            sequence: self.sequence,
        })
    }
}

//! The calls that read a store.
ghost use Rattle.std.specs.Prelude.{◌≡◌, List, length};
ghost use Rattle.cq_base.specs.declared.ask.Entry.{Entry};
ghost use Rattle.cq_base.specs.queue.History.{last_moment};
ghost use Rattle.cq_store.specs.Stands.{StandsFor, AreIdsKept, ids_kept, count_of, last_of};

use super::Store;
use cq_base::{Moment, QueueName};

impl Store {
    /// How many entries it was given: O(1).
    pub fn count(&self) -> u64
        ensures value { result ≡ count_of self.now }
        ensures stands { (entries : List Entry) → StandsFor self.now entries → result ≡ length entries }
    {
        self.count
    }

    /// The moment of the last entry, and 0 before the first: O(1).
    pub fn last(&self) -> Moment
        ensures value { result ≡ last_of self.now }
        ensures stands { (entries : List Entry) → StandsFor self.now entries → result ≡ last_moment entries }
    {
        self.last
    }

    /// How many deduplication ids the queue of that name keeps, and 0 if it doesn't live: O(1) expected. A send that is
    /// answered with a sequence number forgets those whose five minutes are over; until the next one they stay. There are
    /// never more of them than sends that the queue accepted.
    pub fn kept_ids(&self, queue: &QueueName) -> u64
        ensures value { result ≡ ids_kept self.now queue.now }
        ensures stands { (entries : List Entry) → StandsFor self.now entries → AreIdsKept result entries queue.now }
    {
        self.queues.kept_ids(queue)
    }
}

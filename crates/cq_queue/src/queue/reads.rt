//! The calls that read a queue, and the copy.
ghost use Rattle.std.specs.Prelude.{◌≡◌, ◌≤◌, length, IfOk};
ghost use Rattle.cq_queue.specs.Entries.{AreOffered, AreCounted};

use super::Queue;
use cq_base::{BatchSize, Delivery, Moment, NoMemory, Seconds};

impl Queue {
    /// The number of the incarnation. O(1).
    pub fn incarnation(&self) -> u64
        ensures { result ≡ self.now.number }
    {
        self.number
    }

    /// The visibility timeout that the queue gives. O(1).
    pub fn visibility(&self) -> Seconds
        ensures { result ≡ self.now.attributes.visibility }
    {
        self.visibility
    }

    /// Whether the queue makes the deduplication ids of sends that have none, of their bodies. O(1).
    pub fn content(&self) -> bool
        ensures { result ≡ self.now.attributes.content }
    {
        self.content
    }

    /// The moment of the last send, receive or effective change; 0 before the first. O(1).
    pub fn last(&self) -> Moment
        ensures { result ≡ self.now.last }
    {
        self.last
    }

    /// How many sends and receives came to it. O(1).
    pub fn used(&self) -> u64
        ensures { result ≡ self.now.used }
    {
        self.used
    }

    /// How many deduplication ids are kept: never more than sends were accepted. O(1).
    pub fn kept_ids(&self) -> u64
        ensures value { result ≡ length self.now.accepted }
        ensures fewer { result ≤ self.now.sent }
    {
        self.window.len() as u64
    }

    /// What a receive of that size would hand out at that moment, in a list that has room for no more. Nothing changes.
    /// O(size log messages).
    pub fn offer(&self, moment: Moment, size: BatchSize) -> Result<Vec<Delivery>, NoMemory>
        requires order { self.now.last ≤ moment }
        ensures offered { IfOk result (λ deliveries. AreOffered self.now moment size deliveries.items) }
    {
        self.messages.offer(self.number, moment, size)
    }

    /// How many messages aren't in flight at that moment, and how many are. It takes no memory. O(log messages) for each
    /// that is in flight.
    pub fn counts(&self, moment: Moment) -> (u64, u64)
        requires order { self.now.last ≤ moment }
        ensures { AreCounted self.now moment result.0 result.1 }
    {
        self.messages.counts(moment)
    }

    /// The same queue. It shares the texts: O(messages and accepted sends that are kept).
    pub fn try_copy(&self) -> Result<Queue, NoMemory>
        ensures { IfOk result (λ copy. copy ≡ self.now) }
    {
        Ok(Queue {
            alloc: self.alloc,
            number: self.number,
            visibility: self.visibility,
            content: self.content,
            sent: self.sent,
            messages: self.messages.try_copy()?,
            window: self.window.try_copy()?,
            last: self.last,
            used: self.used,
        })
    }
}

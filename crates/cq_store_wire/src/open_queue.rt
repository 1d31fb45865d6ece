//! The queue of the name that came last. Parts come to it one by one, and what was read so far is handed on by value at each; so it
//! is kept in a box.
ghost use Rattle.std.specs.Prelude.{◌≡◌, true, false, option_map, slice_get, IfOk, OnErr};
ghost use Rattle.cq_queue.specs.Parts.{AreInOrder, IsNextAccepted, IsNextMessage, and_accepted, and_message};

use cq_base::NoMemory;
use cq_messages::Message;
use cq_queue::{Accepted, Queue};
use std::alloc::Global;
use std::marker::Model;

/// A queue to which messages and accepted sends may come.
#[derive(Drop)]
pub struct OpenQueue {
    queue: Box<Queue>,
}

impl Model for OpenQueue {
    ghost use Rattle.cq_base.specs.queue.Incarnations.{Incarnation};

    ghost Value = { Incarnation };

    ghost view = { λ q. q.queue.value };
}

impl OpenQueue {
    /// That queue.
    pub fn new(alloc: Global, queue: Queue) -> Result<OpenQueue, NoMemory>
        ensures { IfOk result (λ q. q ≡ queue) }
    {
        Ok(OpenQueue {
            queue: Box::new(alloc, queue)?,
        })
    }

    /// The queue, to which nothing more comes.
    pub fn closed(self) -> Queue
        ensures { result ≡ self }
    {
        let OpenQueue { queue } = self;
        Box::into_inner(queue)
    }

    /// As `Queue::accepted`.
    pub fn accepted(&self, index: usize) -> Option<&Accepted>
        ensures item { option_map (λ a. a.now) result ≡ slice_get self.now.accepted index }
    {
        self.queue.accepted(index)
    }

    /// As `Queue::restore_message`.
    pub fn restore_message(&mut self, message: Message) -> Result<bool, NoMemory>
        ensures put { IfOk result (λ is. is ≡ true → self.new ≡ and_message message self.old) }
        ensures next { IfOk result (λ is. is ≡ true → IsNextMessage self.old message) }
        ensures refused { IfOk result (λ is. is ≡ false → self.new ≡ self.old) }
        ensures only { IfOk result (λ is. is ≡ false → IsNextMessage self.old message → ⊥) }
        ensures err { OnErr result (self.new ≡ self.old) }
    {
        self.queue.restore_message(message)
    }

    /// As `Queue::restore_accepted`.
    pub fn restore_accepted(&mut self, accepted: Accepted) -> Result<bool, NoMemory>
        ensures put { IfOk result (λ is. is ≡ true → self.new ≡ and_accepted accepted self.old) }
        ensures next { IfOk result (λ is. is ≡ true → IsNextAccepted self.old accepted) }
        ensures refused { IfOk result (λ is. is ≡ false → self.new ≡ self.old) }
        ensures only { IfOk result (λ is. is ≡ false → IsNextAccepted self.old accepted → ⊥) }
        ensures err { OnErr result (self.new ≡ self.old) }
    {
        self.queue.restore_accepted(accepted)
    }
}

//! A link: a ring between two threads, of which one puts messages and the other takes them.
ghost use Rattle.std.specs.Prelude.{◌≡◌, ◌↔◌, List, [], ◌∷◌, ◌++◌, IfOk, OnOk, IfErr, MatchOption, Err, IsTrue, IsSome};
ghost use Rattle.cq_link.specs.Faults.{IsBadCapacity};
ghost use Rattle.cq_link.specs.Links.{putter_link, taker_link, put_on, taken_from, known_to, left_on};
ghost use Rattle.cq_link.specs.declared.fault.LinkFault.TheVariants as faults;

use crate::ends::Full;
use crate::fault::LinkFault;
use rtrb::{Consumer, Producer, PushError, RingBuffer};
use std::alloc::Global;

/// No link and no inbox has room for more messages.
pub const CAPACITY_LIMIT: usize = 65_536;

/// Makes links.
pub struct Link;

/// The end of a link on which one thread puts messages.
#[derive(Drop)]
pub struct Putter<T: Drop> {
    producer: Producer<T>,
}

/// The end of a link from which one thread takes messages.
#[derive(Drop)]
pub struct Taker<T: Drop> {
    consumer: Consumer<T>,
}

/// What is left on a link whose ends are settled.
#[derive(Drop)]
pub struct Left<T: Drop> {
    consumer: Consumer<T>,
}

impl Link {
    /// The two ends of a new link with room for so many messages, from 1 to 65,536. Another capacity is
    /// refused as `BadCapacity`, before memory is asked for. All the memory of a link is taken here.
    pub fn make<T: Drop>(alloc: Global, capacity: usize) -> Result<(Putter<T>, Taker<T>), LinkFault>
        ensures pair { IfOk result (λ ends. putter_link ends.0 ≡ taker_link ends.1) }
        ensures nothing { IfOk result (λ ends. (put_on ends.0 ≡ []) × (taken_from ends.1 ≡ [])) }
        ensures bad { (result ≡ Err faults.BadCapacity) ↔ IsBadCapacity capacity }
    {
        if capacity == 0 || capacity > CAPACITY_LIMIT {
            return Err(LinkFault::BadCapacity);
        }
        let (producer, consumer) = RingBuffer::new(alloc, capacity)?;
        Ok((Putter { producer }, Taker { consumer }))
    }
}

impl<T: Drop> Putter<T> {
    /// Puts a message behind those that were put before. A full link hands it back, and nothing changes. It
    /// never waits and takes no memory: O(1).
    pub fn put(&mut self, item: T) -> Result<(), Full<T>>
        ensures link { putter_link self.new ≡ putter_link self.old }
        ensures ok { OnOk result (put_on self.new ≡ put_on self.old ++ item ∷ []) }
        ensures full { IfErr result (λ full. (full.0 ≡ item) × (put_on self.new ≡ put_on self.old)) }
    {
        match self.producer.push(item) {
            Ok(()) => Ok(()),
            Err(PushError::Full(item)) => Err(Full(item)),
        }
    }
}

impl<T: Drop> Taker<T> {
    /// Whether nothing is there: false says that a take gives a message. The other thread may put one at any time. O(1),
    /// and nothing is moved.
    pub fn is_empty(&mut self) -> bool
        ensures link { taker_link self.new ≡ taker_link self.old }
        ensures list { taken_from self.new ≡ taken_from self.old }
        ensures known { IsTrue result ↔ (known_to self.new ≡ []) }
    {
        self.consumer.is_empty()
    }

    /// Takes the first message that is there. It never waits and takes no memory: O(1).
    pub fn take(&mut self) -> Option<T>
        ensures link { taker_link self.new ≡ taker_link self.old }
        ensures taken { MatchOption result (taken_from self.new ≡ taken_from self.old) (λ item. taken_from self.new ≡ taken_from self.old ++ item ∷ []) }
        ensures known { (known_to self.old ≡ [] → ⊥) → IsSome result }
    {
        if self.consumer.is_empty() {
            return None;
        }
        Some(self.consumer.pop_known())
    }
}

/// Brings the two ends of one link together, once no thread uses them. What was taken, followed by what is
/// left, is what was put. O(1), and no memory.
pub fn settle<T: Drop>(putter: Putter<T>, taker: Taker<T>) -> Left<T>
    requires { putter_link putter ≡ taker_link taker }
    ensures { taken_from taker ++ left_on result ≡ put_on putter }
{
    let Putter { mut producer } = putter;
    let Taker { mut consumer } = taker;
    consumer.slots_beside(&mut producer);
    Left { consumer }
}

impl<T: Drop> Left<T> {
    /// Takes the first message that is left: O(1), and no memory.
    pub fn take(&mut self) -> Option<T>
        ensures { MatchOption result ((left_on self.old ≡ []) × (left_on self.new ≡ [])) (λ item. left_on self.old ≡ item ∷ left_on self.new) }
    {
        if self.consumer.cached_slots() == 0 {
            None
        } else {
            Some(self.consumer.pop_known())
        }
    }
}

//! Messages that wait in order, for one party or in one link.
ghost use Rattle.std.specs.Prelude.{◌≡◌, ◌<◌, ◌≤◌, ◌+◌, ◌++◌, ◌∷◌, [], drop, length, slice_get, option_map, IfSome, IfNone, OnOk};

use crate::message::Message;
use cq_base::NoMemory;
use std::alloc::Global;
use std::collections::VecDeque;
use std::marker::Model;

/// Messages in order, each of which leaves after those that came before it.
#[derive(Drop)]
pub struct Fifo {
    messages: VecDeque<Message>,
}

impl Model for Fifo {
    ghost use Rattle.cq_chain.specs.Fifos as fifos;
    ghost use Rattle.std.specs.Prelude.{◌-◌};
    ghost use Rattle.std.specs.VecDeque.{deque_capacity, deque_len};

    ghost Value = { fifos.Fifo };

    ghost view = { λ l. record { messages = l.messages.items; room = deque_capacity l.messages - deque_len l.messages } };
}

impl Fifo {
    /// No message waits: O(1).
    pub fn new(alloc: Global) -> Fifo
        ensures { result.messages ≡ [] }
    {
        Fifo {
            messages: VecDeque::new(alloc),
        }
    }

    /// How many messages wait: O(1).
    pub fn len(&self) -> usize
        ensures { result ≡ length self.now.messages }
    {
        self.messages.len()
    }

    /// The first message: O(1).
    pub fn first(&self) -> Option<&Message>
        ensures { option_map (λ message. message.now) result ≡ slice_get self.now.messages 0 }
    {
        self.messages.front()
    }

    /// Makes room for so many more messages: amortized O(count).
    pub fn reserve(&mut self, count: usize) -> Result<(), NoMemory>
        ensures messages { self.new.messages ≡ self.old.messages }
        ensures room { self.old.room ≤ self.new.room }
        ensures made { OnOk result (count ≤ self.new.room) }
    {
        self.messages.reserve(count)?;
        Ok(())
    }

    /// One more message, in room that was made: O(1).
    pub fn push(&mut self, message: Message)
        requires { 0 < self.old.room }
        ensures messages { self.new.messages ≡ self.old.messages ++ message ∷ [] }
        ensures room { self.old.room ≤ self.new.room + 1 }
    {
        self.messages.push_back_reserved(message);
    }

    /// These messages behind the others, in room that was made: O(messages that come).
    pub fn append(&mut self, other: Fifo)
        requires { length other.messages ≤ self.old.room }
        ensures messages { self.new.messages ≡ self.old.messages ++ other.messages }
        ensures room { self.old.room ≤ self.new.room + length other.messages }
    {
        let mut messages = other.messages;
        match self.messages.append(&mut messages) {
            Ok(()) => (),
            Err(_) => unreachable!(),
        }
    }

    /// The first message leaves: O(1).
    pub fn pop(&mut self) -> Option<Message>
        ensures first { IfSome result (λ message. self.old.messages ≡ message ∷ self.new.messages) }
        ensures none { IfNone result (self.old.messages ≡ []) }
        ensures rest { self.new.messages ≡ drop 1 self.old.messages }
    {
        self.messages.pop_front()
    }
}

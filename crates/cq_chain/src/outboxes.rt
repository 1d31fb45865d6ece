//! What waits at a server, or at the master, for each party.
ghost use Rattle.std.specs.Prelude.{◌≡◌, ◌<◌, ◌≤◌, ◌==◌, List, [], ◌∷◌, length, option_map, false, None, OnOk};
ghost use Rattle.std.specs.List.{list_all};
ghost use Rattle.std.specs.Map.{values_of};
ghost use Rattle.cq_base.specs.declared.party.Party as rust_party;
ghost use Rattle.cq_chain.specs.within.Boxes.{messages_for, room_for, fifo_for, nearer, nearer_party};
ghost use Rattle.cq_chain.specs.Messages as sent;
ghost use Rattle.cq_chain.specs.Next.{IsNext, is_above, is_below};
ghost use Rattle.cq_chain.specs.Parties.{same};
ghost use Rattle.cq_chain.specs.Stands.{Means, IsFirst, drained};
ghost use Rattle.cq_chain.specs.Steps.{to_server};
ghost use Rattle.cq_chain.specs.within.Waiting.{Waits, Posts, AllFor, KeepsAll, TakesOne, HasRoom, HasRoomAt};

use crate::fifo::Fifo;
use crate::message::Message;
use cq_base::{NoMemory, Party, ServerId};
use indexmap::IndexMap;
use std::alloc::Global;
use std::marker::Model;

/// Before a step room is made for so many messages to each party to which it may send: no step sends more.
const STEP_ROOM: usize = 4;

/// What a server has to send, to each party in order: found by a hash of the party.
pub struct Outboxes {
    fifos: IndexMap<Party, Fifo>,
}

/// Written out, not derived: CONTRIBUTING.md, "Drop".
impl Drop for Outboxes {
    fn drop(self) {
        let Outboxes { fifos: _ } = self;
    }
}

impl Model for Outboxes {
    ghost use Rattle.std.specs.Prelude.{List};
    ghost use Rattle.cq_base.specs.declared.party.Party as rust_party;
    ghost use Rattle.cq_chain.specs.Fifos as stored;

    ghost Value = { List (rust_party.Party × stored.Fifo) };

    ghost view = { λ o. o.fifos.entries };
}

/// Whether that server comes behind the other one by its number. Behind none each comes.
fn is_above(other: &Option<ServerId>, id: ServerId) -> bool
    ensures { result ≡ is_above other.now id }
{
    match other {
        Some(other) => other.get() < id.get(),
        None => true,
    }
}

/// Whether that server comes before the other one by its number. Before none each comes.
fn is_below(other: &Option<ServerId>, id: ServerId) -> bool
    ensures { result ≡ is_below other.now id }
{
    match other {
        Some(other) => id.get() < other.get(),
        None => true,
    }
}

impl Outboxes {
    /// Nothing waits.
    pub fn new(alloc: Global) -> Outboxes
        ensures { (to : rust_party.Party) → messages_for result to ≡ [] }
    {
        Outboxes {
            fifos: IndexMap::new(alloc),
        }
    }

    /// How many messages wait for the party: O(1).
    pub fn waiting(&self, to: Party) -> usize
        ensures { result ≡ length (messages_for self.now to) }
    {
        match self.fifos.get(&to) {
            Some(fifo) => fifo.len(),
            None => 0,
        }
    }

    /// The first message that waits for the party, which stays where it is: O(1).
    pub fn first(&self, to: Party) -> Option<&Message>
        ensures { (outbox : rust_party.Party → List sent.Message) → Waits self.now outbox
            → IsFirst (option_map (λ message. message.now) result) (outbox to) }
    {
        match self.fifos.get(&to) {
            Some(fifo) => fifo.first(),
            None => None,
        }
    }

    /// Whether nothing waits for anyone: O(parties).
    pub fn is_empty(&self) -> bool
        ensures { result ≡ list_all (λ fifo. length fifo.messages == 0) (values_of self.now) }
    {
        self.fifos.values().all(|fifo| fifo.len() == 0)
    }

    /// That server, if it is between these two and something waits for it; else the second of them.
    fn nearer(
        &self,
        after: &Option<ServerId>,
        next: Option<ServerId>,
        id: ServerId,
    ) -> Option<ServerId>
        ensures { result ≡ nearer self.now after.now next id }
    {
        if 0 < self.waiting(Party::Server(id)) && is_above(after, id) && is_below(&next, id) {
            Some(id)
        } else {
            next
        }
    }

    /// The same of any party; one that is no server isn't looked for.
    fn nearer_party(
        &self,
        after: &Option<ServerId>,
        next: Option<ServerId>,
        party: Party,
    ) -> Option<ServerId>
        ensures { result ≡ nearer_party self.now after.now next party }
    {
        match party {
            Party::Server(id) => self.nearer(after, next, id),
            _ => next,
        }
    }

    /// The first server behind that one, or the first of all, by their numbers, for which something waits: O(parties).
    pub fn next_waiting(&self, after: Option<ServerId>) -> Option<ServerId>
        ensures { (outbox : rust_party.Party → List sent.Message) → Waits self.now outbox → IsNext after outbox result }
    {
        let mut next = None;
        for party in self.fifos.keys().as_slice() {
            next = self.nearer_party(&after, next, *party);
        }
        next
    }

    /// A fifo for a party that has none, with room for so many messages.
    fn add(&mut self, alloc: Global, to: Party, count: usize) -> Result<(), NoMemory>
        requires { fifo_for self.old to ≡ None }
        ensures keeps { KeepsAll self.old self.new }
        ensures room { OnOk result (count ≤ room_for self.new to) }
    {
        let mut fifo = Fifo::new(alloc);
        fifo.reserve(count)?;
        self.fifos.insert(to, fifo)?;
        Ok(())
    }

    /// Makes room for so many messages to the party.
    pub fn reserve_many(&mut self, alloc: Global, to: Party, count: usize) -> Result<(), NoMemory>
        ensures keeps { KeepsAll self.old self.new }
        ensures room { OnOk result (count ≤ room_for self.new to) }
    {
        match self.fifos.get_mut(&to) {
            Some(fifo) => fifo.reserve(count),
            None => self.add(alloc, to, count),
        }
    }

    /// Makes room for what a step sends to the party.
    pub fn reserve(&mut self, alloc: Global, to: Party) -> Result<(), NoMemory>
        ensures keeps { KeepsAll self.old self.new }
        ensures room { OnOk result (4 ≤ room_for self.new to) }
    {
        self.reserve_many(alloc, to, STEP_ROOM)
    }

    /// Makes room for what a step sends to that server, if there is one.
    pub fn reserve_server(&mut self, alloc: Global, to: Option<ServerId>) -> Result<(), NoMemory>
        ensures keeps { KeepsAll self.old self.new }
        ensures room { OnOk result (HasRoomAt self.new 4 to) }
    {
        match to {
            Some(id) => self.reserve(alloc, Party::Server(id)),
            None => Ok(()),
        }
    }

    /// Makes room for what a step sends to anyone.
    pub fn reserve_all(
        &mut self,
        alloc: Global,
        pred: Option<ServerId>,
        succ: Option<ServerId>,
    ) -> Result<(), NoMemory>
        ensures keeps { KeepsAll self.old self.new }
        ensures room { OnOk result (HasRoom self.new 4 pred succ) }
    {
        self.reserve(alloc, Party::Master)?;
        self.reserve(alloc, Party::Clients)?;
        self.reserve_server(alloc, pred)?;
        self.reserve_server(alloc, succ)
    }

    /// One more message waits for the party, in room that was made: O(1).
    pub fn push(&mut self, to: Party, message: Message)
        requires { 0 < room_for self.old to }
        ensures posts { (m : sent.Message) → Means message m → Posts self.old self.new ((to, m) ∷ []) }
        ensures room { TakesOne self.old self.new }
    {
        match self.fifos.get_mut(&to) {
            Some(fifo) => fifo.push(message),
            None => unreachable!(),
        }
    }

    /// These messages wait for the party behind the others, in room that was made: O(messages that come).
    pub fn push_all(&mut self, to: Party, messages: Fifo)
        requires { length messages.messages ≤ room_for self.old to }
        ensures posts { (all : List (rust_party.Party × sent.Message)) → AllFor to messages.messages all
            → Posts self.old self.new all }
        ensures others { (party : rust_party.Party) → same to party ≡ false → room_for self.old party ≤ room_for self.new party }
    {
        match self.fifos.get_mut(&to) {
            Some(fifo) => fifo.append(messages),
            None => (),
        }
    }

    /// One more message waits for that server, if there is one, in room that was made: O(1).
    pub fn push_server(&mut self, to: Option<ServerId>, message: Message)
        requires { HasRoomAt self.old 1 to }
        ensures posts { (m : sent.Message) → Means message m → Posts self.old self.new (to_server to m) }
        ensures room { TakesOne self.old self.new }
    {
        match to {
            Some(id) => self.push(Party::Server(id), message),
            None => (),
        }
    }

    /// The first message that waits for the party leaves: O(1).
    pub fn pop(&mut self, to: Party) -> Option<Message>
        ensures first { (outbox : rust_party.Party → List sent.Message) → Waits self.old outbox → IsFirst result (outbox to) }
        ensures rest { (outbox : rust_party.Party → List sent.Message) → Waits self.old outbox
            → Waits self.new (drained outbox to) }
    {
        match self.fifos.get_mut(&to) {
            Some(fifo) => fifo.pop(),
            None => None,
        }
    }
}

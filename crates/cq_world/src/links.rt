//! The links between parties.
ghost use Rattle.std.specs.Prelude.{◌≡◌, ◌<◌, ◌++◌, ◌==◌, ◌∷◌, [], drop, length, slice_get, option_map, OnOk};
ghost use Rattle.std.specs.List.{list_all};
ghost use Rattle.std.specs.Map.{values_of};
ghost use Rattle.cq_base.specs.declared.party.Party as rust_party;
ghost use Rattle.cq_world.specs.within.Kept.{messages_at, room_at};
ghost use Rattle.cq_events.specs.Worlds.{set_pair};

use cq_base::{NoMemory, Party};
use cq_chain::{Fifo, Message};
use indexmap::IndexMap;
use std::alloc::Global;
use std::marker::Model;

/// The two ends of a link.
#[derive(Clone, Copy, Debug, PartialEq, Eq, Hash)]
pub struct LinkKey {
    pub from: Party,
    pub to: Party,
}

/// The links between all parties, each found by a hash of its two ends.
pub struct Links {
    fifos: IndexMap<LinkKey, Fifo>,
}

/// Written out, not derived: CONTRIBUTING.md, "Drop".
impl Drop for Links {
    fn drop(self) {
        let Links { fifos: _ } = self;
    }
}

impl Model for Links {
    ghost use Rattle.std.specs.Prelude.{List};
    ghost use Rattle.cq_chain.specs.Fifos as stored;
    ghost use Rattle.cq_world.specs.declared.links.LinkKey as rust_pair;

    ghost Value = { List (rust_pair.LinkKey × stored.Fifo) };

    ghost view = { λ l. l.fifos.entries };
}

impl Links {
    /// Nothing stands in any link.
    pub fn new(alloc: Global) -> Links
        ensures { (from to : rust_party.Party) → messages_at result from to ≡ [] }
    {
        Links {
            fifos: IndexMap::new(alloc),
        }
    }

    /// Whether nothing stands in any link: O(links).
    pub fn is_empty(&self) -> bool
        ensures { result ≡ list_all (λ fifo. length fifo.messages == 0) (values_of self.now) }
    {
        self.fifos.values().all(|fifo| fifo.len() == 0)
    }

    /// How many messages stand in the link: O(1).
    pub fn waiting(&self, pair: &LinkKey) -> u64
        ensures { result ≡ length (messages_at self.now pair.now.from pair.now.to) }
    {
        match self.fifos.get(pair) {
            Some(fifo) => fifo.len() as u64,
            None => 0,
        }
    }

    /// The first message of the link: O(1).
    pub fn first(&self, pair: &LinkKey) -> Option<&Message>
        ensures { option_map (λ message. message.now) result ≡ slice_get (messages_at self.now pair.now.from pair.now.to) 0 }
    {
        match self.fifos.get(pair) {
            Some(fifo) => fifo.first(),
            None => None,
        }
    }

    /// Room in a link that isn't kept yet.
    fn reserve_new(&mut self, pair: &LinkKey) -> Result<(), NoMemory>
        requires { messages_at self.old pair.now.from pair.now.to ≡ [] }
        ensures messages { (x y : rust_party.Party) → messages_at self.new x y ≡ messages_at self.old x y }
        ensures room { OnOk result (0 < room_at self.new pair.now.from pair.now.to) }
    {
        let mut fifo = Fifo::new(*self.fifos.allocator());
        fifo.reserve(1)?;
        self.fifos.insert(*pair, fifo)?;
        Ok(())
    }

    /// Makes room for one more message in the link: O(1), but where its fifo grows.
    pub fn reserve(&mut self, pair: &LinkKey) -> Result<(), NoMemory>
        ensures messages { (x y : rust_party.Party) → messages_at self.new x y ≡ messages_at self.old x y }
        ensures room { OnOk result (0 < room_at self.new pair.now.from pair.now.to) }
    {
        match self.fifos.get_mut(pair) {
            Some(fifo) => fifo.reserve(1),
            None => self.reserve_new(pair),
        }
    }

    /// One more message at the end of the link, in room that was made: O(1).
    pub fn push(&mut self, pair: &LinkKey, message: Message)
        requires { 0 < room_at self.old pair.now.from pair.now.to }
        ensures { (x y : rust_party.Party) → messages_at self.new x y
            ≡ set_pair (messages_at self.old) pair.now.from pair.now.to (messages_at self.old pair.now.from pair.now.to ++ message ∷ []) x y }
    {
        match self.fifos.get_mut(pair) {
            Some(fifo) => fifo.push(message),
            None => unreachable!(),
        }
    }

    /// The first message leaves the link: O(1).
    pub fn pop(&mut self, pair: &LinkKey)
        ensures { (x y : rust_party.Party) → messages_at self.new x y
            ≡ set_pair (messages_at self.old) pair.now.from pair.now.to (drop 1 (messages_at self.old pair.now.from pair.now.to)) x y }
    {
        match self.fifos.get_mut(pair) {
            Some(fifo) => drop(fifo.pop()),
            None => (),
        }
    }
}

//! The ends of the links to all parties.
ghost use Rattle.std.specs.Prelude.{◌≡◌, is_some, true, None, OnOk, OnErr};
ghost use Rattle.cq_base.specs.declared.party.Party as rust_party;
ghost use Rattle.cq_process.specs.Links.{ChangesOnly, IsOpened, PutsAt, ThrowsFrom, end_of, held_at};

use crate::outgoing::{Outgoing, PutFault, Written};
use cq_base::{NoMemory, Party};
use cq_chain::Server;
use indexmap::IndexMap;
use std::alloc::Global;
use std::marker::Model;

/// The ends of the links to all parties that were opened, each found by a hash of its party.
#[derive(Drop)]
pub struct OutgoingEnds {
    ends: IndexMap<Party, Outgoing>,
}

impl Model for OutgoingEnds {
    ghost use Rattle.std.specs.Prelude.{List};
    ghost use Rattle.cq_base.specs.declared.party.Party as rust_party;
    ghost use Rattle.cq_process.specs.Outgoing.{End};

    ghost Value = { List (rust_party.Party × End) };

    ghost view = { λ e. e.ends.entries };
}

impl OutgoingEnds {
    /// No link is open.
    pub fn new(alloc: Global) -> OutgoingEnds
        ensures { (party : rust_party.Party) → end_of result party ≡ None }
    {
        OutgoingEnds {
            ends: IndexMap::new(alloc),
        }
    }

    /// Whether the link to the party is open: O(1).
    pub fn is_open(&self, to: &Party) -> bool
        ensures { result ≡ is_some (end_of self.now to.now) }
    {
        self.ends.contains_key(to)
    }

    /// Whether a message for the party is being written: O(1).
    pub fn is_held(&self, to: &Party) -> bool
        ensures { result ≡ is_some (held_at (end_of self.now to.now)) }
    {
        match self.ends.get(to) {
            Some(end) => end.is_held(),
            None => false,
        }
    }

    /// The link to the party is opened, if it isn't open.
    pub fn open(&mut self, alloc: Global, to: Party) -> Result<(), NoMemory>
        ensures ok { OnOk result (IsOpened (end_of self.old to) (end_of self.new to)) }
        ensures others { ChangesOnly self.old self.new to }
        ensures absent { OnErr result (end_of self.old to ≡ None) }
        ensures err { OnErr result (end_of self.new to ≡ None) }
    {
        if self.is_open(&to) {
            return Ok(());
        }
        self.ends.insert(to, Outgoing::new(alloc))?;
        Ok(())
    }

    /// The next piece for the party is written, as `Outgoing::put_next` says.
    pub fn put_next(
        &mut self,
        core: &mut Server,
        to: Party,
        bytes: &mut Vec<u8>,
        enough: usize,
    ) -> Result<Written, PutFault>
        requires { is_some (end_of self.old to) ≡ true }
        ensures puts { PutsAt self.old self.new core.old core.new to bytes.old.items bytes.new.items result }
        ensures others { ChangesOnly self.old self.new to }
    {
        match self.ends.get_mut(&to) {
            Some(end) => end.put_next(core, to, bytes, enough),
            None => unreachable!(),
        }
    }

    /// All that waits for the party is put and thrown away, as `Outgoing::throw_all` says; nothing is done where its link isn't open.
    pub fn throw_all(&mut self, core: &mut Server, to: Party) -> Result<(), PutFault>
        ensures throws { ThrowsFrom (end_of self.old to) (end_of self.new to) core.old core.new to result }
        ensures others { ChangesOnly self.old self.new to }
    {
        if !self.is_open(&to) {
            return Ok(());
        }
        match self.ends.get_mut(&to) {
            Some(end) => end.throw_all(core, to),
            None => unreachable!(),
        }
    }
}

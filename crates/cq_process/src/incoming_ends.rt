//! The ends of the links from all parties.
ghost use Rattle.std.specs.Prelude.{◌≡◌, is_some, true, None, OnOk, OnErr};
ghost use Rattle.cq_base.specs.declared.party.Party as rust_party;
ghost use Rattle.cq_process.specs.Links.{ChangesOnly, LetsGo, TakesPiece, end_of, received_from};
ghost use Rattle.cq_process.specs.Taking.{is_next};

use crate::incoming::{Incoming, TakeFault, Taken, is_behind};
use cq_base::{NoMemory, Party};
use cq_chain::Server;
use cq_frames::PieceNumber;
use indexmap::IndexMap;
use std::alloc::Global;
use std::marker::Model;

/// The ends of the links from all parties that were heard of, each found by a hash of its party.
#[derive(Drop)]
pub struct IncomingEnds {
    ends: IndexMap<Party, Incoming>,
}

impl Model for IncomingEnds {
    ghost use Rattle.std.specs.Prelude.{List};
    ghost use Rattle.cq_base.specs.declared.party.Party as rust_party;
    ghost use Rattle.cq_process.specs.declared.incoming.Incoming as rust_incoming;

    ghost Value = { List (rust_party.Party × rust_incoming.Incoming) };

    ghost view = { λ e. e.ends.entries };
}

impl IncomingEnds {
    /// No party was heard of.
    pub fn new(alloc: Global) -> IncomingEnds
        ensures { (party : rust_party.Party) → end_of result party ≡ None }
    {
        IncomingEnds {
            ends: IndexMap::new(alloc),
        }
    }

    /// Whether that is the next piece of the party: O(1).
    pub fn is_next(&self, from: &Party, number: PieceNumber) -> bool
        ensures { result ≡ is_next number (received_from self.now from.now).taken (received_from self.now from.now).pieces }
    {
        match self.ends.get(from) {
            Some(end) => end.is_next(number),
            None => is_behind(number, 0, 0),
        }
    }

    /// An end for the party, if it has none.
    pub fn open(&mut self, alloc: Global, from: &Party) -> Result<(), NoMemory>
        ensures ok { OnOk result (is_some (end_of self.new from.now) ≡ true) }
        ensures absent { OnErr result (end_of self.old from.now ≡ None) }
        ensures received { (party : rust_party.Party) → received_from self.new party ≡ received_from self.old party }
        ensures others { ChangesOnly self.old self.new from.now }
    {
        if self.ends.contains_key(from) {
            return Ok(());
        }
        self.ends.insert(*from, Incoming::new(alloc))?;
        Ok(())
    }

    /// A piece is taken at the end from the party, as `Incoming::take` says.
    pub fn take(
        &mut self,
        core: &mut Server,
        from: Party,
        number: PieceNumber,
        piece: &[u8],
    ) -> Result<Taken, TakeFault>
        requires { is_some (end_of self.old from) ≡ true }
        ensures takes { TakesPiece (received_from self.old from) (received_from self.new from) core.old core.new from number piece.now result }
        ensures others { ChangesOnly self.old self.new from }
    {
        match self.ends.get_mut(&from) {
            Some(end) => end.take(core, from, number, piece),
            None => unreachable!(),
        }
    }

    /// What was read of the next message of the party is let go.
    pub fn let_go(&mut self, from: Party)
        ensures let_go { LetsGo (received_from self.old from) (received_from self.new from) }
        ensures others { ChangesOnly self.old self.new from }
    {
        match self.ends.get_mut(&from) {
            Some(end) => end.let_go(),
            None => (),
        }
    }
}

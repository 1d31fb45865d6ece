//! All links of a process.
ghost use Rattle.std.specs.Prelude.{◌≡◌, is_some, true, false, None, Err, OnOk, OnErr};
ghost use Rattle.cq_base.specs.declared.party.Party as rust_party;
ghost use Rattle.cq_base.specs.declared.party.Party.TheVariants as parties;
ghost use Rattle.cq_chain.specs.Stands.{Keeps};
ghost use Rattle.cq_process.specs.declared.incoming.TakeFault.TheVariants.{NotNext};
ghost use Rattle.cq_process.specs.declared.outgoing.PutFault.TheVariants as put_faults;
ghost use Rattle.cq_process.specs.Links.{ChangesOnly, IsGoneToo, IsOpened, LetsGo, PutsAt, TakesPiece, ThrowsFrom, end_of, held_at, is_gone, received_from};

use crate::incoming::{TakeFault, Taken};
use crate::incoming_ends::IncomingEnds;
use crate::outgoing::{PutFault, Written};
use crate::outgoing_ends::OutgoingEnds;
use cq_base::{NoMemory, Party, ServerId};
use cq_chain::Server;
use cq_frames::PieceNumber;
use cq_wire::ReadFault;
use indexmap::IndexSet;
use std::alloc::Global;

/// All links of a process: an end for each party from which something was taken, an end for each party to which the link is open,
/// and the parties that are gone. A look at an end is O(1). The ends take memory for no more parties than were named.
#[derive(Drop)]
pub struct Links {
    alloc: Global,
    incoming: IncomingEnds,
    outgoing: OutgoingEnds,
    gone: IndexSet<Party>,
}

impl Links {
    /// Nothing came, no link is open, and nobody is gone. It keeps the allocator.
    pub fn new(alloc: Global) -> Links
        ensures incoming { (party : rust_party.Party) → end_of result.incoming party ≡ None }
        ensures outgoing { (party : rust_party.Party) → end_of result.outgoing party ≡ None }
        ensures gone { (party : rust_party.Party) → is_gone result.gone.keys party ≡ false }
    {
        Links {
            alloc,
            incoming: IncomingEnds::new(alloc),
            outgoing: OutgoingEnds::new(alloc),
            gone: IndexSet::new(alloc),
        }
    }

    /// Whether that party is gone: O(1).
    pub fn is_gone(&self, party: &Party) -> bool
        ensures { result ≡ is_gone self.now.gone.keys party.now }
    {
        self.gone.contains(party)
    }

    /// Whether the link to the party is open: O(1).
    pub fn is_open(&self, to: &Party) -> bool
        ensures { result ≡ is_some (end_of self.now.outgoing to.now) }
    {
        self.outgoing.is_open(to)
    }

    /// Whether a message for the party is being written: some of its pieces are, and others are left. O(1).
    pub fn is_held(&self, to: &Party) -> bool
        ensures { result ≡ is_some (held_at (end_of self.now.outgoing to.now)) }
    {
        self.outgoing.is_held(to)
    }

    /// The link to the party is opened, if it isn't open. After `NoMemory` it isn't.
    pub fn open(&mut self, to: Party) -> Result<(), NoMemory>
        ensures ok { OnOk result (IsOpened (end_of self.old.outgoing to) (end_of self.new.outgoing to)) }
        ensures others { ChangesOnly self.old.outgoing self.new.outgoing to }
        ensures absent { OnErr result (end_of self.old.outgoing to ≡ None) }
        ensures err { OnErr result (end_of self.new.outgoing to ≡ None) }
        ensures incoming { self.new.incoming ≡ self.old.incoming }
        ensures gone { self.new.gone ≡ self.old.gone }
    {
        self.outgoing.open(self.alloc, to)
    }

    /// The piece of that number comes from the party, as `Incoming::take` says. From a party that is gone nothing is the next piece
    /// any more. The first piece of a party takes memory for its end: where there is none, that is `Unread`, and
    /// nothing came.
    ///
    /// O(bytes), expected, and with the last piece what `Server::take_owned` takes.
    pub fn take(
        &mut self,
        core: &mut Server,
        from: Party,
        number: PieceNumber,
        piece: &[u8],
    ) -> Result<Taken, TakeFault>
        ensures takes { is_gone self.old.gone.keys from ≡ false
            → TakesPiece (received_from self.old.incoming from) (received_from self.new.incoming from) core.old core.new from number piece.now result }
        ensures gone { is_gone self.old.gone.keys from ≡ true
            → (result ≡ Err NotNext) × (Keeps core.old core.new × (self.new.incoming ≡ self.old.incoming)) }
        ensures others { ChangesOnly self.old.incoming self.new.incoming from }
        ensures outgoing { self.new.outgoing ≡ self.old.outgoing }
        ensures all_gone { self.new.gone ≡ self.old.gone }
    {
        if self.is_gone(&from) {
            return Err(TakeFault::NotNext);
        }
        if !self.incoming.is_next(&from, number) {
            return Err(TakeFault::NotNext);
        }
        match self.incoming.open(self.alloc, &from) {
            Ok(()) => self.incoming.take(core, from, number, piece),
            Err(_) => Err(TakeFault::Unread(ReadFault::NoMemory)),
        }
    }

    /// Writes the next piece for the party, to which the link is open, as `Outgoing::put_next` says.
    pub fn put_next(
        &mut self,
        core: &mut Server,
        to: Party,
        bytes: &mut Vec<u8>,
        enough: usize,
    ) -> Result<Written, PutFault>
        requires { is_some (end_of self.old.outgoing to) ≡ true }
        ensures puts { PutsAt self.old.outgoing self.new.outgoing core.old core.new to bytes.old.items bytes.new.items result }
        ensures others { ChangesOnly self.old.outgoing self.new.outgoing to }
        ensures incoming { self.new.incoming ≡ self.old.incoming }
        ensures gone { self.new.gone ≡ self.old.gone }
    {
        self.outgoing.put_next(core, to, bytes, enough)
    }

    /// All that waits for the party is put and thrown away, as `Outgoing::throw_all` says; nothing is done where its link isn't open.
    pub fn throw_all(&mut self, core: &mut Server, to: Party) -> Result<(), PutFault>
        ensures throws { ThrowsFrom (end_of self.old.outgoing to) (end_of self.new.outgoing to) core.old core.new to result }
        ensures others { ChangesOnly self.old.outgoing self.new.outgoing to }
        ensures incoming { self.new.incoming ≡ self.old.incoming }
        ensures gone { self.new.gone ≡ self.old.gone }
    {
        self.outgoing.throw_all(core, to)
    }

    /// That server is gone for good, and what was read of its next message is let go. After `NoMemory` nothing is changed.
    fn mark_gone(&mut self, server: ServerId) -> Result<(), NoMemory>
        ensures gone { OnOk result (IsGoneToo self.old.gone.keys self.new.gone.keys (parties.Server server)) }
        ensures let_go { OnOk result (LetsGo (received_from self.old.incoming (parties.Server server)) (received_from self.new.incoming (parties.Server server))) }
        ensures others { ChangesOnly self.old.incoming self.new.incoming (parties.Server server) }
        ensures outgoing { self.new.outgoing ≡ self.old.outgoing }
        ensures same_incoming { OnErr result (self.new.incoming ≡ self.old.incoming) }
        ensures same_gone { OnErr result (self.new.gone.keys ≡ self.old.gone.keys) }
    {
        self.gone.insert(Party::Server(server))?;
        self.incoming.let_go(Party::Server(server));
        Ok(())
    }

    /// That server is gone, for good: what was read of its next message is let go, and all that waits for it is put and thrown away.
    /// What the core has for it later is to be thrown away by `throw_all`. After `NoMemory` nothing is changed, and it can be tried
    /// again; `NumbersSpent` comes behind `LINK_LIMIT` messages, and then some may wait still. O(messages).
    pub fn gone(&mut self, core: &mut Server, server: ServerId) -> Result<(), PutFault>
        ensures gone { (result ≡ Err put_faults.NoMemory → ⊥) → IsGoneToo self.old.gone.keys self.new.gone.keys (parties.Server server) }
        ensures let_go { (result ≡ Err put_faults.NoMemory → ⊥)
            → LetsGo (received_from self.old.incoming (parties.Server server)) (received_from self.new.incoming (parties.Server server)) }
        ensures throws { (result ≡ Err put_faults.NoMemory → ⊥)
            → ThrowsFrom (end_of self.old.outgoing (parties.Server server)) (end_of self.new.outgoing (parties.Server server)) core.old core.new (parties.Server server) result }
        ensures others { ChangesOnly self.old.incoming self.new.incoming (parties.Server server) }
        ensures other_ends { ChangesOnly self.old.outgoing self.new.outgoing (parties.Server server) }
        ensures no_memory { result ≡ Err put_faults.NoMemory → Keeps core.old core.new × ((self.new.incoming ≡ self.old.incoming)
            × ((self.new.outgoing ≡ self.old.outgoing) × (self.new.gone.keys ≡ self.old.gone.keys))) }
    {
        match self.mark_gone(server) {
            Ok(()) => self.throw_all(core, Party::Server(server)),
            Err(_) => Err(PutFault::NoMemory),
        }
    }
}

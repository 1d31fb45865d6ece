//! The master: who is in the chain, and what each member is told.
ghost use Rattle.std.specs.Prelude.{◌≡◌, ◌&&◌, ℕ, List, [], length, option_map, is_none, Err, OnOk, OnErr, IfOk};
ghost use Rattle.cq_base.specs.declared.party.Party as rust_party;
ghost use Rattle.cq_base.specs.declared.party.Party.TheVariants as parties;
ghost use Rattle.cq_chain.specs.declared.fault.WorldFault.TheVariants as faults;
ghost use Rattle.cq_chain.specs.Masters as masters;
ghost use Rattle.cq_chain.specs.Masters.{first_master, detected, joined, hears, refusal_of_detection, refusal_of_join};
ghost use Rattle.cq_chain.specs.Messages as sent;
ghost use Rattle.cq_chain.specs.Next.{IsNext};
ghost use Rattle.cq_chain.specs.Stands.{MasterStandsFor, Orders, KeepsMaster, IsRefusedBy, IsFirst, Means, drained};

mod alone;
mod change;
mod first;
mod hear;
mod neighbours;

use crate::fault::WorldFault;
use crate::identity::is_that;
use crate::message::Message;
use crate::outboxes::Outboxes;
use cq_base::{CHAIN_LIMIT, ChainSize, NoMemory, Party, ServerId};
use first::{first_chain, first_used};
use indexmap::IndexSet;
use std::alloc::Global;

/// The master of the chain, which does not fail (van Renesse and Schneider, section 3). It learns which members
/// have crashed, and tells servers their neighbours. A message waits in an outbox until `put` takes it out.
///
/// The chain has 8 members at most, so they are looked through one by one: where a cost is given, O(members) is
/// O(1). The numbers that were ever used are found by a hash.
///
/// A call makes all the room that it needs before its first change. So after `NoMemory`, as after each other
/// fault, the master is as it was.
pub struct Master {
    alloc: Global,
    chain: Vec<ServerId>,
    told: bool,
    ready: bool,
    joiner: Option<ServerId>,
    used: IndexSet<ServerId>,
    outboxes: Outboxes,
}

/// Written out, not derived: CONTRIBUTING.md, "Drop".
impl Drop for Master {
    fn drop(self) {
        let Master {
            alloc: _,
            chain: _,
            told: _,
            ready: _,
            joiner: _,
            used: _,
            outboxes: _,
        } = self;
    }
}

impl Master {
    /// The master of a first chain, of so many servers: 1 is the head, and the last one acts. It keeps the
    /// allocator.
    pub fn new(alloc: Global, size: ChainSize) -> Result<Master, NoMemory>
        ensures { IfOk result (λ master. MasterStandsFor master (first_master size) (λ _. [])) }
    {
        Ok(Master {
            alloc,
            chain: first_chain(alloc, size)?,
            told: true,
            ready: true,
            joiner: None,
            used: first_used(alloc, size)?,
            outboxes: Outboxes::new(alloc),
        })
    }

    /// It learns that a member of the chain has crashed (van Renesse and Schneider, section 3). Where the head is
    /// gone, the next member is told that it is the head; where the last one is, the one before it that it is the
    /// tail, from which the master then expects `Ready`; and where another one is, the one after it is told its new
    /// predecessor. A server that joined behind the last member is dropped for good where that one is gone; and where
    /// the server that joins is itself gone, the last member is told to feed nobody any more (a choice of this
    /// project). O(members).
    ///
    /// Faults: `NoSuchServer` (31) unless the server is a member or joins, `LastFull` (35) where it is the only
    /// member, `NoMemory` (20).
    pub fn detect(&mut self, id: ServerId) -> Result<(), WorldFault>
        ensures refused { (m : masters.Master) (outbox : rust_party.Party → List sent.Message) → MasterStandsFor self.old m outbox
            → IsRefusedBy (refusal_of_detection id m) result }
        ensures ok { OnOk result (Orders self.old self.new (detected id)) }
        ensures err { OnErr result (KeepsMaster self.old self.new) }
    {
        if is_that(self.joiner, id) {
            self.drop_joiner()?;
            return Ok(());
        }
        if !self.chain.contains(&id) {
            return Err(WorldFault::NoSuchServer);
        }
        if self.chain.len() <= 1 {
            return Err(WorldFault::LastFull);
        }
        self.lose(id)?;
        Ok(())
    }

    /// The last member acts, and no server joins.
    fn is_open(&self) -> bool
        ensures { result ≡ (self.now.ready && is_none self.now.joiner) }
    {
        self.ready && self.joiner.is_none()
    }

    /// Why a join of that number is refused, if it is, but for want of memory, which `join` alone tells. O(1).
    ///
    /// Faults: `IdUsed` (37) where a server had that number before, `ChainFull` (38) where the chain has 8 members,
    /// `JoinPending` (36) until the last member is ready and while another server joins.
    pub fn check_join(&self, id: ServerId) -> Result<(), WorldFault>
        ensures refused { (m : masters.Master) (outbox : rust_party.Party → List sent.Message) → MasterStandsFor self.now m outbox
            → IsRefusedBy (refusal_of_join id m) result }
        ensures memory { ¬ (result ≡ Err faults.NoMemory) }
    {
        if self.used.contains(&id) {
            return Err(WorldFault::IdUsed);
        }
        if usize::from(CHAIN_LIMIT) <= self.chain().len() {
            return Err(WorldFault::ChainFull);
        }
        if !self.is_open() {
            return Err(WorldFault::JoinPending);
        }
        Ok(())
    }

    /// A new server joins behind the last member, which it is told as its predecessor. It becomes a member once it
    /// holds the state (a choice of this project). O(1).
    ///
    /// Faults: those of `check_join`, and `NoMemory` (20).
    pub fn join(&mut self, id: ServerId) -> Result<(), WorldFault>
        ensures refused { (m : masters.Master) (outbox : rust_party.Party → List sent.Message) → MasterStandsFor self.old m outbox
            → IsRefusedBy (refusal_of_join id m) result }
        ensures ok { OnOk result (Orders self.old self.new (joined id)) }
        ensures err { OnErr result (KeepsMaster self.old self.new) }
    {
        self.check_join(id)?;
        self.begin_join(id)?;
        Ok(())
    }

    /// Takes a message of a server (a choice of this project). What is out of date is ignored, and so is what isn't of
    /// a server. O(members).
    ///
    /// - `Have` of a member with the predecessor that it has in the chain: that one is told to adopt it.
    /// - `Have` of the server that joins, with the last member as its predecessor: that one is told to feed it.
    /// - `Caught` of the server that joins, with that predecessor: it is put at the end of the chain, and its
    ///   predecessor is told to adopt it.
    /// - `Adopted` by the predecessor of a last member that wasn't told: that member is told that it is the tail.
    /// - `Ready` of the last member: another server may join.
    ///
    /// Faults: `NoMemory` (20).
    pub fn take(&mut self, from: ServerId, message: &Message) -> Result<(), NoMemory>
        ensures ok { (m : sent.Message) → Means message.now m → OnOk result (Orders self.old self.new (hears from m)) }
        ensures err { OnErr result (KeepsMaster self.old self.new) }
    {
        match message {
            Message::Have { pred, count } => self.hear_have(from, *pred, *count),
            Message::Caught { pred, count } => self.hear_caught(from, *pred, *count),
            Message::Adopted { succ, count } => self.hear_adopted(*succ, *count),
            Message::Ready => {
                self.hear_ready(from);
                Ok(())
            }
            _ => Ok(()),
        }
    }

    /// The first message that waits for that server leaves its outbox; none where nothing waits. It takes no
    /// memory: O(1).
    pub fn put(&mut self, to: ServerId) -> Option<Message>
        ensures first { (m : masters.Master) (outbox : rust_party.Party → List sent.Message) → MasterStandsFor self.old m outbox
            → IsFirst result (outbox (parties.Server to)) }
        ensures drained { (m : masters.Master) (outbox : rust_party.Party → List sent.Message) → MasterStandsFor self.old m outbox
            → MasterStandsFor self.new m (drained outbox (parties.Server to)) }
    {
        self.outboxes.pop(Party::Server(to))
    }

    /// The first message that waits for that server, which stays in its outbox until `put` takes it out: O(1).
    pub fn first_for(&self, to: ServerId) -> Option<&Message>
        ensures { (m : masters.Master) (outbox : rust_party.Party → List sent.Message) → MasterStandsFor self.now m outbox
            → IsFirst (option_map (λ message. message.now) result) (outbox (parties.Server to)) }
    {
        self.outboxes.first(Party::Server(to))
    }

    /// How many messages wait for that server: O(1).
    pub fn waiting(&self, to: ServerId) -> u64
        ensures { (m : masters.Master) (outbox : rust_party.Party → List sent.Message) → MasterStandsFor self.now m outbox
            → result ≡ length (outbox (parties.Server to)) }
    {
        self.outboxes.waiting(Party::Server(to)) as u64
    }

    /// The first server behind that one, or the first of all, by their numbers, for which a message waits: O(servers that a chain
    /// ever had).
    pub fn next_waiting(&self, after: Option<ServerId>) -> Option<ServerId>
        ensures { (m : masters.Master) (outbox : rust_party.Party → List sent.Message) → MasterStandsFor self.now m outbox
            → IsNext after outbox result }
    {
        self.outboxes.next_waiting(after)
    }

    /// The members of the chain, head first: O(1).
    pub fn chain(&self) -> &[ServerId]
        ensures { (m : masters.Master) (outbox : rust_party.Party → List sent.Message) → MasterStandsFor self.now m outbox
            → result.now ≡ m.chain }
    {
        &self.chain
    }

    /// The server that joins and isn't a member yet, if there is one: O(1).
    pub fn joiner(&self) -> Option<ServerId>
        ensures { (m : masters.Master) (outbox : rust_party.Party → List sent.Message) → MasterStandsFor self.now m outbox
            → result ≡ m.joiner }
    {
        self.joiner
    }

    /// Whether the last member of the chain acts as tail, without which no other server may join: O(1).
    pub fn is_ready(&self) -> bool
        ensures { (m : masters.Master) (outbox : rust_party.Party → List sent.Message) → MasterStandsFor self.now m outbox
            → result ≡ m.ready }
    {
        self.ready
    }
}

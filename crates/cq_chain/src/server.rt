//! A server of the chain: its state, and the calls that read it.
ghost use Rattle.std.specs.Prelude.{◌≡◌, ◌≤◌, ◌+◌, ◌-◌, ◌==◌, nat_le, ℕ, List, [], length, option_map, if◌then◌else◌, None, Some, IfOk};
ghost use Rattle.cq_base.specs.declared.limits.TheConstants.{HISTORY_LIMIT};
ghost use Rattle.cq_base.specs.declared.party.Party as rust_party;
ghost use Rattle.cq_chain.specs.Messages as sent;
ghost use Rattle.cq_chain.specs.Next.{IsNext};
ghost use Rattle.cq_chain.specs.Servers as states;
ghost use Rattle.cq_chain.specs.Servers.{first_member, joining, acts, kept};
ghost use Rattle.cq_chain.specs.Stands.{StandsFor, IsFirst, drained};
ghost use Rattle.cq_store.specs.Stands.{count_of};

mod alone;
mod append;
mod arrive;
mod crash;
mod orders;
mod repair;
mod restore;
mod take;

use crate::message::Message;
use crate::outboxes::Outboxes;
use crate::replica::Replica;
use cq_base::{ChainSize, HISTORY_LIMIT, NoMemory, Party, ServerId};
use std::alloc::Global;

/// A server of the chain, with its outboxes (van Renesse and Schneider, "Chain Replication for Supporting High
/// Throughput and Availability", OSDI 2004, section 3). Of its history it keeps the store that answers for it, and
/// the entries that its successor may still need. A message waits in an outbox until `put` takes it out.
///
/// A call makes all the room that it needs before its first change. So after `NoMemory`, as after each other
/// fault, the server is as it was.
pub struct Server {
    alloc: Global,
    replica: Replica,
    acked: u64,
    pred: Option<ServerId>,
    succ: Option<ServerId>,
    head: bool,
    at_least: Option<u64>,
    full: bool,
    down: bool,
    outboxes: Outboxes,
}

/// Written out, not derived: CONTRIBUTING.md, "Drop".
impl Drop for Server {
    fn drop(self) {
        let Server {
            alloc: _,
            replica: _,
            acked: _,
            pred: _,
            succ: _,
            head: _,
            at_least: _,
            full: _,
            down: _,
            outboxes: _,
        } = self;
    }
}

/// The server before that one, in a first chain.
fn before(id: ServerId) -> Option<ServerId>
    ensures { result ≡ (if id == 1 then None else Some (id - 1)) }
{
    ServerId::new(id.get() - 1)
}

/// The server after that one, in a first chain of so many.
fn after(id: ServerId, size: ChainSize) -> Option<ServerId>
    requires { id ≤ size }
    ensures { result ≡ (if id == size then None else Some (id + 1)) }
{
    if id.get() == u32::from(size.get()) {
        None
    } else {
        ServerId::new(id.get() + 1)
    }
}

/// The last server of a first chain acts from the start.
fn first_least(id: ServerId, size: ChainSize) -> Option<u64>
    ensures { result ≡ (if id == size then Some 0 else None) }
{
    if id.get() == u32::from(size.get()) {
        Some(0)
    } else {
        None
    }
}

impl Server {
    /// A member of the first chain, of so many servers: server 1 is its head, the last one its tail, which acts
    /// at once. It keeps the allocator.
    pub fn first(alloc: Global, id: ServerId, size: ChainSize) -> Result<Server, NoMemory>
        requires { id ≤ size }
        ensures { IfOk result (λ server. StandsFor server (first_member size id) (λ _. [])) }
    {
        Ok(Server {
            alloc,
            replica: Replica::new(alloc)?,
            acked: 0,
            pred: before(id),
            succ: after(id, size),
            head: id.get() == 1,
            at_least: first_least(id, size),
            full: true,
            down: false,
            outboxes: Outboxes::new(alloc),
        })
    }

    /// The server of that number, which joins a chain later (a choice of this project). It has no entry and no
    /// neighbour, until the master tells it of one, and nothing of it depends on its number. It keeps the allocator.
    pub fn joining(alloc: Global, _id: ServerId) -> Result<Server, NoMemory>
        ensures { IfOk result (λ server. StandsFor server joining (λ _. [])) }
    {
        Ok(Server {
            alloc,
            replica: Replica::new(alloc)?,
            acked: 0,
            pred: None,
            succ: None,
            head: false,
            at_least: None,
            full: false,
            down: false,
            outboxes: Outboxes::new(alloc),
        })
    }

    /// The first message that waits for that party leaves its outbox; none where nothing waits. It takes no
    /// memory: O(1).
    pub fn put(&mut self, to: Party) -> Option<Message>
        ensures first { (s : states.Server) (outbox : rust_party.Party → List sent.Message) → StandsFor self.old s outbox
            → IsFirst result (outbox to) }
        ensures drained { (s : states.Server) (outbox : rust_party.Party → List sent.Message) → StandsFor self.old s outbox
            → StandsFor self.new s (drained outbox to) }
    {
        self.outboxes.pop(to)
    }

    /// The first message that waits for that party, which stays in its outbox until `put` takes it out: O(1).
    pub fn first_for(&self, to: Party) -> Option<&Message>
        ensures { (s : states.Server) (outbox : rust_party.Party → List sent.Message) → StandsFor self.now s outbox
            → IsFirst (option_map (λ message. message.now) result) (outbox to) }
    {
        self.outboxes.first(to)
    }

    /// How many messages wait for that party: O(1).
    pub fn waiting(&self, to: Party) -> u64
        ensures { (s : states.Server) (outbox : rust_party.Party → List sent.Message) → StandsFor self.now s outbox
            → result ≡ length (outbox to) }
    {
        self.outboxes.waiting(to) as u64
    }

    /// The first server behind that one, or the first of all, by their numbers, for which a message waits: O(servers to which a
    /// message was ever to be sent).
    pub fn next_waiting(&self, after: Option<ServerId>) -> Option<ServerId>
        ensures { (s : states.Server) (outbox : rust_party.Party → List sent.Message) → StandsFor self.now s outbox
            → IsNext after outbox result }
    {
        self.outboxes.next_waiting(after)
    }

    /// How many entries its history has: O(1).
    pub fn count(&self) -> u64
        ensures { (s : states.Server) (outbox : rust_party.Party → List sent.Message) → StandsFor self.now s outbox
            → result ≡ length s.entries }
    {
        self.replica.count()
    }

    /// How many of its entries it keeps one by one, since they may have to be sent once more: O(1). All others are
    /// forgotten, but for what they did to the store.
    pub fn kept(&self) -> u64
        ensures { (s : states.Server) (outbox : rust_party.Party → List sent.Message) → StandsFor self.now s outbox
            → result ≡ kept s }
    {
        self.replica.kept()
    }

    /// How many of its entries are known to have reached the tail: O(1).
    pub fn acked(&self) -> u64
        ensures { (s : states.Server) (outbox : rust_party.Party → List sent.Message) → StandsFor self.now s outbox
            → result ≡ s.acked }
    {
        self.acked
    }

    /// Whether requests arrive at it: O(1).
    pub fn is_head(&self) -> bool
        ensures { (s : states.Server) (outbox : rust_party.Party → List sent.Message) → StandsFor self.now s outbox
            → result ≡ s.head }
    {
        self.head
    }

    /// Whether it acts as tail, and so answers: O(1).
    pub fn is_acting(&self) -> bool
        ensures { (s : states.Server) (outbox : rust_party.Party → List sent.Message) → StandsFor self.now s outbox
            → result ≡ acts s }
    {
        match self.at_least {
            Some(least) => least <= self.replica.count(),
            None => false,
        }
    }

    /// Whether it was a member of the first chain, or has acted as tail: O(1).
    pub fn is_full(&self) -> bool
        ensures { (s : states.Server) (outbox : rust_party.Party → List sent.Message) → StandsFor self.now s outbox
            → result ≡ s.full }
    {
        self.full
    }

    /// Whether it has crashed: O(1).
    pub fn is_down(&self) -> bool
        ensures { (s : states.Server) (outbox : rust_party.Party → List sent.Message) → StandsFor self.now s outbox
            → result ≡ s.down }
    {
        self.down
    }

    /// It may take no more entry.
    fn is_at_limit(&self) -> bool
        ensures { result ≡ nat_le HISTORY_LIMIT (count_of self.now.replica.store) }
    {
        HISTORY_LIMIT <= self.replica.count()
    }
}

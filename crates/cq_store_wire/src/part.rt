//! The parts of a store, and what each does to one that is made of them.
ghost use Rattle.std.specs.Prelude.{◌≡◌, Some};
ghost use Rattle.cq_wire.specs.Reading.{Gives};
ghost use Rattle.cq_store_wire.specs.Building.{closed, in_name, put, with_accepted, with_message};

use crate::build::State;
use crate::open_queue::OpenQueue;
use crate::reply::ReplyRecord;
use cq_base::{Moment, QueueName};
use cq_messages::Message;
use cq_queue::{Accepted, Queue};
use cq_store::{QueueRecord, Store};
use cq_wire::{ReadFault, WireFault};
use std::alloc::Global;

/// A name, and what is kept of it.
pub struct NameRecord {
    pub name: QueueName,
    /// How many creations took effect.
    pub creations: u64,
    /// When the last removal took effect.
    pub removed: Option<Moment>,
    /// The incarnation as which the queue lives.
    pub living: Option<OpenQueue>,
}

/// Written out, not derived: CONTRIBUTING.md, "Drop".
impl Drop for NameRecord {
    fn drop(self) {
        let NameRecord {
            name: _,
            creations: _,
            removed: _,
            living: _,
        } = self;
    }
}

/// The queue with that message behind all others.
fn with_message(queue: OpenQueue, message: Message) -> Result<OpenQueue, ReadFault>
    ensures { Gives (λ q. q) result (with_message message queue) }
{
    if queue.accepted(0).is_some() {
        return Err(ReadFault::Bad(WireFault::BadTag));
    }
    let mut queue = queue;
    match queue.restore_message(message) {
        Ok(true) => Ok(queue),
        Ok(false) => Err(ReadFault::Bad(WireFault::BadNumber)),
        Err(_) => Err(ReadFault::NoMemory),
    }
}

/// The queue with that accepted send behind all others whose ids are kept.
fn with_accepted(queue: OpenQueue, accepted: Accepted) -> Result<OpenQueue, ReadFault>
    ensures { Gives (λ q. q) result (with_accepted accepted queue) }
{
    let mut queue = queue;
    match queue.restore_accepted(accepted) {
        Ok(true) => Ok(queue),
        Ok(false) => Err(ReadFault::Bad(WireFault::BadNumber)),
        Err(_) => Err(ReadFault::NoMemory),
    }
}

/// The queue, if there is one, to which nothing more comes.
fn closed_if(living: Option<OpenQueue>) -> Option<Queue>
    ensures { result ≡ living }
{
    match living {
        Some(queue) => Some(queue.closed()),
        None => None,
    }
}

impl NameRecord {
    #[tactic(auto, unfolding(crate::specs::Building::in_name))]
    pub fn with_message(self, message: Message) -> Result<NameRecord, ReadFault>
        ensures { Gives (λ n. n) result (in_name (with_message message) self self.living) }
    {
        let NameRecord {
            name,
            creations,
            removed,
            living,
        } = self;
        match living {
            Some(queue) => Ok(NameRecord {
                name,
                creations,
                removed,
                living: Some(with_message(queue, message)?),
            }),
            None => Err(ReadFault::Bad(WireFault::BadTag)),
        }
    }

    #[tactic(auto, unfolding(crate::specs::Building::in_name))]
    pub fn with_accepted(self, accepted: Accepted) -> Result<NameRecord, ReadFault>
        ensures { Gives (λ n. n) result (in_name (with_accepted accepted) self self.living) }
    {
        let NameRecord {
            name,
            creations,
            removed,
            living,
        } = self;
        match living {
            Some(queue) => Ok(NameRecord {
                name,
                creations,
                removed,
                living: Some(with_accepted(queue, accepted)?),
            }),
            None => Err(ReadFault::Bad(WireFault::BadTag)),
        }
    }

    /// The store with the name behind all others.
    pub fn close(self, store: Store) -> Result<Store, ReadFault>
        ensures { Gives (λ s. s) result (closed store (Some self)) }
    {
        let NameRecord {
            name,
            creations,
            removed,
            living,
        } = self;
        let mut store = store;
        let record = QueueRecord::restored(creations, removed, closed_if(living));
        match store.restore_name(name, record) {
            Ok(true) => Ok(store),
            Ok(false) => Err(ReadFault::Bad(WireFault::BadNumber)),
            Err(_) => Err(ReadFault::NoMemory),
        }
    }
}

/// A part of a store. They come in this order, the messages and accepted sends of a queue behind its name.
pub enum Part {
    /// How many entries the store took, and the moment of the last.
    Start {
        count: u64,
        last: Moment,
    },
    /// A client, its largest number, and the reply that is kept.
    Client {
        client: u32,
        number: u64,
        reply: ReplyRecord,
    },
    /// A name; its queue has no messages yet, and no accepted sends.
    Name(NameRecord),
    /// A message of the queue of the last name.
    Message(Message),
    /// An accepted send to it whose id is kept.
    Accepted(Accepted),
    /// The store is whole.
    End,
}

/// Written out, not derived: CONTRIBUTING.md, "Drop".
impl Drop for Part {
    fn drop(self) {
        match self {
            Part::Start { count: _, last: _ } => (),
            Part::Client {
                client: _,
                number: _,
                reply: _,
            } => (),
            Part::Name(_) => (),
            Part::Message(_) => (),
            Part::Accepted(_) => (),
            Part::End => (),
        }
    }
}

impl Part {
    /// What the part makes of it. O(bytes of the part), expected, and amortized over a store.
    #[tactic(auto, unfolding(crate::specs::Building::put))]
    pub fn put_into(self, alloc: Global, state: State) -> Result<State, ReadFault>
        ensures { Gives (λ s. s) result (put self state) }
    {
        match self {
            Part::Start { count, last } => state.put_start(alloc, count, last),
            Part::Client {
                client,
                number,
                reply,
            } => state.put_client(alloc, client, number, reply),
            Part::Name(named) => state.put_name(named),
            Part::Message(message) => state.put_message(message),
            Part::Accepted(accepted) => state.put_accepted(accepted),
            Part::End => state.put_end(),
        }
    }
}

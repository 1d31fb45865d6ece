//! A store that is made of its parts, one after another.
ghost use Rattle.std.specs.Prelude.{◌≡◌};
ghost use Rattle.cq_wire.specs.Reading.{Gives};
ghost use Rattle.cq_store_wire.specs.Building.{client_into, put_client, put_end, put_name, put_start, put_step, step_into, whole_of, with_accepted, with_message};

use crate::part::NameRecord;
use crate::partial_store::PartialStore;
use crate::reply::ReplyRecord;
use cq_base::Moment;
use cq_messages::Message;
use cq_queue::Accepted;
use cq_store::Store;
use cq_wire::{ReadFault, WireFault};
use std::alloc::Global;

/// How far a store is made.
pub enum State {
    /// No part came.
    Empty,
    /// The store so far, and the name that came last, to whose queue messages and accepted sends may come.
    Begun {
        store: PartialStore,
        newest: Option<NameRecord>,
    },
    /// All came.
    Whole(Store),
}

/// Written out, not derived: CONTRIBUTING.md, "Drop".
impl Drop for State {
    fn drop(self) {
        match self {
            State::Empty => (),
            State::Begun {
                store: _,
                newest: _,
            } => (),
            State::Whole(_) => (),
        }
    }
}

#[tactic(auto, unfolding(crate::specs::Building::client_into))]
fn client_into(
    alloc: Global,
    store: PartialStore,
    newest: Option<NameRecord>,
    client: u32,
    number: u64,
    reply: ReplyRecord,
) -> Result<State, ReadFault>
    ensures { Gives (λ s. s) result (client_into client number reply store newest) }
{
    match newest {
        Some(_) => Err(ReadFault::Bad(WireFault::BadTag)),
        None => Ok(State::Begun {
            store: store.with_client(alloc, client, number, reply)?,
            newest: None,
        }),
    }
}

#[tactic(auto, unfolding(crate::specs::Building::step_into))]
fn message_into(
    store: PartialStore,
    newest: Option<NameRecord>,
    message: Message,
) -> Result<State, ReadFault>
    ensures { Gives (λ s. s) result (step_into (with_message message) store newest) }
{
    match newest {
        Some(named) => Ok(State::Begun {
            store,
            newest: Some(named.with_message(message)?),
        }),
        None => Err(ReadFault::Bad(WireFault::BadTag)),
    }
}

#[tactic(auto, unfolding(crate::specs::Building::step_into))]
fn accepted_into(
    store: PartialStore,
    newest: Option<NameRecord>,
    accepted: Accepted,
) -> Result<State, ReadFault>
    ensures { Gives (λ s. s) result (step_into (with_accepted accepted) store newest) }
{
    match newest {
        Some(named) => Ok(State::Begun {
            store,
            newest: Some(named.with_accepted(accepted)?),
        }),
        None => Err(ReadFault::Bad(WireFault::BadTag)),
    }
}

impl State {
    #[tactic(auto, unfolding(crate::specs::Building::put_start))]
    pub fn put_start(self, alloc: Global, count: u64, last: Moment) -> Result<State, ReadFault>
        ensures { Gives (λ s. s) result (put_start count last self) }
    {
        match self {
            State::Empty => Ok(State::Begun {
                store: PartialStore::new(alloc, count, last),
                newest: None,
            }),
            _ => Err(ReadFault::Bad(WireFault::BadTag)),
        }
    }

    #[tactic(auto, unfolding(crate::specs::Building::put_client))]
    pub fn put_client(
        self,
        alloc: Global,
        client: u32,
        number: u64,
        reply: ReplyRecord,
    ) -> Result<State, ReadFault>
        ensures { Gives (λ s. s) result (put_client client number reply self) }
    {
        match self {
            State::Begun { store, newest } => {
                client_into(alloc, store, newest, client, number, reply)
            }
            _ => Err(ReadFault::Bad(WireFault::BadTag)),
        }
    }

    #[tactic(auto, unfolding(crate::specs::Building::put_name))]
    pub fn put_name(self, named: NameRecord) -> Result<State, ReadFault>
        ensures { Gives (λ s. s) result (put_name named self) }
    {
        match self {
            State::Begun { store, newest } => Ok(State::Begun {
                store: store.closed(newest)?,
                newest: Some(named),
            }),
            _ => Err(ReadFault::Bad(WireFault::BadTag)),
        }
    }

    #[tactic(auto, unfolding(crate::specs::Building::put_step))]
    pub fn put_message(self, message: Message) -> Result<State, ReadFault>
        ensures { Gives (λ s. s) result (put_step (with_message message) self) }
    {
        match self {
            State::Begun { store, newest } => message_into(store, newest, message),
            _ => Err(ReadFault::Bad(WireFault::BadTag)),
        }
    }

    #[tactic(auto, unfolding(crate::specs::Building::put_step))]
    pub fn put_accepted(self, accepted: Accepted) -> Result<State, ReadFault>
        ensures { Gives (λ s. s) result (put_step (with_accepted accepted) self) }
    {
        match self {
            State::Begun { store, newest } => accepted_into(store, newest, accepted),
            _ => Err(ReadFault::Bad(WireFault::BadTag)),
        }
    }

    #[tactic(auto, unfolding(crate::specs::Building::put_end))]
    pub fn put_end(self) -> Result<State, ReadFault>
        ensures { Gives (λ s. s) result (put_end self) }
    {
        match self {
            State::Begun { store, newest } => Ok(State::Whole(store.closed(newest)?.whole())),
            _ => Err(ReadFault::Bad(WireFault::BadTag)),
        }
    }

    /// The store, if all came.
    pub fn store(self) -> Option<Store>
        ensures { result ≡ whole_of self }
    {
        match self {
            State::Whole(store) => Some(store),
            _ => None,
        }
    }
}

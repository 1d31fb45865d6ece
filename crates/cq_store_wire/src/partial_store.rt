//! A store of which some clients and names came.
ghost use Rattle.std.specs.Prelude.{◌≡◌, []};
ghost use Rattle.cq_wire.specs.Reading.{Gives};
ghost use Rattle.cq_store_wire.specs.Building.{closed, with_client, with_reply};

use crate::bodies::Bodies;
use crate::part::NameRecord;
use crate::reply::ReplyRecord;
use crate::resolved::reply_of;
use cq_base::{Moment, Reply};
use cq_store::Store;
use cq_wire::{ReadFault, WireFault};
use std::alloc::Global;
use std::marker::Model;

/// A store of which some clients and names came, and the bodies in its kept replies by their numbers.
pub struct PartialStore {
    store: Store,
    bodies: Bodies,
}

/// Written out, not derived: CONTRIBUTING.md, "Drop".
impl Drop for PartialStore {
    fn drop(self) {
        let PartialStore {
            store: _,
            bodies: _,
        } = self;
    }
}

impl Model for PartialStore {
    ghost use Rattle.std.specs.Prelude.{◌≡◌};
    ghost use Rattle.cq_store.specs.Stands.{StoreKept};
    ghost use Rattle.cq_store_wire.specs.Bodies.{bodies_of};

    ghost Value = { StoreKept };

    ghost view = { λ p. p.store };

    ghost invariant = { λ p. p.bodies ≡ bodies_of p.store.clients };
}

/// The store with that client behind all others.
fn with_reply(store: Store, client: u32, number: u64, reply: Reply) -> Result<Store, ReadFault>
    ensures { Gives (λ s. s) result (with_reply client number reply store) }
{
    let mut store = store;
    match store.restore_client(client, number, reply) {
        Ok(true) => Ok(store),
        Ok(false) => Err(ReadFault::Bad(WireFault::BadNumber)),
        Err(_) => Err(ReadFault::NoMemory),
    }
}

impl PartialStore {
    /// No client and no name came.
    pub fn new(alloc: Global, count: u64, last: Moment) -> PartialStore
        ensures { result ≡ record { count = count; last = last; clients = []; queues = [] } }
    {
        PartialStore {
            store: Store::restored(alloc, count, last),
            bodies: Bodies::new(alloc),
        }
    }

    /// The same with that client behind all others. O(bytes of the reply), expected and amortized.
    #[tactic(auto, unfolding(crate::specs::Building::with_client))]
    pub fn with_client(
        self,
        alloc: Global,
        client: u32,
        number: u64,
        reply: ReplyRecord,
    ) -> Result<PartialStore, ReadFault>
        ensures { Gives (λ s. s) result (with_client client number reply self) }
    {
        let PartialStore { store, bodies } = self;
        if store.name_count() > 0 {
            return Err(ReadFault::Bad(WireFault::BadTag));
        }
        let mut bodies = bodies;
        let reply = match reply_of(alloc, &mut bodies, reply) {
            Ok(reply) => reply,
            Err(fault) => return Err(fault),
        };
        let store = match with_reply(store, client, number, reply) {
            Ok(store) => store,
            Err(fault) => return Err(fault),
        };
        Ok(PartialStore { store, bodies })
    }

    /// The same with the name that came last, if one did.
    #[tactic(auto, unfolding(crate::specs::Building::closed))]
    pub fn closed(self, newest: Option<NameRecord>) -> Result<PartialStore, ReadFault>
        ensures { Gives (λ s. s) result (closed self newest) }
    {
        let PartialStore { store, bodies } = self;
        match newest {
            Some(named) => match named.close(store) {
                Ok(store) => Ok(PartialStore { store, bodies }),
                Err(fault) => Err(fault),
            },
            None => Ok(PartialStore { store, bodies }),
        }
    }

    /// The store, of which nothing more comes.
    pub fn whole(self) -> Store
        ensures { result ≡ self }
    {
        let PartialStore { store, bodies: _ } = self;
        store
    }
}

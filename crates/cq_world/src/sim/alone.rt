//! The world of one server alone, at rest: its store is all that has to be known of it.
ghost use Rattle.std.specs.Prelude.{◌≡◌, ◌==◌, List, [], length, true, option_map, Some, IfOk, IfSome};
ghost use Rattle.std.specs.List.{list_all};
ghost use Rattle.std.specs.Map.{values_of};
ghost use Rattle.cq_base.specs.declared.ask.Entry.{Entry};
ghost use Rattle.cq_base.specs.declared.party.Party.{Party};
ghost use Rattle.cq_chain.specs.declared.server.Server as rust_server;
ghost use Rattle.cq_chain.specs.Masters as masters;
ghost use Rattle.cq_chain.specs.Masters.{first_master};
ghost use Rattle.cq_chain.specs.Messages.{Message};
ghost use Rattle.cq_chain.specs.Stands.{MasterStandsFor};
ghost use Rattle.cq_events.specs.Worlds.{IsAlone, World};
ghost use Rattle.cq_store.specs.Stands as stores;
ghost use Rattle.cq_world.specs.Stands.{StandsFor, Shows};
ghost use Rattle.cq_world.specs.within.AtRest.{IsAtRest};
ghost use Rattle.cq_world.specs.within.Kept.{server_at};

use super::Sim;
use crate::links::Links;
use cq_base::{ChainSize, NoMemory, ServerId};
use cq_chain::{Master, Server};
use cq_store::Store;
use indexmap::IndexMap;
use std::alloc::Global;

impl Sim {
    /// One server alone, at rest, whose store that is. It keeps the allocator. O(1).
    pub fn alone(alloc: Global, store: Store) -> Result<Sim, NoMemory>
        ensures { (entries : List Entry) (w : World) → stores.StandsFor store entries → IsAlone entries w → IfOk result (λ sim. StandsFor sim w) }
    {
        match (ServerId::new(1), ChainSize::new(1)) {
            (Some(id), Some(size)) => {
                let master = Master::new(alloc, size)?;
                let mut servers = IndexMap::new(alloc);
                servers.insert(id, Server::alone(alloc, store))?;
                Ok(Sim {
                    alloc,
                    servers,
                    links: Links::new(alloc),
                    master,
                })
            }
            _ => unreachable!(),
        }
    }

    /// The store of the server that is alone and at rest: none where there ever was another one, or where a message or an
    /// answer is on its way. O(links).
    pub fn store_alone(&self) -> Option<&Store>
        ensures rests { Shows self.now (λ w. IfSome (option_map (λ s. s.now) result) (λ store. (entries : List Entry) × stores.StandsFor store entries × IsAlone entries w)) }

        // The sim stands for each world of a server alone for whose entries the store stands.
        ensures again { IfSome (option_map (λ s. s.now) result) (λ store. (entries : List Entry) (w : World) → stores.StandsFor store entries → IsAlone entries w → StandsFor self.now w) }
    {
        if !self.is_settled_alone() {
            return None;
        }
        match ServerId::new(1) {
            Some(id) => self.store_at_rest(id),
            None => unreachable!(),
        }
    }

    /// There is one server, the master knows of no other, and nothing stands in a link.
    fn is_settled_alone(&self) -> bool
        ensures one { result ≡ true → length self.now.servers.entries ≡ 1 }
        ensures state { (m : masters.Master) (outbox : Party → List Message) → result ≡ true → MasterStandsFor self.now.master m outbox → m ≡ first_master 1 }
        ensures nothing { (m : masters.Master) (outbox : Party → List Message) → result ≡ true → MasterStandsFor self.now.master m outbox → (to : Party) → outbox to ≡ [] }
        ensures again { (outbox : Party → List Message) → result ≡ true → ((to : Party) → outbox to ≡ []) → MasterStandsFor self.now.master (first_master 1) outbox }
        ensures links { result ≡ true → list_all (λ fifo. length fifo.messages == 0) (values_of self.now.links) ≡ true }
    {
        if self.servers.len() != 1 {
            return false;
        }
        self.master.is_alone() && self.links.is_empty()
    }

    /// The store of that server, if it is one of a chain of one, at rest.
    fn store_at_rest(&self, id: ServerId) -> Option<&Store>
        ensures { IfSome (option_map (λ s. s.now) result) (λ store. (kept : rust_server.Server) × (server_at self.now.servers id ≡ Some kept) × IsAtRest kept store) }
    {
        match self.servers.get(&id) {
            Some(server) if server.is_alone() => Some(server.store()),
            _ => None,
        }
    }
}

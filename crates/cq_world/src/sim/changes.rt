//! Crashes, detections and joins.
ghost use Rattle.std.specs.Prelude.{◌≡◌, ◌&&◌, ◌<◌, [], not, Err, IfOk, OnOk};
ghost use Rattle.indexmap.specs.IndexMap.{spare};
ghost use Rattle.cq_chain.specs.Servers.{joining};
ghost use Rattle.cq_chain.specs.Stands as chain;
ghost use Rattle.cq_chain.specs.declared.fault.WorldFault.TheVariants as faults;
ghost use Rattle.cq_events.specs.Events.{another_full};
ghost use Rattle.cq_world.specs.Stands.{StandsFor, Shows, IsRefused};
ghost use Rattle.cq_world.specs.within.Calls.{IsDone};
ghost use Rattle.cq_events.specs.Worlds.{is_in};
ghost use Rattle.cq_events.specs.declared.event.Event.TheVariants as events;

use super::Sim;
use cq_base::{NoMemory, ServerId};
use cq_chain::{Server, WorldFault};

impl Sim {
    /// The server is there, is full, and lives: O(1).
    fn serves(&self, id: &ServerId) -> bool
        ensures { Shows self.now (λ w. result ≡ (is_in w.master.used id.now && (w.server id.now).full && not (w.server id.now).down)) }
    {
        match self.servers.get(id) {
            Some(server) => server.is_full() && !server.is_down(),
            None => false,
        }
    }

    /// Another server than that one is full and lives: O(servers).
    fn has_another_full(&self, id: ServerId) -> bool
        ensures { Shows self.now (λ w. result ≡ another_full w id) }
    {
        for other in self.servers.keys().as_slice() {
            if *other != id && self.serves(other) {
                return true;
            }
        }
        false
    }

    /// A server crashes, unless it is the last one that is full and lives (a choice of this project). It takes no
    /// memory: O(servers).
    pub(super) fn crash(&mut self, id: ServerId) -> Result<(), WorldFault>
        ensures ok { IsDone self.old self.new (events.Crash id) result }
        ensures err { IsRefused self.old self.new (events.Crash id) result }
        ensures memory { ¬ (result ≡ Err faults.NoMemory) }
    {
        let is_last = !self.has_another_full(id);
        match self.servers.get_mut(&id) {
            Some(server) => {
                if server.is_down() {
                    return Err(WorldFault::ServerDown);
                }
                if is_last {
                    return Err(WorldFault::LastFull);
                }
                server.crash();
                Ok(())
            }
            None => Err(WorldFault::NoSuchServer),
        }
    }

    /// The master learns that a server has crashed.
    pub(super) fn detect(&mut self, id: ServerId) -> Result<(), WorldFault>
        ensures ok { IsDone self.old self.new (events.Detect id) result }
        ensures err { IsRefused self.old self.new (events.Detect id) result }
    {
        match self.servers.get(&id) {
            Some(server) => {
                if !server.is_down() {
                    return Err(WorldFault::NotDown);
                }
                self.master.detect(id)
            }
            None => Err(WorldFault::NoSuchServer),
        }
    }

    /// A server that joins under that number, with room for it in the map.
    fn make_joining(&mut self, id: ServerId) -> Result<Server, NoMemory>
        ensures same { Shows self.old (λ w. StandsFor self.new w) }
        ensures server { IfOk result (λ server. chain.StandsFor server joining (λ _. [])) }
        ensures room { OnOk result (0 < spare self.new.servers) }
    {
        self.servers.reserve(1)?;
        Server::joining(self.alloc, id)
    }

    /// A new server joins, unless the master refuses. It and its place are made before the master learns of it.
    pub(super) fn join(&mut self, id: ServerId) -> Result<(), WorldFault>
        ensures ok { IsDone self.old self.new (events.Join id) result }
        ensures err { IsRefused self.old self.new (events.Join id) result }
    {
        self.master.check_join(id)?;
        let server = self.make_joining(id)?;
        self.master.join(id)?;
        match self.servers.insert(id, server) {
            Ok(_) => Ok(()),
            Err(_) => unreachable!(),
        }
    }
}

//! Requests and queries that come to servers.
ghost use Rattle.cq_world.specs.Stands.{IsRefused};
ghost use Rattle.cq_world.specs.within.Calls.{IsDone};
ghost use Rattle.cq_events.specs.declared.event.Event.TheVariants as events;

use super::Sim;
use cq_base::{Moment, Query, Request, ServerId};
use cq_chain::WorldFault;

impl Sim {
    /// A request arrives at a server.
    pub(super) fn arrive(
        &mut self,
        at: ServerId,
        clock: Moment,
        request: &Request,
    ) -> Result<(), WorldFault>
        ensures ok { IsDone self.old self.new (events.Arrive at clock request.now) result }
        ensures err { IsRefused self.old self.new (events.Arrive at clock request.now) result }
    {
        match self.servers.get_mut(&at) {
            Some(server) => {
                if server.is_down() {
                    return Err(WorldFault::ServerDown);
                }
                server.arrive(request, clock)
            }
            None => Err(WorldFault::NoSuchServer),
        }
    }

    /// A query comes to a server.
    pub(super) fn ask(&mut self, at: ServerId, query: &Query) -> Result<(), WorldFault>
        ensures ok { IsDone self.old self.new (events.Ask at query.now) result }
        ensures err { IsRefused self.old self.new (events.Ask at query.now) result }
    {
        match self.servers.get_mut(&at) {
            Some(server) => {
                if server.is_down() {
                    return Err(WorldFault::ServerDown);
                }
                server.ask(query)
            }
            None => Err(WorldFault::NoSuchServer),
        }
    }
}

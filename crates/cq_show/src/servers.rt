//! The servers that are shown.
ghost use Rattle.std.specs.Prelude.{◌≡◌, List, IfOk, ◌++◌, OnOk, map};
ghost use Rattle.cq_base.specs.declared.party.Party as rust_party;
ghost use Rattle.cq_chain.specs.Messages as sent;
ghost use Rattle.cq_chain.specs.Servers as states;
ghost use Rattle.cq_chain.specs.Stands.{StandsFor};
ghost use Rattle.cq_world.specs.Stands.{Shows};
ghost use Rattle.cq_show.specs.Worlds.{parties_of, server_of, servers_at, servers_of};

use cq_base::{NoMemory, Party, ServerId};
use cq_chain::Server;
use cq_show_line::ShownServer;
use cq_world::Sim;
use std::alloc::Global;

/// Servers with larger numbers aren't shown, but as members of the chain.
pub const SHOWN_NUMBERS: u32 = 1_000;

/// A server as it is shown: O(1).
fn shown_server(id: ServerId, server: &Server) -> ShownServer
    ensures { (s : states.Server) (outbox : rust_party.Party → List sent.Message) → StandsFor server.now s outbox
        → result ≡ server_of id s }
{
    ShownServer {
        id,
        is_down: server.is_down(),
        is_head: server.is_head(),
        is_acting: server.is_acting(),
        is_full: server.is_full(),
        count: server.count(),
        acked: server.acked(),
    }
}

/// Adds the server of that number, if there is one.
fn add_server(servers: &mut Vec<ShownServer>, sim: &Sim, id: ServerId) -> Result<(), NoMemory>
    ensures { Shows sim.now (λ w. OnOk result (servers.new.items ≡ servers.old.items ++ servers_at w id)) }
{
    match sim.server(id) {
        Some(server) => {
            servers.push(shown_server(id, server))?;
            Ok(())
        }
        None => Ok(()),
    }
}

/// The servers that are shown: O(`SHOWN_NUMBERS`).
pub fn shown_servers(alloc: Global, sim: &Sim) -> Result<Vec<ShownServer>, NoMemory>
    ensures { Shows sim.now (λ w. IfOk result (λ servers. servers.items ≡ servers_of w)) }
{
    let mut servers = Vec::new(alloc);
    for before in 0..SHOWN_NUMBERS {
        match ServerId::new(before + 1) {
            Some(id) => add_server(&mut servers, sim, id)?,
            None => unreachable!(),
        }
    }
    Ok(servers)
}

/// The parties of which ways are shown: O(servers).
pub fn shown_parties(alloc: Global, servers: &[ShownServer]) -> Result<Vec<Party>, NoMemory>
    ensures { IfOk result (λ parties. parties.items ≡ parties_of servers.now) }
{
    let mut parties = Vec::new(alloc);
    parties.push(Party::Master)?;
    parties.push(Party::Clients)?;
    for server in servers {
        parties.push(Party::Server(server.id))?;
    }
    Ok(parties)
}

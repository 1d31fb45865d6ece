//! What is on its way, as it is shown.
ghost use Rattle.std.specs.Prelude.{◌≡◌, ◌++◌, ◌||◌, nat_lt, List, IfOk, OnOk};
ghost use Rattle.cq_base.specs.declared.party.Party as rust_party;
ghost use Rattle.cq_chain.specs.Messages as sent;
ghost use Rattle.cq_chain.specs.Servers as states;
ghost use Rattle.cq_chain.specs.Stands.{StandsFor};
ghost use Rattle.cq_world.specs.Stands.{Shows};
ghost use Rattle.cq_base.specs.declared.party.Party.TheVariants as parties;
ghost use Rattle.cq_show.specs.Worlds.{if_used, next_of, way_of, ways_from, ways_of};

use crate::message::shown_message;
use cq_base::{NoMemory, Party, ServerId};
use cq_chain::Server;
use cq_show_line::{NextMessage, Way};
use cq_world::Sim;
use std::alloc::Global;

/// The message of that server which leaves its outbox next.
fn next_at(server: &Server, to: &Party) -> Option<NextMessage>
    ensures { (s : states.Server) (outbox : rust_party.Party → List sent.Message) → StandsFor server.now s outbox
        → result ≡ next_of (outbox to.now) }
{
    match server.first_for(*to) {
        Some(message) => Some(shown_message(message)),
        None => None,
    }
}

/// The message of a server that leaves its outbox next.
fn next_of_server(sim: &Sim, at: ServerId, to: &Party) -> Option<NextMessage>
    ensures { Shows sim.now (λ w. result ≡ next_of (w.outbox (parties.Server at) to.now)) }
{
    match sim.server(at) {
        Some(server) => next_at(server, to),
        None => None,
    }
}

/// The message of the master for a server that leaves its outbox next.
fn next_of_master(sim: &Sim, to: ServerId) -> Option<NextMessage>
    ensures { Shows sim.now (λ w. result ≡ next_of (w.outbox parties.Master (parties.Server to))) }
{
    match sim.master().first_for(to) {
        Some(message) => Some(shown_message(message)),
        None => None,
    }
}

/// The message of the master that leaves its outbox next.
fn next_order(sim: &Sim, to: &Party) -> Option<NextMessage>
    ensures { Shows sim.now (λ w. result ≡ next_of (w.outbox parties.Master to.now)) }
{
    match to {
        Party::Server(id) => next_of_master(sim, *id),
        _ => None,
    }
}

/// The message that leaves an outbox next: O(1).
fn next_message(sim: &Sim, from: &Party, to: &Party) -> Option<NextMessage>
    ensures { Shows sim.now (λ w. result ≡ next_of (w.outbox from.now to.now)) }
{
    match from {
        Party::Server(at) => next_of_server(sim, *at, to),
        Party::Master => next_order(sim, to),
        Party::Clients => None,
    }
}

/// The way from one party to another: O(1).
fn shown_way(sim: &Sim, from: &Party, to: &Party) -> Way
    ensures { Shows sim.now (λ w. result ≡ way_of w from.now to.now) }
{
    let (waits, stands) = sim.waiting(*from, *to);
    Way {
        from: *from,
        to: *to,
        waits,
        stands,
        next: next_message(sim, from, to),
    }
}

/// Whether something waits or stands on the way.
fn is_used(way: &Way) -> bool
    ensures { result ≡ (nat_lt 0 way.now.waits || nat_lt 0 way.now.stands) }
{
    0 < way.waits || 0 < way.stands
}

/// Adds the way from one party to another, if something waits or stands on it.
fn add_way(ways: &mut Vec<Way>, sim: &Sim, from: &Party, to: &Party) -> Result<(), NoMemory>
    ensures { Shows sim.now (λ w. OnOk result (ways.new.items ≡ ways.old.items ++ if_used (way_of w from.now to.now))) }
{
    let way = shown_way(sim, from, to);
    if !is_used(&way) {
        return Ok(());
    }
    ways.push(way)?;
    Ok(())
}

/// Adds the ways from one party to these.
fn add_ways_from(
    ways: &mut Vec<Way>,
    sim: &Sim,
    from: &Party,
    tos: &[Party],
) -> Result<(), NoMemory>
    ensures { Shows sim.now (λ w. OnOk result (ways.new.items ≡ ways.old.items ++ ways_from w tos.now from.now)) }
{
    for to in tos {
        add_way(ways, sim, from, to)?;
    }
    Ok(())
}

/// The ways between these parties on which something waits or stands: O(parties²).
pub fn shown_ways(alloc: Global, sim: &Sim, parties: &[Party]) -> Result<Vec<Way>, NoMemory>
    ensures { Shows sim.now (λ w. IfOk result (λ ways. ways.items ≡ ways_of w parties.now)) }
{
    let mut ways = Vec::new(alloc);
    for from in parties {
        add_ways_from(&mut ways, sim, from, parties)?;
    }
    Ok(ways)
}

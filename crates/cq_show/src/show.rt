//! The line that tells what a world holds.
ghost use Rattle.std.specs.Prelude.{◌≡◌, IfOk};
ghost use Rattle.cq_world.specs.Stands.{Shows};
ghost use Rattle.cq_show.specs.Worlds.{parties_of, servers_of, ways_of, world_text};

use crate::servers::{shown_parties, shown_servers};
use crate::ways::shown_ways;
use cq_base::NoMemory;
use cq_show_line::{Shown, show_line};
use cq_world::Sim;
use std::alloc::Global;

/// What the world holds, as it is shown.
fn shown_of(alloc: Global, sim: &Sim) -> Result<Shown, NoMemory>
    ensures master { Shows sim.now (λ w. IfOk result (λ s. (s.chain.items ≡ w.master.chain) × (s.joiner ≡ w.master.joiner) × (s.is_ready ≡ w.master.ready))) }
    ensures servers { Shows sim.now (λ w. IfOk result (λ s. s.servers.items ≡ servers_of w)) }
    ensures ways { Shows sim.now (λ w. IfOk result (λ s. s.ways.items ≡ ways_of w (parties_of (servers_of w)))) }
{
    let servers = shown_servers(alloc, sim)?;
    let parties = shown_parties(alloc, servers.as_slice())?;
    let ways = shown_ways(alloc, sim, parties.as_slice())?;
    let master = sim.master();
    let chain = Vec::from_slice(alloc, master.chain())?;
    Ok(Shown {
        chain,
        joiner: master.joiner(),
        is_ready: master.is_ready(),
        servers,
        ways,
    })
}

/// The line that tells what the world holds, with its line feed: what the readers of the world say of its master, of the
/// servers with numbers up to 1,000, and of what is on its way between these, the master and the clients. O(1,000 + parties²).
#[tactic(auto, unfolding(crate::specs::Worlds::world_text))]
pub fn world_line(alloc: Global, sim: &Sim) -> Result<Vec<u8>, NoMemory>
    ensures { Shows sim.now (λ w. IfOk result (λ line. line.items ≡ world_text w)) }
{
    let shown = shown_of(alloc, sim)?;
    show_line(alloc, &shown)
}

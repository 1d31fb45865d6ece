//! Which servers a run has, and which of them are to crash.
ghost use Rattle.std.specs.Prelude.{◌≡◌, ◌≤◌, IfOk};
ghost use Rattle.cq_live.specs.within.Making.{roles_of};

use cq_base::{ChainSize, NoMemory, ServerId};
use cq_live_plan::{Join, LiveStep, crash_of};
use std::alloc::Global;

/// A server of a run, and the number of entries at which it is to crash, if it is.
#[derive(Clone, Copy, Debug, PartialEq, Eq)]
pub(crate) struct Role {
    pub id: ServerId,
    pub crash_after: Option<u64>,
}

/// The number of the last server of a run: of those of the first chain, and those that join. So many servers it has.
pub(crate) fn servers_in(size: ChainSize, joins: &[Join]) -> u32
    ensures { size ≤ result }
{
    let mut servers = u32::from(size.get());
    for join in joins {
        servers = servers.max(join.server.get());
    }
    servers
}

/// So many servers, in the order of their numbers, with what the steps say of their crashes: O(servers * steps).
pub(crate) fn roles_of(
    alloc: Global,
    servers: u32,
    steps: &[LiveStep],
) -> Result<Vec<Role>, NoMemory>
    ensures { IfOk result (λ roles. roles.items ≡ roles_of steps.now servers) }
{
    let mut roles = Vec::new(alloc);
    for place in 0..servers {
        if let Some(id) = ServerId::new(place + 1) {
            roles.push(Role {
                id,
                crash_after: crash_of(id, steps),
            })?;
        }
    }
    Ok(roles)
}

//! The servers of the first world.
ghost use Rattle.std.specs.Prelude.{◌≡◌, None, IfOk};
ghost use Rattle.cq_base.specs.declared.party.Party.TheVariants as parties;
ghost use Rattle.cq_events.specs.Actions.{StandsAs};
ghost use Rattle.cq_events.specs.Worlds.{first_world};

use cq_base::{ChainSize, NoMemory, ServerId};
use cq_chain::Server;
use std::alloc::Global;

/// The server of that number in a chain that begins with so many: a member of it, or one that may join later. It keeps
/// the allocator.
pub fn first_core(alloc: Global, size: ChainSize, id: ServerId) -> Result<Server, NoMemory>
    ensures { IfOk result (λ core. StandsAs (record { core = core; back = λ _. None })
        ((first_world size).server id) ((first_world size).outbox (parties.Server id))) }
{
    if id.get() <= u32::from(size.get()) {
        Server::first(alloc, id, size)
    } else {
        Server::joining(alloc, id)
    }
}

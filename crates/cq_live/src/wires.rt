//! The links and inboxes of a run.
ghost use Rattle.std.specs.Prelude.{IfOk, IfErr};
ghost use Rattle.cq_live.specs.within.Making.{AreWired};

use cq_chain::Message;
use cq_link::{ClientWires, LinkFault, Ports, wire, wire_clients};
use std::alloc::Global;

/// The room of each link and of each inbox, in messages.
const CAPACITY: usize = 64;

/// All ends of a run, before it begins.
#[derive(Drop)]
pub(crate) struct Wires {
    /// Of the links between the master, which comes first, and the servers.
    pub ports: Vec<Ports<Message>>,
    /// Of the links and inboxes between servers and clients.
    pub clients: ClientWires<Message>,
}

/// The links and inboxes of a run with so many servers. All their memory is taken here.
pub(crate) fn wires_for(alloc: Global, servers: u32) -> Result<Wires, LinkFault>
    ensures { IfOk result (AreWired servers) }
{
    let ports = wire(alloc, servers as usize + 1, CAPACITY)?;
    let clients = wire_clients(alloc, servers as usize, CAPACITY)?;
    Ok(Wires { ports, clients })
}

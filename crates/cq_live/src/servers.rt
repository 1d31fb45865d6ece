//! The nodes of the servers.
ghost use Rattle.std.specs.Prelude.{◌≡◌, length, IfOk};
ghost use Rattle.std.specs.List.{All};
ghost use Rattle.cq_live.specs.within.Making.{IsEven, IsFresh, begun_as, servers_of};
ghost use Rattle.cq_link.specs.Wirings.{AreUnused, IsUnused};

use crate::fresh::links_of;
use crate::node_types::Server;
use crate::roles::Role;
use cq_base::{ChainSize, NoMemory};
use cq_chain::Message;
use cq_link::{Ports, ServerPorts};
use cq_nodes::{Flags, ServerEnds, ServerNode};
use std::alloc::Global;

/// The node of a server, between ends that nobody used.
fn server_of<'a>(
    alloc: Global,
    size: ChainSize,
    role: Role,
    port: Ports<Message>,
    wires: ServerPorts<Message>,
    flags: &'a Flags,
) -> Result<Server<'a>, NoMemory>
    requires unused { IsUnused port }
    requires even { IsEven port }
    requires fresh { IsFresh wires }
    ensures { IfOk result (λ node. node ≡ begun_as size role port wires) }
{
    let ends = ServerEnds {
        links: links_of(alloc, port.outs, port.ins)?,
        first: wires.first,
        second: wires.second,
        inbox: wires.inbox,
    };
    ServerNode::new(alloc, size, role.id, ends, role.crash_after, flags)
}

/// The node of each server, between the ends at its place.
pub(crate) fn servers_of<'a>(
    alloc: Global,
    size: ChainSize,
    roles: Vec<Role>,
    ports: Vec<Ports<Message>>,
    wires: Vec<ServerPorts<Message>>,
    flags: &'a Flags,
) -> Result<Vec<Server<'a>>, NoMemory>
    requires port_for_each { length ports.items ≡ length roles.items }
    requires ends_for_each { length wires.items ≡ length roles.items }
    requires unused { AreUnused ports.items }
    requires even { All IsEven ports.items }
    requires fresh { All IsFresh wires.items }
    ensures { IfOk result (λ nodes. nodes.items ≡ servers_of size roles.items ports.items wires.items) }
{
    let mut nodes = Vec::new(alloc);
    let mut ports = ports.into_iter();
    let mut wires = wires.into_iter();
    for role in roles {
        if let Some(port) = ports.next() {
            if let Some(ends) = wires.next() {
                nodes.push(server_of(alloc, size, role, port, ends, flags)?)?;
            }
        }
    }
    Ok(nodes)
}

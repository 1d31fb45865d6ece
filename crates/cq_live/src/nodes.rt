//! All nodes of a run, before it begins.
ghost use Rattle.std.specs.Prelude.{◌≡◌, ◌<◌, ◌∷◌, [], length, false, IfOk};
ghost use Rattle.cq_nodes.specs.ClientNodes.{client_held};
ghost use Rattle.cq_live_plan.specs.Steps.{asks_of};
ghost use Rattle.cq_live_plan.specs.Steps.{joins_of};
ghost use Rattle.cq_live.specs.within.Making.{AreWired, IsEven, IsClientFit};
ghost use Rattle.cq_live.specs.within.Chains.{IsChain};
ghost use Rattle.cq_link.specs.Wirings.{IsUnused};

use crate::fresh::{client_links_of, links_of};
use crate::node_types::{AllNodes, Client, Master};
use crate::roles::roles_of;
use crate::servers::servers_of;
use crate::wires::Wires;
use cq_base::{ChainSize, NoMemory};
use cq_chain::Message;
use cq_link::{ClientPorts, ClientWires, Ports, Putter, Taker};
use cq_live_plan::{Join, LiveStep, asks_of};
use cq_nodes::{ClientNode, Flags, MasterNode};
use cq_threads::Nodes;
use std::alloc::Global;

/// The two ends of the master's link to itself, which nobody uses.
pub(crate) type Own = (Putter<Message>, Taker<Message>);

/// All nodes of a run, and the ends that none of them has.
#[derive(Drop)]
pub(crate) struct LiveNodes<'a> {
    pub own: Own,
    /// The servers stand in the order of their numbers.
    pub nodes: AllNodes<'a>,
}

/// The master's node, and the two ends of its link to itself, which stand before the others.
fn master_of<'a>(
    alloc: Global,
    size: ChainSize,
    joins: Vec<Join>,
    port: Ports<Message>,
    flags: &'a Flags,
) -> Result<(Own, Master<'a>), NoMemory>
    requires unused { IsUnused port }
    requires even { IsEven port }
    requires linked { 0 < length port.outs.items }
    ensures outs { IfOk result (λ made. made.0.0 ∷ made.1.outs ≡ port.outs.items) }
    ensures ins { IfOk result (λ made. made.0.1 ∷ made.1.ins ≡ port.ins.items) }
    ensures size { IfOk result (λ made. made.1.size ≡ size) }
    ensures joins { IfOk result (λ made. made.1.joins ≡ joins.items) }
    ensures unread { IfOk result (λ made. made.1.unread ≡ 0) }
{
    let Ports { mut outs, mut ins } = port;
    let own = (outs.remove(0), ins.remove(0));
    let links = links_of(alloc, outs, ins)?;
    let master = MasterNode::new(alloc, size, links, joins, flags)?;
    Ok((own, master))
}

/// The node of the client of that id, with what the steps let it ask.
fn client_of<'a>(
    alloc: Global,
    id: u32,
    steps: &[LiveStep],
    ports: ClientPorts<Message>,
    flags: &'a Flags,
) -> Result<Client<'a>, NoMemory>
    requires { IsClientFit ports }
    ensures { IfOk result (λ node. node ≡ client_held id (asks_of id steps.now) ports.outs.items ports.ins.items [] false) }
{
    let asks = asks_of(alloc, id, steps)?;
    let links = client_links_of(alloc, ports.outs, ports.ins)?;
    Ok(ClientNode::new(alloc, id, asks, links, flags))
}

/// The nodes of both clients.
fn clients_of<'a>(
    alloc: Global,
    steps: &[LiveStep],
    first: ClientPorts<Message>,
    second: ClientPorts<Message>,
    flags: &'a Flags,
) -> Result<(Client<'a>, Client<'a>), NoMemory>
    requires first { IsClientFit first }
    requires second { IsClientFit second }
    ensures first { IfOk result (λ nodes. nodes.0 ≡ client_held 1 (asks_of 1 steps.now) first.outs.items first.ins.items [] false) }
    ensures second { IfOk result (λ nodes. nodes.1 ≡ client_held 2 (asks_of 2 steps.now) second.outs.items second.ins.items [] false) }
{
    let first = client_of(alloc, 1, steps, first, flags)?;
    let second = client_of(alloc, 2, steps, second, flags)?;
    Ok((first, second))
}

/// The nodes of a run of these steps with so many servers, over ends that nobody used. `joins` are those of the steps.
pub(crate) fn nodes_of<'a>(
    alloc: Global,
    size: ChainSize,
    servers: u32,
    steps: &[LiveStep],
    joins: Vec<Join>,
    wires: Wires,
    flags: &'a Flags,
) -> Result<LiveNodes<'a>, NoMemory>
    requires wired { AreWired servers wires }
    requires joins { joins.items ≡ joins_of steps.now }
    ensures { IfOk result (λ live. IsChain servers size steps.now live.own live.nodes.master live.nodes.servers.items live.nodes.first live.nodes.second) }
{
    let roles = roles_of(alloc, servers, steps)?;
    let Wires { mut ports, clients } = wires;
    let ClientWires {
        servers,
        first,
        second,
    } = clients;
    let (own, master) = master_of(alloc, size, joins, ports.remove(0), flags)?;
    let servers = servers_of(alloc, size, roles, ports, servers, flags)?;
    let (first, second) = clients_of(alloc, steps, first, second, flags)?;
    Ok(LiveNodes {
        own,
        nodes: Nodes {
            master,
            servers,
            first,
            second,
        },
    })
}

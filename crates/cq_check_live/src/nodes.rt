//! The nodes of a plan, over rings.
use crate::plan::{Plan, no_memory};
use crate::rings::{Reluctant, between};
use crate::stop;
use cq_base::ServerId;
use cq_chain::Message;
use cq_link::{InPut, InTake, Inbox, Link, Taker};
use cq_live_plan::{asks_of, crash_of, joins_of};
use cq_nodes::{ClientLinks, ClientNode, Flags, Links, MasterNode, ServerEnds, ServerNode};
use std::alloc::Global;
use std::{io, vec};

pub type Server<'a> = ServerNode<'a, Reluctant, Taker<Message>, InTake>;

pub type Client<'a> = ClientNode<'a, InPut, Taker<Message>>;

pub type Master<'a> = MasterNode<'a, Reluctant, Taker<Message>>;

type ToServers = Links<Reluctant, Taker<Message>>;

type ToClients = ClientLinks<InPut, Taker<Message>>;

/// How many messages a ring has room for.
const PLACES: usize = 1;

/// All nodes of a run.
#[derive(Drop)]
pub struct Chain<'a> {
    pub servers: Vec<Server<'a>>,
    pub master: Master<'a>,
    pub first: Client<'a>,
    pub second: Client<'a>,
}

/// Servers in the order of their numbers, and the links of the two clients to them.
#[derive(Drop)]
struct Servers<'a> {
    nodes: Vec<Server<'a>>,
    first: ToClients,
    second: ToClients,
}

/// Adds the server of that number, with links to both clients.
fn add<'a>(
    alloc: Global,
    plan: &Plan,
    servers: &mut Servers<'a>,
    links: ToServers,
    number: u32,
    flags: &'a Flags,
) -> io::Result<()> {
    let id = ServerId::new(number).ok_or(stop("no server"))?;
    let (first_put, second_put, inbox) = Inbox::make(alloc, 64).map_err(|_| stop("no inbox"))?;
    let (first, first_heard) = Link::make(alloc, PLACES).map_err(|_| stop("no link"))?;
    let (second, second_heard) = Link::make(alloc, PLACES).map_err(|_| stop("no link"))?;
    servers
        .first
        .add(first_put, first_heard)
        .map_err(no_memory)?;
    servers
        .second
        .add(second_put, second_heard)
        .map_err(no_memory)?;
    let ends = ServerEnds {
        links,
        first: Reluctant::of(first),
        second: Reluctant::of(second),
        inbox,
    };
    let crash_after = crash_of(id, &plan.steps);
    let node = ServerNode::new(alloc, plan.size, id, ends, crash_after, flags).map_err(no_memory)?;
    servers.nodes.push(node).map_err(|_| stop("no memory"))
}

/// All servers, with their links to the master and to each other.
fn servers_of<'a>(
    alloc: Global,
    plan: &Plan,
    links: vec::IntoIter<ToServers>,
    flags: &'a Flags,
) -> io::Result<Servers<'a>> {
    let mut servers = Servers {
        nodes: Vec::new(alloc),
        first: ClientLinks::new(alloc),
        second: ClientLinks::new(alloc),
    };
    let mut number = 0_u32;
    for own in links {
        number = number.saturating_add(1);
        add(alloc, plan, &mut servers, own, number, flags)?;
    }
    Ok(servers)
}

/// The master, with its links to all servers.
fn master_of<'a>(
    alloc: Global,
    plan: &Plan,
    links: ToServers,
    flags: &'a Flags,
) -> io::Result<Master<'a>> {
    let joins = joins_of(alloc, &plan.steps).map_err(no_memory)?;
    MasterNode::new(alloc, plan.size, links, joins, flags).map_err(no_memory)
}

/// The client of that number.
fn client_of<'a>(
    alloc: Global,
    plan: &Plan,
    id: u32,
    links: ToClients,
    flags: &'a Flags,
) -> io::Result<Client<'a>> {
    let asks = asks_of(alloc, id, &plan.steps).map_err(no_memory)?;
    Ok(ClientNode::new(alloc, id, asks, links, flags))
}

/// The flags of a plan's nodes.
pub fn flags_of(alloc: Global, plan: &Plan) -> io::Result<Flags> {
    Flags::new(alloc, plan.servers()).map_err(no_memory)
}

/// All nodes of a plan, before their first turn.
pub fn nodes_of<'a>(alloc: Global, plan: &Plan, flags: &'a Flags) -> io::Result<Chain<'a>> {
    let mut links = between(alloc, plan.servers() as usize, PLACES)?.into_iter();
    let links_of_master = links.next().ok_or(stop("no links of the master"))?;
    let master = master_of(alloc, plan, links_of_master, flags)?;
    let Servers {
        nodes,
        first,
        second,
    } = servers_of(alloc, plan, links, flags)?;
    Ok(Chain {
        servers: nodes,
        master,
        first: client_of(alloc, plan, 1, first, flags)?,
        second: client_of(alloc, plan, 2, second, flags)?,
    })
}

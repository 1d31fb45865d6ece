//! Nodes that are finished, and their ends put together again.
ghost use Rattle.std.specs.Prelude.{◌≡◌, ◌++◌, ◌∷◌, [], IfOk, OnOk};
ghost use Rattle.cq_nodes.specs.Ends.{ends_of, in_ends_of};
ghost use Rattle.cq_live.specs.within.Aparts.{IsApart, starved_part};
ghost use Rattle.cq_live.specs.within.Adding.{HasNoServer, HasOneMore, IsPieceOf};

use crate::bare_ends::{own_port_of, port_of};
use crate::node_types::{Client, Master, Server};
use cq_base::{NoMemory, Party, ServerId};
use cq_chain::{Answer, Message};
use cq_events::Trace;
use cq_link::{ClientPorts, ClientWires, InPut, InTake, Ports, Putter, ServerPorts, Taker};
use cq_nodes::{ClientLeft, MasterEnds, ServerParts, ToClients};
use std::alloc::Global;

/// What nodes that are finished leave behind.
#[derive(Drop)]
pub(crate) struct Apart {
    /// The ends of the master, and behind them those of each server, in order.
    pub ports: Vec<Ports<Message>>,
    /// The ends between servers and clients.
    pub wires: ClientWires<Message>,
    /// What the master did, and behind it what each server did, in order.
    pub traces: Vec<Trace>,
    /// The answers that closed the first client's asks, in order.
    pub first: Vec<Answer>,
    /// The answers that closed the second client's asks, in order.
    pub second: Vec<Answer>,
    /// The servers that found no memory, and so crashed.
    pub starved: Vec<ServerId>,
}

/// Adds the server, if it is starved.
fn add_starved(ids: &mut Vec<ServerId>, id: ServerId, starved: bool) -> Result<(), NoMemory>
    ensures { OnOk result (ids.new.items ≡ ids.old.items ++ starved_part id starved) }
{
    if starved {
        ids.push(id)?;
    }
    Ok(())
}

/// What the master and the clients leave, before any server.
fn apart_of(
    alloc: Global,
    master: MasterEnds<Putter<Message>, Taker<Message>>,
    own: (Putter<Message>, Taker<Message>),
    first: ClientLeft<InPut, Taker<Message>>,
    second: ClientLeft<InPut, Taker<Message>>,
) -> Result<Apart, NoMemory>
    ensures { IfOk result (HasNoServer master own first second) }
{
    let mut ports = Vec::new(alloc);
    ports.push(own_port_of(alloc, own, master.outs, master.ins)?)?;
    let mut traces = Vec::new(alloc);
    traces.push(Trace {
        party: Party::Master,
        events: master.trace,
    })?;
    Ok(Apart {
        ports,
        wires: ClientWires {
            servers: Vec::new(alloc),
            first: ClientPorts {
                outs: first.outs,
                ins: first.ins,
            },
            second: ClientPorts {
                outs: second.outs,
                ins: second.ins,
            },
        },
        traces,
        first: first.closed,
        second: second.closed,
        starved: Vec::new(alloc),
    })
}

/// What one server leaves.
#[derive(Drop)]
struct Piece {
    port: Ports<Message>,
    wires: ServerPorts<Message>,
    trace: Trace,
    id: ServerId,
    starved: bool,
}

/// What the parts of a server's node leave. The messages that wait at its ends are dropped.
fn piece_of(
    alloc: Global,
    parts: ServerParts<Putter<Message>, Taker<Message>, InTake>,
) -> Result<Piece, NoMemory>
    ensures { IfOk result (IsPieceOf parts) }
{
    let port = port_of(alloc, parts.outs, parts.ins)?;
    Ok(Piece {
        port,
        wires: wires_of(parts.clients, parts.inbox),
        trace: Trace {
            party: Party::Server(parts.id),
            events: parts.trace,
        },
        id: parts.id,
        starved: parts.starved,
    })
}

/// The ends of a server towards the clients. A message that was handed back is dropped.
fn wires_of(clients: ToClients<Putter<Message>>, inbox: InTake) -> ServerPorts<Message>
    ensures { result ≡ record { first = clients.first; second = clients.second; inbox = inbox } }
{
    let ToClients { first, second, .. } = clients;
    ServerPorts {
        first,
        second,
        inbox,
    }
}

impl Apart {
    /// Adds what the next server leaves.
    fn add(&mut self, piece: Piece) -> Result<(), NoMemory>
        ensures { OnOk result (HasOneMore piece self.old self.new) }
    {
        self.ports.reserve(1)?;
        self.wires.servers.reserve(1)?;
        self.traces.reserve(1)?;
        add_starved(&mut self.starved, piece.id, piece.starved)?;
        self.ports.push_reserved(piece.port);
        self.wires.servers.push_reserved(piece.wires);
        self.traces.push_reserved(piece.trace);
        Ok(())
    }
}

/// Finishes each node, and puts the ends together as they have to be for settling. The ends of the master's link to
/// itself, which it doesn't hold, go before its others. What waits at an end is dropped.
pub(crate) fn take_apart(
    alloc: Global,
    master: Master<'_>,
    own: (Putter<Message>, Taker<Message>),
    servers: Vec<Server<'_>>,
    first: Client<'_>,
    second: Client<'_>,
) -> Result<Apart, NoMemory>
    ensures { IfOk result (IsApart master.entry own servers.entry.items first.entry second.entry) }
{
    let mut apart = apart_of(alloc, master.finish(), own, first.finish(), second.finish())?;
    for server in servers {
        let piece = piece_of(alloc, server.finish())?;
        apart.add(piece)?;
    }
    Ok(apart)
}

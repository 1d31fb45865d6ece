//! The links and inboxes between servers and the two clients.
ghost use Rattle.std.specs.Prelude.{◌≡◌, ◌++◌, ◌∷◌, [], List, map, Some, IfOk, IsErrOf, OnOk, true, false};
ghost use Rattle.cq_base.specs.declared.ask.Request.{Request};
ghost use Rattle.cq_link.specs.Faults.{IsBadCapacity};
ghost use Rattle.cq_link.specs.declared.fault.LinkFault.TheVariants as faults;
ghost use Rattle.cq_link.specs.Inboxes.{take_inbox, put_in};
ghost use Rattle.cq_link.specs.Clients.{AreTied, AreFresh, AreOf, HaveServed, AreOfBoth, requests_in, seat_of};
ghost use Rattle.cq_link.specs.within.Ends.{IsTied, IsFresh};

use crate::fault::LinkFault;
use crate::inbox::{InPut, InTake, Inbox};
use crate::link::{Link, Putter, Taker};
use crate::row::settle_pair;
use std::alloc::{AllocError, Global};

/// The ends at one server: of the links to the two clients, and of the inbox on which both put requests.
#[derive(Drop)]
pub struct ServerPorts<T: Drop> {
    pub first: Putter<T>,
    pub second: Putter<T>,
    pub inbox: InTake,
}

/// The ends at one client, in the order of the servers: requests are put on the outs, messages taken from the ins.
#[derive(Drop)]
pub struct ClientPorts<T: Drop> {
    pub outs: Vec<InPut>,
    pub ins: Vec<Taker<T>>,
}

/// The ends between servers and the two clients.
#[derive(Drop)]
pub struct ClientWires<T: Drop> {
    pub servers: Vec<ServerPorts<T>>,
    pub first: ClientPorts<T>,
    pub second: ClientPorts<T>,
}

/// The two ends that a client has towards one server.
#[derive(Drop)]
struct ClientEnds<T: Drop> {
    out: InPut,
    end: Taker<T>,
}

/// Makes a link from each server to each client, and an inbox of each server for both, with room for so many messages
/// and so many requests. All their memory is taken here. A capacity of 0 or above 65,536 is refused as `BadCapacity`,
/// if there is a server.
pub fn wire_clients<T: Drop>(
    alloc: Global,
    servers: usize,
    capacity: usize,
) -> Result<ClientWires<T>, LinkFault>
    ensures tied { IfOk result AreTied }
    ensures unused { IfOk result AreFresh }
    ensures length { IfOk result (AreOf servers) }
    ensures bad { IsErrOf result faults.BadCapacity → IsBadCapacity capacity }
{
    let mut wires = ClientWires {
        servers: Vec::new(alloc),
        first: ClientPorts::new(alloc),
        second: ClientPorts::new(alloc),
    };
    for _ in 0..servers {
        let (server, first, second) = wire_server(alloc, capacity)?;
        wires.servers.reserve(1)?;
        wires.servers.push_reserved(server);
        wires.first.add(first)?;
        wires.second.add(second)?;
    }
    Ok(wires)
}

/// The ends at a server, and those of the two clients towards it.
fn wire_server<T: Drop>(
    alloc: Global,
    capacity: usize,
) -> Result<(ServerPorts<T>, ClientEnds<T>, ClientEnds<T>), LinkFault>
    ensures tied { IfOk result (λ ends. IsTied ends.0 ends.1 ends.2) }
    ensures fresh { IfOk result (λ ends. IsFresh ends.0 ends.1 ends.2) }
    ensures bad { IsErrOf result faults.BadCapacity → IsBadCapacity capacity }
{
    let (first, first_end) = Link::make(alloc, capacity)?;
    let (second, second_end) = Link::make(alloc, capacity)?;
    let (first_out, second_out, inbox) = Inbox::make(alloc, capacity)?;
    Ok((
        ServerPorts {
            first,
            second,
            inbox,
        },
        ClientEnds {
            out: first_out,
            end: first_end,
        },
        ClientEnds {
            out: second_out,
            end: second_end,
        },
    ))
}

impl<T: Drop> ClientPorts<T> {
    /// No ends.
    fn new(alloc: Global) -> ClientPorts<T>
        ensures outs { result.outs.items ≡ [] }
        ensures ins { result.ins.items ≡ [] }
    {
        ClientPorts {
            outs: Vec::new(alloc),
            ins: Vec::new(alloc),
        }
    }

    /// Adds the ends towards one more server.
    fn add(&mut self, ends: ClientEnds<T>) -> Result<(), AllocError>
        ensures outs { OnOk result (self.new.outs.items ≡ self.old.outs.items ++ ends.out ∷ []) }
        ensures ins { OnOk result (self.new.ins.items ≡ self.old.ins.items ++ ends.end ∷ []) }
    {
        self.outs.reserve(1)?;
        self.ins.reserve(1)?;
        self.outs.push_reserved(ends.out);
        self.ins.push_reserved(ends.end);
        Ok(())
    }
}

/// Settles each link and each inbox, once no thread uses any of them, and drops what is left there. It takes no memory.
pub fn settle_clients<T: Drop>(wires: ClientWires<T>)
    requires { AreTied wires }
    ensures { HaveServed wires }
{
    let ClientWires {
        servers,
        first,
        second,
    } = wires;
    let mut first_outs = first.outs.into_iter();
    let mut first_ins = first.ins.into_iter();
    let mut second_outs = second.outs.into_iter();
    let mut second_ins = second.ins.into_iter();
    for server in servers {
        settle_pair(Some(server.first), first_ins.next());
        settle_pair(Some(server.second), second_ins.next());
        settle_inbox(server.inbox, first_outs.next(), second_outs.next());
    }
}

/// Settles the inbox with the two ends, if both are there, and drops what is left in it.
fn settle_inbox(inbox: InTake, first: Option<InPut>, second: Option<InPut>)
    requires { (one two : InPut Request) → first ≡ Some one → second ≡ Some two → (seat_of one ≡ (take_inbox inbox, false)) × (seat_of two ≡ (take_inbox inbox, true)) }
    ensures { (one two : InPut Request) → first ≡ Some one → second ≡ Some two → AreOfBoth (requests_in inbox) (put_in one) (put_in two) }
{
    if let (Some(first), Some(second)) = (first, second) {
        let _ = Inbox::settle(first, second, inbox);
    }
}

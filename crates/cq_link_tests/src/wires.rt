//! Wires by rows, in one thread.
ghost use Rattle.std.specs.Prelude.{◌≡◌};
ghost use Rattle.cq_link.specs.Clients.{AreTied};
ghost use Rattle.cq_link.specs.Wirings.{wiring};

use cq_base::{Ask, BaseFault, QueueName, Request};
use cq_link::{ClientWires, LinkFault, Ports, settle_all, settle_clients, wire, wire_clients};
use std::alloc::Global;
use std::sync::Wait;
use std::test::Fail;

/// Puts the item on the end of the one party towards the other. Says whether there was room.
fn put(ports: &mut Vec<Ports<u64>>, from: usize, to: usize, item: u64) -> bool
    ensures { wiring ports.new.items ≡ wiring ports.old.items }
{
    if from >= ports.len() || to >= ports[from].outs.len() {
        return false;
    }
    ports[from].outs[to].put(item).is_ok()
}

/// Takes what is first on the end of the one party from the other.
fn take(ports: &mut Vec<Ports<u64>>, at: usize, from: usize) -> Option<u64>
    ensures { wiring ports.new.items ≡ wiring ports.old.items }
{
    if at >= ports.len() || from >= ports[at].ins.len() {
        return None;
    }
    ports[at].ins[from].take()
}

#[test]
fn what_is_put_towards_a_party_comes_there(rt: HostRuntime) -> Result<(), Fail> {
    let alloc = rt.alloc();
    let mut ports = wire::<u64>(alloc, 2, 1)?;
    assert_eq!(rt; ports.len(), 2);
    assert!(rt; put(&mut ports, 0, 1, 7));
    assert!(rt; !put(&mut ports, 0, 1, 8));
    assert!(rt; put(&mut ports, 0, 0, 9));
    assert_eq!(rt; take(&mut ports, 0, 1), None);
    assert_eq!(rt; take(&mut ports, 1, 0), Some(7));
    settle_all(alloc, ports)?;
    Ok(())
}

#[test]
fn capacities_are_those_of_links(rt: HostRuntime) -> Result<(), Fail> {
    let alloc = rt.alloc();
    assert!(rt; matches!(wire::<u64>(alloc, 1, 0), Err(LinkFault::BadCapacity)));
    assert!(rt;
        matches!(
            wire_clients::<u64>(alloc, 1, 65_537),
            Err(LinkFault::BadCapacity)
        )
    );
    assert!(rt; wire::<u64>(alloc, 0, 0).is_ok());
    settle_clients(wire_clients::<u64>(alloc, 0, 0)?);
    Ok(())
}

/// The first client puts its first request on the end towards that server.
fn ask(
    rt: &impl Wait,
    alloc: Global,
    wires: &mut ClientWires<u64>,
    server: usize,
) -> Result<bool, BaseFault>
    ensures { AreTied wires.old → AreTied wires.new }
{
    let queue = QueueName::new(alloc, "q.fifo")?;
    let ask = Ask::Remove { queue };
    if server >= wires.first.outs.len() {
        return Ok(false);
    }
    let request = Request {
        client: 1,
        number: 1,
        ask,
    };
    Ok(wires.first.outs[server].put(rt, request).is_ok())
}

/// That server takes a request, and says of which client.
fn asked(rt: &impl Wait, wires: &mut ClientWires<u64>, server: usize) -> Option<u32>
    ensures { AreTied wires.old → AreTied wires.new }
{
    if server >= wires.servers.len() {
        return None;
    }
    wires.servers[server]
        .inbox
        .take(rt)
        .map(|tagged| tagged.item.client)
}

#[test]
fn what_a_client_asks_comes_to_that_server(rt: HostRuntime) -> Result<(), Fail> {
    let alloc = rt.alloc();
    let mut wires = wire_clients::<u64>(alloc, 2, 1)?;
    assert!(rt; ask(&rt, alloc, &mut wires, 1)?);
    assert!(rt; !ask(&rt, alloc, &mut wires, 1)?);
    assert_eq!(rt; asked(&rt, &mut wires, 0), None);
    assert_eq!(rt; asked(&rt, &mut wires, 1), Some(1));
    settle_clients(wires);
    Ok(())
}

//! Whole runs, and what a world tells of itself.
use super::*;
use cq_base::Reply;
use cq_chain::Answer;
use cq_world::{Ran, Sim};

fn sim_of(alloc: Global, servers: u8) -> Result<Sim, Fail> {
    let size = ChainSize::new(servers).ok_or("no size")?;
    match Sim::new(alloc, size) {
        Ok(sim) => Ok(sim),
        Err(_) => Ok(Sim::new(alloc, size)?),
    }
}

fn check_created(rt: &impl Abort, answer: &Answer, number: u64, length: u64) {
    assert_eq!(rt; answer.client, 1);
    assert_eq!(rt; answer.number, number);
    assert!(rt; !answer.is_query);
    assert_eq!(rt; answer.length, length);
    let created = matches!(&answer.reply, Reply::Created(1));
    assert!(rt; created);
}

fn check_waiting(
    rt: &impl Abort,
    sim: &Sim,
    from: Who,
    to: Who,
    outbox: u64,
    link: u64,
) -> Result<(), Fail> {
    let (waits, stands) = sim.waiting(party(from)?, party(to)?);
    assert_eq!(rt; waits, outbox);
    assert_eq!(rt; stands, link);
    Ok(())
}

fn check_server(
    rt: &impl Abort,
    sim: &Sim,
    number: u32,
    count: u64,
    acked: u64,
) -> Result<(), Fail> {
    let server = sim.server(server(number)?).ok_or("no such server")?;
    assert_eq!(rt; server.count(), count);
    assert_eq!(rt; server.acked(), acked);
    Ok(())
}

/// How many entries a server keeps one by one.
fn check_kept(rt: &impl Abort, sim: &Sim, number: u32, kept: u64) -> Result<(), Fail> {
    let server = sim.server(server(number)?).ok_or("no such server")?;
    assert_eq!(rt; server.kept(), kept);
    Ok(())
}

fn check_ran(rt: &impl Abort, ran: &Ran) -> Result<(), Fail> {
    assert_eq!(rt; ran.done, 7);
    assert!(rt; ran.stop.is_none());
    assert_eq!(rt; ran.given.len(), 1);
    assert_eq!(rt; ran.refused.len(), 1);
    let (number, answer) = ran.given.first().ok_or("nothing given")?;
    assert_eq!(rt; *number, 5);
    check_created(rt, answer, 1, 1);
    let (number, fault) = ran.refused.first().ok_or("nothing refused")?;
    assert_eq!(rt; *number, 2);
    assert_eq!(rt; fault.code(), 34);
    Ok(())
}

/// What a run of all events comes to. Where it stops for want of memory it goes on from there, and the numbers of the
/// rest are raised by those that were done.
fn run_all(sim: &mut Sim, events: &[Event]) -> Result<Ran, Fail> {
    let mut ran = sim.run(events);
    if ran.stop.is_none() {
        return Ok(ran);
    }
    let done = ran.done;
    let rest = sim.run(&events[done as usize..]);
    for (number, answer) in rest.given {
        ran.given.push((number.saturating_add(done), answer))?;
    }
    for (number, fault) in rest.refused {
        ran.refused.push((number.saturating_add(done), fault))?;
    }
    ran.done = done.saturating_add(rest.done);
    ran.stop = rest.stop;
    Ok(ran)
}

fn run_rows(alloc: Global, sim: &mut Sim, rows: &[Row]) -> Result<Ran, Fail> {
    let mut events = Vec::new(alloc);
    for row in rows {
        events.push(event_of(alloc, *row)?)?;
    }
    run_all(sim, events.as_slice())
}

/// A request goes down the chain, and its acknowledgement up.
fn run_one(rt: &impl Abort, alloc: Global, sim: &mut Sim) -> Result<(), Fail> {
    let rows = [
        Row::Arrive(1, 1, 1),
        Row::Put(ONE, Who::Clients),
        Row::Put(ONE, TWO),
        Row::Take(ONE, TWO),
        Row::Put(TWO, Who::Clients),
        Row::Put(TWO, ONE),
        Row::Take(TWO, ONE),
    ];
    let ran = run_rows(alloc, sim, &rows)?;
    check_ran(rt, &ran)?;
    check_server(rt, sim, 1, 1, 1)?;
    check_server(rt, sim, 2, 1, 1)?;
    check_kept(rt, sim, 1, 0)
}

/// A second request goes down, and its acknowledgement is on its way up.
fn run_half(rt: &impl Abort, alloc: Global, sim: &mut Sim) -> Result<(), Fail> {
    let rows = [
        Row::Arrive(1, 1, 2),
        Row::Put(ONE, TWO),
        Row::Take(ONE, TWO),
    ];
    run_rows(alloc, sim, &rows)?;
    check_waiting(rt, sim, TWO, ONE, 1, 0)?;
    run_rows(alloc, sim, &[Row::Put(TWO, ONE)])?;
    check_waiting(rt, sim, TWO, ONE, 0, 1)?;
    check_server(rt, sim, 1, 2, 1)?;
    check_kept(rt, sim, 1, 1)?;
    check_kept(rt, sim, 2, 0)?;
    let found = sim.server(server(7)?).is_some();
    assert!(rt; !found);
    Ok(())
}

fn run_both(rt: &impl Abort, alloc: Global, sim: &mut Sim) -> Result<(), Fail> {
    run_one(rt, alloc, sim)?;
    run_half(rt, alloc, sim)
}

/// A run gives its answers, and goes on after a refused event.
#[test]
fn a_run(rt: HostRuntime) -> Result<(), Fail> {
    let mut sim = sim_of(rt.alloc(), 2)?;
    run_both(&rt, rt.alloc(), &mut sim)
}

//! Each node by itself, for some turns.
use crate::gates::Recording;
use crate::nodes::{Chain, Server, flags_of, nodes_of};
use crate::plan::{number, plan_of};
use crate::stop;
use cq_nodes::Stop;
use cq_world::Event;
use std::alloc::Global;
use std::io;
use std::sync::Wait;

/// So many turns take what waits in an inbox.
const TURNS: u32 = 8;

/// A word for why a run ended.
fn word_of(stop: Stop) -> &'static str {
    match stop {
        Stop::Ended => "it has ended",
        Stop::Limit => "all turns are used",
        Stop::Shut => "the gate is shut",
    }
}

/// The run of a server, as a line.
fn run_server<R: Wait + Print>(
    rt: &R,
    number: usize,
    server: &mut Server<'_>,
    limit: u64,
    shut: u64,
) -> io::Result<()> {
    let gate = Recording::new(shut);
    let word = word_of(server.run(rt, limit, &gate));
    let (first, last) = gate.asked();
    println!(rt; "  server {number}: the gate is asked for turns {first} to {last}; {word}")
}

/// The run of each server.
fn run_servers<R: Wait + Print>(
    rt: &R,
    servers: &mut Vec<Server<'_>>,
    limit: u64,
    shut: u64,
) -> io::Result<()> {
    let mut number = 0_usize;
    for server in servers.iter_mut() {
        number = number.saturating_add(1);
        run_server(rt, number, server, limit, shut)?;
    }
    Ok(())
}

/// The run of the master.
fn run_master<R: Wait + Print>(
    rt: &R,
    chain: &mut Chain<'_>,
    limit: u64,
    shut: u64,
) -> io::Result<()> {
    let gate = Recording::new(shut);
    let word = word_of(chain.master.run(rt, limit, &gate));
    let (first, last) = gate.asked();
    println!(rt; "  the master: the gate is asked for turns {first} to {last}; {word}")
}

/// How many requests arrive at a server in a few turns more.
fn arrivals<R: Wait>(rt: &R, server: &mut Server<'_>) -> usize {
    for _ in 0..TURNS {
        server.turn(rt);
    }
    let mut count = 0_usize;
    for event in server.trace() {
        if let Event::Arrive { .. } = event {
            count = count.saturating_add(1);
        }
    }
    count
}

/// Tells how many requests arrive at each server.
fn tell_arrivals<R: Wait + Print>(rt: &R, servers: &mut Vec<Server<'_>>) -> io::Result<()> {
    let mut number = 0_usize;
    for server in servers.iter_mut() {
        number = number.saturating_add(1);
        let count = arrivals(rt, server);
        println!(rt; "  server {number}: requests that arrive: {count}")?;
    }
    Ok(())
}

/// The run of these words.
pub fn run<R: Wait + Print>(rt: &R, alloc: Global, text: &str) -> io::Result<()> {
    let (limit, rest) = text.split_once(' ').ok_or(stop("no limit"))?;
    let (shut, rest) = rest.split_once(' ').ok_or(stop("no turn"))?;
    let limit = number(Some(limit))?;
    let shut = number(Some(shut))?;
    let plan = plan_of(alloc, rest)?;
    let flags = flags_of(alloc, &plan)?;
    let mut chain = nodes_of(alloc, &plan, &flags)?;
    run_servers(rt, &mut chain.servers, limit, shut)?;
    run_master(rt, &mut chain, limit, shut)?;
    let word = word_of(chain.first.run(rt, limit));
    println!(rt;
        "  client 1: {word}; both have ended: {}",
        flags.have_ended()
    )?;
    tell_arrivals(rt, &mut chain.servers)?;
    let word = word_of(chain.second.run(rt, limit));
    println!(rt;
        "  client 2: {word}; both have ended: {}",
        flags.have_ended()
    )
}

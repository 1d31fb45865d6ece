//! All nodes in one thread: in each round a turn of the clients, of the servers in order, and of the master.
use crate::nodes::{Chain, Server, flags_of, nodes_of};
use crate::plan::plan_of;
use cq_nodes::Turn;
use cq_world::Event;
use std::alloc::Global;
use std::io;
use std::sync::Wait;

/// How many rounds there are at most.
const ROUNDS: u32 = 20_000;

/// How much of a node is told.
#[derive(Clone, Copy)]
struct Told {
    /// So many events of its trace.
    events: usize,
    /// Whether it has ended.
    ended: bool,
}

const NOTHING: Told = Told {
    events: 0,
    ended: false,
};

/// Tells a crash, a detection or a join.
fn tell_event(rt: &impl Print, round: u32, event: &Event) -> io::Result<()> {
    match event {
        Event::Crash { server } => println!(rt; "  turn {round}: server {} crashes", server.get()),
        Event::Detect { server } => println!(rt;
            "  turn {round}: the master knows that server {} has crashed",
            server.get()
        ),
        Event::Join { server } => println!(rt; "  turn {round}: server {} joins", server.get()),
        _ => Ok(()),
    }
}

/// Tells the changes among the events behind the first ones.
fn tell_events(rt: &impl Print, round: u32, told: &mut Told, trace: &[Event]) -> io::Result<()> {
    for event in trace.iter().skip(told.events) {
        tell_event(rt, round, event)?;
    }
    told.events = trace.len();
    Ok(())
}

/// Tells that a node has ended, once.
fn tell_end(
    rt: &impl Print,
    round: u32,
    told: &mut Told,
    name: &str,
    turn: Turn,
) -> io::Result<()> {
    if told.ended || turn != Turn::Ended {
        return Ok(());
    }
    told.ended = true;
    println!(rt; "  turn {round}: {name} ends")
}

/// A turn of a server.
fn turn_of_server<R: Wait + Print>(
    rt: &R,
    alloc: Global,
    round: u32,
    number: usize,
    server: &mut Server<'_>,
    told: &mut Told,
) -> io::Result<()> {
    let turn = server.turn(rt);
    tell_events(rt, round, told, server.trace())?;
    let name = format!(in alloc; "server {number}")?;
    tell_end(rt, round, told, name.as_str(), turn)
}

/// What is told of each node.
#[derive(Drop)]
struct AllTold {
    first: Told,
    second: Told,
    servers: Vec<Told>,
    master: Told,
}

/// A turn of each server.
fn turns_of_servers<R: Wait + Print>(
    rt: &R,
    alloc: Global,
    round: u32,
    servers: &mut Vec<Server<'_>>,
    told: &mut Vec<Told>,
) -> io::Result<()> {
    let mut number = 0_usize;
    for (server, told) in servers.iter_mut().zip(told.iter_mut()) {
        number = number.saturating_add(1);
        turn_of_server(rt, alloc, round, number, server, told)?;
    }
    Ok(())
}

/// A turn of each node.
fn turns<R: Wait + Print>(
    rt: &R,
    alloc: Global,
    round: u32,
    chain: &mut Chain<'_>,
    told: &mut AllTold,
) -> io::Result<()> {
    let turn = chain.first.turn(rt);
    tell_end(rt, round, &mut told.first, "client 1", turn)?;
    let turn = chain.second.turn(rt);
    tell_end(rt, round, &mut told.second, "client 2", turn)?;
    turns_of_servers(rt, alloc, round, &mut chain.servers, &mut told.servers)?;
    let turn = chain.master.turn(rt);
    tell_events(rt, round, &mut told.master, chain.master.trace())?;
    tell_end(rt, round, &mut told.master, "the master", turn)
}

/// Whether all servers have ended.
fn have_ended(servers: &[Told]) -> bool {
    let mut ended = true;
    for told in servers {
        ended = ended && told.ended;
    }
    ended
}

/// Whether all nodes have ended.
fn is_over(told: &AllTold) -> bool {
    told.first.ended && told.second.ended && told.master.ended && have_ended(&told.servers)
}

/// Tells which servers found no memory.
fn tell_starved(rt: &impl Print, servers: &[Server<'_>]) -> io::Result<()> {
    let mut number = 0_usize;
    for server in servers {
        number = number.saturating_add(1);
        if server.is_starved() {
            println!(rt; "  server {number} found no memory")?;
        }
    }
    Ok(())
}

/// Tells how many answers the clients have, and which nodes found no memory.
fn tell_answers(rt: &impl Print, chain: &Chain<'_>) -> io::Result<()> {
    let first = chain.first.closed().len();
    let second = chain.second.closed().len();
    println!(rt; "  answers: {first} and {second}")?;
    tell_starved(rt, &chain.servers)?;
    if chain.master.is_starved() {
        println!(rt; "  the master found no memory")?;
    }
    if chain.first.is_starved() || chain.second.is_starved() {
        println!(rt; "  a client found no memory")?;
    }
    Ok(())
}

/// Rounds until all nodes have ended.
fn run_rounds<R: Wait + Print>(
    rt: &R,
    alloc: Global,
    chain: &mut Chain<'_>,
    told: &mut AllTold,
) -> io::Result<()> {
    for round in 0..ROUNDS {
        turns(rt, alloc, round + 1, chain, told)?;
        if is_over(told) {
            return Ok(());
        }
    }
    println!(rt; "  turn {ROUNDS}: not all nodes have ended")
}

/// For each server that nothing is told of it.
fn nothing_of_servers(alloc: Global, servers: usize) -> io::Result<Vec<Told>> {
    let mut told = Vec::new(alloc);
    for _ in 0..servers {
        told.push(NOTHING).map_err(|_| crate::stop("no memory"))?;
    }
    Ok(told)
}

/// The run of these words.
pub fn run<R: Wait + Print>(rt: &R, alloc: Global, text: &str) -> io::Result<()> {
    let plan = plan_of(alloc, text)?;
    let flags = flags_of(alloc, &plan)?;
    let mut chain = nodes_of(alloc, &plan, &flags)?;
    let mut told = AllTold {
        first: NOTHING,
        second: NOTHING,
        servers: nothing_of_servers(alloc, chain.servers.len())?,
        master: NOTHING,
    };
    run_rounds(rt, alloc, &mut chain, &mut told)?;
    tell_answers(rt, &chain)
}

//! How long live runs take. Each line of standard input is one run: how many servers its chain begins with, how many sends
//! each of its two clients makes, and then which servers crash and join. `3 20 crash:2:10 join:4:100` is a chain of three
//! servers and 20 sends for each client, where server 2 crashes once it has ten entries, and server 4 joins from the
//! master's turn 100 on.
//!
//! Each line of output has how many sends were accepted, how many events the run had, the highest number of a turn that a
//! server began, and the microseconds of it all: of the whole call, audit and all, and up to the last turns alone. Where
//! there is no report it has the fault.
use crate::common::stop;
use cq_base::{Ask, Body, ChainSize, DedupId, GroupId, Party, QueueName, Seconds, ServerId};
use cq_live::{LiveFault, live};
use cq_live_plan::LiveStep;
use cq_nodes::Gate;
use cq_trace::AuditFault;
use std::alloc::Global;
use std::fmt::Write;
use std::io;
use std::io::{BufRead, BufReader};
use std::rt::Clock;
use std::sync::Wait;
use std::sync::atomic::AtomicU64;
use std::sync::atomic::Ordering::SeqCst;
use std::thread::Threads;
use std::time::Instant;

/// How many turns each node has at most.
const TURNS: u64 = 1_000_000_000;

/// Messages go to so many groups, one after another.
const GROUPS: u64 = 16;

/// The gate reads the clock once in so many turns of a server.
const READINGS: u64 = 64;

/// The gate that lets each turn begin, and knows how many turns a server has begun at most, and when the last ones were.
#[derive(Drop)]
struct Counting<'a, R: Clock> {
    rt: &'a R,
    start: Instant,
    turns: AtomicU64,
    /// The microseconds from its start to the last turn at which it read the clock.
    running: AtomicU64,
}

impl<'a, R: Clock> Counting<'a, R> {
    fn new(rt: &'a R) -> io::Result<Counting<'a, R>> {
        Ok(Counting {
            rt,
            start: Instant::now(rt)?,
            turns: AtomicU64::new(0),
            running: AtomicU64::new(0),
        })
    }

    /// The microseconds since its start.
    fn elapsed(&self) -> io::Result<u64> {
        Ok(u64::try_from(self.start.elapsed(self.rt)?.as_micros()).unwrap_or(u64::MAX))
    }

    /// A server's turn of that number begins.
    fn count(&self, turn: u64) {
        if self.turns.load(SeqCst) < turn {
            self.turns.fetch_max(turn, SeqCst);
        }
    }

    /// The clock is read.
    fn read(&self) {
        if let Ok(microseconds) = self.elapsed() {
            self.running.fetch_max(microseconds, SeqCst);
        }
    }
}

impl<'a, R: Clock> Gate for Counting<'a, R> {
    ghost lets = { λ _ _ _ _. Unit {0} };

    fn enter(&self, party: Party, turn: u64) -> bool {
        if party != Party::Master {
            self.count(turn);
            if turn % READINGS == 0 {
                self.read();
            }
        }
        true
    }
}

/// The ask to make that queue.
fn create(queue: &QueueName) -> io::Result<Ask> {
    Ok(Ask::Create {
        queue: queue.try_copy().map_err(|_| stop("no memory"))?,
        visibility: Seconds::new(30).ok_or(stop("no timeout"))?,
        content: false,
    })
}

/// The ask to send the client's message of that number.
fn send(alloc: Global, queue: &QueueName, client: u32, number: u64) -> io::Result<Ask> {
    let group = number % GROUPS;
    let group = format!(in alloc; "g{group}")?;
    let dedup = format!(in alloc; "{client}-{number}")?;
    Ok(Ask::Send {
        queue: queue.try_copy().map_err(|_| stop("no memory"))?,
        group: GroupId::new(alloc, group.as_str()).map_err(|_| stop("no group"))?,
        dedup: Some(DedupId::new(alloc, dedup.as_str()).map_err(|_| stop("no id"))?),
        body: Body::new(alloc, "a body of thirty-two bytes, or so").map_err(|_| stop("no body"))?,
    })
}

/// Adds the next ask of that client.
fn add_ask(steps: &mut Vec<LiveStep>, client: u32, ask: Ask) -> io::Result<()> {
    steps
        .push(LiveStep::Client { client, ask })
        .map_err(|_| stop("no memory"))
}

/// Adds what a client asks: to make the queue, and then so many sends with deduplication ids of their own.
fn add_asks(
    alloc: Global,
    steps: &mut Vec<LiveStep>,
    queue: &QueueName,
    client: u32,
    requests: u64,
) -> io::Result<()> {
    add_ask(steps, client, create(queue)?)?;
    for number in 0..requests {
        add_ask(steps, client, send(alloc, queue, client, number)?)?;
    }
    Ok(())
}

/// The step that a word such as `crash:2:10` or `join:4:100` says.
fn change(word: &str) -> Option<LiveStep> {
    let (kind, rest) = word.split_once(':')?;
    let (server, after) = rest.split_once(':')?;
    let server = ServerId::new(server.parse().ok()?)?;
    let after = after.parse().ok()?;
    if kind == "crash" {
        Some(LiveStep::Crash { server, after })
    } else if kind == "join" {
        Some(LiveStep::Join { server, after })
    } else {
        None
    }
}

/// The number of servers that a word says.
fn size_in(word: Option<&str>) -> Option<ChainSize> {
    ChainSize::new(word?.parse().ok()?)
}

/// The number of sends that a word says.
fn requests_in(word: Option<&str>) -> Option<u64> {
    word?.parse().ok()
}

/// What a line asks for.
#[derive(Drop)]
struct Plan {
    size: ChainSize,
    steps: Vec<LiveStep>,
}

/// The plan of a line.
fn plan_of(alloc: Global, line: &str) -> io::Result<Plan> {
    let mut words = line.split_whitespace();
    let size = size_in(words.next()).ok_or(stop("no number of servers from 1 to 8"))?;
    let requests = requests_in(words.next()).ok_or(stop("no number of sends"))?;
    let mut steps = Vec::new(alloc);
    for word in words {
        let step = change(word).ok_or(stop("no crash and no join"))?;
        steps.push(step).map_err(|_| stop("no memory"))?;
    }
    let queue = QueueName::new(alloc, "q.fifo").map_err(|_| stop("no name"))?;
    add_asks(alloc, &mut steps, &queue, 1, requests)?;
    add_asks(alloc, &mut steps, &queue, 2, requests)?;
    Ok(Plan { size, steps })
}

/// Adds a party to the text of a fault.
fn add_party(text: &mut String, party: Party) -> io::Result<()> {
    match party {
        Party::Master => text.push_str(" master")?,
        Party::Clients => text.push_str(" clients")?,
        Party::Server(id) => {
            let number = id.get();
            write!(text, " {number}")?;
        }
    }
    Ok(())
}

/// The parties that have events left, where the audit found no next event.
fn parties_left(alloc: Global, fault: &AuditFault) -> io::Result<String> {
    let mut text = String::new(alloc);
    if let AuditFault::NoNextEvent(parties) = fault {
        for party in parties {
            add_party(&mut text, *party)?;
        }
    }
    Ok(text)
}

/// Tells why there is no report.
fn tell_fault(rt: &impl Print, alloc: Global, fault: &LiveFault) -> io::Result<()> {
    let code = fault.code();
    let name = fault.name();
    match fault {
        LiveFault::AuditRefused(refused) => {
            let number = refused.code();
            let why = refused.name();
            let left = parties_left(alloc, refused)?;
            println!(rt; "{code} {name} {number} {why}{left}")
        }
        LiveFault::BadScript(step) => println!(rt; "{code} {name} step {step}"),
        _ => println!(rt; "{code} {name}"),
    }
}

/// Runs the plan, and tells what came of it.
fn run(
    rt: &(impl Threads + Wait + Clock + Sync + Print),
    alloc: Global,
    plan: &Plan,
) -> io::Result<()> {
    let gate = Counting::new(rt)?;
    let answer = live(rt, alloc, plan.size, &plan.steps, TURNS, &gate);
    let microseconds = gate.elapsed()?;
    match answer {
        Ok(report) => {
            let accepted = report.accepted;
            let events = report.events.len();
            let turns = gate.turns.load(SeqCst);
            let running = gate.running.load(SeqCst);
            println!(rt;
                "accepted {accepted} events {events} turns {turns} microseconds {microseconds} running {running}"
            )
        }
        Err(fault) => tell_fault(rt, alloc, &fault),
    }
}

pub fn run_lines(
    rt: &(impl Threads + Wait + Clock + Sync + Print + Input),
    alloc: Global,
) -> io::Result<()> {
    for line in BufReader::new(alloc, rt.reader())?.lines(alloc) {
        run(rt, alloc, &plan_of(alloc, line?.as_str())?)?;
    }
    Ok(())
}

//! The job `live`: a chain of three servers, a master and two clients, each on a thread of its own. The middle server crashes
//! a third of the way, and another server joins. The digest has how many sends were accepted, how many servers found no
//! memory, and all that each client asked, in the order in which it first arrived, which is the same however the threads run.
use crate::common::{Draws, stop};
use crate::digest::Digest;
use cq_base::{
    Ask, BatchSize, Body, ChainSize, DedupId, GroupId, QueueName, Receipt, Request, Seconds,
    ServerId,
};
use cq_events::Event;
use cq_live::live;
use cq_live_plan::LiveStep;
use cq_nodes::Always;
use std::alloc::Global;
use std::io;
use std::sync::Wait;
use std::thread::Threads;

/// How many turns each node has at most.
const TURNS: u64 = 1_000_000_000;

const SERVERS: u8 = 3;

const CUSTOMERS: u64 = 64;

/// The error where there is no memory.
fn no_memory() -> io::Error {
    stop("no memory")
}

/// The steps of a live run, as they are made.
#[derive(Drop)]
struct Plan {
    alloc: Global,
    draws: Draws,
    steps: Vec<LiveStep>,
}

impl Plan {
    fn add(&mut self, step: LiveStep) -> io::Result<()> {
        self.steps.push(step)?;
        Ok(())
    }

    /// The name of the queue of that client.
    fn queue(&self, client: u32) -> io::Result<QueueName> {
        let text = format!(in self.alloc; "orders-{client}.fifo")?;
        QueueName::new(self.alloc, text.as_str()).map_err(|_| stop("no name"))
    }

    fn create(&mut self, client: u32) -> io::Result<()> {
        let queue = self.queue(client)?;
        let visibility = Seconds::new(30).ok_or(stop("no timeout"))?;
        self.add(LiveStep::Client {
            client,
            ask: Ask::Create {
                queue,
                visibility,
                content: false,
            },
        })
    }

    fn send(&mut self, client: u32, number: u64) -> io::Result<()> {
        let group = self.draws.below(CUSTOMERS);
        let amount = self.draws.below(1_000_000);
        let group = format!(in self.alloc; "customer-{group}")?;
        let dedup = format!(in self.alloc; "order-{number}")?;
        let body = format!(in self.alloc; "order {number} of {amount} euros, by the next train")?;
        let ask = Ask::Send {
            queue: self.queue(client)?,
            group: GroupId::new(self.alloc, group.as_str()).map_err(|_| stop("no group"))?,
            dedup: Some(DedupId::new(self.alloc, dedup.as_str()).map_err(|_| stop("no id"))?),
            body: Body::new(self.alloc, body.as_str()).map_err(|_| stop("no body"))?,
        };
        self.add(LiveStep::Client { client, ask })
    }

    fn receive(&mut self, client: u32) -> io::Result<()> {
        let ask = Ask::Receive {
            queue: self.queue(client)?,
            size: BatchSize::new(10).ok_or(stop("no size"))?,
            visibility: None,
        };
        self.add(LiveStep::Client { client, ask })
    }

    fn delete(&mut self, client: u32, message: u64) -> io::Result<()> {
        let ask = Ask::Delete {
            queue: self.queue(client)?,
            receipt: Receipt::new(1, message, 1).ok_or(stop("no receipt"))?,
        };
        self.add(LiveStep::Client { client, ask })
    }

    /// A message is sent, received and deleted.
    fn add_round(&mut self, client: u32, number: u64) -> io::Result<()> {
        self.send(client, number)?;
        self.receive(client)?;
        self.delete(client, number)
    }

    /// All that a client asks, in so many rounds.
    fn add_client(&mut self, client: u32, rounds: u64) -> io::Result<()> {
        self.create(client)?;
        for number in 1..=rounds {
            self.add_round(client, number)?;
        }
        Ok(())
    }

    /// The middle server crashes once it has so many entries, and server 4 joins from that turn of the master on.
    fn add_changes(&mut self, after: u64) -> io::Result<()> {
        let server = ServerId::new(2).ok_or(stop("no server"))?;
        self.add(LiveStep::Crash { server, after })?;
        let server = ServerId::new(4).ok_or(stop("no server"))?;
        self.add(LiveStep::Join { server, after: 100 })
    }
}

/// The steps of two clients with so many rounds each.
fn steps_of(alloc: Global, seed: u64, rounds: u64) -> io::Result<Vec<LiveStep>> {
    let mut plan = Plan {
        alloc,
        draws: Draws::new(seed),
        steps: Vec::new(alloc),
    };
    plan.add_changes(rounds)?;
    plan.add_client(1, rounds)?;
    plan.add_client(2, rounds)?;
    Ok(plan.steps)
}

/// Adds the parts of a send.
fn add_send(digest: &mut Digest, group: &GroupId, dedup: Option<&DedupId>, body: &Body) {
    digest.add_bytes(group.as_str().as_bytes());
    if let Some(dedup) = dedup {
        digest.add_bytes(dedup.as_str().as_bytes());
    }
    digest.add_bytes(body.as_str().as_bytes());
}

/// Adds the numbers of a receipt.
fn add_receipt(digest: &mut Digest, receipt: Receipt) {
    digest.add(receipt.incarnation());
    digest.add(receipt.sequence());
    digest.add(receipt.handing());
}

/// Adds all that is asked, with a number of its own for each kind.
fn add_ask(digest: &mut Digest, ask: &Ask) {
    digest.add_bytes(ask.queue().as_str().as_bytes());
    match ask {
        Ask::Create {
            visibility,
            content,
            ..
        } => {
            digest.add(1);
            digest.add(u64::from(visibility.get()));
            digest.add(u64::from(*content));
        }
        Ask::Remove { .. } => digest.add(2),
        Ask::Send {
            group,
            dedup,
            body,
            ..
        } => {
            digest.add(3);
            add_send(digest, group, dedup.as_ref(), body);
        }
        Ask::Receive { size, .. } => {
            digest.add(4);
            digest.add(u64::from(size.get()));
        }
        Ask::Delete { receipt, .. } => {
            digest.add(5);
            add_receipt(digest, *receipt);
        }
        Ask::Change {
            receipt,
            visibility,
            ..
        } => {
            digest.add(6);
            add_receipt(digest, *receipt);
            digest.add(u64::from(visibility.get()));
        }
    }
}

/// The requests of one client, as they arrive.
#[derive(Clone, Copy)]
struct Arrivals {
    client: u32,
    last: u64,
    digest: Digest,
}

impl Arrivals {
    fn new(client: u32) -> Arrivals {
        Arrivals {
            client,
            last: 0,
            digest: Digest::new(),
        }
    }

    /// Adds a request, unless it is another client's, or came before.
    fn add(&mut self, request: &Request) {
        if request.client == self.client && request.number > self.last {
            self.last = request.number;
            self.digest.add(request.number);
            add_ask(&mut self.digest, &request.ask);
        }
    }
}

/// Adds all requests that arrived to the client's digest.
fn add_arrivals(arrivals: &mut Arrivals, events: &[Event]) {
    for event in events {
        if let Event::Arrive { request, .. } = event {
            arrivals.add(request);
        }
    }
}

/// The digest of what one client's requests were.
fn arrivals_of(client: u32, events: &[Event]) -> u64 {
    let mut arrivals = Arrivals::new(client);
    add_arrivals(&mut arrivals, events);
    arrivals.digest.value()
}

/// So many rounds of each client.
pub fn run<H: Threads + Wait + Sync>(
    rt: &H,
    alloc: Global,
    seed: u64,
    size: u64,
) -> io::Result<u64> {
    let servers = ChainSize::new(SERVERS).ok_or(stop("no size"))?;
    let steps = steps_of(alloc, seed, size)?;
    let report = live(rt, alloc, servers, &steps, TURNS, &Always).map_err(|_| stop(
        "the live run ended with a fault",
    ))?;
    let mut digest = Digest::new();
    digest.add(report.accepted);
    digest.add(report.starved.len() as u64);
    digest.add(arrivals_of(1, &report.events));
    digest.add(arrivals_of(2, &report.events));
    Ok(digest.value())
}

//! What a run is to do, as words say it.
use crate::stop;
use cq_base::{Ask, Body, ChainSize, DedupId, GroupId, NoMemory, QueueName, Seconds, ServerId};
use cq_live_plan::LiveStep;
use std::alloc::Global;
use std::io;

/// The size of the first chain, and the steps of the clients, crashes and joins.
#[derive(Drop)]
pub struct Plan {
    pub size: ChainSize,
    pub steps: Vec<LiveStep>,
}

impl Plan {
    /// The number of the last server, of the first chain and of those that join.
    pub fn servers(&self) -> u32 {
        let mut last = u32::from(self.size.get());
        for step in &self.steps {
            if let LiveStep::Join { server, .. } = step {
                last = last.max(server.get());
            }
        }
        last
    }
}

/// Want of memory, as an error.
pub fn no_memory(_refused: NoMemory) -> io::Error {
    stop("no memory")
}

/// The ask to make the queue `q.fifo`.
fn create(alloc: Global) -> io::Result<Ask> {
    Ok(Ask::Create {
        queue: QueueName::new(alloc, "q.fifo").map_err(|_| stop("no name"))?,
        visibility: Seconds::new(30).ok_or(stop("no timeout"))?,
        content: false,
    })
}

/// The ask to send the client's message of that number.
fn send(alloc: Global, client: u32, number: u64) -> io::Result<Ask> {
    let text = format!(in alloc; "{client}-{number}")?;
    Ok(Ask::Send {
        queue: QueueName::new(alloc, "q.fifo").map_err(|_| stop("no name"))?,
        group: GroupId::new(alloc, "g").map_err(|_| stop("no group"))?,
        dedup: Some(DedupId::new(alloc, text.as_str()).map_err(|_| stop("no id"))?),
        body: Body::new(alloc, text.as_str()).map_err(|_| stop("no body"))?,
    })
}

/// Adds what a client asks: to make the queue, and then so many sends.
fn add_asks(alloc: Global, steps: &mut Vec<LiveStep>, client: u32, sends: u64) -> io::Result<()> {
    let ask = create(alloc)?;
    steps
        .push(LiveStep::Client { client, ask })
        .map_err(|_| stop("no memory"))?;
    for number in 0..sends {
        let ask = send(alloc, client, number)?;
        steps
            .push(LiveStep::Client { client, ask })
            .map_err(|_| stop("no memory"))?;
    }
    Ok(())
}

/// The step that a word such as `crash:2:10` or `join:4:100` says.
fn change(word: &str) -> Option<LiveStep> {
    let (kind, rest) = word.split_once(':')?;
    let (server, after) = rest.split_once(':')?;
    let server = ServerId::new(server.parse().ok()?)?;
    let after = after.parse().ok()?;
    match kind {
        "crash" => Some(LiveStep::Crash { server, after }),
        "join" => Some(LiveStep::Join { server, after }),
        _ => None,
    }
}

/// A number that a word says.
pub fn number(word: Option<&str>) -> io::Result<u64> {
    word.and_then(|word| word.parse().ok())
        .ok_or(stop("no number"))
}

/// The plan that words say: the size of the chain, the number of sends, or `none` where nothing is asked, and changes.
pub fn plan_of(alloc: Global, text: &str) -> io::Result<Plan> {
    let mut words = text.split_whitespace();
    let size = u8::try_from(number(words.next())?).unwrap_or(0);
    let size = ChainSize::new(size).ok_or(stop("no chain"))?;
    let sends = words.next();
    let mut steps = Vec::new(alloc);
    if sends != Some("none") {
        let sends = number(sends)?;
        add_asks(alloc, &mut steps, 1, sends)?;
        add_asks(alloc, &mut steps, 2, sends)?;
    }
    for word in words {
        let step = change(word).ok_or(stop("no change"))?;
        steps.push(step).map_err(|_| stop("no memory"))?;
    }
    Ok(Plan { size, steps })
}

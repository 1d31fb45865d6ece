//! Events, written as short rows.
use crate::stop;
use cq_base::{
    Ask, BatchSize, Body, DedupId, GroupId, Moment, Party, Query, QueueName, Request, Seconds,
    ServerId,
};
use cq_world::Event;
use std::alloc::Global;
use std::io;

/// A party.
#[derive(Clone, Copy)]
pub enum Who {
    Master,
    Clients,
    Server(u32),
}

/// An event, or two.
#[derive(Clone, Copy)]
pub enum Row {
    /// Client 1 creates the queue at that server, by its request 1.
    Create(u32),
    /// Client 1 sends a message, by its request of that number.
    Send(u32, u64),
    /// Client 2 receives ten messages, by its request of that number.
    Receive(u32, u64),
    /// A query.
    Count(u32),
    Put(Who, Who),
    Take(Who, Who),
    /// A message is put and taken.
    Pass(Who, Who),
    Crash(u32),
    Detect(u32),
    Join(u32),
}

fn server(number: u32) -> io::Result<ServerId> {
    ServerId::new(number).ok_or(stop("no server"))
}

pub fn party(who: Who) -> io::Result<Party> {
    match who {
        Who::Master => Ok(Party::Master),
        Who::Clients => Ok(Party::Clients),
        Who::Server(number) => Ok(Party::Server(server(number)?)),
    }
}

fn queue(alloc: Global) -> io::Result<QueueName> {
    QueueName::new(alloc, "q.fifo").map_err(|_| stop("no name"))
}

fn arrival(at: u32, client: u32, number: u64, ask: Ask) -> io::Result<Event> {
    Ok(Event::Arrive {
        at: server(at)?,
        clock: Moment::zero(),
        request: Request {
            client,
            number,
            ask,
        },
    })
}

fn creation(alloc: Global) -> io::Result<Ask> {
    Ok(Ask::Create {
        queue: queue(alloc)?,
        visibility: Seconds::new(30).ok_or(stop("no timeout"))?,
        content: false,
    })
}

fn sending(alloc: Global, number: u64) -> io::Result<Ask> {
    let id = format!(in alloc; "d{number}")?;
    Ok(Ask::Send {
        queue: queue(alloc)?,
        group: GroupId::new(alloc, "a").map_err(|_| stop("no group"))?,
        dedup: Some(DedupId::new(alloc, id.as_str()).map_err(|_| stop("no id"))?),
        body: Body::new(alloc, id.as_str()).map_err(|_| stop("no body"))?,
    })
}

fn receiving(alloc: Global) -> io::Result<Ask> {
    Ok(Ask::Receive {
        queue: queue(alloc)?,
        size: BatchSize::new(10).ok_or(stop("no size"))?,
        visibility: None,
    })
}

fn counting(alloc: Global, at: u32) -> io::Result<Event> {
    Ok(Event::Ask {
        at: server(at)?,
        query: Query {
            client: 1,
            tag: 9,
            queue: queue(alloc)?,
        },
    })
}

fn put(from: Who, to: Who) -> io::Result<Event> {
    Ok(Event::Put {
        from: party(from)?,
        to: party(to)?,
    })
}

fn take(from: Who, to: Who) -> io::Result<Event> {
    Ok(Event::Take {
        from: party(from)?,
        to: party(to)?,
    })
}

/// The event of the row, or the first of two.
fn event_of(alloc: Global, row: Row) -> io::Result<Event> {
    match row {
        Row::Create(at) => arrival(at, 1, 1, creation(alloc)?),
        Row::Send(at, number) => arrival(at, 1, number, sending(alloc, number)?),
        Row::Receive(at, number) => arrival(at, 2, number, receiving(alloc)?),
        Row::Count(at) => counting(alloc, at),
        Row::Put(from, to) => put(from, to),
        Row::Take(from, to) => take(from, to),
        Row::Pass(from, to) => put(from, to),
        Row::Crash(number) => Ok(Event::Crash {
            server: server(number)?,
        }),
        Row::Detect(number) => Ok(Event::Detect {
            server: server(number)?,
        }),
        Row::Join(number) => Ok(Event::Join {
            server: server(number)?,
        }),
    }
}

fn add_row(alloc: Global, events: &mut Vec<Event>, row: Row) -> io::Result<()> {
    events.push(event_of(alloc, row)?)?;
    if let Row::Pass(from, to) = row {
        events.push(take(from, to)?)?;
    }
    Ok(())
}

/// The events of the rows.
pub fn events_of(alloc: Global, rows: &[Row]) -> io::Result<Vec<Event>> {
    let mut events = Vec::new(alloc);
    for row in rows {
        add_row(alloc, &mut events, *row)?;
    }
    Ok(events)
}

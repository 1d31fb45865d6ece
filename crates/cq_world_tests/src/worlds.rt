//! Rows of events, of runs and of traces.
use cq_base::{Ask, ChainSize, Moment, Party, QueueName, Request, Seconds, ServerId};
use cq_world::Event;
use std::alloc::Global;
use std::process::Abort;
use std::test::Fail;

mod runs;
mod traces;

// Where a run stops for want of memory, it goes on from there, and an audit is tried once more. So under
// `check/refused-allocations`, which refuses each allocation of each test in turn, a test passes, or ends with
// an error where memory for an event or a text was refused; no assertion fails.
//
// Each test makes its world, and leaves the rest to a function that borrows it: a `?` while a world is at hand
// costs the check much.

/// A party of the rows below.
#[derive(Clone, Copy)]
enum Who {
    Master,
    Clients,
    Server(u32),
}

/// An event.
#[derive(Clone, Copy)]
enum Row {
    /// A creation at moment 0: the server, the client, and the number of its request.
    Arrive(u32, u32, u64),
    Put(Who, Who),
    Take(Who, Who),
    Crash(u32),
    Detect(u32),
    Join(u32),
}

fn server(number: u32) -> Result<ServerId, Fail> {
    Ok(ServerId::new(number).ok_or("no server")?)
}

fn party(who: Who) -> Result<Party, Fail> {
    match who {
        Who::Master => Ok(Party::Master),
        Who::Clients => Ok(Party::Clients),
        Who::Server(number) => Ok(Party::Server(server(number)?)),
    }
}

/// A client creates `q.fifo` with a visibility timeout of 30 s at moment 0.
fn arrival(alloc: Global, at: u32, client: u32, number: u64) -> Result<Event, Fail> {
    let at = server(at)?;
    let queue = QueueName::new(alloc, "q.fifo")?;
    let visibility = Seconds::new(30).ok_or("no timeout")?;
    let ask = Ask::Create {
        queue,
        visibility,
        content: false,
    };
    let request = Request {
        client,
        number,
        ask,
    };
    let clock = Moment::zero();
    Ok(Event::Arrive { at, clock, request })
}

fn event_of(alloc: Global, row: Row) -> Result<Event, Fail> {
    match row {
        Row::Arrive(at, client, number) => arrival(alloc, at, client, number),
        Row::Put(from, to) => {
            let (from, to) = (party(from)?, party(to)?);
            Ok(Event::Put { from, to })
        }
        Row::Take(from, to) => {
            let (from, to) = (party(from)?, party(to)?);
            Ok(Event::Take { from, to })
        }
        Row::Crash(number) => {
            let server = server(number)?;
            Ok(Event::Crash { server })
        }
        Row::Detect(number) => {
            let server = server(number)?;
            Ok(Event::Detect { server })
        }
        Row::Join(number) => {
            let server = server(number)?;
            Ok(Event::Join { server })
        }
    }
}

const MASTER: Who = Who::Master;

const ONE: Who = Who::Server(1);

const TWO: Who = Who::Server(2);

const THREE: Who = Who::Server(3);

//! Values made by a seed.
use crate::frames::{command, response};
use crate::kinds::Value;
use crate::stop;
use cq_base::{
    Ask, BatchSize, Body, DedupId, Deliveries, Delivery, Entry, GroupId, MOMENT_LIMIT, Moment,
    Query, QueueName, Receipt, Refusal, Reply, Request, SECONDS_LIMIT, Seconds, ServerId,
};
use cq_chain::{Answer, Message};
use rand_xoshiro::Xoshiro256PlusPlus;
use rand_xoshiro::rand_core::{Rng, SeedableRng};
use std::alloc::Global;
use std::io;

/// Bytes of names.
const NAME_BYTES: &[u8] = b"abcXYZ019-_";

/// Pieces of bodies, of one byte to four.
const PIECES: [&str; 6] = ["a", " ", "\n", "\u{e4}", "\u{20ac}", "\u{1f600}"];

/// Numbers drawn by a seed.
#[derive(Drop)]
pub struct Draws {
    generator: Xoshiro256PlusPlus,
}

impl Draws {
    pub fn new(seed: u64) -> Draws {
        Draws {
            generator: Xoshiro256PlusPlus::seed_from_u64(seed),
        }
    }

    /// A number below `limit`, or 0 where that is 0.
    pub fn below(&mut self, limit: u64) -> u64 {
        let drawn = self.generator.next_u64();
        drawn.checked_rem(limit).unwrap_or(0)
    }

    /// A number of few digits or of many.
    pub fn number(&mut self) -> u64 {
        let shift = u32::from(self.small(64));
        let drawn = self.generator.next_u64();
        drawn.checked_shr(shift).unwrap_or(0)
    }

    /// A number of 32 bits.
    pub fn number32(&mut self) -> u32 {
        u32::try_from(self.number()).unwrap_or(u32::MAX)
    }

    /// A number below `limit`, which is at most 256, or 0 where that is 0.
    pub fn small(&mut self, limit: u64) -> u8 {
        u8::try_from(self.below(limit)).unwrap_or(0)
    }

    /// One of so many places.
    fn place(&mut self, places: usize) -> usize {
        usize::try_from(self.below(places as u64)).unwrap_or(0)
    }
}

fn name(alloc: Global, draws: &mut Draws) -> io::Result<QueueName> {
    let mut text = String::new(alloc);
    for _ in 0..=draws.below(5) {
        let place = draws.place(NAME_BYTES.len());
        let byte = NAME_BYTES.get(place).ok_or(stop("no byte"))?;
        text.push(char::from(*byte))?;
    }
    text.push_str(".fifo")?;
    QueueName::new(alloc, text.as_str()).map_err(|_| stop("no memory"))
}

/// One to six letters.
fn letters(alloc: Global, draws: &mut Draws) -> io::Result<String> {
    let mut text = String::new(alloc);
    for _ in 0..=draws.below(6) {
        let letter = b'!'.saturating_add(draws.small(94));
        text.push(char::from(letter))?;
    }
    Ok(text)
}

fn group(alloc: Global, draws: &mut Draws) -> io::Result<GroupId> {
    let text = letters(alloc, draws)?;
    GroupId::new(alloc, text.as_str()).map_err(|_| stop("no memory"))
}

fn dedup(alloc: Global, draws: &mut Draws) -> io::Result<Option<DedupId>> {
    if draws.below(2) == 0 {
        return Ok(None);
    }
    let text = letters(alloc, draws)?;
    Ok(Some(DedupId::new(alloc, text.as_str()).map_err(|_| stop("no memory"))?))
}

fn body(alloc: Global, draws: &mut Draws) -> io::Result<Body> {
    let mut text = String::new(alloc);
    for _ in 0..=draws.below(8) {
        let place = draws.place(PIECES.len());
        text.push_str(PIECES.get(place).ok_or(stop("no piece"))?)?;
    }
    Body::new(alloc, text.as_str()).map_err(|_| stop("no memory"))
}

fn seconds(draws: &mut Draws) -> io::Result<Seconds> {
    let drawn = draws.number32().checked_rem(SECONDS_LIMIT + 1).unwrap_or(0);
    Seconds::new(drawn).ok_or(stop("no timeout"))
}

fn seconds_if(draws: &mut Draws) -> io::Result<Option<Seconds>> {
    if draws.below(2) == 0 {
        return Ok(None);
    }
    Ok(Some(seconds(draws)?))
}

fn receipt(draws: &mut Draws) -> io::Result<Receipt> {
    let incarnation = draws.number().max(1);
    let sequence = draws.number().max(1);
    let handing = draws.number().max(1);
    Receipt::new(incarnation, sequence, handing).ok_or(stop("no receipt"))
}

fn size(draws: &mut Draws) -> io::Result<BatchSize> {
    BatchSize::new(draws.small(10).saturating_add(1)).ok_or(stop("no size"))
}

fn ask(alloc: Global, draws: &mut Draws) -> io::Result<Ask> {
    let queue = name(alloc, draws)?;
    Ok(match draws.below(6) {
        0 => Ask::Create {
            queue,
            visibility: seconds(draws)?,
            content: draws.below(2) == 0,
        },
        1 => Ask::Remove { queue },
        2 => Ask::Send {
            queue,
            group: group(alloc, draws)?,
            dedup: dedup(alloc, draws)?,
            body: body(alloc, draws)?,
        },
        3 => Ask::Receive {
            queue,
            size: size(draws)?,
            visibility: seconds_if(draws)?,
        },
        4 => Ask::Delete {
            queue,
            receipt: receipt(draws)?,
        },
        _ => Ask::Change {
            queue,
            receipt: receipt(draws)?,
            visibility: seconds(draws)?,
        },
    })
}

pub fn request(alloc: Global, draws: &mut Draws) -> io::Result<Request> {
    Ok(Request {
        client: draws.number32(),
        number: draws.number(),
        ask: ask(alloc, draws)?,
    })
}

pub fn moment(draws: &mut Draws) -> io::Result<Moment> {
    Moment::new(draws.number().min(MOMENT_LIMIT)).ok_or(stop("no moment"))
}

fn entry(alloc: Global, draws: &mut Draws) -> io::Result<Entry> {
    Ok(Entry {
        moment: moment(draws)?,
        request: request(alloc, draws)?,
    })
}

pub fn query(alloc: Global, draws: &mut Draws) -> io::Result<Query> {
    Ok(Query {
        client: draws.number32(),
        tag: draws.number(),
        queue: name(alloc, draws)?,
    })
}

fn deliveries(alloc: Global, draws: &mut Draws) -> io::Result<Deliveries> {
    let mut made = Vec::new(alloc);
    for _ in 0..draws.below(4) {
        let delivery = Delivery {
            receipt: receipt(draws)?,
            group: group(alloc, draws)?,
            body: body(alloc, draws)?,
        };
        made.push(delivery).map_err(|_| stop("no memory"))?;
    }
    Ok(Deliveries::from_vec(made))
}

fn refusal(draws: &mut Draws) -> Refusal {
    match draws.below(8) {
        0 => Refusal::QueueDoesNotExist,
        1 => Refusal::QueueNameExists,
        2 => Refusal::QueueDeletedRecently,
        3 => Refusal::ReceiptHandleIsInvalid,
        4 => Refusal::MessageNotInflight,
        5 => Refusal::VisibilityBeyondLimit,
        6 => Refusal::StaleNumber,
        _ => Refusal::MissingDedupId,
    }
}

fn reply(alloc: Global, draws: &mut Draws) -> io::Result<Reply> {
    Ok(match draws.below(8) {
        0 => Reply::Created(draws.number()),
        1 => Reply::Removed,
        2 => Reply::Sent(draws.number()),
        3 => Reply::Received(deliveries(alloc, draws)?),
        4 => Reply::Deleted(draws.below(2) == 0),
        5 => Reply::Changed,
        6 => Reply::Counts {
            visible: draws.number(),
            in_flight: draws.number(),
        },
        _ => Reply::Refused(refusal(draws)),
    })
}

pub fn server(draws: &mut Draws) -> io::Result<ServerId> {
    ServerId::new(draws.number32().max(1)).ok_or(stop("no server"))
}

fn server_if(draws: &mut Draws) -> io::Result<Option<ServerId>> {
    if draws.below(2) == 0 {
        return Ok(None);
    }
    Ok(Some(server(draws)?))
}

fn answer(alloc: Global, draws: &mut Draws) -> io::Result<Answer> {
    Ok(Answer {
        client: draws.number32(),
        number: draws.number(),
        is_query: draws.below(2) == 0,
        length: draws.number(),
        reply: reply(alloc, draws)?,
    })
}

/// A message of the master.
fn order(draws: &mut Draws) -> io::Result<Message> {
    Ok(match draws.below(5) {
        0 => Message::BeHead,
        1 => Message::Report {
            pred: server(draws)?,
        },
        2 => Message::Adopt {
            succ: server(draws)?,
            have: draws.number(),
        },
        3 => Message::BeTail {
            at_least: draws.number(),
        },
        _ => Message::Feed {
            succ: server_if(draws)?,
        },
    })
}

/// A message to the master.
fn report(draws: &mut Draws) -> io::Result<Message> {
    Ok(match draws.below(4) {
        0 => Message::Have {
            pred: server(draws)?,
            count: draws.number(),
        },
        1 => Message::Adopted {
            succ: server(draws)?,
            count: draws.number(),
        },
        2 => Message::Caught {
            pred: server(draws)?,
            count: draws.number(),
        },
        _ => Message::Ready,
    })
}

/// A message that isn't a snapshot.
pub fn message(alloc: Global, draws: &mut Draws) -> io::Result<Message> {
    Ok(match draws.below(5) {
        0 => Message::Fwd {
            place: draws.number(),
            entry: entry(alloc, draws)?,
        },
        1 => Message::Ack {
            place: draws.number(),
        },
        2 => order(draws)?,
        3 => report(draws)?,
        _ => Message::Answer(answer(alloc, draws)?),
    })
}

/// A value of some kind.
pub fn value(alloc: Global, draws: &mut Draws) -> io::Result<Value> {
    Ok(match draws.below(7) {
        0 => Value::Entry(entry(alloc, draws)?),
        1 => Value::Request(request(alloc, draws)?),
        2 => Value::Query(query(alloc, draws)?),
        3 => Value::Reply(reply(alloc, draws)?),
        4 => Value::Message(message(alloc, draws)?),
        5 => Value::Command(command(alloc, draws)?),
        _ => Value::Response(response(alloc, draws)?),
    })
}

//! How a run has to end.
use crate::running::{Notes, settle, step};
use cq_base::{Moment, NoMemory, Party, Reply, Request};
use cq_chain::{Answer, Server};
use cq_world::{Event, Sim};

/// The clients that ask something.
const CLIENTS: [u32; 2] = [1, 2];

/// What is wrong with the end of a run.
#[derive(Clone, Copy)]
pub enum Flaw {
    NoRest,
    StillWaits,
    NotReady,
    NoTail,
    CountsDiffer,
    HeadRefuses,
    NoAnswer,
    OtherReply,
}

impl Flaw {
    pub fn text(self) -> &'static str {
        match self {
            Flaw::NoRest => "the world doesn't come to rest",
            Flaw::StillWaits => "something is on its way still",
            Flaw::NotReady => "the master doesn't know that the last member acts",
            Flaw::NoTail => "the last member doesn't act",
            Flaw::CountsDiffer => "two members have different numbers of entries",
            Flaw::HeadRefuses => "the head refuses a request",
            Flaw::NoAnswer => "a request has no answer",
            Flaw::OtherReply => "two answers to one request have different replies",
        }
    }
}

/// Where there is an end, whether a request was answered that had an answer before.
pub type Ended = Result<bool, Flaw>;

fn lives(sim: &Sim, party: &Party) -> bool {
    match party {
        Party::Server(id) => match sim.server(*id) {
            Some(server) => !server.is_down(),
            None => false,
        },
        _ => true,
    }
}

/// Nothing is on its way from a party to another, but to one that is down.
fn is_quiet_between(sim: &Sim, from: &Party, to: &Party) -> bool {
    let (waits, stands) = sim.waiting(*from, *to);
    (waits == 0 || !lives(sim, from)) && (stands == 0 || !lives(sim, to))
}

fn is_quiet_from(sim: &Sim, from: &Party, parties: &[Party]) -> bool {
    for to in parties {
        if !is_quiet_between(sim, from, to) {
            return false;
        }
    }
    true
}

fn is_quiet(sim: &Sim, parties: &[Party]) -> bool {
    for from in parties {
        if !is_quiet_from(sim, from, parties) {
            return false;
        }
    }
    true
}

/// The last member of the chain.
fn tail(sim: &Sim) -> Option<&Server> {
    let last = sim.master().chain().last()?;
    sim.server(*last)
}

/// All members have so many entries.
fn have_all(sim: &Sim, count: u64) -> bool {
    for id in sim.master().chain() {
        match sim.server(*id) {
            Some(server) if server.count() == count => (),
            _ => return false,
        }
    }
    true
}

/// What is wrong with a world at rest.
fn check_chain(sim: &Sim, parties: &[Party]) -> Result<(), Flaw> {
    if !is_quiet(sim, parties) {
        return Err(Flaw::StillWaits);
    }
    if !sim.master().is_ready() {
        return Err(Flaw::NotReady);
    }
    let tail = tail(sim).ok_or(Flaw::NoTail)?;
    if !tail.is_acting() {
        return Err(Flaw::NoTail);
    }
    if !have_all(sim, tail.count()) {
        return Err(Flaw::CountsDiffer);
    }
    Ok(())
}

/// The client's request with the largest number.
fn newest(requests: &[Request], client: u32) -> Option<&Request> {
    let mut best: Option<&Request> = None;
    for request in requests {
        let least = match best {
            Some(found) => found.number,
            None => 0,
        };
        if request.client == client && least < request.number {
            best = Some(request);
        }
    }
    best
}

fn answers(answer: &Answer, client: u32, number: u64) -> bool {
    !answer.is_query && answer.client == client && answer.number == number
}

/// Replies of the kinds that the lists have are the same.
pub fn is_same(one: &Reply, other: &Reply) -> bool {
    match one {
        Reply::Created(number) => matches!(other, Reply::Created(same) if *same == *number),
        Reply::Sent(number) => matches!(other, Reply::Sent(same) if *same == *number),
        Reply::Refused(why) => matches!(other, Reply::Refused(same) if *same == *why),
        Reply::Received(items) => {
            matches!(other, Reply::Received(same) if same.as_slice() == items.as_slice())
        }
        Reply::Counts { visible, in_flight } => {
            matches!(other, Reply::Counts { visible: seen, in_flight: flying } if *seen == *visible && *flying == *in_flight)
        }
        _ => false,
    }
}

/// The last answer to that request, if one was given after so many others.
fn last_answer(given: &[Answer], before: u64, client: u32, number: u64) -> Option<&Answer> {
    let mut place = 0u64;
    let mut last: Option<&Answer> = None;
    for answer in given {
        if before <= place && answers(answer, client, number) {
            last = Some(answer);
        }
        place = place.saturating_add(1);
    }
    last
}

/// How many answers to that request were given, or nothing where one has another reply.
fn count_same(given: &[Answer], client: u32, number: u64, reply: &Reply) -> Option<u64> {
    let mut count = 0u64;
    for answer in given {
        if answers(answer, client, number) {
            if !is_same(&answer.reply, reply) {
                return None;
            }
            count = count.saturating_add(1);
        }
    }
    Some(count)
}

/// What is wrong with the answers to a request that was given once more after so many answers.
fn check_answers(given: &[Answer], before: u64, client: u32, number: u64) -> Ended {
    let last = last_answer(given, before, client, number).ok_or(Flaw::NoAnswer)?;
    let count = count_same(given, client, number, &last.reply).ok_or(Flaw::OtherReply)?;
    Ok(1 < count)
}

/// The request arrives at the head, and all goes on until nothing is on its way. Whether it arrived.
fn arrive(
    sim: &mut Sim,
    notes: &mut Notes,
    parties: &[Party],
    request: Request,
) -> Result<Result<(), Flaw>, NoMemory> {
    let at = match sim.master().chain().first() {
        Some(head) => *head,
        None => return Ok(Err(Flaw::HeadRefuses)),
    };
    let clock = Moment::zero();
    if !step(sim, notes, &Event::Arrive { at, clock, request })? {
        return Ok(Err(Flaw::HeadRefuses));
    }
    check_rest(sim, notes, parties)
}

/// What is wrong once nothing is on its way any more.
fn check_rest(
    sim: &mut Sim,
    notes: &mut Notes,
    parties: &[Party],
) -> Result<Result<(), Flaw>, NoMemory> {
    if !settle(sim, notes, parties)? {
        return Ok(Err(Flaw::NoRest));
    }
    Ok(check_chain(sim, parties))
}

/// What is wrong with the answer to the client's newest request, which arrives once more.
fn check_client(
    sim: &mut Sim,
    notes: &mut Notes,
    parties: &[Party],
    client: u32,
) -> Result<Ended, NoMemory> {
    let request = match newest(notes.requests.as_slice(), client) {
        Some(request) => request.try_copy()?,
        None => return Ok(Ok(false)),
    };
    let number = request.number;
    let before = notes.answers.len() as u64;
    match arrive(sim, notes, parties, request)? {
        Ok(()) => Ok(check_answers(notes.answers.as_slice(), before, client, number)),
        Err(flaw) => Ok(Err(flaw)),
    }
}

fn check_clients(sim: &mut Sim, notes: &mut Notes, parties: &[Party]) -> Result<Ended, NoMemory> {
    let mut compared = false;
    for client in CLIENTS {
        match check_client(sim, notes, parties, client)? {
            Ok(had) => compared = compared || had,
            Err(flaw) => return Ok(Err(flaw)),
        }
    }
    Ok(Ok(compared))
}

/// What is wrong with the end of a run, if anything is.
pub fn check_end(sim: &mut Sim, notes: &mut Notes, parties: &[Party]) -> Result<Ended, NoMemory> {
    match check_rest(sim, notes, parties)? {
        Ok(()) => check_clients(sim, notes, parties),
        Err(flaw) => Ok(Err(flaw)),
    }
}

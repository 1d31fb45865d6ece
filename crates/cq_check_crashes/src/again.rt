//! Worlds that are refused memory. Two worlds take the same events, and where one of them is refused memory, the event comes
//! again: it has to go on as the other one does.
use crate::crashes::parties_of;
use crate::ending::is_same;
use crate::lists::List;
use crate::stop;
use cq_base::{ChainSize, NoMemory, Party};
use cq_chain::{Answer, Server, WorldFault};
use cq_world::{Event, Ran, Sim};
use std::alloc::Global;
use std::io;

/// How two worlds differ that took the same events.
#[derive(Clone, Copy)]
enum Difference {
    Refused,
    Came,
    Shown,
    Ran,
}

impl Difference {
    fn text(self) -> &'static str {
        match self {
            Difference::Refused => "an event without memory changes what a world shows",
            Difference::Came => "an event that came again gives another answer",
            Difference::Shown => "after an event that came again a world shows other things",
            Difference::Ran => "a run that goes on tells other things",
        }
    }
}

/// What an event gave.
type Came = Result<Option<Answer>, WorldFault>;

fn are_servers_alike(one: &Server, other: &Server) -> bool {
    one.count() == other.count()
        && one.kept() == other.kept()
        && one.acked() == other.acked()
        && one.is_head() == other.is_head()
        && one.is_acting() == other.is_acting()
        && one.is_full() == other.is_full()
        && one.is_down() == other.is_down()
}

fn is_shown_alike(one: &Sim, other: &Sim, party: &Party) -> bool {
    let id = match party {
        Party::Server(id) => *id,
        _ => return true,
    };
    match one.server(id) {
        Some(server) => match other.server(id) {
            Some(twin) => are_servers_alike(server, twin),
            None => false,
        },
        None => other.server(id).is_none(),
    }
}

/// As many messages wait from there to each party.
fn wait_alike(one: &Sim, other: &Sim, from: &Party, parties: &[Party]) -> bool {
    for to in parties {
        let (outbox, link) = one.waiting(*from, *to);
        let (twin_outbox, twin_link) = other.waiting(*from, *to);
        if outbox != twin_outbox || link != twin_link {
            return false;
        }
    }
    true
}

fn are_masters_alike(one: &Sim, other: &Sim) -> bool {
    let (one, other) = (one.master(), other.master());
    one.chain() == other.chain()
        && one.joiner() == other.joiner()
        && one.is_ready() == other.is_ready()
}

/// Whether both worlds show the same.
fn are_alike(one: &Sim, other: &Sim, parties: &[Party]) -> bool {
    for party in parties {
        if !is_shown_alike(one, other, party) || !wait_alike(one, other, party, parties) {
            return false;
        }
    }
    are_masters_alike(one, other)
}

fn are_answers_same(one: &Answer, other: &Answer) -> bool {
    one.client == other.client
        && one.number == other.number
        && one.is_query == other.is_query
        && one.length == other.length
        && is_same(&one.reply, &other.reply)
}

fn came_alike(one: &Came, other: &Came) -> bool {
    match one {
        Ok(Some(answer)) => matches!(other, Ok(Some(twin)) if are_answers_same(answer, twin)),
        Ok(None) => matches!(other, Ok(None)),
        Err(fault) => matches!(other, Err(twin) if fault.code() == twin.code()),
    }
}

/// The event, which comes again where it is refused memory.
fn step_again(sim: &mut Sim, event: &Event) -> Came {
    let came = sim.step(event);
    match came {
        Err(WorldFault::NoMemory) => sim.step(event),
        _ => came,
    }
}

/// The same, for a world that shows before what the other one shows.
fn step_beside(
    sim: &mut Sim,
    before: &Sim,
    parties: &[Party],
    event: &Event,
) -> Result<Came, Difference> {
    let came = sim.step(event);
    if !matches!(came, Err(WorldFault::NoMemory)) {
        return Ok(came);
    }
    if !are_alike(sim, before, parties) {
        return Err(Difference::Refused);
    }
    Ok(sim.step(event))
}

/// The event in both worlds.
fn step_both(
    sim: &mut Sim,
    twin: &mut Sim,
    parties: &[Party],
    event: &Event,
) -> Result<(), Difference> {
    let came = step_beside(sim, twin, parties, event)?;
    let twin_came = step_again(twin, event);
    if !came_alike(&came, &twin_came) {
        return Err(Difference::Came);
    }
    if !are_alike(sim, twin, parties) {
        return Err(Difference::Shown);
    }
    Ok(())
}

fn step_all(
    sim: &mut Sim,
    twin: &mut Sim,
    parties: &[Party],
    events: &[Event],
) -> Result<(), Difference> {
    for event in events {
        step_both(sim, twin, parties, event)?;
    }
    Ok(())
}

/// The first part of a run and the rest, whose numbers begin anew.
fn joined(mut ran: Ran, rest: Ran) -> Result<Ran, NoMemory> {
    let done = ran.done;
    for (number, answer) in rest.given {
        ran.given.push((number.saturating_add(done), answer))?;
    }
    for (number, fault) in rest.refused {
        ran.refused.push((number.saturating_add(done), fault))?;
    }
    ran.done = done.saturating_add(rest.done);
    ran.stop = rest.stop;
    Ok(ran)
}

/// A run of all events, which goes on where it stopped for want of memory.
fn run_on(sim: &mut Sim, events: &[Event]) -> Result<Ran, NoMemory> {
    let ran = sim.run(events);
    if ran.stop.is_none() {
        return Ok(ran);
    }
    let rest = sim.run(&events[ran.done as usize..]);
    joined(ran, rest)
}

fn are_given_alike(one: &[(u64, Answer)], other: &[(u64, Answer)]) -> bool {
    for i in 0..one.len() {
        match other.get(i) {
            Some((number, answer)) if *number == one[i].0 => {
                if !are_answers_same(&one[i].1, answer) {
                    return false;
                }
            }
            _ => return false,
        }
    }
    one.len() == other.len()
}

fn are_refused_alike(one: &[(u64, WorldFault)], other: &[(u64, WorldFault)]) -> bool {
    for i in 0..one.len() {
        match other.get(i) {
            Some((number, fault)) if *number == one[i].0 && fault.code() == one[i].1.code() => (),
            _ => return false,
        }
    }
    one.len() == other.len()
}

fn ran_alike(one: &Ran, other: &Ran) -> bool {
    one.done == other.done
        && one.stop.is_none()
        && other.stop.is_none()
        && are_given_alike(one.given.as_slice(), other.given.as_slice())
        && are_refused_alike(one.refused.as_slice(), other.refused.as_slice())
}

/// Runs of all events in both worlds.
fn run_both(
    sim: &mut Sim,
    twin: &mut Sim,
    parties: &[Party],
    events: &[Event],
) -> Result<Result<(), Difference>, NoMemory> {
    let ran = run_on(sim, events)?;
    let twin_ran = run_on(twin, events)?;
    if !ran_alike(&ran, &twin_ran) {
        return Ok(Err(Difference::Ran));
    }
    if !are_alike(sim, twin, parties) {
        return Ok(Err(Difference::Shown));
    }
    Ok(Ok(()))
}

fn world(alloc: Global, list: List) -> io::Result<Sim> {
    let size = ChainSize::new(list.size()).ok_or(stop("no size"))?;
    match Sim::new(alloc, size) {
        Ok(sim) => Ok(sim),
        Err(_) => Sim::new(alloc, size).map_err(|_| stop("no memory")),
    }
}

fn events_of(alloc: Global, list: List) -> io::Result<Vec<Event>> {
    match list.events(alloc) {
        Ok(events) => Ok(events),
        Err(_) => list.events(alloc),
    }
}

fn parties_in(alloc: Global, list: List) -> io::Result<Vec<Party>> {
    match parties_of(alloc, list.servers()) {
        Ok(parties) => Ok(parties),
        Err(_) => parties_of(alloc, list.servers()),
    }
}

fn steps(
    alloc: Global,
    list: List,
    parties: &[Party],
    events: &[Event],
) -> io::Result<Result<(), Difference>> {
    let mut sim = world(alloc, list)?;
    let mut twin = world(alloc, list)?;
    Ok(step_all(&mut sim, &mut twin, parties, events))
}

fn runs(
    alloc: Global,
    list: List,
    parties: &[Party],
    events: &[Event],
) -> io::Result<Result<(), Difference>> {
    let mut sim = world(alloc, list)?;
    let mut twin = world(alloc, list)?;
    run_both(&mut sim, &mut twin, parties, events).map_err(|_| stop("no memory"))
}

fn compare(
    alloc: Global,
    list: List,
    parties: &[Party],
    events: &[Event],
) -> io::Result<Result<(), Difference>> {
    match steps(alloc, list, parties, events)? {
        Ok(()) => runs(alloc, list, parties, events),
        Err(found) => Ok(Err(found)),
    }
}

/// Runs the list in two worlds event by event, and in two others at once. Whether they stayed alike.
pub fn run_twins(rt: &HostRuntime, list: List) -> io::Result<bool> {
    let parties = parties_in(rt.alloc(), list)?;
    let events = events_of(rt.alloc(), list)?;
    let (name, count) = (list.name(), events.len() as u64);
    match compare(rt.alloc(), list, parties.as_slice(), events.as_slice())? {
        Ok(()) => {
            println!(rt; "{name}: {count} events in two worlds, which stayed alike")?;
            Ok(true)
        }
        Err(found) => {
            let text = found.text();
            println!(rt; "{name}: {text}")?;
            Ok(false)
        }
    }
}

//! Events in a world, and what comes of them.
use cq_base::{NoMemory, Party, Request, ServerId};
use cq_chain::{Answer, WorldFault};
use cq_world::{Event, Sim};
use std::alloc::Global;

/// A world that makes more events than that doesn't come to rest.
pub const LIMIT: u64 = 100_000;

/// What was seen of a run.
#[derive(Drop)]
pub struct Notes {
    /// How many events weren't refused.
    pub events: u64,
    /// The requests that arrived, in order.
    pub requests: Vec<Request>,
    /// The answers that were given, in order.
    pub answers: Vec<Answer>,
}

impl Notes {
    pub fn new(alloc: Global) -> Notes {
        Notes {
            events: 0,
            requests: Vec::new(alloc),
            answers: Vec::new(alloc),
        }
    }

    /// One more event, which gave that.
    fn add(&mut self, event: &Event, given: Option<Answer>) -> Result<(), NoMemory> {
        self.events = self.events.saturating_add(1);
        if let Event::Arrive { request, .. } = event {
            self.requests.push(request.try_copy()?)?;
        }
        if let Some(answer) = given {
            self.answers.push(answer)?;
        }
        Ok(())
    }
}

/// A crash of a server, before the event at that place or behind the last one.
#[derive(Clone, Copy)]
pub struct Crash {
    pub place: u64,
    pub server: ServerId,
}

/// Whether the event wasn't refused.
pub fn step(sim: &mut Sim, notes: &mut Notes, event: &Event) -> Result<bool, NoMemory> {
    match sim.step(event) {
        Ok(given) => {
            notes.add(event, given)?;
            Ok(true)
        }
        Err(WorldFault::NoMemory) => Err(NoMemory),
        Err(_) => Ok(false),
    }
}

/// The crashes at that place.
fn crash_at(
    sim: &mut Sim,
    notes: &mut Notes,
    crashes: &[Crash],
    place: u64,
) -> Result<(), NoMemory> {
    for crash in crashes {
        if crash.place == place {
            let server = crash.server;
            let _ = step(sim, notes, &Event::Crash { server })?;
        }
    }
    Ok(())
}

/// The events with the crashes among them.
pub fn run(
    sim: &mut Sim,
    notes: &mut Notes,
    events: &[Event],
    crashes: &[Crash],
) -> Result<(), NoMemory> {
    let mut place = 0;
    for event in events {
        crash_at(sim, notes, crashes, place)?;
        let _ = step(sim, notes, event)?;
        place = place.saturating_add(1);
    }
    crash_at(sim, notes, crashes, place)
}

/// The master learns of all crashes.
fn detect_all(sim: &mut Sim, notes: &mut Notes, parties: &[Party]) -> Result<(), NoMemory> {
    for party in parties {
        if let Party::Server(server) = party {
            let _ = step(sim, notes, &Event::Detect { server: *server })?;
        }
    }
    Ok(())
}

/// The event, until it is refused.
fn repeat(sim: &mut Sim, notes: &mut Notes, event: &Event) -> Result<(), NoMemory> {
    for _ in 0..LIMIT {
        if !step(sim, notes, event)? {
            return Ok(());
        }
    }
    Ok(())
}

/// All that waits at a party is put.
fn put_from(
    sim: &mut Sim,
    notes: &mut Notes,
    from: &Party,
    parties: &[Party],
) -> Result<(), NoMemory> {
    for to in parties {
        let event = Event::Put {
            from: *from,
            to: *to,
        };
        repeat(sim, notes, &event)?;
    }
    Ok(())
}

/// All that stands in links to a party is taken.
fn take_to(
    sim: &mut Sim,
    notes: &mut Notes,
    to: &Party,
    parties: &[Party],
) -> Result<(), NoMemory> {
    for from in parties {
        let event = Event::Take {
            from: *from,
            to: *to,
        };
        repeat(sim, notes, &event)?;
    }
    Ok(())
}

fn put_all(sim: &mut Sim, notes: &mut Notes, parties: &[Party]) -> Result<(), NoMemory> {
    for from in parties {
        put_from(sim, notes, from, parties)?;
    }
    Ok(())
}

fn take_all(sim: &mut Sim, notes: &mut Notes, parties: &[Party]) -> Result<(), NoMemory> {
    for to in parties {
        take_to(sim, notes, to, parties)?;
    }
    Ok(())
}

/// Crashes are detected, and all that is on its way goes one link further. Whether anything happened.
fn round(sim: &mut Sim, notes: &mut Notes, parties: &[Party]) -> Result<bool, NoMemory> {
    let before = notes.events;
    detect_all(sim, notes, parties)?;
    put_all(sim, notes, parties)?;
    take_all(sim, notes, parties)?;
    Ok(notes.events != before)
}

/// Goes on until nothing is on its way any more. Whether it came so far.
pub fn settle(sim: &mut Sim, notes: &mut Notes, parties: &[Party]) -> Result<bool, NoMemory> {
    let last = notes.events.saturating_add(LIMIT);
    for _ in 0..LIMIT {
        if !round(sim, notes, parties)? {
            return Ok(true);
        }
        if last < notes.events {
            return Ok(false);
        }
    }
    Ok(false)
}

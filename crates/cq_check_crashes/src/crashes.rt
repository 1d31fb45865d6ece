//! All runs of a list.
use crate::ending::{Ended, check_end};
use crate::lists::List;
use crate::rows::{Who, party};
use crate::running::{Crash, Notes, run};
use crate::stop;
use cq_base::{ChainSize, NoMemory, Party};
use cq_world::{Event, Sim};
use std::alloc::Global;
use std::io;

/// What is run: a list of events, and the parties of its world.
#[derive(Drop)]
struct Course {
    list: List,
    size: ChainSize,
    events: Vec<Event>,
    parties: Vec<Party>,
}

/// What is told of the runs of a list.
#[derive(Clone, Copy)]
pub struct Told {
    events: u64,
    runs: u64,
    /// In so many of them a request was answered that had an answer before.
    compared: u64,
    pub failed: u64,
}

impl Told {
    pub fn print(&self, rt: &HostRuntime, list: List, crashes: u8) -> io::Result<()> {
        let name = list.name();
        let (events, runs, compared, failed) = (self.events, self.runs, self.compared, self.failed);
        println!(rt;
            "{name}: {events} events, {runs} runs with crashes: {crashes}, {compared} of them with an answer given again, {failed} ended otherwise"
        )
    }

    /// One more run, which ended so.
    fn add(&mut self, ended: &Ended) {
        self.runs = self.runs.saturating_add(1);
        match ended {
            Ok(true) => self.compared = self.compared.saturating_add(1),
            Ok(false) => (),
            Err(_) => self.failed = self.failed.saturating_add(1),
        }
    }
}

fn run_in(
    sim: &mut Sim,
    notes: &mut Notes,
    course: &Course,
    crashes: &[Crash],
) -> Result<Ended, NoMemory> {
    run(sim, notes, course.events.as_slice(), crashes)?;
    check_end(sim, notes, course.parties.as_slice())
}

/// How the run ends with these crashes.
fn end_of(alloc: Global, course: &Course, crashes: &[Crash]) -> Result<Ended, NoMemory> {
    let mut sim = Sim::new(alloc, course.size)?;
    let mut notes = Notes::new(alloc);
    run_in(&mut sim, &mut notes, course, crashes)
}

fn print_crash(rt: &HostRuntime, crash: &Crash) -> io::Result<()> {
    let server = crash.server.get();
    let place = crash.place.saturating_add(1);
    print!(rt; "server {server} before event {place}, ")
}

fn print_crashes(rt: &HostRuntime, crashes: &[Crash]) -> io::Result<()> {
    for crash in crashes {
        print_crash(rt, crash)?;
    }
    Ok(())
}

/// A run that ended otherwise is told.
fn print_end(rt: &HostRuntime, list: List, crashes: &[Crash], ended: &Ended) -> io::Result<()> {
    match ended {
        Ok(_) => Ok(()),
        Err(flaw) => {
            let name = list.name();
            let text = flaw.text();
            print!(rt; "{name}, crashes: ")?;
            print_crashes(rt, crashes)?;
            println!(rt; "{text}")
        }
    }
}

fn run_one(
    rt: &HostRuntime,
    course: &Course,
    told: &mut Told,
    crashes: &[Crash],
) -> io::Result<()> {
    let ended = end_of(rt.alloc(), course, crashes).map_err(|_| stop("no memory"))?;
    told.add(&ended);
    print_end(rt, course.list, crashes, &ended)
}

/// A crash of each server at that place.
fn add_crashes(all: &mut Vec<Crash>, parties: &[Party], place: u64) -> io::Result<()> {
    for party in parties {
        if let Party::Server(server) = party {
            all.push(Crash {
                place,
                server: *server,
            })?;
        }
    }
    Ok(())
}

/// A crash of each server at each place.
fn crashes_of(alloc: Global, course: &Course) -> io::Result<Vec<Crash>> {
    let mut all = Vec::new(alloc);
    for place in 0..=course.events.len() as u64 {
        add_crashes(&mut all, course.parties.as_slice(), place)?;
    }
    Ok(all)
}

fn run_singles(
    rt: &HostRuntime,
    course: &Course,
    told: &mut Told,
    all: &[Crash],
) -> io::Result<()> {
    for crash in all {
        run_one(rt, course, told, &[*crash])?;
    }
    Ok(())
}

/// That crash, and each one of another server that comes later, or at the same place behind it.
fn run_with(
    rt: &HostRuntime,
    course: &Course,
    told: &mut Told,
    all: &[Crash],
    first: &Crash,
) -> io::Result<()> {
    for second in all {
        if first.place <= second.place && first.server != second.server {
            run_one(rt, course, told, &[*first, *second])?;
        }
    }
    Ok(())
}

fn run_pairs(rt: &HostRuntime, course: &Course, told: &mut Told, all: &[Crash]) -> io::Result<()> {
    for first in all {
        run_with(rt, course, told, all, first)?;
    }
    Ok(())
}

/// The master, the clients, and so many servers.
pub fn parties_of(alloc: Global, servers: u32) -> io::Result<Vec<Party>> {
    let mut parties = Vec::new(alloc);
    parties.push(Party::Master)?;
    parties.push(Party::Clients)?;
    for number in 1..=servers {
        parties.push(party(Who::Server(number))?)?;
    }
    Ok(parties)
}

fn course_of(alloc: Global, list: List) -> io::Result<Course> {
    Ok(Course {
        list,
        size: ChainSize::new(list.size()).ok_or(stop("no size"))?,
        events: list.events(alloc)?,
        parties: parties_of(alloc, list.servers())?,
    })
}

/// All runs of the list that have so many crashes.
pub fn run_all(rt: &HostRuntime, list: List, crashes: u8) -> io::Result<Told> {
    let course = course_of(rt.alloc(), list)?;
    let all = crashes_of(rt.alloc(), &course)?;
    let mut told = Told {
        events: course.events.len() as u64,
        runs: 0,
        compared: 0,
        failed: 0,
    };
    match crashes {
        0 => run_one(rt, &course, &mut told, &[])?,
        1 => run_singles(rt, &course, &mut told, all.as_slice())?,
        _ => run_pairs(rt, &course, &mut told, all.as_slice())?,
    }
    Ok(told)
}

//! The lists of events.
use crate::rows::{Row, Who, events_of};
use cq_world::Event;
use std::alloc::Global;
use std::io;

/// A list of events that the program knows.
#[derive(Clone, Copy)]
pub enum List {
    /// Three servers, of which the middle one is lost while it forwards two messages.
    MiddleLost,
    /// Two servers, of which the head is lost with a request that the other one hasn't.
    HeadLost,
    /// Two servers, of which the tail is lost with an answer that no client was given.
    TailLost,
    /// Two servers, and a third one that joins and takes over as tail.
    HandedOver,
    /// Four servers, of which two are lost, the second while the chain is repaired after the first.
    TwoLost,
}

/// All of them.
pub const LISTS: [List; 5] = [
    List::MiddleLost,
    List::HeadLost,
    List::TailLost,
    List::HandedOver,
    List::TwoLost,
];

const MASTER: Who = Who::Master;

const CLIENTS: Who = Who::Clients;

const ONE: Who = Who::Server(1);

const TWO: Who = Who::Server(2);

const THREE: Who = Who::Server(3);

const FOUR: Who = Who::Server(4);

fn middle_lost(alloc: Global) -> io::Result<Vec<Event>> {
    let rows = [
        Row::Create(1),
        Row::Pass(ONE, TWO),
        Row::Pass(TWO, THREE),
        Row::Put(THREE, CLIENTS),
        Row::Pass(THREE, TWO),
        Row::Pass(TWO, ONE),
        Row::Send(1, 2),
        Row::Send(1, 3),
        Row::Pass(ONE, TWO),
        Row::Pass(ONE, TWO),
        Row::Put(TWO, THREE),
        Row::Put(TWO, THREE),
        Row::Take(TWO, THREE),
        Row::Crash(2),
        Row::Detect(2),
        Row::Pass(MASTER, THREE),
        Row::Take(TWO, THREE),
        Row::Pass(THREE, MASTER),
        Row::Pass(MASTER, ONE),
        Row::Pass(ONE, THREE),
        Row::Pass(ONE, MASTER),
        Row::Put(THREE, CLIENTS),
        Row::Put(THREE, CLIENTS),
        Row::Pass(THREE, ONE),
        Row::Pass(THREE, ONE),
    ];
    events_of(alloc, &rows)
}

fn head_lost(alloc: Global) -> io::Result<Vec<Event>> {
    let rows = [
        Row::Create(1),
        Row::Pass(ONE, TWO),
        Row::Put(TWO, CLIENTS),
        Row::Pass(TWO, ONE),
        Row::Send(1, 2),
        Row::Crash(1),
        Row::Detect(1),
        Row::Pass(MASTER, TWO),
        Row::Send(2, 2),
        Row::Put(TWO, CLIENTS),
        Row::Send(2, 2),
        Row::Put(TWO, CLIENTS),
        Row::Receive(2, 1),
        Row::Put(TWO, CLIENTS),
    ];
    events_of(alloc, &rows)
}

fn tail_lost(alloc: Global) -> io::Result<Vec<Event>> {
    let rows = [
        Row::Create(1),
        Row::Pass(ONE, TWO),
        Row::Put(TWO, CLIENTS),
        Row::Pass(TWO, ONE),
        Row::Send(1, 2),
        Row::Pass(ONE, TWO),
        Row::Receive(1, 1),
        Row::Crash(2),
        Row::Detect(2),
        Row::Pass(MASTER, ONE),
        Row::Send(1, 2),
        Row::Put(ONE, CLIENTS),
        Row::Receive(1, 1),
        Row::Put(ONE, CLIENTS),
        Row::Pass(ONE, MASTER),
    ];
    events_of(alloc, &rows)
}

fn handed_over(alloc: Global) -> io::Result<Vec<Event>> {
    let rows = [
        Row::Create(1),
        Row::Pass(ONE, TWO),
        Row::Pass(TWO, ONE),
        Row::Send(1, 2),
        Row::Pass(ONE, TWO),
        Row::Pass(TWO, ONE),
        Row::Join(3),
        Row::Pass(MASTER, THREE),
        Row::Pass(THREE, MASTER),
        Row::Pass(MASTER, TWO),
        Row::Pass(TWO, THREE),
        Row::Send(1, 3),
        Row::Pass(ONE, TWO),
        Row::Put(TWO, CLIENTS),
        Row::Put(TWO, CLIENTS),
        Row::Put(TWO, CLIENTS),
        Row::Pass(THREE, MASTER),
        Row::Pass(MASTER, TWO),
        Row::Count(2),
        Row::Pass(TWO, MASTER),
        Row::Pass(MASTER, THREE),
        Row::Count(3),
        Row::Pass(TWO, THREE),
        Row::Count(3),
        Row::Put(THREE, CLIENTS),
        Row::Put(THREE, CLIENTS),
        Row::Pass(THREE, MASTER),
    ];
    events_of(alloc, &rows)
}

fn two_lost(alloc: Global) -> io::Result<Vec<Event>> {
    let rows = [
        Row::Create(1),
        Row::Pass(ONE, TWO),
        Row::Send(1, 2),
        Row::Pass(ONE, TWO),
        Row::Crash(2),
        Row::Detect(2),
        Row::Pass(MASTER, THREE),
        Row::Pass(THREE, MASTER),
        Row::Crash(3),
        Row::Detect(3),
        Row::Pass(MASTER, ONE),
        Row::Pass(ONE, MASTER),
        Row::Pass(MASTER, FOUR),
        Row::Pass(FOUR, MASTER),
        Row::Pass(MASTER, ONE),
        Row::Pass(ONE, FOUR),
        Row::Pass(ONE, FOUR),
        Row::Put(FOUR, CLIENTS),
        Row::Put(FOUR, CLIENTS),
    ];
    events_of(alloc, &rows)
}

impl List {
    pub fn name(self) -> &'static str {
        match self {
            List::MiddleLost => "middle lost",
            List::HeadLost => "head lost",
            List::TailLost => "tail lost",
            List::HandedOver => "handed over",
            List::TwoLost => "two lost",
        }
    }

    /// How many servers the first chain has.
    pub fn size(self) -> u8 {
        match self {
            List::MiddleLost => 3,
            List::TwoLost => 4,
            _ => 2,
        }
    }

    /// The highest number of a server, one that joins among them.
    pub fn servers(self) -> u32 {
        match self {
            List::MiddleLost => 3,
            List::HandedOver => 3,
            List::TwoLost => 4,
            _ => 2,
        }
    }

    pub fn events(self, alloc: Global) -> io::Result<Vec<Event>> {
        match self {
            List::MiddleLost => middle_lost(alloc),
            List::HeadLost => head_lost(alloc),
            List::TailLost => tail_lost(alloc),
            List::HandedOver => handed_over(alloc),
            List::TwoLost => two_lost(alloc),
        }
    }
}

//! The job `backlog`: producers have been at work for long before a consumer comes. One queue has letters of many groups,
//! and of many alphabets; then they are handed out by tens, some are given back, and the others are deleted.
use crate::letters::{Handed, Letters};
use crate::lines::{Lines, Name};
use crate::orders::Orders;
use crate::script::Maker;
use crate::session::run_session;
use crate::texts::write_letter;
use std::alloc::Global;
use std::io;

const SERVER: u64 = 1;

const QUEUE: u64 = 1;

/// By how many milliseconds the clock goes on between two requests, at most.
const PAUSE: u64 = 4;

/// How many letters a receive asks for.
const BATCH: usize = 10;

/// For so many seconds a letter is kept for longer.
const LONGER: u64 = 3_600;

/// Each group has about so many letters.
const GROUP_LENGTH: u64 = 16;

/// So many requests, or rounds, are made at a time.
const AT_ONCE: u64 = 64;

/// One queue, and how far the script has come.
#[derive(Drop)]
struct Backlog {
    alloc: Global,
    orders: Orders,
    count: u64,
    groups: u64,
    sent: u64,
    letters: Letters,
    is_made: bool,
}

impl Backlog {
    fn new(alloc: Global, seed: u64, count: u64) -> io::Result<Backlog> {
        let groups = 1 + count / GROUP_LENGTH;
        Ok(Backlog {
            alloc,
            orders: Orders::new(alloc, seed, PAUSE)?,
            count,
            groups,
            sent: 0,
            letters: Letters::new(alloc, groups)?,
            is_made: false,
        })
    }

    fn answer(&mut self, lines: &mut Lines) -> io::Result<()> {
        lines.put(Name::Server(SERVER), Name::Clients)
    }

    fn make(&mut self, lines: &mut Lines) -> io::Result<()> {
        self.orders.create(lines, SERVER, QUEUE, 600)?;
        self.is_made = true;
        self.answer(lines)
    }

    fn send(&mut self, lines: &mut Lines) -> io::Result<()> {
        self.sent = self.sent.saturating_add(1);
        let group = self.orders.draws.below(self.groups);
        self.letters.add(group as usize, self.sent)?;
        self.orders
            .begin_send(lines, SERVER, QUEUE, group, self.sent)?;
        write_letter(&mut self.orders.draws, lines)?;
        self.orders.end_send(lines)?;
        self.answer(lines)
    }

    fn send_some(&mut self, lines: &mut Lines) -> io::Result<()> {
        for _ in 0..AT_ONCE.min(self.count.saturating_sub(self.sent)) {
            self.send(lines)?;
        }
        Ok(())
    }

    fn change(&mut self, lines: &mut Lines, handed: Handed, visibility: u64) -> io::Result<()> {
        let Handed {
            letter,
            handing,
            ..
        } = handed;
        self.orders
            .change(lines, SERVER, QUEUE, letter, handing, visibility)?;
        self.answer(lines)
    }

    fn delete(&mut self, lines: &mut Lines, handed: Handed) -> io::Result<()> {
        let Handed {
            letter,
            handing,
            ..
        } = handed;
        self.orders.delete(lines, SERVER, QUEUE, letter, handing)?;
        self.answer(lines)
    }

    /// Ends with a letter, and tells whether it was given back: so is one in eight, at once. Another one in eight is kept for
    /// longer and then deleted, and all others are deleted.
    fn end_one(&mut self, lines: &mut Lines, handed: Handed) -> io::Result<bool> {
        let drawn = self.orders.draws.below(8);
        if drawn < 2 {
            self.change(lines, handed, drawn.saturating_mul(LONGER))?;
        }
        if drawn > 0 {
            self.delete(lines, handed)?;
        }
        Ok(drawn == 0)
    }

    /// Hands out up to ten letters, and ends with each.
    fn round(&mut self, lines: &mut Lines) -> io::Result<()> {
        self.orders.receive(lines, SERVER, QUEUE, BATCH as u64)?;
        self.answer(lines)?;
        let batch = self.letters.hand(self.alloc, BATCH)?;
        let mut given_back = Vec::new(self.alloc);
        for handed in batch.as_slice() {
            if self.end_one(lines, *handed)? {
                given_back.push(*handed)?;
            }
        }
        self.letters.end(batch.as_slice(), given_back.as_slice())
    }

    fn receive_some(&mut self, lines: &mut Lines) -> io::Result<()> {
        for _ in 0..AT_ONCE {
            if self.letters.is_empty() {
                break;
            }
            self.round(lines)?;
        }
        self.orders.count(lines, SERVER, QUEUE)?;
        self.answer(lines)
    }
}

impl Maker for Backlog {
    fn write_next(&mut self, lines: &mut Lines) -> io::Result<()> {
        if !self.is_made {
            self.make(lines)?;
        }
        if self.sent < self.count {
            return self.send_some(lines);
        }
        if !self.letters.is_empty() {
            return self.receive_some(lines);
        }
        Ok(())
    }
}

/// So many letters.
pub fn run(alloc: Global, seed: u64, size: u64) -> io::Result<u64> {
    run_session(alloc, Backlog::new(alloc, seed, size)?)
}

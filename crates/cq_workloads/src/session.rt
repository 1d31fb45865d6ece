//! The job `session`: what a gateway asks of one server. Orders go to 40 queues, a customer's in order, and a consumer takes
//! up to ten at a time, works them off and deletes them. Now and then a send comes a second time, a message is kept for
//! longer, or somebody counts what waits.
use crate::common::stop;
use crate::digest::{Digest, DigestWriter};
use crate::lines::{Lines, Name};
use crate::orders::Orders;
use crate::script::{Maker, Script};
use crate::texts::write_order;
use cq_base::ChainSize;
use cq_script::{Checked, session};
use std::alloc::Global;
use std::io;

const QUEUES: u64 = 40;

const CUSTOMERS: u64 = 50;

/// The one server.
const SERVER: u64 = 1;

/// By how many milliseconds the clock goes on between two requests, at most.
const PAUSE: u64 = 100;

/// How many orders a consumer takes at most.
const BATCH: u64 = 10;

/// So many rounds are made at a time: more bytes than a session reads at once.
const ROUNDS: u64 = 32;

/// Producers and consumers, by rounds on one queue each.
#[derive(Drop)]
struct Shop {
    orders: Orders,
    /// How many messages each queue has got, once it is made.
    sent: Vec<u64>,
    is_made: bool,
    rounds: u64,
}

impl Shop {
    fn new(alloc: Global, seed: u64, rounds: u64) -> io::Result<Shop> {
        let mut sent = Vec::new(alloc);
        for _ in 0..QUEUES {
            sent.push(0)?;
        }
        Ok(Shop {
            orders: Orders::new(alloc, seed, PAUSE)?,
            sent,
            is_made: false,
            rounds,
        })
    }

    /// How many messages the queue has got.
    fn count_of(&self, queue: u64) -> u64 {
        self.sent.get(queue as usize).copied().unwrap_or(0)
    }

    /// The queue gets one more message.
    fn count_one(&mut self, queue: u64) {
        if let Some(count) = self.sent.get_mut(queue as usize) {
            *count = count.saturating_add(1);
        }
    }

    fn answer(&mut self, lines: &mut Lines) -> io::Result<()> {
        lines.put(Name::Server(SERVER), Name::Clients)
    }

    fn make_queues(&mut self, lines: &mut Lines) -> io::Result<()> {
        for queue in 0..QUEUES {
            self.orders.create(lines, SERVER, queue, 30)?;
            self.answer(lines)?;
        }
        self.is_made = true;
        Ok(())
    }

    /// A send of an order under that id.
    fn send(&mut self, lines: &mut Lines, queue: u64, id: u64) -> io::Result<()> {
        let customer = self.orders.draws.below(CUSTOMERS);
        self.orders.begin_send(lines, SERVER, queue, customer, id)?;
        write_order(&mut self.orders.draws, lines, id)?;
        self.orders.end_send(lines)?;
        self.answer(lines)
    }

    /// So many orders more. One in so many is sent twice.
    fn send_some(&mut self, lines: &mut Lines, queue: u64, count: u64) -> io::Result<()> {
        for _ in 0..count {
            self.count_one(queue);
            let id = self.count_of(queue);
            self.send(lines, queue, id)?;
            if self.orders.draws.one_in(32) {
                self.send(lines, queue, id)?;
            }
        }
        Ok(())
    }

    /// The newest messages of the queue are deleted, so many.
    fn delete_some(&mut self, lines: &mut Lines, queue: u64, count: u64) -> io::Result<()> {
        let last = self.count_of(queue);
        for message in last.saturating_sub(count)..last {
            self.orders
                .delete(lines, SERVER, queue, message.saturating_add(1), 1)?;
            self.answer(lines)?;
        }
        Ok(())
    }

    /// One in so many consumers keeps a message for longer.
    fn keep_one(&mut self, lines: &mut Lines, queue: u64) -> io::Result<()> {
        if self.orders.draws.one_in(8) {
            let last = self.count_of(queue);
            self.orders.change(lines, SERVER, queue, last, 1, 120)?;
            self.answer(lines)?;
        }
        Ok(())
    }

    /// One in so many rounds somebody counts.
    fn count_some(&mut self, lines: &mut Lines, queue: u64) -> io::Result<()> {
        if self.orders.draws.one_in(4) {
            self.orders.count(lines, SERVER, queue)?;
            self.answer(lines)?;
        }
        Ok(())
    }

    fn round(&mut self, lines: &mut Lines) -> io::Result<()> {
        let queue = self.orders.draws.below(QUEUES);
        let count = self.orders.draws.below(BATCH).saturating_add(1);
        self.send_some(lines, queue, count)?;
        self.count_some(lines, queue)?;
        self.orders.receive(lines, SERVER, queue, BATCH)?;
        self.answer(lines)?;
        self.keep_one(lines, queue)?;
        self.delete_some(lines, queue, count)
    }
}

impl Maker for Shop {
    fn write_next(&mut self, lines: &mut Lines) -> io::Result<()> {
        if !self.is_made {
            self.make_queues(lines)?;
        }
        for _ in 0..self.rounds.min(ROUNDS) {
            self.round(lines)?;
        }
        self.rounds = self.rounds.saturating_sub(ROUNDS);
        Ok(())
    }
}

/// Runs a session of the lines that are made, and gives the digest of what it writes.
pub fn run_session<M: Maker + Drop>(alloc: Global, maker: M) -> io::Result<u64> {
    let mut digest = Digest::new();
    let mut reader = Checked::new(Script::new(alloc, maker));
    let mut writer = Checked::new(DigestWriter::new(&mut digest));
    session(alloc, ChainSize::one(), &mut reader, &mut writer).map_err(|_| stop(
        "the session ended with a fault",
    ))?;
    Ok(digest.value())
}

/// So many rounds.
pub fn run(alloc: Global, seed: u64, size: u64) -> io::Result<u64> {
    run_session(alloc, Shop::new(alloc, seed, size)?)
}

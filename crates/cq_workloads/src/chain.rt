//! The job `replay`: a script of a chain that begins with three servers. Each request goes down the chain, its answer to the
//! client, and the acknowledgement up again. Five times in the script a server crashes, and the next one joins.
use crate::common::stop;
use crate::digest::{Digest, DigestWriter};
use crate::lines::{Lines, Name};
use crate::orders::Orders;
use crate::script::{Maker, Script};
use crate::texts::write_order;
use cq_base::ChainSize;
use cq_script::{Checked, replay};
use std::alloc::Global;
use std::io;

const QUEUES: u64 = 10;

const CUSTOMERS: u64 = 100;

/// How many servers the chain begins with.
const SERVERS: u64 = 3;

/// The number of the last server that joins.
const LAST_SERVER: u64 = 8;

/// By how many milliseconds the clock goes on between two requests, at most.
const PAUSE: u64 = 200;

/// After a change of the chain each party is visited so often.
const VISITS: u64 = 12;

/// So many rounds are made at a time.
const ROUNDS: u64 = 32;

/// A chain, and the queues that it keeps.
#[derive(Drop)]
struct Chain {
    orders: Orders,
    /// The servers, from the head to the tail.
    members: Vec<u64>,
    /// How many messages each queue has got.
    sent: Vec<u64>,
    joined: u64,
    is_made: bool,
    /// How many rounds there are in all, and how many are left.
    rounds: u64,
    left: u64,
}

impl Chain {
    fn new(alloc: Global, seed: u64, rounds: u64) -> io::Result<Chain> {
        let mut members = Vec::new(alloc);
        for server in 1..=SERVERS {
            members.push(server)?;
        }
        let mut sent = Vec::new(alloc);
        for _ in 0..QUEUES {
            sent.push(0)?;
        }
        Ok(Chain {
            orders: Orders::new(alloc, seed, PAUSE)?,
            members,
            sent,
            joined: SERVERS,
            is_made: false,
            rounds,
            left: rounds,
        })
    }

    fn head(&self) -> u64 {
        self.members.first().copied().unwrap_or(1)
    }

    fn tail(&self) -> u64 {
        self.members.last().copied().unwrap_or(1)
    }

    /// The server at that place of the chain.
    fn server(&self, place: usize) -> Name {
        Name::Server(self.members.get(place).copied().unwrap_or(1))
    }

    /// How many messages the queue has got.
    fn count_of(&self, queue: u64) -> u64 {
        self.sent.get(queue as usize).copied().unwrap_or(0)
    }

    /// The queue gets one more message.
    fn count_one(&mut self, queue: u64) {
        if let Some(count) = self.sent.get_mut(queue as usize) {
            *count = count.saturating_add(1);
        }
    }

    /// Carries what the head has down the chain.
    fn go_down(&self, lines: &mut Lines) -> io::Result<()> {
        for place in 1..self.members.len() {
            lines.carry(self.server(place - 1), self.server(place))?;
        }
        Ok(())
    }

    /// Carries an acknowledgement up the chain.
    fn go_up(&self, lines: &mut Lines) -> io::Result<()> {
        for place in (1..self.members.len()).rev() {
            lines.carry(self.server(place), self.server(place - 1))?;
        }
        Ok(())
    }

    /// A request that the head has taken goes its way.
    fn serve(&self, lines: &mut Lines) -> io::Result<()> {
        self.go_down(lines)?;
        lines.put(Name::Server(self.tail()), Name::Clients)?;
        self.go_up(lines)
    }

    fn make_queues(&mut self, lines: &mut Lines) -> io::Result<()> {
        for queue in 0..QUEUES {
            let head = self.head();
            self.orders.create(lines, head, queue, 60)?;
            self.serve(lines)?;
        }
        self.is_made = true;
        Ok(())
    }

    fn send(&mut self, lines: &mut Lines, queue: u64) -> io::Result<()> {
        self.count_one(queue);
        let id = self.count_of(queue);
        let customer = self.orders.draws.below(CUSTOMERS);
        let head = self.head();
        self.orders.begin_send(lines, head, queue, customer, id)?;
        write_order(&mut self.orders.draws, lines, id)?;
        self.orders.end_send(lines)?;
        self.serve(lines)
    }

    /// A message is sent, received and deleted. One in so many is left to others, and one in so many counts comes between.
    fn round(&mut self, lines: &mut Lines) -> io::Result<()> {
        let queue = self.orders.draws.below(QUEUES);
        self.send(lines, queue)?;
        if self.orders.draws.one_in(8) {
            let tail = self.tail();
            self.orders.count(lines, tail, queue)?;
            lines.put(Name::Server(tail), Name::Clients)?;
        }
        if self.orders.draws.one_in(16) {
            return Ok(());
        }
        let head = self.head();
        self.orders.receive(lines, head, queue, 2)?;
        self.serve(lines)?;
        let last = self.count_of(queue);
        self.orders.delete(lines, head, queue, last, 1)?;
        self.serve(lines)
    }

    /// What the master and a server have for each other is carried.
    fn visit(&self, lines: &mut Lines, server: Name) -> io::Result<()> {
        lines.carry(Name::Master, server)?;
        lines.carry(server, Name::Master)
    }

    /// The master and each server in the chain have told each other a message, and so has each pair of neighbours.
    fn visit_all(&self, lines: &mut Lines) -> io::Result<()> {
        for place in 0..self.members.len() {
            self.visit(lines, self.server(place))?;
        }
        self.go_down(lines)?;
        self.go_up(lines)?;
        lines.put(Name::Server(self.tail()), Name::Clients)
    }

    /// The same, many times.
    fn settle(&self, lines: &mut Lines) -> io::Result<()> {
        for _ in 0..VISITS {
            self.visit_all(lines)?;
        }
        Ok(())
    }

    /// A server of the chain crashes, and the chain goes on without it.
    fn crash_one(&mut self, lines: &mut Lines) -> io::Result<()> {
        let place = self.orders.draws.below(self.members.len() as u64) as usize;
        if place < self.members.len() {
            let server = self.members.remove(place);
            lines.change("crash", server)?;
            lines.change("detect", server)?;
        }
        self.settle(lines)
    }

    /// The next server joins behind the tail.
    fn join_one(&mut self, lines: &mut Lines) -> io::Result<()> {
        self.joined = self.joined.saturating_add(1);
        lines.change("join", self.joined)?;
        self.members.push(self.joined)?;
        self.settle(lines)
    }

    /// Whether so many rounds have gone by that the chain changes once more.
    fn is_time(&self) -> bool {
        let changes = self.joined.saturating_sub(SERVERS).saturating_add(1);
        let done = self.rounds.saturating_sub(self.left);
        self.joined < LAST_SERVER && done.saturating_mul(6) >= self.rounds.saturating_mul(changes)
    }

    fn change(&mut self, lines: &mut Lines) -> io::Result<()> {
        if self.is_time() {
            self.crash_one(lines)?;
            self.join_one(lines)?;
        }
        Ok(())
    }
}

impl Maker for Chain {
    fn write_next(&mut self, lines: &mut Lines) -> io::Result<()> {
        if !self.is_made {
            self.make_queues(lines)?;
        }
        for _ in 0..self.left.min(ROUNDS) {
            self.round(lines)?;
        }
        self.left = self.left.saturating_sub(ROUNDS);
        self.change(lines)
    }
}

/// So many rounds.
pub fn run(alloc: Global, seed: u64, size: u64) -> io::Result<u64> {
    let servers = ChainSize::new(SERVERS as u8).ok_or(stop("no size"))?;
    let mut digest = Digest::new();
    let mut reader = Checked::new(Script::new(alloc, Chain::new(alloc, seed, size)?));
    let mut writer = Checked::new(DigestWriter::new(&mut digest));
    replay(alloc, servers, &mut reader, &mut writer).map_err(|_| stop(
        "the replay ended with a fault",
    ))?;
    Ok(digest.value())
}

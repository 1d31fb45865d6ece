//! How long the calls of a store take, by the number of messages that a queue holds and of its groups. Each line of
//! standard input has these two numbers; each line of output has the nanoseconds of a call of each kind.
use crate::common::{since, stop};
use cq_base::{
    Ask, BatchSize, Body, DedupId, Entry, GroupId, HISTORY_LIMIT, Moment, Query, QueueName,
    Receipt, Reply, Request, Seconds,
};
use cq_store::Store;
use cq_store_wire::{StoreReader, StoreWriter};
use std::alloc::Global;
use std::io;
use std::io::{BufRead, BufReader};
use std::time::Instant;

/// How many receives are timed, each of ten messages.
const RECEIVES: u64 = 1_000;

/// How many counts are timed.
const COUNTS: u64 = 1_000;

/// The sends come within so many milliseconds, so that all of their deduplication ids are kept.
const SENDING: u64 = 299_000;

/// The nanoseconds of all calls of a kind, and how many calls there were.
#[derive(Clone, Copy)]
struct Timed {
    nanoseconds: u64,
    calls: u64,
}

impl Timed {
    fn zero() -> Timed {
        Timed {
            nanoseconds: 0,
            calls: 0,
        }
    }

    /// So many calls more, which took so long.
    fn add(&mut self, nanoseconds: u64, calls: u64) {
        self.nanoseconds = self.nanoseconds.saturating_add(nanoseconds);
        self.calls = self.calls.saturating_add(calls);
    }

    /// The nanoseconds of one call.
    fn each(&self) -> u64 {
        if self.calls == 0 {
            0
        } else {
            self.nanoseconds / self.calls
        }
    }
}

/// A store with one queue. Its calls aren't inlined, so that `bench/store` can count the instructions of each.
#[derive(Drop)]
struct Bench {
    store: Store,
    queue: QueueName,
}

impl Bench {
    fn new(alloc: Global) -> io::Result<Bench> {
        let queue = QueueName::new(alloc, "q.fifo").map_err(|_| stop("no name"))?;
        let store = Store::new(alloc).map_err(|_| stop("no memory"))?;
        Ok(Bench { store, queue })
    }

    /// One more request of client 1 at that moment.
    fn apply(&mut self, moment: u64, ask: Ask) -> io::Result<Reply> {
        let moment = Moment::new(moment).ok_or(stop("no moment"))?;
        let number = self.store.count().saturating_add(1);
        let request = Request {
            client: 1,
            number,
            ask,
        };
        let entry = Entry { moment, request };
        if HISTORY_LIMIT <= self.store.count() || moment.get() < self.store.last().get() {
            return Err(stop("no place in the history"));
        }
        self.store.apply(&entry).map_err(|_| stop("no memory"))
    }

    fn name(&self) -> io::Result<QueueName> {
        self.queue.try_copy().map_err(|_| stop("no memory"))
    }

    fn create(&mut self) -> io::Result<()> {
        let queue = self.name()?;
        let visibility = Seconds::new(30).ok_or(stop("no timeout"))?;
        let content = false;
        let _ = self.apply(
            0,
            Ask::Create {
                queue,
                visibility,
                content,
            },
        )?;
        Ok(())
    }

    /// The ask to send the message of that number.
    fn send_ask(&self, alloc: Global, number: u64, groups: u64) -> io::Result<Ask> {
        let group = if groups == 0 { 0 } else { number % groups };
        let group = format!(in alloc; "g{group}")?;
        let dedup = format!(in alloc; "d{number}")?;
        Ok(Ask::Send {
            queue: self.name()?,
            group: GroupId::new(alloc, group.as_str()).map_err(|_| stop("no group"))?,
            dedup: Some(DedupId::new(alloc, dedup.as_str()).map_err(|_| stop("no id"))?),
            body: Body::new(alloc, "a body of thirty-two bytes, or so").map_err(|_| stop(
                "no body",
            ))?,
        })
    }

    #[inline(never)]
    fn send(&mut self, alloc: Global, moment: u64, number: u64, groups: u64) -> io::Result<()> {
        let ask = self.send_ask(alloc, number, groups)?;
        let _ = self.apply(moment, ask)?;
        Ok(())
    }

    /// Sends so many messages in so many groups, and tells how long one took.
    fn send_all(
        &mut self,
        rt: &HostRuntime,
        alloc: Global,
        messages: u64,
        groups: u64,
    ) -> io::Result<u64> {
        let start = Instant::now(rt)?;
        for number in 0..messages {
            let moment = number.saturating_mul(SENDING) / messages;
            self.send(alloc, moment, number, groups)?;
        }
        Ok(since(rt, &start)?.checked_div(messages).unwrap_or(0))
    }

    /// Receives up to ten messages, and gives their receipts.
    #[inline(never)]
    fn receive(&mut self, alloc: Global, moment: u64) -> io::Result<Vec<Receipt>> {
        let ask = Ask::Receive {
            queue: self.name()?,
            size: BatchSize::new(10).ok_or(stop("no size"))?,
            visibility: None,
        };
        let mut receipts = Vec::new(alloc);
        match self.apply(moment, ask)? {
            Reply::Received(deliveries) => {
                for delivery in deliveries.as_slice() {
                    receipts
                        .push(delivery.receipt)
                        .map_err(|_| stop("no memory"))?;
                }
                Ok(receipts)
            }
            _ => Err(stop("no messages")),
        }
    }

    #[inline(never)]
    fn change(&mut self, moment: u64, receipt: Receipt) -> io::Result<()> {
        let ask = Ask::Change {
            queue: self.name()?,
            receipt,
            visibility: Seconds::new(60).ok_or(stop("no timeout"))?,
        };
        let _ = self.apply(moment, ask)?;
        Ok(())
    }

    #[inline(never)]
    fn delete(&mut self, moment: u64, receipt: Receipt) -> io::Result<()> {
        let ask = Ask::Delete {
            queue: self.name()?,
            receipt,
        };
        let _ = self.apply(moment, ask)?;
        Ok(())
    }

    fn query(&self) -> io::Result<Query> {
        Ok(Query {
            client: 1,
            tag: 1,
            queue: self.name()?,
        })
    }

    /// How long a count takes. What was counted so far chooses the next query, so that no compiler can leave counts out.
    #[inline(never)]
    fn count(&self, rt: &HostRuntime) -> io::Result<u64> {
        let even = self.query()?;
        let odd = self.query()?;
        let mut sum: u64 = 0;
        let start = Instant::now(rt)?;
        for _ in 0..COUNTS {
            let query = if sum % 2 == 0 { &even } else { &odd };
            match self.store.query(query) {
                Reply::Counts { visible, .. } => sum = sum.saturating_add(visible),
                _ => return Err(stop("no counts")),
            }
        }
        let took = since(rt, &start)?;
        if sum == 0 {
            return Err(stop("no messages"));
        }
        Ok(took / COUNTS)
    }

    /// How long a copy of the store takes.
    #[inline(never)]
    fn copy(&self, rt: &HostRuntime) -> io::Result<u64> {
        let start = Instant::now(rt)?;
        let copy = self.store.try_copy().map_err(|_| stop("no memory"))?;
        let took = since(rt, &start)?;
        drop(copy);
        Ok(took)
    }
}

/// The bytes with which a chunk ends.
const CHUNK: usize = 1_048_576;

/// More chunks than a store has that is made here.
const CHUNKS: usize = 1_000_000;

impl Bench {
    /// Writes the store into chunks. How long it takes, and the chunks.
    #[inline(never)]
    fn write(&self, rt: &HostRuntime, alloc: Global) -> io::Result<(u64, Vec<Vec<u8>>)> {
        let mut chunks = Vec::new(alloc);
        let mut writer = StoreWriter::new(alloc);
        let start = Instant::now(rt)?;
        for _ in 0..CHUNKS {
            if writer.is_done() {
                break;
            }
            let mut bytes = Vec::new(alloc);
            writer
                .next(&self.store, &mut bytes, CHUNK)
                .map_err(|_| stop("no memory"))?;
            chunks.push(bytes).map_err(|_| stop("no memory"))?;
        }
        Ok((since(rt, &start)?, chunks))
    }

    /// Reads a store from chunks. How long it takes.
    #[inline(never)]
    fn read(rt: &HostRuntime, alloc: Global, chunks: &[Vec<u8>]) -> io::Result<u64> {
        let start = Instant::now(rt)?;
        let mut reader = StoreReader::new(alloc);
        for chunk in chunks {
            reader = reader
                .feed(chunk.as_slice())
                .map_err(|_| stop("a chunk isn't read"))?;
        }
        let store = reader.store().map_err(|_| stop("a store isn't read"))?;
        let took = since(rt, &start)?;
        drop(store);
        Ok(took)
    }
}

/// Times a copy of a store, its writing and its reading, each by its messages.
fn run_bytes(rt: &HostRuntime, messages: u64, groups: u64) -> io::Result<()> {
    let alloc = rt.alloc();
    let mut bench = Bench::new(alloc)?;
    bench.create()?;
    bench.send_all(rt, alloc, messages, groups)?;
    let copy = bench.copy(rt)?.checked_div(messages).unwrap_or(0);
    let (write, chunks) = bench.write(rt, alloc)?;
    let write = write.checked_div(messages).unwrap_or(0);
    let read = Bench::read(rt, alloc, chunks.as_slice())?
        .checked_div(messages)
        .unwrap_or(0);
    println!(rt; "{messages} messages {groups} groups: copy {copy} write {write} read {read} each")
}

/// How long receives, changes and deletes take.
#[derive(Clone, Copy)]
struct Rounds {
    receive: Timed,
    change: Timed,
    delete: Timed,
}

impl Rounds {
    /// Receives ten messages at that moment, changes the timeout of each, and deletes them.
    fn round(
        &mut self,
        rt: &HostRuntime,
        alloc: Global,
        bench: &mut Bench,
        moment: u64,
    ) -> io::Result<()> {
        let start = Instant::now(rt)?;
        let receipts = bench.receive(alloc, moment)?;
        self.receive.add(since(rt, &start)?, 1);
        let start = Instant::now(rt)?;
        for receipt in receipts.as_slice() {
            bench.change(moment, *receipt)?;
        }
        self.change.add(since(rt, &start)?, receipts.len() as u64);
        let start = Instant::now(rt)?;
        for receipt in receipts.as_slice() {
            bench.delete(moment, *receipt)?;
        }
        self.delete.add(since(rt, &start)?, receipts.len() as u64);
        Ok(())
    }

    /// Up to `RECEIVES` rounds, which leave half of the messages or more.
    fn of(rt: &HostRuntime, alloc: Global, bench: &mut Bench, messages: u64) -> io::Result<Rounds> {
        let mut rounds = Rounds {
            receive: Timed::zero(),
            change: Timed::zero(),
            delete: Timed::zero(),
        };
        for number in 0..RECEIVES.min(messages / 20) {
            rounds.round(rt, alloc, bench, SENDING + number)?;
        }
        Ok(rounds)
    }
}

/// Times the calls on a queue of so many messages in so many groups.
fn run(rt: &HostRuntime, messages: u64, groups: u64) -> io::Result<()> {
    let alloc = rt.alloc();
    let mut bench = Bench::new(alloc)?;
    bench.create()?;
    let send = bench.send_all(rt, alloc, messages, groups)?;
    let copy = bench.copy(rt)?.checked_div(messages).unwrap_or(0);
    let rounds = Rounds::of(rt, alloc, &mut bench, messages)?;
    let _ = bench.receive(alloc, SENDING + RECEIVES)?;
    let count = bench.count(rt)?;
    let receive = rounds.receive.each();
    let change = rounds.change.each();
    let delete = rounds.delete.each();
    println!(rt;
        "{messages} messages {groups} groups: send {send} receive {receive} change {change} delete {delete} count {count} copy {copy} each"
    )
}

/// The two numbers of a line.
fn numbers(line: &str) -> Option<(u64, u64)> {
    let (messages, groups) = line.split_once(' ')?;
    Some((messages.parse().ok()?, groups.parse().ok()?))
}

/// Times the calls of stores, a store a line.
pub fn run_lines(rt: &HostRuntime) -> io::Result<()> {
    for line in BufReader::new(rt.alloc(), rt.reader())?.lines(rt.alloc()) {
        let (messages, groups) = numbers(line?.as_str()).ok_or(stop("no two numbers"))?;
        run(rt, messages, groups)?;
    }
    Ok(())
}

/// Times stores as bytes, a store a line.
pub fn run_byte_lines(rt: &HostRuntime) -> io::Result<()> {
    for line in BufReader::new(rt.alloc(), rt.reader())?.lines(rt.alloc()) {
        let (messages, groups) = numbers(line?.as_str()).ok_or(stop("no two numbers"))?;
        run_bytes(rt, messages, groups)?;
    }
    Ok(())
}

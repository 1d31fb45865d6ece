//! The job `store`: the calls of a store, without lines and without a chain, on one queue.
use crate::common::{Draws, stop};
use crate::digest::Digest;
use cq_base::{
    Ask, BatchSize, Body, DedupId, Delivery, Entry, GroupId, HISTORY_LIMIT, Moment, Query,
    QueueName, Receipt, Reply, Request, Seconds,
};
use cq_store::Store;
use std::alloc::Global;
use std::io;

/// All sends come within so many milliseconds, so that all of their ids are kept.
const SENDING: u64 = 299_000;

/// Each group gets about so many messages.
const GROUP_LENGTH: u64 = 50;

/// By how many milliseconds the clock goes on between two receives.
const PAUSE: u64 = 1_000;

/// For so many seconds a message is kept for longer.
const LONGER: u32 = 60;

/// After so many receives the store is copied, as for a server that joins.
const RECEIVES_TO_COPY: u64 = 4_096;

/// The error where there is no memory.
fn no_memory() -> io::Error {
    stop("no memory")
}

/// A store with one queue, and the digest of what it has replied.
#[derive(Drop)]
struct Shelf {
    store: Store,
    queue: QueueName,
    draws: Draws,
    digest: Digest,
    moment: u64,
}

impl Shelf {
    fn new(alloc: Global, seed: u64) -> io::Result<Shelf> {
        Ok(Shelf {
            store: Store::new(alloc).map_err(|_| no_memory())?,
            queue: QueueName::new(alloc, "orders.fifo").map_err(|_| stop("no name"))?,
            draws: Draws::new(seed),
            digest: Digest::new(),
            moment: 0,
        })
    }

    fn name(&self) -> io::Result<QueueName> {
        self.queue.try_copy().map_err(|_| no_memory())
    }

    /// One more request of client 1.
    fn apply(&mut self, ask: Ask) -> io::Result<Reply> {
        let moment = Moment::new(self.moment).ok_or(stop("no moment"))?;
        let number = self.store.count().saturating_add(1);
        let request = Request {
            client: 1,
            number,
            ask,
        };
        let entry = Entry { moment, request };
        if HISTORY_LIMIT <= self.store.count() || moment.get() < self.store.last().get() {
            return Err(stop("no place in the history"));
        }
        self.store.apply(&entry).map_err(|_| no_memory())
    }

    fn create(&mut self) -> io::Result<()> {
        let queue = self.name()?;
        let visibility = Seconds::new(3_600).ok_or(stop("no timeout"))?;
        let reply = self.apply(Ask::Create {
            queue,
            visibility,
            content: false,
        })?;
        self.take_in(&reply);
        Ok(())
    }

    /// Adds a reply to the digest.
    fn take_in(&mut self, reply: &Reply) {
        match reply {
            Reply::Created(incarnation) => self.digest.add(*incarnation),
            Reply::Removed => self.digest.add(1),
            Reply::Sent(sequence) => self.digest.add(*sequence),
            Reply::Received(deliveries) => self.take_in_all(deliveries.as_slice()),
            Reply::Deleted(removed) => self.digest.add(u64::from(*removed)),
            Reply::Changed => self.digest.add(2),
            Reply::Counts { visible, in_flight } => {
                self.digest.add(*visible);
                self.digest.add(*in_flight);
            }
            Reply::Refused(refusal) => self.digest.add(u64::from(refusal.code())),
        }
    }

    /// Adds what was handed out.
    fn take_in_all(&mut self, deliveries: &[Delivery]) {
        for delivery in deliveries {
            self.digest.add(delivery.receipt.sequence());
            self.digest.add(delivery.receipt.handing());
            self.digest.add_bytes(delivery.group.as_str().as_bytes());
            self.digest.add_bytes(delivery.body.as_str().as_bytes());
        }
    }

    /// The ask to send the message of that number.
    fn send_ask(&mut self, alloc: Global, number: u64, groups: u64) -> io::Result<Ask> {
        let group = self.draws.below(groups);
        let amount = self.draws.below(1_000_000);
        let group = format!(in alloc; "customer-{group}")?;
        let dedup = format!(in alloc; "order-{number}")?;
        let body = format!(in alloc;
            "order {number} of {amount} euros, to be sent by the next train"
        )?;
        Ok(Ask::Send {
            queue: self.name()?,
            group: GroupId::new(alloc, group.as_str()).map_err(|_| stop("no group"))?,
            dedup: Some(DedupId::new(alloc, dedup.as_str()).map_err(|_| stop("no id"))?),
            body: Body::new(alloc, body.as_str()).map_err(|_| stop("no body"))?,
        })
    }

    fn send(&mut self, alloc: Global, number: u64, groups: u64) -> io::Result<()> {
        let ask = self.send_ask(alloc, number, groups)?;
        let reply = self.apply(ask)?;
        self.take_in(&reply);
        Ok(())
    }

    fn send_all(&mut self, alloc: Global, messages: u64) -> io::Result<()> {
        let groups = 1 + messages / GROUP_LENGTH;
        for number in 0..messages {
            self.moment = number.saturating_mul(SENDING) / messages;
            self.send(alloc, number, groups)?;
        }
        Ok(())
    }

    /// Receives up to ten messages, and gives their receipts.
    fn receive(&mut self, alloc: Global) -> io::Result<Vec<Receipt>> {
        let ask = Ask::Receive {
            queue: self.name()?,
            size: BatchSize::new(10).ok_or(stop("no size"))?,
            visibility: None,
        };
        let reply = self.apply(ask)?;
        self.take_in(&reply);
        receipts_of(alloc, &reply)
    }

    /// One in four messages gets another timeout, half of these none, and all others are deleted. One that isn't deleted is
    /// handed out again.
    fn end_one(&mut self, receipt: Receipt) -> io::Result<()> {
        let drawn = self.draws.below(8);
        let queue = self.name()?;
        let ask = if drawn < 2 {
            let visibility = Seconds::new(drawn as u32 * LONGER).ok_or(stop("no timeout"))?;
            Ask::Change {
                queue,
                receipt,
                visibility,
            }
        } else {
            Ask::Delete { queue, receipt }
        };
        let reply = self.apply(ask)?;
        self.take_in(&reply);
        Ok(())
    }

    fn end_all(&mut self, receipts: &[Receipt]) -> io::Result<()> {
        for receipt in receipts {
            self.end_one(*receipt)?;
        }
        Ok(())
    }

    /// Counts the queue's messages.
    fn count(&mut self) -> io::Result<()> {
        let query = Query {
            client: 1,
            tag: 1,
            queue: self.name()?,
        };
        let reply = self.store.query(&query);
        self.take_in(&reply);
        Ok(())
    }

    /// Copies the store, and goes on with the copy.
    fn copy(&mut self) -> io::Result<()> {
        self.store = self.store.try_copy().map_err(|_| no_memory())?;
        Ok(())
    }

    fn round(&mut self, alloc: Global, number: u64) -> io::Result<()> {
        let receipts = self.receive(alloc)?;
        self.end_all(receipts.as_slice())?;
        self.count()?;
        self.moment = self.moment.saturating_add(PAUSE);
        if number % RECEIVES_TO_COPY == 0 {
            self.copy()?;
        }
        Ok(())
    }
}

/// The receipts of what was handed out.
fn receipts_of(alloc: Global, reply: &Reply) -> io::Result<Vec<Receipt>> {
    let mut receipts = Vec::new(alloc);
    if let Reply::Received(deliveries) = reply {
        for delivery in deliveries.as_slice() {
            receipts.push(delivery.receipt)?;
        }
    }
    Ok(receipts)
}

/// How many receives of ten hand out so many messages, of which a quarter comes again each time, and some later.
fn receives_of(messages: u64) -> u64 {
    messages.saturating_mul(7) / 50
}

/// So many messages, and the receives that hand out all of them.
pub fn run(alloc: Global, seed: u64, size: u64) -> io::Result<u64> {
    let mut shelf = Shelf::new(alloc, seed)?;
    shelf.create()?;
    shelf.send_all(alloc, size)?;
    for number in 0..receives_of(size) {
        shelf.round(alloc, number)?;
    }
    Ok(shelf.digest.value())
}

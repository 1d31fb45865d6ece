//! Stores that are written in chunks and read.
use crate::dump::add_hex;
use crate::made::Draws;
use crate::reads::Tally;
use crate::stop;
use crate::stored::add_store;
use cq_base::{
    Ask, BatchSize, Body, DedupId, Entry, GroupId, HISTORY_LIMIT, Moment, QueueName, Receipt,
    Request, Seconds,
};
use cq_store::Store;
use cq_store_wire::{StoreReader, StoreWriter};
use cq_wire::ReadFault;
use std::alloc::Global;
use std::io;

/// More chunks than a store has that is made here.
const CHUNKS: usize = 100_000;

/// One of a few words.
fn one_of(draws: &mut Draws, words: &[&'static str]) -> io::Result<&'static str> {
    let place = usize::try_from(draws.below(words.len() as u64)).unwrap_or(0);
    Ok(words.get(place).ok_or(stop("no word"))?)
}

fn queue(alloc: Global, draws: &mut Draws) -> io::Result<QueueName> {
    let name = one_of(draws, &["a.fifo", "b.fifo", "c-1.fifo"])?;
    QueueName::new(alloc, name).map_err(|_| stop("no memory"))
}

fn send(alloc: Global, draws: &mut Draws) -> io::Result<Ask> {
    let group = one_of(draws, &["g", "h", "i"])?;
    let dedup = one_of(draws, &["1", "2", "3", "4", "5", "6", "7", "8"])?;
    let body = one_of(
        draws,
        &["a", "\u{e4} \u{1f600}", "a longer body of some words"],
    )?;
    Ok(Ask::Send {
        queue: queue(alloc, draws)?,
        group: GroupId::new(alloc, group).map_err(|_| stop("no memory"))?,
        dedup: Some(DedupId::new(alloc, dedup).map_err(|_| stop("no memory"))?),
        body: Body::new(alloc, body).map_err(|_| stop("no memory"))?,
    })
}

/// The receipt of some handing, which there may have been.
fn receipt(draws: &mut Draws) -> io::Result<Receipt> {
    let incarnation = draws.below(3).saturating_add(1);
    let sequence = draws.below(8).saturating_add(1);
    let handing = draws.below(3).saturating_add(1);
    Receipt::new(incarnation, sequence, handing).ok_or(stop("no receipt"))
}

fn ask(alloc: Global, draws: &mut Draws) -> io::Result<Ask> {
    let seconds = Seconds::new(u32::from(draws.small(40))).ok_or(stop("no timeout"))?;
    Ok(match draws.below(16) {
        0..=2 => Ask::Create {
            queue: queue(alloc, draws)?,
            visibility: Seconds::new(30).ok_or(stop("no timeout"))?,
            content: false,
        },
        3 => Ask::Remove {
            queue: queue(alloc, draws)?,
        },
        4..=6 => Ask::Receive {
            queue: queue(alloc, draws)?,
            size: BatchSize::new(draws.small(10).saturating_add(1)).ok_or(stop("no size"))?,
            visibility: Some(seconds),
        },
        7 => Ask::Delete {
            queue: queue(alloc, draws)?,
            receipt: receipt(draws)?,
        },
        8 => Ask::Change {
            queue: queue(alloc, draws)?,
            receipt: receipt(draws)?,
            visibility: seconds,
        },
        _ => send(alloc, draws)?,
    })
}

/// Gives the store one more request.
fn apply_one(alloc: Global, draws: &mut Draws, store: &mut Store, number: u64) -> io::Result<()> {
    let last = store.last();
    let later = last.get().saturating_add(draws.below(20_000));
    let moment = Moment::new(later).ok_or(stop("no moment"))?;
    if store.count() >= HISTORY_LIMIT || moment.get() < last.get() {
        return Err(stop("a full store"));
    }
    let entry = Entry {
        moment,
        request: Request {
            client: u32::from(draws.small(5)),
            number,
            ask: ask(alloc, draws)?,
        },
    };
    store.apply(&entry).map_err(|_| stop("no memory"))?;
    Ok(())
}

/// A store that some requests came to.
pub fn made(alloc: Global, draws: &mut Draws) -> io::Result<Store> {
    let mut store = Store::new(alloc).map_err(|_| stop("no memory"))?;
    for number in 0..draws.below(60) {
        apply_one(alloc, draws, &mut store, number)?;
    }
    Ok(store)
}

/// The store as one chunk.
fn whole(alloc: Global, store: &Store) -> io::Result<Vec<u8>> {
    let mut bytes = Vec::new(alloc);
    let mut writer = StoreWriter::new(alloc);
    writer
        .next(store, &mut bytes, usize::MAX)
        .map_err(|_| stop("no memory"))?;
    if !writer.is_done() {
        return Err(stop("a store isn't written whole"));
    }
    Ok(bytes)
}

/// The store that is read from chunks, each written as the reader comes to it.
fn passed(alloc: Global, draws: &mut Draws, store: &Store) -> io::Result<Store> {
    let mut writer = StoreWriter::new(alloc);
    let mut reader = StoreReader::new(alloc);
    for _ in 0..CHUNKS {
        if writer.is_done() {
            break;
        }
        let mut bytes = Vec::new(alloc);
        let enough = usize::from(draws.small(200));
        writer
            .next(store, &mut bytes, enough)
            .map_err(|_| stop("no memory"))?;
        reader = match reader.feed(&bytes) {
            Ok(next) => next,
            Err(ReadFault::NoMemory) => return Err(stop("no memory")),
            Err(ReadFault::Bad(_)) => return Err(stop("a chunk isn't read")),
        };
    }
    reader.store().map_err(|_| stop("a store isn't read"))
}

/// The store that one chunk is.
pub fn read_store(alloc: Global, bytes: &[u8]) -> Result<Store, ReadFault> {
    StoreReader::new(alloc).feed(bytes)?.store()
}

/// Reads bytes as a store. One that is read has to be written as these bytes.
fn read_one(alloc: Global, tally: &mut Tally, bytes: &[u8]) -> io::Result<()> {
    match read_store(alloc, bytes) {
        Ok(store) => {
            if whole(alloc, &store)?.as_slice() != bytes {
                return Err(stop("a store is written otherwise than it was read"));
            }
            tally.add_value();
            Ok(())
        }
        Err(ReadFault::NoMemory) => Err(stop("no memory")),
        Err(ReadFault::Bad(fault)) => {
            tally.add(fault);
            Ok(())
        }
    }
}

fn read_fronts(alloc: Global, tally: &mut Tally, bytes: &[u8]) -> io::Result<()> {
    for end in 0..bytes.len() {
        let front = bytes.get(..end).ok_or(stop("no front"))?;
        read_one(alloc, tally, front)?;
    }
    Ok(())
}

/// Reads the bytes with one of them changed.
fn read_changed(
    alloc: Global,
    tally: &mut Tally,
    bytes: &mut Vec<u8>,
    place: usize,
    mask: u8,
) -> io::Result<()> {
    let byte = bytes.get_mut(place).ok_or(stop("no byte"))?;
    *byte ^= mask;
    read_one(alloc, tally, bytes)?;
    let byte = bytes.get_mut(place).ok_or(stop("no byte"))?;
    *byte ^= mask;
    Ok(())
}

fn read_all_changed(
    alloc: Global,
    draws: &mut Draws,
    tally: &mut Tally,
    bytes: &mut Vec<u8>,
) -> io::Result<()> {
    for place in 0..bytes.len() {
        let mask = draws.small(256).max(1);
        read_changed(alloc, tally, bytes, place, mask)?;
    }
    Ok(())
}

/// What the reads of each step gave.
#[derive(Clone, Copy)]
struct Tallies {
    passed: Tally,
    fronts: Tally,
    changed: Tally,
}

/// The bytes of a store, which was passed by chunks.
pub fn pass_store(alloc: Global, draws: &mut Draws, tally: &mut Tally) -> io::Result<Vec<u8>> {
    let store = made(alloc, draws)?;
    let bytes = whole(alloc, &store)?;
    let other = passed(alloc, draws, &store)?;
    if whole(alloc, &other)?.as_slice() != bytes.as_slice() {
        return Err(stop("a store isn't read as it was written"));
    }
    tally.add_value();
    Ok(bytes)
}

/// Passes a store by chunks, and reads spoilt bytes of it.
fn try_store(alloc: Global, draws: &mut Draws, tallies: &mut Tallies) -> io::Result<()> {
    let mut bytes = pass_store(alloc, draws, &mut tallies.passed)?;
    read_fronts(alloc, &mut tallies.fronts, &bytes)?;
    read_all_changed(alloc, draws, &mut tallies.changed, &mut bytes)
}

/// So many stores.
pub fn try_stores(rt: &impl Print, alloc: Global, draws: &mut Draws, count: u64) -> io::Result<()> {
    let mut tallies = Tallies {
        passed: Tally::new(),
        fronts: Tally::new(),
        changed: Tally::new(),
    };
    for _ in 0..count {
        try_store(alloc, draws, &mut tallies)?;
    }
    tallies.passed.tell(rt, "stores")?;
    tallies.fronts.tell(rt, "fronts of stores")?;
    tallies.changed.tell(rt, "changed stores")
}

/// So many stores, a line each.
pub fn dump_stores(
    rt: &impl Print,
    alloc: Global,
    draws: &mut Draws,
    count: u64,
) -> io::Result<()> {
    for _ in 0..count {
        let store = made(alloc, draws)?;
        let mut text = String::new(alloc);
        add_hex(&mut text, &whole(alloc, &store)?)?;
        text.push(' ')?;
        add_store(&mut text, &store)?;
        println!(rt; "{text}")?;
    }
    Ok(())
}

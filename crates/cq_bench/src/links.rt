//! How long items take from one thread to another, numbers through a link and requests through an inbox. Each line of
//! standard input has the places of both, and how many items go; each line of output has the nanoseconds of one item.
use crate::common::{since, stop};
use cq_base::{Ask, NoMemory, QueueName, Request};
use cq_link::{InPut, InTake, Inbox, Link, Putter, Taker};
use std::alloc::Global;
use std::io::{BufRead, BufReader};
use std::rt::Clock;
use std::sync::Wait;
use std::thread::Threads;
use std::time::Instant;
use std::{io, thread};

/// How often each thread tries before it gives up.
const TRIES: u64 = 1_000_000_000_000;

/// Puts the numbers from 0 to below `count`. Answers how many it put.
fn put_on_link(mut end: Putter<u64>, count: u64) -> u64 {
    let mut next = 0;
    for _ in 0..TRIES {
        if next >= count {
            break;
        }
        match end.put(next) {
            Ok(()) => next += 1,
            Err(_) => thread::yield_now(),
        }
    }
    next
}

/// Takes so many numbers. Answers how many came in their order.
fn take_from_link(mut end: Taker<u64>, count: u64) -> u64 {
    let mut next = 0;
    for _ in 0..TRIES {
        if next >= count {
            break;
        }
        match end.take() {
            Some(item) if item == next => next += 1,
            Some(_) => break,
            None => thread::yield_now(),
        }
    }
    next
}

/// Client 1's request to remove that queue.
fn request(queue: &QueueName, number: u64) -> Result<Request, NoMemory> {
    let queue = queue.try_copy()?;
    Ok(Request {
        client: 1,
        number,
        ask: Ask::Remove { queue },
    })
}

/// Puts that request, and tells whether there was room and memory for it.
fn put_next(rt: &impl Wait, end: &mut InPut, queue: &QueueName, number: u64) -> bool {
    match request(queue, number) {
        Ok(next) => end.put(rt, next).is_ok(),
        Err(_) => false,
    }
}

/// Puts the requests from 0 to below `count`. Answers how many it put.
fn put_in_inbox(rt: &impl Wait, mut end: InPut, queue: QueueName, count: u64) -> u64 {
    let mut next = 0;
    for _ in 0..TRIES {
        if next >= count {
            break;
        }
        if put_next(rt, &mut end, &queue, next) {
            next += 1;
        } else {
            thread::yield_now();
        }
    }
    next
}

/// Takes so many requests. Answers how many came in their order.
fn take_from_inbox(rt: &impl Wait, mut end: InTake, count: u64) -> u64 {
    let mut next = 0;
    for _ in 0..TRIES {
        if next >= count {
            break;
        }
        match end.take(rt) {
            Some(tagged) if tagged.item.number == next => next += 1,
            Some(_) => break,
            None => thread::yield_now(),
        }
    }
    next
}

/// The nanoseconds of one number through a link.
fn link_time(
    rt: &(impl Threads + Clock),
    alloc: Global,
    places: usize,
    count: u64,
) -> io::Result<u64> {
    let (putter, taker) = Link::make::<u64>(alloc, places).map_err(|_| stop("no link"))?;
    let start = Instant::now(rt)?;
    let (put, taken) = thread::join(
        rt,
        move || -> u64 { put_on_link(putter, count) },
        move || -> u64 { take_from_link(taker, count) },
    );
    if put != count || taken != count {
        return Err(stop("a number is missing"));
    }
    Ok(since(rt, &start)?.checked_div(count).unwrap_or(0))
}

/// The nanoseconds of one request through an inbox, on one of its ends.
fn inbox_time(
    rt: &(impl Threads + Wait + Clock + Sync),
    alloc: Global,
    places: usize,
    count: u64,
) -> io::Result<u64> {
    let queue = QueueName::new(alloc, "q.fifo").map_err(|_| stop("no name"))?;
    let (first, _second, taker) = Inbox::make(alloc, places).map_err(|_| stop("no inbox"))?;
    let start = Instant::now(rt)?;
    let (put, taken) = thread::join(
        rt,
        move || -> u64 { put_in_inbox(rt, first, queue, count) },
        move || -> u64 { take_from_inbox(rt, taker, count) },
    );
    if put != count || taken != count {
        return Err(stop("a request is missing"));
    }
    Ok(since(rt, &start)?.checked_div(count).unwrap_or(0))
}

/// Times both with so many places and items.
fn run(
    rt: &(impl Threads + Wait + Clock + Sync + Print),
    alloc: Global,
    places: usize,
    count: u64,
) -> io::Result<()> {
    let link = link_time(rt, alloc, places, count)?;
    let inbox = inbox_time(rt, alloc, places, count)?;
    println!(rt; "{places} places {count} items: link {link} inbox {inbox} each")
}

/// The two numbers of a line.
fn numbers(line: &str) -> Option<(usize, u64)> {
    let (places, count) = line.split_once(' ')?;
    Some((places.parse().ok()?, count.parse().ok()?))
}

pub fn run_lines(
    rt: &(impl Threads + Wait + Clock + Sync + Print + Input),
    alloc: Global,
) -> io::Result<()> {
    for line in BufReader::new(alloc, rt.reader())?.lines(alloc) {
        let (places, count) = numbers(line?.as_str()).ok_or(stop("no two numbers"))?;
        run(rt, alloc, places, count)?;
    }
    Ok(())
}

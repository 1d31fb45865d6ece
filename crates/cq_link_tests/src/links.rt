//! Links and inboxes by rows, in one thread and between threads.
ghost use Rattle.std.specs.Prelude.{◌≡◌};
ghost use Rattle.cq_link.specs.Links.{putter_link, taker_link};
ghost use Rattle.cq_link.specs.Inboxes.{put_inbox, take_inbox, is_second};

use cq_base::{Ask, BaseFault, QueueName, Request};
use cq_link::{
    InLeft, InPut, InTake, Inbox, Left, Link, LinkFault, Memory, PutEnd, Putter, Tagged, TakeEnd,
    Taker, settle,
};
use std::alloc::Global;
use std::process::Abort;
use std::sync::Wait;
use std::test::Fail;
use std::thread;
use std::thread::Threads;

/// How often each thread tries before it gives up.
const TRIES: u64 = 1_000_000_000;

#[test]
fn links_have_one_to_65536_places(rt: HostRuntime) -> Result<(), Fail> {
    let alloc = rt.alloc();
    let none = Link::make::<u64>(alloc, 0);
    assert!(rt; matches!(none, Err(LinkFault::BadCapacity)));
    let many = Link::make::<u64>(alloc, 65_537);
    assert!(rt; matches!(many, Err(LinkFault::BadCapacity)));
    assert!(rt; Link::make::<u64>(alloc, 1).is_ok());
    assert!(rt; Link::make::<u64>(alloc, 65_536).is_ok());
    assert!(rt; matches!(Inbox::make(alloc, 0), Err(LinkFault::BadCapacity)));
    assert!(rt; matches!(Inbox::make(alloc, 65_537), Err(LinkFault::BadCapacity)));
    assert!(rt; Inbox::make(alloc, 1).is_ok());
    assert!(rt; Inbox::make(alloc, 65_536).is_ok());
    assert_eq!(rt; LinkFault::BadCapacity.code(), 81);
    assert_eq!(rt; LinkFault::BadCapacity.name(), "BadCapacity");
    assert_eq!(rt; LinkFault::NoMemory.code(), 20);
    assert_eq!(rt; LinkFault::NoMemory.name(), "NoMemory");
    Ok(())
}

/// Puts the item and takes one. It has no `Wait`, so neither call waits.
fn pass(putter: &mut Putter<u64>, taker: &mut Taker<u64>, item: u64) -> Option<u64> {
    match putter.put(item) {
        Ok(()) => taker.take(),
        Err(_) => None,
    }
}

#[test]
fn a_full_link_hands_back_what_is_put(rt: HostRuntime) -> Result<(), Fail> {
    let alloc = rt.alloc();
    let (mut putter, mut taker) = Link::make::<u64>(alloc, 2)?;
    assert!(rt; putter.put(1).is_ok());
    assert!(rt; putter.put(2).is_ok());
    match putter.put(3) {
        Ok(()) => assert!(rt; false),
        Err(full) => assert_eq!(rt; full.0, 3),
    }
    assert_eq!(rt; taker.take(), Some(1));
    assert!(rt; putter.put(3).is_ok());
    let mut left = settle(putter, taker);
    assert_eq!(rt; left.take(), Some(2));
    assert_eq!(rt; left.take(), Some(3));
    assert_eq!(rt; left.take(), None);
    Ok(())
}

#[test]
fn a_link_of_one_place_hands_back_the_second(rt: HostRuntime) -> Result<(), Fail> {
    let (mut putter, mut taker) = Link::make::<u64>(rt.alloc(), 1)?;
    for number in 0..100 {
        assert_eq!(rt; pass(&mut putter, &mut taker, number), Some(number));
    }
    assert!(rt; putter.put(100).is_ok());
    match putter.put(101) {
        Ok(()) => assert!(rt; false),
        Err(full) => assert_eq!(rt; full.0, 101),
    }
    assert_eq!(rt; taker.take(), Some(100));
    assert_eq!(rt; taker.take(), None);
    Ok(())
}

/// The request of that client to remove the queue `q.fifo`.
fn request(alloc: Global, client: u32, number: u64) -> Result<Request, BaseFault> {
    let queue = QueueName::new(alloc, "q.fifo")?;
    Ok(Request {
        client,
        number,
        ask: Ask::Remove { queue },
    })
}

/// Puts that request on the end, and says whether there was room. Where there was none, it is handed back.
fn put_next(
    rt: &(impl Abort + Wait),
    alloc: Global,
    end: &mut InPut,
    client: u32,
    number: u64,
) -> Result<bool, BaseFault>
    ensures { (put_inbox end.new ≡ put_inbox end.old) × (is_second end.new ≡ is_second end.old) }
{
    match end.put(rt, request(alloc, client, number)?) {
        Ok(()) => Ok(true),
        Err(full) => {
            assert!(rt; full.0.client == client && full.0.number == number);
            Ok(false)
        }
    }
}

/// Whether it is that request, put on the end of that client.
fn is(taken: &Option<Tagged<Request>>, client: u32, number: u64) -> bool {
    match taken {
        Some(tagged) => {
            tagged.second == (client == 2)
                && tagged.item.client == client
                && tagged.item.number == number
        }
        None => false,
    }
}

/// Client 1 puts on the first end of an inbox with two places, client 2 on the second.
fn fill_inbox(
    rt: &(impl Abort + Wait),
    alloc: Global,
    first: &mut InPut,
    second: &mut InPut,
    taker: &mut InTake,
) -> Result<(), Fail>
    ensures first { (put_inbox first.new ≡ put_inbox first.old) × (is_second first.new ≡ is_second first.old) }
    ensures second { (put_inbox second.new ≡ put_inbox second.old) × (is_second second.new ≡ is_second second.old) }
    ensures taker { take_inbox taker.new ≡ take_inbox taker.old }
{
    assert!(rt; put_next(rt, alloc, first, 1, 1)?);
    assert!(rt; put_next(rt, alloc, second, 2, 1)?);
    assert!(rt; !put_next(rt, alloc, second, 2, 2)?);
    assert!(rt; is(&taker.take(rt), 1, 1));
    assert!(rt; put_next(rt, alloc, second, 2, 2)?);
    Ok(())
}

#[test]
fn a_full_inbox_hands_back_what_is_put(rt: HostRuntime) -> Result<(), Fail> {
    let alloc = rt.alloc();
    let (mut first, mut second, mut taker) = Inbox::make(alloc, 2)?;
    fill_inbox(&rt, alloc, &mut first, &mut second, &mut taker)?;
    let mut left = Inbox::settle(first, second, taker);
    assert!(rt; is(&left.take(&rt), 2, 1));
    assert!(rt; is(&left.take(&rt), 2, 2));
    assert!(rt; left.take(&rt).is_none());
    Ok(())
}

/// Puts x and y on an end with two places, is handed z back, takes x, and puts z. A look says where nothing is there.
fn fill<P: PutEnd<u64>, T: TakeEnd<u64>>(rt: &(impl Abort + Wait), put: &mut P, take: &mut T) {
    assert!(rt; take.is_empty());
    assert!(rt; take.take(rt).is_none());
    assert!(rt; put.put(rt, 1).is_ok());
    assert!(rt; !take.is_empty());
    assert!(rt; put.put(rt, 2).is_ok());
    match put.put(rt, 3) {
        Ok(()) => assert!(rt; false),
        Err(full) => assert_eq!(rt; full.0, 3),
    }
    assert_eq!(rt; take.take(rt), Some(1));
    assert!(rt; put.put(rt, 3).is_ok());
    assert_eq!(rt; take.take(rt), Some(2));
    assert_eq!(rt; take.take(rt), Some(3));
    assert!(rt; take.is_empty());
    assert_eq!(rt; take.take(rt), None);
}

#[test]
fn links_and_memory_meet_the_same_traits(rt: HostRuntime) -> Result<(), Fail> {
    let alloc = rt.alloc();
    let (mut putter, mut taker) = Link::make::<u64>(alloc, 2)?;
    fill(&rt, &mut putter, &mut taker);
    let (mut put, mut take) = Memory::make::<u64>(alloc, 1, 2)?;
    fill(&rt, &mut put, &mut take);
    Ok(())
}

/// Puts the numbers from 0 to below `count` in order, and gives up after `TRIES`. Answers how many it put.
fn put_numbers(mut putter: Putter<u64>, count: u64) -> (Putter<u64>, u64)
    ensures { putter_link result.0 ≡ putter_link putter }
{
    let mut next = 0;
    for _ in 0..TRIES {
        if next >= count {
            break;
        }
        match putter.put(next) {
            Ok(()) => next += 1,
            Err(_) => thread::yield_now(),
        }
    }
    (putter, next)
}

/// Takes the numbers from 0 to below `count` in order, and gives up after `TRIES` or at another number.
/// Answers how many it took.
fn take_numbers(mut taker: Taker<u64>, count: u64) -> (Taker<u64>, u64)
    ensures { taker_link result.0 ≡ taker_link taker }
{
    let mut next = 0;
    for _ in 0..TRIES {
        if next >= count {
            break;
        }
        match taker.take() {
            Some(item) if item == next => next += 1,
            Some(_) => break,
            None => thread::yield_now(),
        }
    }
    (taker, next)
}

/// Whether what is left are the numbers from `from` to below `end`, in order.
fn are_left(left: &mut Left<u64>, from: u64, end: u64) -> bool {
    for number in from..end {
        if left.take() != Some(number) {
            return false;
        }
    }
    left.take() == None
}

#[test]
fn numbers_go_through_a_link_between_threads(rt: HostRuntime) -> Result<(), Fail> {
    let (putter, taker) = Link::make::<u64>(rt.alloc(), 64)?;
    let ((putter, put), (taker, taken)) = thread::join(
        &rt,
        move || -> (Putter<u64>, u64)
            ensures { putter_link result.0 ≡ putter_link putter }
        { put_numbers(putter, 100_000) },
        move || -> (Taker<u64>, u64)
            ensures { taker_link result.0 ≡ taker_link taker }
        { take_numbers(taker, 100_000) },
    );
    let mut left = settle(putter, taker);
    assert_eq!(rt; put, 100_000);
    assert!(rt; taken <= put && are_left(&mut left, taken, put));
    Ok(())
}

/// Puts that client's requests 1 to `count`, and gives up after `TRIES`. Answers how many it put.
fn put_requests(
    rt: &impl Wait,
    alloc: Global,
    mut end: InPut,
    client: u32,
    count: u64,
) -> (InPut, u64)
    ensures { (put_inbox result.0 ≡ put_inbox end) × (is_second result.0 ≡ is_second end) }
{
    let mut put = 0;
    for _ in 0..TRIES {
        if put >= count {
            break;
        }
        let Ok(next) = request(alloc, client, put + 1) else {
            break;
        };
        match end.put(rt, next) {
            Ok(()) => put += 1,
            Err(_) => thread::yield_now(),
        }
    }
    (end, put)
}

/// How many requests of each client came, in order and whole.
#[derive(Drop)]
struct Came {
    first: u64,
    second: u64,
}

impl Came {
    /// Notes a request, and says whether it is the next of the client whose end it was put on.
    fn note(&mut self, taken: &Tagged<Request>) -> bool {
        let (client, came) = if taken.second {
            (2, self.second)
        } else {
            (1, self.first)
        };
        let Some(next) = came.checked_add(1) else {
            return false;
        };
        if taken.second {
            self.second = next;
        } else {
            self.first = next;
        }
        taken.item.client == client && taken.item.number == next
    }
}

/// Takes `count` requests, and gives up after `TRIES` or at one that isn't the next of its end.
fn take_requests(rt: &impl Wait, mut end: InTake, count: u64) -> (InTake, Came)
    ensures { take_inbox result.0 ≡ take_inbox end }
{
    let mut came = Came {
        first: 0,
        second: 0,
    };
    let mut taken = 0;
    for _ in 0..TRIES {
        if taken >= count {
            break;
        }
        match end.take(rt) {
            Some(request) if came.note(&request) => taken += 1,
            Some(_) => break,
            None => thread::yield_now(),
        }
    }
    (end, came)
}

/// Puts and takes at once.
fn put_and_take<R: Threads + Wait + Sync>(
    rt: &R,
    alloc: Global,
    put: InPut,
    take: InTake,
) -> ((InPut, u64), (InTake, Came))
    ensures { (put_inbox result.0.0 ≡ put_inbox put) × (is_second result.0.0 ≡ is_second put) × (take_inbox result.1.0 ≡ take_inbox take) }
{
    thread::join(
        rt,
        move || -> (InPut, u64)
            ensures { (put_inbox result.0 ≡ put_inbox put) × (is_second result.0 ≡ is_second put) }
        { put_requests(rt, alloc, put, 2, 1_000) },
        move || -> (InTake, Came)
            ensures { take_inbox result.0 ≡ take_inbox take }
        { take_requests(rt, take, 2_000) },
    )
}

/// Notes what is left, and says whether each was the next of its end.
fn are_next(rt: &impl Wait, left: &mut InLeft, came: &mut Came) -> bool {
    for _ in 0..2_000 {
        match left.take(rt) {
            Some(taken) => {
                if !came.note(&taken) {
                    return false;
                }
            }
            None => return true,
        }
    }
    left.take(rt).is_none()
}

/// Two threads put 1,000 requests each while a third takes: each client's come in order, whole and once.
fn check_an_inbox_between_threads<R: Threads + Wait + Abort + Sync>(
    rt: &R,
    alloc: Global,
) -> Result<(), Fail> {
    let (first, second, taker) = Inbox::make(alloc, 64)?;
    let ((first, put), ((second, other), (taker, mut came))) = thread::join(
        rt,
        move || -> (InPut, u64)
            ensures { (put_inbox result.0 ≡ put_inbox first) × (is_second result.0 ≡ is_second first) }
        { put_requests(rt, alloc, first, 1, 1_000) },
        move || -> ((InPut, u64), (InTake, Came))
            ensures { (put_inbox result.0.0 ≡ put_inbox second) × (is_second result.0.0 ≡ is_second second) × (take_inbox result.1.0 ≡ take_inbox taker) }
        { put_and_take(rt, alloc, second, taker) },
    );
    let mut left = Inbox::settle(first, second, taker);
    assert_eq!(rt; put, 1_000);
    assert_eq!(rt; other, 1_000);
    assert!(rt; are_next(rt, &mut left, &mut came));
    assert_eq!(rt; came.first, put);
    assert_eq!(rt; came.second, other);
    Ok(())
}

#[test]
fn requests_go_through_an_inbox_between_threads(rt: HostRuntime) -> Result<(), Fail> {
    check_an_inbox_between_threads(&rt, rt.alloc())
}

//! A store that is refused memory. `check/refused-allocations` runs this test once for each of its allocations, and refuses
//! that one; so all that takes memory is tried a second time here.
use cq_base::{
    Ask, BatchSize, Body, DedupId, Delivery, Entry, GroupId, Moment, NoMemory, Query, QueueName,
    Receipt, Refusal, Reply, Request, Seconds,
};
use cq_store::Store;
use std::alloc::Global;
use std::process::Abort;
use std::test::Fail;

/// How many groups the messages have.
const GROUPS: u32 = 4;

/// What is asked of the queue.
#[derive(Clone, Copy)]
enum Call {
    Create,
    Remove,
    /// The message that gets that number, which is its body too. Its group is the rest by `GROUPS`. The id is the number
    /// if that is odd, or else the one that the queue makes.
    Send(u32),
    /// Of ten messages.
    Receive,
    /// The message of that number, by the receipt of that handing.
    Delete(u32, u32),
    /// The same. The message is visible at once.
    Show(u32, u32),
}

/// A store with one queue, at a moment.
#[derive(Drop)]
struct Desk {
    store: Store,
    query: Query,
    moment: Moment,
}

/// What a store tells of itself and of its queue.
#[derive(Clone, Copy, Debug, PartialEq, Eq)]
struct Readings {
    count: u64,
    last: Moment,
    ids: u64,
    visible: u64,
    in_flight: u64,
}

fn told(desk: &Desk) -> Readings {
    let (visible, in_flight) = match desk.store.query(&desk.query) {
        Reply::Counts { visible, in_flight } => (visible, in_flight),
        _ => (0, 0),
    };
    Readings {
        count: desk.store.count(),
        last: desk.store.last(),
        ids: desk.store.kept_ids(&desk.query.queue),
        visible,
        in_flight,
    }
}

fn receipt(number: u32, handing: u32) -> Option<Receipt> {
    Receipt::new(1, u64::from(number), u64::from(handing))
}

fn send_ask(alloc: Global, queue: QueueName, number: u32) -> Option<Ask> {
    let group = number % GROUPS;
    let group = format!(in alloc; "{group}").ok()?;
    let text = format!(in alloc; "{number}").ok()?;
    let dedup = if number % 2 == 0 {
        None
    } else {
        Some(DedupId::new(alloc, text.as_str()).ok()?)
    };
    Some(Ask::Send {
        queue,
        group: GroupId::new(alloc, group.as_str()).ok()?,
        dedup,
        body: Body::new(alloc, text.as_str()).ok()?,
    })
}

fn ask_of(alloc: Global, queue: &QueueName, call: Call) -> Option<Ask> {
    let queue = queue.try_copy().ok()?;
    match call {
        Call::Create => Some(Ask::Create {
            queue,
            visibility: Seconds::new(30)?,
            content: true,
        }),
        Call::Remove => Some(Ask::Remove { queue }),
        Call::Send(number) => send_ask(alloc, queue, number),
        Call::Receive => Some(Ask::Receive {
            queue,
            size: BatchSize::new(10)?,
            visibility: None,
        }),
        Call::Delete(number, handing) => Some(Ask::Delete {
            queue,
            receipt: receipt(number, handing)?,
        }),
        Call::Show(number, handing) => Some(Ask::Change {
            queue,
            receipt: receipt(number, handing)?,
            visibility: Seconds::zero(),
        }),
    }
}

fn entry_of(alloc: Global, desk: &Desk, call: Call) -> Option<Entry> {
    let ask = ask_of(alloc, &desk.query.queue, call)?;
    let number = desk.store.count().saturating_add(1);
    let request = Request {
        client: 1,
        number,
        ask,
    };
    Some(Entry {
        moment: desk.moment,
        request,
    })
}

fn apply_once(rt: &impl Abort, store: &mut Store, entry: &Entry) -> Result<Reply, NoMemory> {
    assert!(rt; store.count() < 1000);
    assert!(rt; store.last() <= entry.moment);
    store.apply(entry)
}

/// Where the store is refused memory, it tells the same as before, and the entry comes again.
fn apply(rt: &impl Abort, desk: &mut Desk, entry: &Entry) -> Result<Reply, NoMemory> {
    let before = told(desk);
    match apply_once(rt, &mut desk.store, entry) {
        Ok(reply) => Ok(reply),
        Err(_) => {
            assert_eq!(rt; told(desk), before);
            apply_once(rt, &mut desk.store, entry)
        }
    }
}

fn made(alloc: Global, desk: &Desk, call: Call) -> Option<Entry> {
    match entry_of(alloc, desk, call) {
        Some(entry) => Some(entry),
        None => entry_of(alloc, desk, call),
    }
}

fn ask(rt: &impl Abort, alloc: Global, desk: &mut Desk, call: Call) -> Result<Reply, Fail> {
    let entry = made(alloc, desk, call).ok_or("no entry")?;
    Ok(apply(rt, desk, &entry)?)
}

fn send(rt: &impl Abort, alloc: Global, desk: &mut Desk, number: u32) -> Result<(), Fail> {
    let reply = ask(rt, alloc, desk, Call::Send(number))?;
    assert!(rt;
        matches!(reply, Reply::Sent(sent) if sent == u64::from(number)),
        "{number}"
    );
    Ok(())
}

/// Ten in each group, from that number on.
fn send_forty(rt: &impl Abort, alloc: Global, desk: &mut Desk, first: u16) -> Result<(), Fail> {
    for place in 0..40 {
        send(rt, alloc, desk, u32::from(first) + place)?;
    }
    Ok(())
}

fn is_handed(delivery: &Delivery, number: u32, handing: u32) -> bool {
    let body: Option<u32> = delivery.body.as_str().parse().ok();
    body == Some(number) && Some(delivery.receipt) == receipt(number, handing)
}

/// That message and the next nine of its group were handed out.
fn are_handed(deliveries: &[Delivery], first: u16, handing: u32) -> bool {
    for place in 0..10 {
        let number = u32::from(first) + GROUPS * place;
        match deliveries.get(place as usize) {
            Some(delivery) if is_handed(delivery, number, handing) => (),
            _ => return false,
        }
    }
    deliveries.len() == 10
}

fn are_received(reply: &Reply, first: u16, handing: u32) -> bool {
    match reply {
        Reply::Received(deliveries) => are_handed(deliveries.as_slice(), first, handing),
        _ => false,
    }
}

/// The entry of a receive hands out that message and the next nine of its group.
fn check_received(
    rt: &impl Abort,
    desk: &mut Desk,
    entry: &Entry,
    first: u16,
    handing: u32,
) -> Result<(), Fail> {
    let reply = apply(rt, desk, entry)?;
    assert!(rt; are_received(&reply, first, handing), "{first}");
    Ok(())
}

/// It comes a second time, too.
fn receive_again(
    rt: &impl Abort,
    desk: &mut Desk,
    entry: &Entry,
    first: u16,
    handing: u32,
) -> Result<(), Fail> {
    check_received(rt, desk, entry, first, handing)?;
    check_received(rt, desk, entry, first, handing)
}

/// A receive, and a repeat of it, hand out that message and the next nine of its group.
fn receive_ten(
    rt: &impl Abort,
    alloc: Global,
    desk: &mut Desk,
    first: u16,
    handing: u32,
) -> Result<(), Fail> {
    let entry = made(alloc, desk, Call::Receive).ok_or("no entry")?;
    receive_again(rt, desk, &entry, first, handing)
}

fn receive_none(rt: &impl Abort, alloc: Global, desk: &mut Desk) -> Result<(), Fail> {
    let reply = ask(rt, alloc, desk, Call::Receive)?;
    assert!(rt; matches!(&reply, Reply::Received(none) if none.as_slice().is_empty()));
    Ok(())
}

fn delete_ten(
    rt: &impl Abort,
    alloc: Global,
    desk: &mut Desk,
    first: u16,
    handing: u32,
) -> Result<(), Fail> {
    for place in 0..10 {
        let number = u32::from(first) + GROUPS * place;
        let reply = ask(rt, alloc, desk, Call::Delete(number, handing))?;
        assert!(rt; matches!(reply, Reply::Deleted(true)), "{number}");
    }
    Ok(())
}

fn show_ten(
    rt: &impl Abort,
    alloc: Global,
    desk: &mut Desk,
    first: u16,
    handing: u32,
) -> Result<(), Fail> {
    for place in 0..10 {
        let number = u32::from(first) + GROUPS * place;
        let reply = ask(rt, alloc, desk, Call::Show(number, handing))?;
        assert!(rt; matches!(reply, Reply::Changed), "{number}");
    }
    Ok(())
}

fn take_ten(
    rt: &impl Abort,
    alloc: Global,
    desk: &mut Desk,
    first: u16,
    handing: u32,
) -> Result<(), Fail> {
    receive_ten(rt, alloc, desk, first, handing)?;
    delete_ten(rt, alloc, desk, first, handing)
}

fn check(rt: &impl Abort, desk: &Desk, ids: u64, visible: u64, in_flight: u64) {
    let told = told(desk);
    assert_eq!(rt;
        (told.ids, told.visible, told.in_flight),
        (ids, visible, in_flight)
    );
}

fn create(rt: &impl Abort, alloc: Global, desk: &mut Desk, number: u64) -> Result<(), Fail> {
    let reply = ask(rt, alloc, desk, Call::Create)?;
    assert!(rt; matches!(reply, Reply::Created(made) if made == number));
    Ok(())
}

/// One group of four stays.
fn first_round(rt: &impl Abort, alloc: Global, desk: &mut Desk) -> Result<(), Fail> {
    create(rt, alloc, desk, 1)?;
    send_forty(rt, alloc, desk, 1)?;
    check(rt, desk, 40, 40, 0);
    for first in 1..4 {
        take_ten(rt, alloc, desk, first, 1)?;
    }
    check(rt, desk, 40, 10, 0);
    Ok(())
}

/// The first send gives the room of thirty deleted messages back. A group is hidden, shown, and handed out anew.
fn second_round(rt: &impl Abort, alloc: Global, desk: &mut Desk) -> Result<(), Fail> {
    send_forty(rt, alloc, desk, 41)?;
    check(rt, desk, 80, 50, 0);
    receive_ten(rt, alloc, desk, 4, 1)?;
    for first in 41..44 {
        receive_ten(rt, alloc, desk, first, 1)?;
    }
    receive_none(rt, alloc, desk)?;
    check(rt, desk, 80, 10, 40);
    show_ten(rt, alloc, desk, 4, 1)?;
    check(rt, desk, 80, 20, 30);
    take_ten(rt, alloc, desk, 4, 2)?;
    receive_ten(rt, alloc, desk, 44, 1)?;
    check(rt, desk, 80, 0, 40);
    Ok(())
}

/// All timeouts are over, and with the first send all ids are forgotten.
fn third_round(rt: &impl Abort, alloc: Global, desk: &mut Desk) -> Result<(), Fail> {
    desk.moment = Moment::new(300_000).ok_or("no moment")?;
    send_forty(rt, alloc, desk, 81)?;
    send(rt, alloc, desk, 120)?;
    check(rt, desk, 40, 80, 0);
    for first in 41..44 {
        take_ten(rt, alloc, desk, first, 2)?;
    }
    receive_ten(rt, alloc, desk, 44, 2)?;
    for first in 81..84 {
        take_ten(rt, alloc, desk, first, 1)?;
    }
    check(rt, desk, 40, 10, 10);
    Ok(())
}

/// The first send gives the room of seventy deleted messages back, while a group is in flight.
fn fourth_round(rt: &impl Abort, alloc: Global, desk: &mut Desk) -> Result<(), Fail> {
    send_forty(rt, alloc, desk, 121)?;
    check(rt, desk, 80, 50, 10);
    take_ten(rt, alloc, desk, 121, 1)?;
    show_ten(rt, alloc, desk, 44, 2)?;
    take_ten(rt, alloc, desk, 44, 3)?;
    check(rt, desk, 80, 40, 0);
    Ok(())
}

/// A queue is removed, and made once more a minute later.
fn last_round(rt: &impl Abort, alloc: Global, desk: &mut Desk) -> Result<(), Fail> {
    take_ten(rt, alloc, desk, 84, 1)?;
    let reply = ask(rt, alloc, desk, Call::Remove)?;
    assert!(rt; matches!(reply, Reply::Removed));
    check(rt, desk, 0, 0, 0);
    let early = ask(rt, alloc, desk, Call::Create)?;
    assert!(rt; matches!(early, Reply::Refused(Refusal::QueueDeletedRecently)));
    desk.moment = Moment::new(360_000).ok_or("no moment")?;
    create(rt, alloc, desk, 2)?;
    send(rt, alloc, desk, 1)?;
    check(rt, desk, 1, 1, 0);
    Ok(())
}

fn copy_once(desk: &Desk) -> Option<Desk> {
    Some(Desk {
        store: desk.store.try_copy().ok()?,
        query: desk.query.try_copy().ok()?,
        moment: desk.moment,
    })
}

fn copy_of(desk: &Desk) -> Option<Desk> {
    match copy_once(desk) {
        Some(copy) => Some(copy),
        None => copy_once(desk),
    }
}

/// The last round on a copy, which tells the same before.
fn last_round_of(
    rt: &impl Abort,
    alloc: Global,
    copy: &mut Desk,
    before: Readings,
) -> Result<(), Fail> {
    assert_eq!(rt; told(copy), before);
    last_round(rt, alloc, copy)
}

fn use_copy(rt: &impl Abort, alloc: Global, desk: &Desk, before: Readings) -> Result<(), Fail> {
    let mut copy = copy_of(desk).ok_or("no copy")?;
    last_round_of(rt, alloc, &mut copy, before)
}

/// The last round on a copy, which changes nothing of the store.
fn check_copy(rt: &impl Abort, alloc: Global, desk: &Desk) -> Result<(), Fail> {
    let before = told(desk);
    use_copy(rt, alloc, desk, before)?;
    assert_eq!(rt; told(desk), before);
    Ok(())
}

fn use_all(rt: &impl Abort, alloc: Global, desk: &mut Desk) -> Result<(), Fail> {
    first_round(rt, alloc, desk)?;
    second_round(rt, alloc, desk)?;
    third_round(rt, alloc, desk)?;
    fourth_round(rt, alloc, desk)?;
    check_copy(rt, alloc, desk)?;
    last_round(rt, alloc, desk)
}

fn new_once(alloc: Global) -> Option<Desk> {
    Some(Desk {
        store: Store::new(alloc).ok()?,
        query: Query {
            client: 1,
            tag: 1,
            queue: QueueName::new(alloc, "q.fifo").ok()?,
        },
        moment: Moment::zero(),
    })
}

fn new(alloc: Global) -> Option<Desk> {
    match new_once(alloc) {
        Some(desk) => Some(desk),
        None => new_once(alloc),
    }
}

/// A call that is refused memory changes nothing, and is answered later as if it had come once.
#[test]
fn a_refused_call_can_come_again(rt: HostRuntime) -> Result<(), Fail> {
    let mut desk = new(rt.alloc()).ok_or("no store")?;
    use_all(&rt, rt.alloc(), &mut desk)
}

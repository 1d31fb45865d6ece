//! Rows on a store and on a copy of it, each an ask and its answer.
use cq_base::{
    Ask, BatchSize, Body, DedupId, Delivery, Entry, GroupId, Moment, NoMemory, QueueName, Receipt,
    Reply, Request, Seconds,
};
use cq_store::Store;
use std::alloc::Global;
use std::process::Abort;
use std::test::Fail;

// Where the store refuses a call for want of memory, the call is made once more. So under
// `check/refused-allocations`, which refuses each allocation of each test in turn, a test passes, or ends with
// an error where memory for an entry or a text was refused; no assertion fails.

/// That message's receipt, of the first incarnation.
fn receipt(sequence: u64, handing: u64) -> Result<Receipt, Fail> {
    Ok(Receipt::new(1, sequence, handing).ok_or("no receipt")?)
}

/// The bodies and receipts.
fn received(alloc: Global, deliveries: &[Delivery]) -> Result<String, Fail> {
    let mut text = String::from_str(alloc, "received")?;
    for delivery in deliveries {
        let body = delivery.body.as_str();
        let receipt = delivery.receipt;
        let one = format!(in alloc; " {body} {receipt}")?;
        text.push_str(one.as_str())?;
    }
    Ok(text)
}

/// The moment, the client and its number, the ask, and the answer.
type Line = (u64, u32, u64, Row, &'static str);

/// An ask, about `q.fifo` if it names no other queue.
#[derive(Clone, Copy)]
enum Row {
    /// With a visibility timeout of 30 s.
    Create,
    /// Of another queue, with a visibility timeout of 30 s.
    CreateOther(&'static str),
    Remove,
    /// The group and the body, which is the deduplication id too.
    Send(&'static str, &'static str),
    /// The queue, and then as `Send`.
    SendTo(&'static str, &'static str, &'static str),
    Receive(u8),
    /// A message of the first incarnation, and the handing of the receipt.
    Delete(u64, u64),
}

fn create(queue: QueueName) -> Result<Ask, Fail> {
    let visibility = Seconds::new(30).ok_or("no timeout")?;
    Ok(Ask::Create {
        queue,
        visibility,
        content: false,
    })
}

fn send(alloc: Global, queue: QueueName, group: &str, body: &str) -> Result<Ask, Fail> {
    let group = GroupId::new(alloc, group)?;
    let dedup = Some(DedupId::new(alloc, body)?);
    let body = Body::new(alloc, body)?;
    Ok(Ask::Send {
        queue,
        group,
        dedup,
        body,
    })
}

fn receive(queue: QueueName, size: u8) -> Result<Ask, Fail> {
    let size = BatchSize::new(size).ok_or("no size")?;
    Ok(Ask::Receive {
        queue,
        size,
        visibility: None,
    })
}

fn delete(queue: QueueName, sequence: u64, handing: u64) -> Result<Ask, Fail> {
    let receipt = receipt(sequence, handing)?;
    Ok(Ask::Delete { queue, receipt })
}

fn ask_of(alloc: Global, row: Row) -> Result<Ask, Fail> {
    let queue = QueueName::new(alloc, "q.fifo")?;
    match row {
        Row::Create => create(queue),
        Row::CreateOther(name) => create(QueueName::new(alloc, name)?),
        Row::Remove => Ok(Ask::Remove { queue }),
        Row::Send(group, body) => send(alloc, queue, group, body),
        Row::SendTo(name, group, body) => send(alloc, QueueName::new(alloc, name)?, group, body),
        Row::Receive(size) => receive(queue, size),
        Row::Delete(sequence, handing) => delete(queue, sequence, handing),
    }
}

fn entry_of(alloc: Global, moment: u64, client: u32, number: u64, row: Row) -> Result<Entry, Fail> {
    let moment = Moment::new(moment).ok_or("no moment")?;
    let ask = ask_of(alloc, row)?;
    let request = Request {
        client,
        number,
        ask,
    };
    Ok(Entry { moment, request })
}

/// `created 1`, `sent 1`, `refused 1` and the like, or the bodies and receipts handed out.
fn shown(alloc: Global, reply: &Reply) -> Result<String, Fail> {
    match reply {
        Reply::Created(incarnation) => Ok(format!(in alloc; "created {incarnation}")?),
        Reply::Removed => Ok(String::from_str(alloc, "removed")?),
        Reply::Sent(sequence) => Ok(format!(in alloc; "sent {sequence}")?),
        Reply::Received(deliveries) => received(alloc, deliveries.as_slice()),
        Reply::Deleted(took_effect) => Ok(format!(in alloc; "deleted {took_effect}")?),
        Reply::Refused(refusal) => {
            let code = refusal.code();
            Ok(format!(in alloc; "refused {code}")?)
        }
        Reply::Changed | Reply::Counts { .. } => Err(Fail::from("no such reply")),
    }
}

/// Applies the entry to a store that stands as said.
fn apply(
    rt: &impl Abort,
    store: &mut Store,
    entry: &Entry,
    count: u64,
    last: Moment,
) -> Result<Reply, NoMemory> {
    assert_eq!(rt; store.count(), count);
    assert!(rt; store.last() == last);
    assert!(rt; count < 1000);
    assert!(rt; last <= entry.moment);
    store.apply(entry)
}

/// Applies the entry, and says what the store answers.
fn answer(
    rt: &impl Abort,
    alloc: Global,
    store: &mut Store,
    entry: &Entry,
) -> Result<String, Fail> {
    let count = store.count();
    assert!(rt; count < 1000);
    let last = store.last();
    let reply = match apply(rt, store, entry, count, last) {
        Ok(reply) => reply,
        Err(_) => apply(rt, store, entry, count, last)?,
    };
    assert_eq!(rt; store.count(), count + 1);
    assert!(rt; store.last() == entry.moment);
    shown(alloc, &reply)
}

/// Applies the lines to the store, which has to answer as they say.
fn go_on(rt: &impl Abort, alloc: Global, store: &mut Store, lines: &[Line]) -> Result<(), Fail> {
    for (moment, client, number, row, want) in lines {
        let entry = entry_of(alloc, *moment, *client, *number, *row)?;
        let got = answer(rt, alloc, store, &entry)?;
        assert_eq!(rt; got.as_str(), *want, "client {client}, number {number}");
    }
    Ok(())
}

/// A new store, and what it answers to these lines.
fn begin(rt: &impl Abort, alloc: Global, store: &mut Store, lines: &[Line]) -> Result<(), Fail> {
    assert_eq!(rt; store.count(), 0);
    assert_eq!(rt; store.last().get(), 0);
    go_on(rt, alloc, store, lines)
}

/// The store of these lines.
fn check(rt: &impl Abort, alloc: Global, lines: &[Line]) -> Result<Store, Fail> {
    let mut store = match Store::new(alloc) {
        Ok(store) => store,
        Err(_) => Store::new(alloc)?,
    };
    begin(rt, alloc, &mut store, lines)?;
    Ok(store)
}

fn copy_of(rt: &impl Abort, store: &Store) -> Result<Store, Fail> {
    let copy = match store.try_copy() {
        Ok(copy) => copy,
        Err(_) => store.try_copy()?,
    };
    assert_eq!(rt; copy.count(), store.count());
    assert!(rt; copy.last() == store.last());
    Ok(copy)
}

fn go_on_both(
    rt: &impl Abort,
    alloc: Global,
    store: &mut Store,
    copy: &mut Store,
    lines: &[Line],
) -> Result<(), Fail> {
    go_on(rt, alloc, store, lines)?;
    go_on(rt, alloc, copy, lines)
}

/// The store goes on, and then a copy that was made before.
fn go_on_twice(
    rt: &impl Abort,
    alloc: Global,
    store: &mut Store,
    lines: &[Line],
) -> Result<(), Fail> {
    let mut copy = copy_of(rt, store)?;
    go_on_both(rt, alloc, store, &mut copy, lines)
}

/// What the store of the first lines and a copy of it answer to the next ones: each the same, as if the
/// other weren't there.
fn check_copy(rt: &impl Abort, alloc: Global, lines: &[Line], next: &[Line]) -> Result<(), Fail> {
    let mut store = check(rt, alloc, lines)?;
    go_on_twice(rt, alloc, &mut store, next)
}

/// Groups of several messages, of which ten are handed out.
const GROUPS: [Line; 15] = [
    (0, 1, 1, Row::Create, "created 1"),
    (0, 1, 2, Row::Send("x", "x1"), "sent 1"),
    (0, 1, 3, Row::Send("w", "w1"), "sent 2"),
    (0, 1, 4, Row::Send("w", "w2"), "sent 3"),
    (0, 1, 5, Row::Send("y", "y1"), "sent 4"),
    (0, 1, 6, Row::Send("x", "x2"), "sent 5"),
    (0, 1, 7, Row::Send("z", "z1"), "sent 6"),
    (0, 1, 8, Row::Send("w", "w3"), "sent 7"),
    (0, 1, 9, Row::Send("x", "x3"), "sent 8"),
    (0, 1, 10, Row::Send("z", "z2"), "sent 9"),
    (0, 1, 11, Row::Send("w", "w4"), "sent 10"),
    (0, 1, 12, Row::Send("x", "x4"), "sent 11"),
    (0, 1, 13, Row::Send("z", "z3"), "sent 12"),
    (
        1,
        1,
        14,
        Row::Receive(10),
        "received x1 1-1-1 x2 1-5-1 x3 1-8-1 x4 1-11-1 w1 1-2-1 w2 1-3-1 w3 1-7-1 w4 1-10-1 y1 1-4-1 z1 1-6-1",
    ),
    (1, 1, 15, Row::Receive(10), "received"),
];

/// A receive whose number comes again, and a smaller number.
const REPEATS: [Line; 8] = [
    (0, 1, 1, Row::Create, "created 1"),
    (0, 1, 2, Row::Send("a", "x"), "sent 1"),
    (10, 1, 3, Row::Receive(1), "received x 1-1-1"),
    (60_000, 1, 3, Row::Receive(1), "received x 1-1-1"),
    (60_000, 1, 2, Row::Receive(1), "refused 7"),
    (60_000, 2, 1, Row::Receive(1), "received x 1-1-2"),
    (60_000, 2, 2, Row::Delete(1, 2), "deleted true"),
    (60_000, 1, 3, Row::Receive(1), "received x 1-1-1"),
];

/// A copy goes on as the store does, with a receive and its repeat, sends and a creation.
#[test]
fn a_copy_answers_as_the_store(rt: HostRuntime) -> Result<(), Fail> {
    let handed =
        "received x1 1-1-2 x2 1-5-2 x3 1-8-2 x4 1-11-2 w1 1-2-2 w2 1-3-2 w3 1-7-2 w4 1-10-2 y1 1-4-2 z1 1-6-2";
    let next = [
        (30_001, 1, 16, Row::Receive(10), handed),
        (30_001, 1, 16, Row::Receive(10), handed),
        (30_002, 1, 17, Row::Send("y", "y2"), "sent 13"),
        (30_002, 2, 1, Row::CreateOther("r.fifo"), "created 1"),
        (30_002, 2, 2, Row::SendTo("r.fifo", "a", "x1"), "sent 1"),
        (30_003, 1, 18, Row::Delete(4, 1), "deleted false"),
        (30_003, 1, 19, Row::Delete(4, 2), "deleted true"),
        (30_003, 1, 20, Row::Receive(10), "received y2 1-13-1"),
    ];
    check_copy(&rt, rt.alloc(), &GROUPS, &next)
}

/// A copy has the kept replies.
#[test]
fn a_copy_repeats_as_the_store(rt: HostRuntime) -> Result<(), Fail> {
    let next = [
        (60_001, 1, 3, Row::Receive(1), "received x 1-1-1"),
        (60_001, 2, 2, Row::Delete(1, 2), "deleted true"),
        (60_001, 2, 1, Row::Receive(1), "refused 7"),
        (60_001, 1, 4, Row::Send("a", "x"), "sent 1"),
    ];
    check_copy(&rt, rt.alloc(), &REPEATS, &next)
}

/// The store answers the line, and keeps so many ids then.
fn check_kept(
    rt: &impl Abort,
    alloc: Global,
    store: &mut Store,
    line: Line,
    want: u64,
) -> Result<(), Fail> {
    go_on(rt, alloc, store, &[line])?;
    let queue = QueueName::new(alloc, "q.fifo")?;
    assert_eq!(rt; store.kept_ids(&queue), want);
    Ok(())
}

fn check_kept_ids(rt: &impl Abort, alloc: Global, store: &mut Store) -> Result<(), Fail> {
    let rows = [
        ((0, 1, 1, Row::Create, "created 1"), 0),
        ((0, 1, 2, Row::Send("a", "x"), "sent 1"), 1),
        ((1, 1, 3, Row::Send("a", "y"), "sent 2"), 2),
        ((300_000, 1, 4, Row::Send("a", "z"), "sent 3"), 2),
        ((300_000, 1, 5, Row::Send("a", "y"), "sent 2"), 2),
        ((300_001, 1, 6, Row::Send("a", "y"), "sent 4"), 2),
        ((300_001, 1, 7, Row::Remove, "removed"), 0),
    ];
    for (line, want) in &rows {
        check_kept(rt, alloc, store, *line, *want)?;
    }
    Ok(())
}

/// After each send, the ids of the accepted sends of the last five minutes are kept, and none of a queue that is removed.
#[test]
fn ids_are_kept_for_five_minutes(rt: HostRuntime) -> Result<(), Fail> {
    let mut store = check(&rt, rt.alloc(), &[])?;
    check_kept_ids(&rt, rt.alloc(), &mut store)
}

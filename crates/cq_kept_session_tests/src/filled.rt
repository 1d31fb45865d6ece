//! Journals that short messages have filled, and that are emptied.
ghost use Rattle.std.specs.Prelude.{◌≤◌, OnOk};
ghost use Rattle.cq_kept_session.specs.Kept.{IsKept};

use crate::rewriting::{BEGIN, serve};
use crate::rooms::{LEN, PUT, refusals};
use crate::taking::{HALF, open_with};
use cq_base::ChainSize;
use cq_disk::{Device, Memory, TornWrites};
use cq_kept_session::KeptSession;
use std::alloc::{AllocError, Global};
use std::test::Fail;

/// How many messages are sent at most.
const MOST: u64 = 1_000;

/// A client that asks one request after the other.
#[derive(Drop)]
struct Client {
    clock: u64,
    number: u64,
}

impl Client {
    /// The lines of its next request, and of the put of its answer.
    fn next_lines(&mut self, alloc: Global, ask: &str) -> Result<String, AllocError> {
        self.number = self.number.saturating_add(1);
        let (clock, number) = (self.clock, self.number);
        format!(in alloc;
            "{{\"op\":\"arrive\",\"at\":1,\"clock\":{clock},\"client\":1,\"number\":{number},\"ask\":{ask}}}\n{PUT}"
        )
    }
}

/// What is written of the next request.
fn answer<D: Device>(
    alloc: Global,
    kept: &mut KeptSession<D>,
    client: &mut Client,
    ask: &str,
) -> Result<Vec<u8>, Fail>
    requires { IsKept kept.old }
    ensures { OnOk result (IsKept kept.new) }
{
    let lines = client.next_lines(alloc, ask)?;
    let mut told = Vec::new(alloc);
    serve(kept, lines.as_bytes(), &mut told)?;
    Ok(told)
}

/// Sends messages of a few bytes up to the first that is refused, and gives how many were taken.
fn fill<D: Device>(
    alloc: Global,
    kept: &mut KeptSession<D>,
    client: &mut Client,
) -> Result<u64, Fail>
    requires { IsKept kept.old }
    ensures { OnOk result (IsKept kept.new) }
{
    for count in 0..MOST {
        let ask = format!(in alloc;
            "{{\"kind\":\"send\",\"queue\":\"q.fifo\",\"group\":\"g{count}\",\"dedup\":\"d{count}\",\"body\":\"hello\"}}"
        )?;
        let told = answer(alloc, kept, client, ask.as_str())?;
        if refusals(&told) > 0 {
            return Ok(count);
        }
    }
    Ok(MOST)
}

/// Receives so many messages, ten at a time, and gives how many receives were refused.
fn receive_all<D: Device>(
    alloc: Global,
    kept: &mut KeptSession<D>,
    client: &mut Client,
    count: u64,
) -> Result<usize, Fail>
    requires { IsKept kept.old }
    ensures { OnOk result (IsKept kept.new) }
{
    let ask = r#"{"kind":"receive","queue":"q.fifo","size":10}"#;
    let mut refused: usize = 0;
    for _ in 0..(count / 10).saturating_add(1) {
        let told = answer(alloc, kept, client, ask)?;
        refused = refused.saturating_add(refusals(&told));
    }
    Ok(refused)
}

/// Deletes the messages of these sequence numbers, and gives how many of them are gone.
fn delete_all<D: Device>(
    alloc: Global,
    kept: &mut KeptSession<D>,
    client: &mut Client,
    count: u64,
) -> Result<u64, Fail>
    requires { IsKept kept.old }
    ensures { OnOk result (IsKept kept.new) }
{
    let mut gone: u64 = 0;
    for place in 0..count {
        let sequence = place.saturating_add(1);
        let ask = format!(in alloc;
            "{{\"kind\":\"delete\",\"queue\":\"q.fifo\",\"receipt\":\"1-{sequence}-1\"}}"
        )?;
        let told = answer(alloc, kept, client, ask.as_str())?;
        if told.ends_with(b"\"reply\":{\"kind\":\"deleted\",\"removed\":true}}\n") {
            gone = gone.saturating_add(1);
        }
    }
    Ok(gone)
}

/// What became of a journal that was filled twice.
#[derive(Clone, Copy, Debug, PartialEq, Eq)]
struct Turns {
    /// How many messages it took.
    sent: u64,
    /// How many receives of them were refused.
    unreceived: usize,
    /// How many of them were deleted.
    deleted: u64,
    /// How many it took behind that, once the ids of the first ones were forgotten.
    again: u64,
    /// Whether the session can be opened again, with all its lines.
    is_open: bool,
}

/// Fills a journal on a device of this length twice, and empties it between.
fn fill_twice(alloc: Global, whole: usize) -> Result<Turns, Fail>
    requires { 128 ≤ whole }
{
    let device = Memory::new(alloc, vec![in alloc; 0u8; whole]?, TornWrites::OldOrNew);
    let mut kept = KeptSession::create(alloc, ChainSize::one(), device, HALF, LEN)?;
    serve(&mut kept, BEGIN, &mut Vec::new(alloc))?;
    let mut client = Client {
        clock: 100_000,
        number: 1_000,
    };
    let sent = fill(alloc, &mut kept, &mut client)?;
    let unreceived = receive_all(alloc, &mut kept, &mut client, sent)?;
    let deleted = delete_all(alloc, &mut kept, &mut client, sent)?;
    client.clock = 500_000;
    let again = fill(alloc, &mut kept, &mut client)?;
    let lines = kept.line_count();
    let bytes = kept.into_journal().into_device().bytes().to_vec(alloc)?;
    let is_open = open_with(alloc, bytes, LEN)?.line_count() == lines;
    Ok(Turns {
        sent,
        unreceived,
        deleted,
        again,
        is_open,
    })
}

/// Whether it took more messages than so many, all of them were received and deleted, and as many were taken again, but for an eighth: the
/// last rewrite before a refusal may be that much of a base away.
fn is_emptied(turns: Turns, least: u64) -> bool {
    let is_filled = least < turns.sent && turns.sent < MOST;
    let is_gone = turns.unreceived == 0 && turns.deleted == turns.sent;
    let most = turns.again.saturating_add(turns.sent / 8);
    is_filled && is_gone && turns.sent <= most && turns.is_open
}

/// Where short messages have filled a journal, their receives and deletes find room, though their lines are far longer than what
/// they delete; and then about as many messages are taken again. With three regions, the least that has space for a base, and with seven.
#[test]
fn a_journal_of_short_messages_is_emptied(rt: HostRuntime) -> Result<(), Fail> {
    let alloc = rt.alloc();
    let small = fill_twice(alloc, 2 * HALF + 3 * LEN)?;
    assert!(rt; is_emptied(small, 30), "{small:?}");
    let large = fill_twice(alloc, 2 * HALF + 7 * LEN)?;
    assert!(rt; is_emptied(large, 90), "{large:?}");
    Ok(())
}

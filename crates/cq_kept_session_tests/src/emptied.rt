//! A journal that messages have filled, and that is emptied.
ghost use Rattle.std.specs.Prelude.{OnOk};
ghost use Rattle.cq_kept_session.specs.Kept.{IsKept};

use crate::rewriting::{BEGIN, serve};
use crate::rooms::{PUT, arrive, refusals};
use crate::taking::{HALF, take_pieces};
use cq_base::ChainSize;
use cq_disk::{Device, Memory, TornWrites};
use cq_kept_session::KeptSession;
use std::alloc::{AllocError, Global};
use std::test::Fail;

/// The length of a region: a message's lines are far shorter than the message, as those of long messages are.
const LEN: usize = 40_000;

/// Room for three regions: the second one may be gone on in, and the third one is left.
const WHOLE: usize = 2 * HALF + 3 * LEN;

/// How many sends are tried at most.
const TRIES: u64 = 20;

/// So many messages leave no space for a base.
const TAKEN: u64 = 6;

/// The ask that sends a message which takes more than a fifth of a region.
fn send(alloc: Global, number: u64) -> Result<String, AllocError> {
    let mut body = String::new(alloc);
    for _ in 0..900 {
        body.push_str("ten bytes.")?;
    }
    format!(in alloc;
        "{{\"kind\":\"send\",\"queue\":\"q.fifo\",\"group\":\"a\",\"dedup\":\"d{number}\",\"body\":\"{body}\"}}"
    )
}

/// Serves a request, and gives its answer where it wasn't refused. `false`: it was.
fn serve_request<D: Device>(
    alloc: Global,
    kept: &mut KeptSession<D>,
    number: u64,
    ask: &str,
    told: &mut Vec<u8>,
) -> Result<bool, Fail>
    requires { IsKept kept.old }
    ensures { OnOk result (IsKept kept.new) }
{
    let before = refusals(told);
    serve(kept, arrive(alloc, number, ask)?.as_bytes(), told)?;
    if refusals(told) > before {
        return Ok(false);
    }
    serve(kept, PUT.as_bytes(), told)?;
    Ok(true)
}

/// Receives the message of this sequence number, and deletes it.
fn take_out<D: Device>(
    alloc: Global,
    kept: &mut KeptSession<D>,
    sequence: u64,
    told: &mut Vec<u8>,
) -> Result<bool, Fail>
    requires { IsKept kept.old }
    ensures { OnOk result (IsKept kept.new) }
{
    let number = TRIES
        .saturating_mul(2)
        .saturating_add(sequence.saturating_mul(2));
    let receive = r#"{"kind":"receive","queue":"q.fifo","size":1}"#;
    let receipt = format!(in alloc;
        "{{\"kind\":\"delete\",\"queue\":\"q.fifo\",\"receipt\":\"1-{sequence}-1\"}}"
    )?;
    let is_received = serve_request(alloc, kept, number, receive, told)?;
    let is_deleted = serve_request(
        alloc,
        kept,
        number.saturating_add(1),
        receipt.as_str(),
        told,
    )?;
    Ok(is_received && is_deleted)
}

/// Sends messages up to the first that is refused, and gives how many were taken.
fn fill<D: Device>(
    alloc: Global,
    kept: &mut KeptSession<D>,
    told: &mut Vec<u8>,
) -> Result<u64, Fail>
    requires { IsKept kept.old }
    ensures { OnOk result (IsKept kept.new) }
{
    for count in 0..TRIES {
        let number = count.saturating_add(2);
        let ask = send(alloc, number)?;
        if !serve_request(alloc, kept, number, ask.as_str(), told)? {
            return Ok(count);
        }
    }
    Ok(TRIES)
}

/// Takes messages behind so many that leave no space for a base, by the call that asks for none.
fn overfill<D: Device>(
    alloc: Global,
    kept: &mut KeptSession<D>,
    taken: u64,
    told: &mut Vec<u8>,
) -> Result<(), Fail>
    requires { IsKept kept.old }
    ensures { OnOk result (IsKept kept.new) }
{
    for count in taken..TAKEN {
        let number = count.saturating_add(2);
        let lines = arrive(alloc, number, send(alloc, number)?.as_str())?;
        take_pieces(kept, lines.as_bytes(), LEN, told)?;
        take_pieces(kept, PUT.as_bytes(), LEN, told)?;
    }
    Ok(())
}

/// Where messages have filled a journal, and more were taken than leave space for a base, and all were deleted, the next message finds room,
/// also if the lines that deleted them take far less than a message: a base takes the place of all lines as soon as it has
/// space.
#[test]
fn an_emptied_journal_takes_messages_again(rt: HostRuntime) -> Result<(), Fail> {
    let alloc = rt.alloc();
    let device = Memory::new(alloc, vec![in alloc; 0u8; WHOLE]?, TornWrites::OldOrNew);
    let mut kept = KeptSession::create(alloc, ChainSize::one(), device, HALF, LEN)?;
    let mut told = Vec::new(alloc);
    serve(&mut kept, BEGIN, &mut told)?;
    let count = fill(alloc, &mut kept, &mut told)?;
    assert!(rt;
        2 < count && count < TAKEN,
        "the journal took {count} messages"
    );
    overfill(alloc, &mut kept, count, &mut told)?;
    for place in 0..TAKEN {
        let sequence = place.saturating_add(1);
        assert!(rt; take_out(alloc, &mut kept, sequence, &mut told)?);
    }
    let ask = send(alloc, 0)?;
    let number = TRIES.saturating_mul(5);
    assert!(rt; serve_request(alloc, &mut kept, number, ask.as_str(), &mut told)?);
    Ok(())
}

//! Kept sessions with little room.
ghost use Rattle.std.specs.Prelude.{OnOk};
ghost use Rattle.cq_kept_session.specs.Kept.{IsKept};

use crate::taking::{HALF, kept_lines, open_with, session_text};
use cq_base::ChainSize;
use cq_disk::{Device, Memory, TornWrites};
use cq_kept_session::{KeptSession, TakeFault};
use cq_records::TEXT_LIMIT;
use cq_script::Checked;
use std::alloc::{AllocError, Global};
use std::test::Fail;

pub(crate) const LEN: usize = 4_000;

/// Room for three regions: the second one may be gone on in, and the third one is left.
pub(crate) const WHOLE: usize = 2 * HALF + 3 * LEN;

/// How many requests of a kind are tried.
const TRIES: u64 = 200;

const CREATE: &str = r#"{"kind":"create","queue":"q.fifo","visibility":30}"#;

const SEND: &str = r#"{"kind":"send","queue":"q.fifo","group":"a","dedup":"d","body":"hello"}"#;

const RECEIVE: &str = r#"{"kind":"receive","queue":"q.fifo","size":1}"#;

const DELETE: &str = r#"{"kind":"delete","queue":"q.fifo","receipt":"1-1-1"}"#;

/// The line that gives an answer which waits.
pub(crate) const PUT: &str = "{\"op\":\"put\",\"from\":1,\"to\":\"clients\"}\n";

/// How many lines of a text refuse a line for which there is no room.
pub(crate) fn refusals(text: &[u8]) -> usize {
    text.split(|byte| *byte == b'\n')
        .filter(|line| line.ends_with(br#""name":"NoRoom","refused":70}"#))
        .count()
}

/// The other lines.
fn without_refusals(alloc: Global, text: &[u8]) -> Result<Vec<u8>, AllocError> {
    let mut others = Vec::new(alloc);
    for line in text.split(|byte| *byte == b'\n') {
        if !line.is_empty() && !line.ends_with(br#""name":"NoRoom","refused":70}"#) {
            others.extend_from_slice(line)?;
            others.push(b'\n')?;
        }
    }
    Ok(others)
}

/// Takes whole lines, unless they are too many.
fn take_whole<D: Device>(
    kept: &mut KeptSession<D>,
    lines: &[u8],
    told: &mut Vec<u8>,
) -> Result<(), TakeFault>
    requires { IsKept kept.old }
    ensures { OnOk result (IsKept kept.new) }
{
    if lines.len() > TEXT_LIMIT {
        return Ok(());
    }
    kept.take_lines(lines, &mut Checked::new(&mut *told))
}

/// The line of a request.
pub(crate) fn arrive(alloc: Global, number: u64, ask: &str) -> Result<String, AllocError> {
    format!(in alloc;
        "{{\"op\":\"arrive\",\"at\":1,\"clock\":1000,\"client\":1,\"number\":{number},\"ask\":{ask}}}\n"
    )
}

/// Takes a request and the put of its answer.
fn request<D: Device>(
    alloc: Global,
    kept: &mut KeptSession<D>,
    number: u64,
    ask: &str,
    told: &mut Vec<u8>,
) -> Result<(), Fail>
    requires { IsKept kept.old }
    ensures { OnOk result (IsKept kept.new) }
{
    let mut lines = arrive(alloc, number, ask)?;
    lines.push_str(PUT)?;
    Ok(take_whole(kept, lines.as_bytes(), told)?)
}

/// Takes requests of a kind up to the first that is refused, and gives the number behind it. `None`: none was.
fn until_refused<D: Device>(
    alloc: Global,
    kept: &mut KeptSession<D>,
    first: u64,
    ask: &str,
    told: &mut Vec<u8>,
) -> Result<Option<u64>, Fail>
    requires { IsKept kept.old }
    ensures { OnOk result (IsKept kept.new) }
{
    let before = refusals(told);
    for count in 0..TRIES {
        let number = first.saturating_add(count);
        request(alloc, kept, number, ask, told)?;
        if refusals(told) > before {
            return Ok(Some(number.saturating_add(1)));
        }
    }
    Ok(None)
}

/// Sends are refused first, then receives, and deletes still find room. What is told beside the refusals is what one session writes
/// on what is kept, and what is kept can be opened.
#[test]
fn deletes_find_room_the_longest(rt: HostRuntime) -> Result<(), Fail> {
    let alloc = rt.alloc();
    let device = Memory::new(alloc, vec![in alloc; 0u8; WHOLE]?, TornWrites::OldOrNew);
    let mut kept = KeptSession::create(alloc, ChainSize::one(), device, HALF, LEN)?;
    let mut told = Vec::new(alloc);
    request(alloc, &mut kept, 1, CREATE, &mut told)?;
    let Some(number) = until_refused(alloc, &mut kept, 2, SEND, &mut told)? else {
        assert!(rt; false, "no send was refused");
        return Ok(());
    };
    assert!(rt; number > 20, "sends were refused early, at {number}");
    let refused = refusals(&told);
    request(alloc, &mut kept, number, RECEIVE, &mut told)?;
    assert_eq!(rt; refusals(&told), refused);
    let Some(number) = until_refused(alloc, &mut kept, number, RECEIVE, &mut told)? else {
        assert!(rt; false, "no receive was refused");
        return Ok(());
    };
    let refused = refusals(&told);
    request(alloc, &mut kept, number, DELETE, &mut told)?;
    assert_eq!(rt; refusals(&told), refused);

    let bytes = kept.into_journal().into_device().bytes().to_vec(alloc)?;
    let lines = kept_lines(alloc, open_with(alloc, bytes, LEN)?)?;
    assert_eq!(rt;
        session_text(alloc, &lines).as_slice(),
        without_refusals(alloc, &told)?.as_slice()
    );
    Ok(())
}

//! Kept sessions that put a base in the place of their lines.
ghost use Rattle.std.specs.Prelude.{OnOk};
ghost use Rattle.cq_kept_session.specs.Kept.{IsKept};

use crate::taking::{HALF, LEN, LINES, WHOLE, open, open_with, session_text, take_pieces};
use cq_base::ChainSize;
use cq_disk::{Device, Memory, Modelled, TornWrites, Unknown};
use cq_kept_session::{KeptSession, ServeFault, TakeFault};
use cq_records::LogFault;
use cq_records_tests::Simulated;
use cq_script::{Checked, cut_line};
use rand_xoshiro::Xoshiro256PlusPlus;
use rand_xoshiro::rand_core::{Rng, SeedableRng};
use std::alloc::{AllocError, Global};
use std::test::Fail;

const SEEDS: u64 = 300;

const TORN: TornWrites = TornWrites::OldOrNew;

/// A request whose answer shows what the queue has.
const PROBE: &[u8] =
    br#"{"op":"arrive","at":1,"clock":70000,"client":2,"number":1,"ask":{"kind":"receive","queue":"q.fifo","size":1}}
{"op":"put","from":1,"to":"clients"}
"#;

/// The first of these lines, so many of them.
fn first_lines(lines: &[u8], count: u64) -> &[u8] {
    let mut left = count;
    for (index, byte) in lines.iter().enumerate() {
        if left == 0 {
            return lines.get(..index).unwrap_or(lines);
        }
        if *byte == b'\n' {
            left -= 1;
        }
    }
    lines
}

/// Whether a session answers a further request as one does that has run just these lines.
fn goes_on<D: Device>(alloc: Global, kept: &mut KeptSession<D>, lines: &[u8]) -> Result<bool, Fail>
    requires { IsKept kept.old }
{
    let mut text = session_text(alloc, lines);
    take_pieces(kept, PROBE, 1_000, &mut text)?;
    let mut all = lines.to_vec(alloc)?;
    all.extend_from_slice(PROBE)?;
    Ok(text.as_slice() == session_text(alloc, &all).as_slice())
}

/// A session with a base goes on as before, and so does one that is opened again.
#[test]
fn a_base_stands_for_the_lines(rt: HostRuntime) -> Result<(), Fail> {
    let alloc = rt.alloc();
    let device = Memory::new(alloc, vec![in alloc; 0u8; WHOLE]?, TORN);
    let mut kept = KeptSession::create(alloc, ChainSize::one(), device, HALF, LEN)?;
    let mut told = Vec::new(alloc);
    take_pieces(&mut kept, LINES, 50, &mut told)?;
    assert_eq!(rt; kept.rewrite(), Ok(true));
    assert_eq!(rt; kept.line_count(), 6);
    let bytes = kept.into_journal().into_device().bytes().to_vec(alloc)?;

    let mut again = open(alloc, bytes)?;
    assert_eq!(rt; again.line_count(), 6);
    assert_eq!(rt; again.highest().clients, 1);
    assert!(rt; goes_on(alloc, &mut again, LINES)?);
    Ok(())
}

/// Nothing is rewritten while an answer waits, or while a line has begun.
#[test]
fn a_base_waits_for_rest(rt: HostRuntime) -> Result<(), Fail> {
    let alloc = rt.alloc();
    let lines = first_lines(LINES, 5);
    let whole = lines.len();
    for len in [whole, whole.saturating_sub(1), whole.saturating_add(20)] {
        let device = Memory::new(alloc, vec![in alloc; 0u8; WHOLE]?, TORN);
        let mut kept = KeptSession::create(alloc, ChainSize::one(), device, HALF, LEN)?;
        let taken = LINES.get(..len).unwrap_or(LINES);
        take_pieces(&mut kept, taken, 50, &mut Vec::new(alloc))?;
        assert_eq!(rt; kept.rewrite(), Ok(false), "{len} bytes");
    }
    Ok(())
}

/// Where no region is free, nothing changes.
#[test]
fn a_base_needs_space(rt: HostRuntime) -> Result<(), Fail> {
    let alloc = rt.alloc();
    let whole = 2 * HALF + 2_000;
    let device = Memory::new(alloc, vec![in alloc; 0u8; whole]?, TORN);
    let mut kept = KeptSession::create(alloc, ChainSize::one(), device, HALF, 2_000)?;
    let mut told = Vec::new(alloc);
    take_pieces(&mut kept, LINES, 1_000, &mut told)?;
    assert_eq!(rt; kept.rewrite(), Err(LogFault::Full));
    Ok(())
}

/// Takes whole lines, one by one, and rewrites what is kept behind some of them, up to the first fault.
fn take_and_rewrite<D: Device>(
    kept: &mut KeptSession<D>,
    random: &mut Xoshiro256PlusPlus,
    told: &mut Vec<u8>,
) -> Result<(), TakeFault>
    requires { IsKept kept.old }
    ensures { OnOk result (IsKept kept.new) }
{
    let mut rest = LINES;
    while let Some((line, _)) = cut_line(rest) {
        let (whole, later) = rest.split_at(line.len() + 1);
        take_pieces(kept, whole, 1_000, told)?;
        if random.next_u32() % 2 == 0 {
            kept.rewrite()?;
        }
        rest = later;
    }
    Ok(())
}

/// Whether what a crash leaves is a session that has taken some of the lines, from the first on, among them all that were answered,
/// and goes on behind these.
fn is_kept(alloc: Global, seed: u64) -> Result<bool, Fail> {
    let mut random = Xoshiro256PlusPlus::seed_from_u64(seed);
    let file = Simulated::new(
        alloc,
        &vec![in alloc; 7u8; WHOLE]?,
        1 + random.next_u64() % 250,
    )?;
    let device: Modelled<Simulated, Unknown> = Modelled::new(file, WHOLE, TORN);
    let Ok(mut first) = KeptSession::create(alloc, ChainSize::one(), device, HALF, LEN) else {
        return Ok(true);
    };
    let mut told = Vec::new(alloc);
    let _ = take_and_rewrite(&mut first, &mut random, &mut told);
    let file = first.into_journal().into_device().into_calls();
    let medium = file.into_medium(&mut random, TORN);
    let mut kept = open(alloc, medium)?;
    let lines = first_lines(LINES, kept.line_count());
    let is_told = session_text(alloc, lines).starts_with(&told);
    Ok(goes_on(alloc, &mut kept, lines)? && is_told)
}

#[test]
fn a_crash_leaves_the_lines_or_their_base(rt: HostRuntime) -> Result<(), Fail> {
    for seed in 0..SEEDS {
        assert!(rt; is_kept(rt.alloc(), seed)?, "seed {seed}");
    }
    Ok(())
}

/// The lines of a queue that is made.
pub(crate) const BEGIN: &[u8] =
    br#"{"op":"arrive","at":1,"clock":1000,"client":1,"number":1,"ask":{"kind":"create","queue":"q.fifo","visibility":30}}
{"op":"put","from":1,"to":"clients"}
"#;

/// The lines by which a message is sent, received and deleted.
fn round(alloc: Global, number: u64) -> Result<String, AllocError> {
    let (send, receive, delete) = (
        number.saturating_mul(3),
        number.saturating_mul(3).saturating_add(1),
        number.saturating_mul(3).saturating_add(2),
    );
    let head = "{\"op\":\"arrive\",\"at\":1,\"clock\":1000,\"client\":1,\"number\":";
    let put = "{\"op\":\"put\",\"from\":1,\"to\":\"clients\"}\n";
    format!(in alloc;
        "{head}{send},\"ask\":{{\"kind\":\"send\",\"queue\":\"q.fifo\",\"group\":\"a\",\"dedup\":\"d{number}\",\"body\":\"hello\"}}}}\n{put}{head}{receive},\"ask\":{{\"kind\":\"receive\",\"queue\":\"q.fifo\"}}}}\n{put}{head}{delete},\"ask\":{{\"kind\":\"delete\",\"queue\":\"q.fifo\",\"receipt\":\"1-{number}-1\"}}}}\n{put}"
    )
}

/// Serves these lines.
pub(crate) fn serve<D: Device>(
    kept: &mut KeptSession<D>,
    lines: &[u8],
    told: &mut Vec<u8>,
) -> Result<(), ServeFault>
    requires { IsKept kept.old }
    ensures { OnOk result (IsKept kept.new) }
{
    kept.serve(&mut Checked::new(lines), &mut Checked::new(&mut *told))
}

/// Messages that come and go never fill a journal: a base takes the place of their lines. All is answered, also by a session that
/// is opened again.
#[test]
fn a_queue_that_never_rests_fills_no_journal(rt: HostRuntime) -> Result<(), Fail> {
    let alloc = rt.alloc();
    let len = 4_000;
    let device = Memory::new(alloc, vec![in alloc; 0u8; 2 * HALF + 8 * len]?, TORN);
    let mut kept = KeptSession::create(alloc, ChainSize::one(), device, HALF, len)?;
    let mut told = Vec::new(alloc);
    let mut lines = BEGIN.to_vec(alloc)?;
    serve(&mut kept, BEGIN, &mut told)?;
    for number in 1..=150 {
        let round = round(alloc, number)?;
        lines.extend_from_slice(round.as_bytes())?;
        serve(&mut kept, round.as_bytes(), &mut told)?;
    }
    assert_eq!(rt; told.as_slice(), session_text(alloc, &lines).as_slice());
    assert_eq!(rt; kept.line_count(), 902);
    let bytes = kept.into_journal().into_device().bytes().to_vec(alloc)?;

    let mut again = open_with(alloc, bytes, len)?;
    assert_eq!(rt; again.line_count(), 902);
    assert!(rt; goes_on(alloc, &mut again, &lines)?);
    Ok(())
}

//! Kept sessions that are opened again.
ghost use Rattle.std.specs.Prelude.{◌≤◌, length, OnOk};
ghost use Rattle.cq_kept_session.specs.Kept.{IsKept};

use crate::taking::{HALF, LEN, LINES, WHOLE, kept_lines, open, session_text, take_pieces};
use cq_base::ChainSize;
use cq_disk::{Device, Memory, TornWrites};
use cq_kept_session::{KeptSession, TakeFault};
use cq_records::{LogFault, TEXT_LIMIT};
use cq_script::{Checked, ScriptFault};
use std::alloc::{AllocError, Global};
use std::test::Fail;

/// The length of the first two lines, which create the queue, and of the last one.
const CREATE_LEN: usize = 152;

const PUT_LEN: usize = 37;

/// Lines, with a line feed behind the last one if it has none.
fn ended(alloc: Global, lines: &[u8]) -> Result<Vec<u8>, AllocError> {
    let mut ended = lines.to_vec(alloc)?;
    if ended.last().is_some_and(|byte| *byte != b'\n') {
        ended.push(b'\n')?;
    }
    Ok(ended)
}

/// The session is opened again at each byte: it answers the rest as if it had never been closed. A line that was cut off is a line
/// of its own, of which nothing was told.
#[test]
fn a_session_goes_on_where_it_was_closed(rt: HostRuntime) -> Result<(), Fail> {
    let alloc = rt.alloc();
    for place in 0..=LINES.len() {
        let (before, behind) = LINES.split_at(place);
        let device = Memory::new(alloc, vec![in alloc; 9u8; WHOLE]?, TornWrites::OldOrNew);
        let mut first = KeptSession::create(alloc, ChainSize::one(), device, HALF, LEN)?;
        let mut told = Vec::new(alloc);
        take_pieces(&mut first, before, 50, &mut told)?;
        let bytes = first.into_journal().into_device().bytes().to_vec(alloc)?;
        let mut second = open(alloc, bytes)?;
        let mut rest = Vec::new(alloc);
        take_pieces(&mut second, behind, 70, &mut rest)?;

        let mut all = ended(alloc, before)?;
        let restored = session_text(alloc, &all);
        all.extend_from_slice(behind)?;
        let text = session_text(alloc, &all);
        assert!(rt; restored.starts_with(&told), "closed at {place}");
        assert_eq!(rt;
            text.strip_prefix(restored.as_slice()),
            Some(rest.as_slice()),
            "closed at {place}"
        );
    }
    Ok(())
}

/// Takes a chunk for which there is no space. Where it is taken all the same, the answer is `NotTold`.
fn find_no_space<D: Device>(
    kept: &mut KeptSession<D>,
    chunk: &[u8],
    text: &mut Vec<u8>,
) -> Result<(), TakeFault>
    requires kept { IsKept kept.old }
    requires short { length chunk.now ≤ TEXT_LIMIT }
    ensures { OnOk result (IsKept kept.new) }
{
    match kept.take(chunk, &mut Checked::new(&mut *text)) {
        Err(TakeFault::NotKept(LogFault::Full)) => Ok(()),
        Err(fault) => Err(fault),
        Ok(()) => Err(TakeFault::NotTold(ScriptFault::WriteFailed)),
    }
}

/// A chunk for which there is no space isn't run, and what fits is taken behind it.
#[test]
fn what_finds_no_space_is_not_run(rt: HostRuntime) -> Result<(), Fail> {
    let alloc = rt.alloc();
    let bytes = vec![in alloc; 0u8; 2 * HALF + 250]?;
    let device = Memory::new(alloc, bytes, TornWrites::OldOrNew);
    let mut kept = KeptSession::create(alloc, ChainSize::one(), device, HALF, 250)?;
    let mut told = Vec::new(alloc);
    let (create, rest) = LINES.split_at(CREATE_LEN);
    let (send, put) = rest.split_at(rest.len() - PUT_LEN);
    take_pieces(&mut kept, create, 1_000, &mut told)?;
    find_no_space(&mut kept, send, &mut told)?;
    take_pieces(&mut kept, put, 1_000, &mut told)?;
    let mut taken = create.to_vec(alloc)?;
    taken.extend_from_slice(put)?;
    assert_eq!(rt; told.as_slice(), session_text(alloc, &taken).as_slice());
    assert_eq!(rt; kept_lines(alloc, kept)?.as_slice(), taken.as_slice());
    Ok(())
}

/// A reader that is at its end ends the last line, which is answered.
#[test]
fn the_last_line_is_answered_at_the_end(rt: HostRuntime) -> Result<(), Fail> {
    let alloc = rt.alloc();
    let device = Memory::new(alloc, vec![in alloc; 9u8; WHOLE]?, TornWrites::OldOrNew);
    let mut kept = KeptSession::create(alloc, ChainSize::one(), device, HALF, LEN)?;
    let mut told = Vec::new(alloc);
    take_pieces(&mut kept, LINES.trim_ascii_end(), 50, &mut told)?;
    kept.finish(&mut Checked::new(&mut told))?;
    kept.finish(&mut Checked::new(&mut told))?;
    assert_eq!(rt; told.as_slice(), session_text(alloc, LINES).as_slice());
    assert_eq!(rt; kept_lines(alloc, kept)?.as_slice(), LINES);
    Ok(())
}

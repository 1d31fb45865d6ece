//! Journals that begin with a base.
use crate::taking::{HALF, LEN, LINES, WHOLE, open, session_text, take_pieces};
use cq_disk::{Memory, TornWrites};
use cq_journal::{Journal, OpenFault};
use cq_kept_session::StartFault;
use cq_records::{Batch, is_text};
use std::alloc::Global;
use std::test::Fail;

/// The base of three lines that left an empty store: its header and one chunk.
const BASE: &[u8] = b"\x02\x03\x03\x03\x19\n\x03\x04\x03\x1b\x05\n\n";

/// A line that says no event: its refusal tells the number of the line.
const BAD: &[u8] = b"{]\n";

/// The bytes of a journal that has this record.
fn journal_of(alloc: Global, record: &[u8]) -> Result<Vec<u8>, Fail> {
    let device = Memory::new(alloc, vec![in alloc; 0u8; WHOLE]?, TornWrites::OldOrNew);
    let mut journal = Journal::create(alloc, device, HALF, LEN)?;
    let mut batch = Batch::new(alloc);
    if is_text(record) {
        batch.add(record)?;
    }
    journal.append(alloc, &batch)?;
    Ok(journal.into_device().bytes().to_vec(alloc)?)
}

/// Lines behind a base are answered as if those before it had been run.
#[test]
fn a_session_goes_on_behind_a_base(rt: HostRuntime) -> Result<(), Fail> {
    let alloc = rt.alloc();
    let mut kept = open(alloc, journal_of(alloc, BASE)?)?;
    assert_eq!(rt; kept.line_count(), 3);
    let mut lines = LINES.to_vec(alloc)?;
    lines.extend_from_slice(BAD)?;
    let mut told = Vec::new(alloc);
    take_pieces(&mut kept, &lines, 50, &mut told)?;

    let mut all = b"\n\n\n".to_vec(alloc)?;
    all.extend_from_slice(&lines)?;
    assert_eq!(rt; told.as_slice(), session_text(alloc, &all).as_slice());
    assert_eq!(rt; kept.line_count(), 10);
    Ok(())
}

/// A base that is cut off is refused, wherever it ends.
#[test]
fn a_base_has_to_be_whole(rt: HostRuntime) -> Result<(), Fail> {
    let alloc = rt.alloc();
    for len in 1..BASE.len() {
        let bytes = journal_of(alloc, &BASE[..len])?;
        let fault = open(alloc, bytes).err();
        assert_eq!(rt;
            fault,
            Some(StartFault::Open(OpenFault::Damaged)),
            "cut off at {len}"
        );
    }
    Ok(())
}

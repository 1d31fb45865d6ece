//! Kept sessions that take lines in pieces.
ghost use Rattle.std.specs.Prelude.{◌≤◌, OnOk, IfOk};
ghost use Rattle.cq_journal.specs.Journal.{IsJournal};
ghost use Rattle.cq_kept_session.specs.Kept.{IsKept};

use cq_base::ChainSize;
use cq_disk::{Device, Memory, TornWrites};
use cq_journal::{OpenFault, RegionFault};
use cq_kept_session::{KeptSession, StartFault, TakeFault};
use cq_records::TEXT_LIMIT;
use cq_script::{Checked, session};
use std::alloc::Global;

/// The length of a half of the root.
pub(crate) const HALF: usize = 64;

/// The length of a region.
pub(crate) const LEN: usize = 400;

/// The length of a device with room for six regions.
pub(crate) const WHOLE: usize = 2 * HALF + 6 * LEN;

/// A queue, a message and its receive, with an answer to each.
pub(crate) const LINES: &[u8] =
    br#"{"op":"arrive","at":1,"clock":1000,"client":1,"number":1,"ask":{"kind":"create","queue":"q.fifo","visibility":30}}
{"op":"put","from":1,"to":"clients"}
{"op":"arrive","at":1,"clock":1001,"client":1,"number":2,"ask":{"kind":"send","queue":"q.fifo","group":"a","dedup":"d1","body":"hello"}}
{"op":"put","from":1,"to":"clients"}
{"op":"arrive","at":1,"clock":1002,"client":1,"number":3,"ask":{"kind":"receive","queue":"q.fifo","size":1}}
{"op":"put","from":1,"to":"clients"}
"#;

/// What one session writes on these lines.
pub(crate) fn session_text(alloc: Global, lines: &[u8]) -> Vec<u8> {
    let mut text = Vec::new(alloc);
    let _ = session(
        alloc,
        ChainSize::one(),
        &mut Checked::new(lines),
        &mut Checked::new(&mut text),
    );
    text
}

/// Takes lines in pieces of so many bytes, up to the first fault, and adds what is written.
pub(crate) fn take_pieces<D: Device>(
    kept: &mut KeptSession<D>,
    lines: &[u8],
    step: usize,
    text: &mut Vec<u8>,
) -> Result<(), TakeFault>
    requires kept { IsKept kept.old }
    requires step { 1 ≤ step }
    ensures { OnOk result (IsKept kept.new) }
{
    for piece in lines.chunks(step) {
        if piece.len() <= TEXT_LIMIT {
            kept.take(piece, &mut Checked::new(&mut *text))?;
        }
    }
    Ok(())
}

/// Opens the session that these bytes have.
pub(crate) fn open(alloc: Global, bytes: Vec<u8>) -> Result<KeptSession<Memory>, StartFault>
    ensures { IfOk result IsKept }
{
    open_with(alloc, bytes, LEN)
}

/// The same with regions of this length.
pub(crate) fn open_with(
    alloc: Global,
    bytes: Vec<u8>,
    len: usize,
) -> Result<KeptSession<Memory>, StartFault>
    ensures { IfOk result IsKept }
{
    if bytes.len() < 2 * HALF {
        return Err(StartFault::Open(OpenFault::NoJournal));
    }
    let device = Memory::new(alloc, bytes, TornWrites::OldOrNew);
    KeptSession::open(alloc, ChainSize::one(), device, HALF, len)
}

/// All lines that are kept.
pub(crate) fn kept_lines<D: Device>(
    alloc: Global,
    kept: KeptSession<D>,
) -> Result<Vec<u8>, RegionFault>
    requires { IsKept kept }
{
    let mut journal = kept.into_journal();
    let mut text = Vec::new(alloc);
    for index in 0..journal.region_count() {
        if index < journal.region_count() {
            journal.read_region(alloc, index, &mut text)?;
        }
    }
    Ok(text)
}

//! The store of a session, told in lines.
ghost use Rattle.std.specs.Prelude.{◌≡◌, false, OnOk};
ghost use Rattle.std.specs.Io.KnownBytes.{Appends};
ghost use Rattle.cq_lines.specs.Checks.{inner_of, is_failed};
ghost use Rattle.cq_kept_session.specs.Kept.{IsKept, session_size};
ghost use Rattle.cq_kept_run.specs.within.Told.{TellsStore, chunk_line};

use crate::fault::KeptFault;
use cq_disk::Device;
use cq_kept_session::{KeptSession, TakeFault};
use cq_lines::{Checked, ScriptFault, Sink};
use cq_store::Store;
use cq_store_wire::{StoreWriter, store_fits};
use std::alloc::Global;
use std::io::{self, Write};

/// How many bytes of a store a line has at least, if there are so many.
const ENOUGH: usize = 262_144;

/// The line that gives an answer which waits, in a session of one server.
const PUT: &[u8] = b"{\"op\":\"put\",\"from\":1,\"to\":\"clients\"}\n";

/// How many answers may wait.
const PUTS: usize = 1_000;

/// Brings a session of one server to rest, if it isn't: a request may be kept whose answer wasn't given. So many puts are kept
/// and run as there are answers that wait, and nobody is told.
pub(crate) fn settle<D: Device>(session: &mut KeptSession<D>) -> Result<(), KeptFault>
    requires { IsKept session.old }
    ensures kept { OnOk result (IsKept session.new) }
    ensures size { session_size session.new ≡ session_size session.old }
{
    for _ in 0..PUTS {
        if session.store_at_rest().is_some() {
            return Ok(());
        }
        put(session)?;
    }
    Ok(())
}

fn put<D: Device>(session: &mut KeptSession<D>) -> Result<(), TakeFault>
    requires { IsKept session.old }
    ensures kept { OnOk result (IsKept session.new) }
    ensures size { session_size session.new ≡ session_size session.old }
{
    let mut nowhere = Checked::new(io::sink());
    session.take_lines(PUT, &mut nowhere)
}

/// Writes the line of a chunk: its bytes in hex.
fn tell_chunk<W: Write>(
    alloc: Global,
    chunk: &[u8],
    output: &mut Checked<W>,
) -> Result<(), ScriptFault>
    requires { is_failed output.old ≡ false }
    ensures ok { OnOk result (is_failed output.new ≡ false) }
    ensures told { OnOk result (Appends (W.contents (inner_of output.old)) (W.contents (inner_of output.new)) (chunk_line chunk.now)) }
{
    let digits = hex::encode(alloc, chunk)?;
    let digits = digits.as_str();
    output.print(format_args!("{{\"chunk\":\"{digits}\",\"kind\":\"store\"}}\n"));
    if output.failed() {
        return Err(ScriptFault::WriteFailed);
    }
    Ok(())
}

/// Writes the lines of a store, one for each of its chunks, in order. O(bytes); a chunk of at most 3 MB is in memory, and its line.
pub(crate) fn tell_store<W: Write>(
    alloc: Global,
    store: &Store,
    output: &mut Checked<W>,
) -> Result<(), ScriptFault>
    requires { is_failed output.old ≡ false }
    ensures ok { OnOk result (is_failed output.new ≡ false) }
    ensures told { OnOk result (TellsStore store.now (W.contents (inner_of output.old)) (W.contents (inner_of output.new))) }
{
    store_fits(store);
    let mut writer = StoreWriter::new(alloc);
    while !writer.is_done() {
        let mut chunk = Vec::new(alloc);
        writer.next(store, &mut chunk, ENOUGH)?;
        tell_chunk(alloc, &chunk, output)?;
    }
    Ok(())
}

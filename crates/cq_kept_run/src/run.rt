//! How a session with a journal runs, from its start to the end of its reader.
ghost use Rattle.std.specs.Prelude.{◌≡◌, false, true, IfOk, IsTrue, OnOk, Some, ℕ, List};
ghost use Rattle.std.specs.Io.KnownBytes.{Appends};
ghost use Rattle.cq_lines.specs.Checks.{inner_of, is_failed};
ghost use Rattle.cq_journal.specs.Regions.{kept};
ghost use Rattle.cq_kept_session.specs.Kept.{IsKept, kept_records, session_device, session_size};
ghost use Rattle.cq_kept_session.specs.Texts.{opened};
ghost use Rattle.cq_kept_run.specs.declared.sizes.TheConstants.{HALF, REGION};
ghost use Rattle.cq_kept_run.specs.within.Runs.{Serving, TellsRest};

use crate::blank::{fill, is_unmade};
use crate::fault::{JournalFault, KeptFault};
use crate::kind::tell_apart;
use crate::sizes::{HALF, REGION};
use crate::store::{settle, tell_store};
use cq_base::ChainSize;
use cq_disk::{Device, OpenFault, Region, TornWrites, Unknown, create, open, remove};
use cq_kept_session::{Highest, KeptSession};
use cq_lines::{Checked, ScriptFault, Sink};
use std::alloc::Global;
use std::io::{self, Read, Write};

/// Runs a session on so many servers whose lines the file at a path keeps. Where there is no file, one of so many mebibytes is made.
/// Where there is one, its lines are run first, and nothing is written of them. Then a line such as
/// `{"clients":2,"kind":"ready","lines":7,"queriers":0}` says how many lines that were, and the highest numbers of clients in their
/// requests and queries. After that the lines of the reader are kept, run and answered, up to its end or to a fault. With two syncs
/// nothing is supposed of torn writes. With `tells_store` a session of one server is brought to rest, and lines such as
/// `{"chunk":"0100..","kind":"store"}` come first, one for each chunk of its store; of more servers nothing is told, and nothing kept.
/// A journal of a session on another number of servers is another journal.
pub fn run_kept<R: Read, W: Write>(
    rt: &HostRuntime,
    size: ChainSize,
    path: &str,
    mebibytes: u64,
    two_syncs: bool,
    tells_store: bool,
    reader: &mut Checked<R>,
    output: &mut Checked<W>,
) -> Result<(), KeptFault>
    requires { is_failed output.old ≡ false }
{
    let torn = if two_syncs {
        TornWrites::Any
    } else {
        TornWrites::OldOrNew
    };
    make_missing(rt, path, mebibytes)?;
    let device = open(rt, path, torn, Unknown)?;
    match run_on(rt.alloc(), size, device, tells_store, reader, output) {
        Ok(()) => Ok(()),
        Err(fault) => Err(tell_apart(rt, path, fault)),
    }
}

/// Makes a file of so many mebibytes where there is none. One of no bytes is none: its making was cut short.
pub(crate) fn make_missing(rt: &HostRuntime, path: &str, mebibytes: u64) -> Result<(), KeptFault> {
    match open(rt, path, TornWrites::Any, Unknown) {
        Ok(device) if device.len() > 0 => Ok(()),
        Ok(_) => {
            remove(rt, path)?;
            make(rt, path, mebibytes)
        }
        Err(OpenFault::Io(error)) if error.kind() == io::ErrorKind::NotFound => {
            make(rt, path, mebibytes)
        }
        Err(fault) => Err(KeptFault::from(fault)),
    }
}

/// Makes a file of so many mebibytes.
fn make(rt: &HostRuntime, path: &str, mebibytes: u64) -> Result<(), KeptFault> {
    create(rt, path, (mebibytes as usize).saturating_mul(1_048_576))?;
    Ok(())
}

/// Runs a session whose lines a device keeps.
fn run_on<D: Device, R: Read, W: Write>(
    alloc: Global,
    size: ChainSize,
    device: D,
    tells_store: bool,
    reader: &mut Checked<R>,
    output: &mut Checked<W>,
) -> Result<(), KeptFault>
    requires { is_failed output.old ≡ false }
{
    let mut session = start(alloc, size, device)?;
    begin_telling(alloc, tells_store && size.get() == 1, &mut session, output)?;
    run_session(&mut session, reader, output)
}

/// Brings a session to rest and tells its store, where that is wanted.
fn begin_telling<D: Device, W: Write>(
    alloc: Global,
    tells_store: bool,
    session: &mut KeptSession<D>,
    output: &mut Checked<W>,
) -> Result<(), KeptFault>
    requires session { IsKept session.old }
    requires output { is_failed output.old ≡ false }
    ensures kept { OnOk result (IsKept session.new) }
    ensures ok { OnOk result (is_failed output.new ≡ false) }
{
    if !tells_store {
        return Ok(());
    }
    settle(session)?;
    Ok(tell_store_of(alloc, session, output)?)
}

/// Tells the store of a session that is at rest.
fn tell_store_of<D: Device, W: Write>(
    alloc: Global,
    session: &KeptSession<D>,
    output: &mut Checked<W>,
) -> Result<(), ScriptFault>
    requires session { IsKept session.now }
    requires output { is_failed output.old ≡ false }
    ensures ok { OnOk result (is_failed output.new ≡ false) }
    ensures told { OnOk result (TellsRest session.now (W.contents (inner_of output.old)) (W.contents (inner_of output.new))) }
{
    match session.store_at_rest() {
        Some(store) => tell_store(alloc, store, output),
        None => Ok(()),
    }
}

/// Tells that a session is ready, and serves the lines of the reader.
fn run_session<D: Device, R: Read, W: Write>(
    session: &mut KeptSession<D>,
    reader: &mut Checked<R>,
    output: &mut Checked<W>,
) -> Result<(), KeptFault>
    requires session { IsKept session.old }
    requires output { is_failed output.old ≡ false }
    ensures { OnOk result (Serving session.old session.new (R.remaining (inner_of reader.old)) (R.remaining (inner_of reader.new)) (W.contents (inner_of output.old)) (W.contents (inner_of output.new))) }
{
    tell_ready(session.line_count(), session.highest(), output)?;
    session.serve(reader, output)?;
    Ok(())
}

/// Begins a session on a device where a journal is still to be made, or goes on with the one that it has.
fn start<D: Device>(alloc: Global, size: ChainSize, device: D) -> Result<KeptSession<D>, KeptFault>
    ensures kept { IfOk result IsKept }
    ensures size { IfOk result (λ session. session_size session ≡ size) }

    // Whatever records the device has, the session goes on behind these.
    ensures records { IfOk result (λ session. IsTrue (D.is_honest (session_device session)) → (rs : List (List ℕ)) → kept HALF REGION (D.seen device) ≡ Some rs → kept_records session ≡ opened size rs) }
{
    if device.len() < HALF + HALF {
        return Err(KeptFault::Journal(JournalFault::NotAJournal));
    }
    let mut root = Region {
        device,
        start: 0,
        len: HALF,
    };
    let is_new = is_unmade(alloc, &mut root)?;
    let mut device = root.device;
    if !is_new {
        return Ok(KeptSession::open(alloc, size, device, HALF, REGION)?);
    }
    fill(&mut device)?;
    Ok(KeptSession::create(alloc, size, device, HALF, REGION)?)
}

/// Tells that the session is ready, and flushes that.
fn tell_ready<W: Write>(
    lines: u64,
    highest: Highest,
    output: &mut Checked<W>,
) -> Result<(), ScriptFault>
    requires { is_failed output.old ≡ false }
    ensures ok { OnOk result (is_failed output.new ≡ false) }
    ensures told { OnOk result ((text : List ℕ) × Appends (W.contents (inner_of output.old)) (W.contents (inner_of output.new)) text) }
{
    let Highest { clients, queriers } = highest;
    output.print(format_args!(
        "{{\"clients\":{clients},\"kind\":\"ready\",\"lines\":{lines},\"queriers\":{queriers}}}\n"
    ));
    if output.flush().is_err() || output.failed() {
        return Err(ScriptFault::WriteFailed);
    }
    Ok(())
}

//! How the only server of a chain runs whose entries a file keeps, from its start to the end of its reader.
ghost use Rattle.std.specs.Prelude.{◌≡◌, ◌⊎◌, ℕ, List, [], false, IfErr, IfOk, IsTrue, OnErr, OnOk};
ghost use Rattle.std.specs.Io.KnownBytes.{Appends};
ghost use Rattle.cq_base.specs.Relations.{IsPrefix};
ghost use Rattle.cq_disk.specs.Opened.{IsOpened};
ghost use Rattle.cq_disk.specs.declared.device.TornWrites.TheVariants.{OldOrNew};
ghost use Rattle.cq_frames.specs.declared.response.Response.TheVariants as responses;
ghost use Rattle.cq_journal.specs.Intact.{IsIntact};
ghost use Rattle.cq_kept_entries.specs.Kept.{StandForSome};
ghost use Rattle.cq_kept_server.specs.Servers.{IsReady, IsSettled};
ghost use Rattle.cq_kept_server.specs.declared.server.KeptServer.{KeptServer};
ghost use Rattle.cq_lines.specs.Checks.{inner_of, is_failed};
ghost use Rattle.cq_process_frames.specs.Frames.{frame};
ghost use Rattle.cq_kept_run.specs.Reasons.{HasServerReason};
ghost use Rattle.cq_kept_run.specs.declared.sizes.TheConstants.{HALF, REGION};
ghost use Rattle.cq_kept_run.specs.Servers.{BeginsBehind, ServesFrames, StopsFrames, TellsPart};

use crate::blank::{fill, is_unmade};
use crate::fault::{JournalFault, KeptFault, ServerFault};
use crate::run::make_missing;
use crate::sizes::{HALF, REGION};
use cq_disk::{Device, Host, Modelled, Region, Start, TornWrites, open};
use cq_frame_loop::{LoopFault, SettledFault, answer_settled_frames};
use cq_frames::Standing;
use cq_kept_server::KeptServer;
use cq_lines::{Checked, Sink, Source};
use cq_process_frames::tell_done;
use cq_records::LogFault;
use cq_script::{finish_writing, write_text};
use std::alloc::Global;
use std::io::{Read, Write};

/// How many bytes a frame has at most that tells where a server stands.
const STANDING_ROOM: usize = 64;

/// Opens the file of a server. Where there is none, one of so many mebibytes is made; with `no_create` it isn't, and that is a failed
/// journal. What is proved of the device holds for whatever bytes the file has, as `S` stands for them.
pub fn open_server_file<S: Start>(
    rt: &HostRuntime,
    path: &str,
    mebibytes: u64,
    no_create: bool,
    start: S,
) -> Result<Modelled<Host, S>, KeptFault>
    ensures { IfOk result (IsOpened OldOrNew) }
{
    if !no_create {
        make_missing(rt, path, mebibytes)?;
    }
    Ok(open(rt, path, TornWrites::OldOrNew, start)?)
}

/// Keeps the only server of a chain, whose entries a device keeps. It begins behind the entries that the device has, or with none where a
/// journal is still to be made there. With `no_create` none is made, and such a device is no journal. First a frame tells where the server
/// stands (`done`). After that the frames of the reader are answered, up to its end or to a fault. What one read brings is kept by one
/// sync, and then what comes of it is told.
pub fn run_kept_server<D: Device, R: Read, W: Write>(
    alloc: Global,
    device: D,
    no_create: bool,
    reader: &mut Checked<R>,
    output: &mut Checked<W>,
) -> Result<(), ServerFault>
    requires { is_failed output.old ≡ false }

    // The server that ran had begun behind whatever entries the bytes of the device stood for.
    ensures serves { OnOk result ((first : KeptServer D D.Device) × (last : KeptServer D D.Device) × BeginsBehind (D.seen device) first
        × ServesFrames first last (R.remaining (inner_of reader.old)) (R.remaining (inner_of reader.new)) (W.contents (inner_of output.old)) (W.contents (inner_of output.new))) }

    // So it had where a fault ended it, or nothing was told.
    ensures stops { OnErr result (Appends (W.contents (inner_of output.old)) (W.contents (inner_of output.new)) [] ⊎ ((first : KeptServer D D.Device) × (left : KeptServer D D.Device) × BeginsBehind (D.seen device) first
        × (TellsPart first (W.contents (inner_of output.old)) (W.contents (inner_of output.new))
        ⊎ StopsFrames first left (R.remaining (inner_of reader.old)) (R.remaining (inner_of reader.new)) (W.contents (inner_of output.old)) (W.contents (inner_of output.new))))) }
{
    let mut server = begin_server(alloc, device, no_create)?;
    serve_frames(alloc, &mut server, reader, output)
}

/// Begins a server behind the entries that a device has, or on one where a journal is still to be made, if one may be made there.
fn begin_server<D: Device>(
    alloc: Global,
    device: D,
    no_create: bool,
) -> Result<KeptServer<D>, ServerFault>
    ensures ready { IfOk result IsReady }
    ensures settled { IfOk result IsSettled }

    // Whatever entries the bytes of the device stand for, the server begins behind these.
    ensures begins { IfOk result (BeginsBehind (D.seen device)) }

    // What it refuses, it refuses for a reason: `last` is the device as the calls on it have left it.
    ensures refused { IfErr result (λ fault. (last : D) × (IsTrue (D.is_honest last) → HasServerReason fault (IsIntact HALF REGION (D.seen device)) (StandForSome HALF REGION (D.seen device)))) }
{
    if device.len() < HALF + HALF {
        return Err(ServerFault::Journal(JournalFault::NotAJournal));
    }
    let mut root = Region {
        device,
        start: 0,
        len: HALF,
    };
    let is_new = is_unmade(alloc, &mut root)?;
    let mut device = root.device;
    if !is_new {
        return Ok(KeptServer::open(alloc, device, HALF, REGION)?);
    }
    if no_create {
        return Err(ServerFault::Journal(JournalFault::NotAJournal));
    }
    fill(&mut device)?;
    Ok(KeptServer::create(alloc, device, HALF, REGION)?)
}

/// Tells where a server stands, and flushes that.
fn tell_standing<W: Sink>(
    alloc: Global,
    standing: &Standing,
    output: &mut W,
) -> Result<(), ServerFault>
    ensures told { OnOk result (Appends (W.contents output.old) (W.contents output.new) (frame (responses.Done standing.now))) }
    ensures part { OnErr result ((told : List ℕ) × Appends (W.contents output.old) (W.contents output.new) told × IsPrefix told (frame (responses.Done standing.now))) }
{
    let Ok(mut text) = Vec::with_capacity(alloc, STANDING_ROOM) else {
        return Err(ServerFault::Loop(LoopFault::NoMemory));
    };
    tell_done(&mut text, standing);
    write_text(output, &text)?;
    Ok(finish_writing(output)?)
}

/// Tells where the server stands, and answers the frames of the reader.
fn serve_frames<D: Device, R: Source, W: Sink>(
    alloc: Global,
    server: &mut KeptServer<D>,
    reader: &mut R,
    output: &mut W,
) -> Result<(), ServerFault>
    requires ready { IsReady server.old }
    requires settled { IsSettled server.old }
    ensures serves { OnOk result (ServesFrames server.old server.new (R.remaining reader.old) (R.remaining reader.new) (W.contents output.old) (W.contents output.new)) }
    ensures stops { OnErr result (TellsPart server.old (W.contents output.old) (W.contents output.new)
        ⊎ StopsFrames server.old server.new (R.remaining reader.old) (R.remaining reader.new) (W.contents output.old) (W.contents output.new)) }
{
    tell_standing(alloc, &server.standing(), output)?;
    match answer_settled_frames(alloc, server, reader, output) {
        Ok(()) => Ok(()),
        Err(fault) => Err(fault_of(server.fault(), fault)),
    }
}

/// Why a server ended, by the fault of its journal, if there is one, or that of its loop.
fn fault_of(journal: Option<LogFault>, fault: SettledFault) -> ServerFault {
    match (journal, fault) {
        (Some(fault), _) => ServerFault::from(fault),
        (None, SettledFault::Loop(fault)) => ServerFault::Loop(fault),
        (None, SettledFault::Unsettled) => ServerFault::Journal(JournalFault::Failed),
    }
}

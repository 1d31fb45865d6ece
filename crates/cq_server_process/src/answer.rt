//! What is told of a frame.
ghost use Rattle.std.specs.Prelude.{◌≡◌, ◌+◌, ◌≤◌, ◌++◌, [], ◌∷◌, Ok, Some, option_map, IfOk, OnErr, OnOk, vec_capacity, vec_len};
ghost use Rattle.cq_base.specs.Relations.{IsPrefix};
ghost use Rattle.cq_frames.specs.Reading.{command_at};
ghost use Rattle.cq_frames.specs.declared.response.Response.TheVariants as responses;
ghost use Rattle.cq_frames.specs.declared.response.TheConstants.{STREAM_ENDED};
ghost use Rattle.cq_server_process.specs.Answers.{TellsAnswer, TellsBy, TellsCommand, TellsEnd, TellsOfCommand, process, state, unread_as, waiting};
ghost use Rattle.cq_server_process.specs.Turns.{frames};
ghost use Rattle.cq_wire.specs.Reading.{whole_at};

use crate::commands::{Happened, happen};
use crate::streams::Streams;
use crate::turns::turns;
use cq_base::Party;
use cq_chain::Server;
use cq_frames::{Command, STREAM_ENDED, read_command, stream_of};
use cq_process::{Links, standing};
use cq_process_frames::{TooLong, tell_done, tell_refused, tell_unread, tell_waiting};
use cq_wire::{ReadFault, WireFault};
use std::alloc::Global;

/// A command happens, and all parties have their turns; or it is refused.
fn go_on(
    links: &mut Links,
    core: &mut Server,
    command: &Command,
    out: &mut Vec<u8>,
) -> Result<Happened, TooLong>
    ensures tells { IfOk result (λ happened. TellsCommand command.now (state links.old core.old) (state links.new core.new) happened out.old.items out.new.items) }
    ensures err { OnErr result (IsPrefix out.old.items out.new.items) }
{
    match happen(links, core, command, out) {
        Ok(Ok(before)) => match turns(links, core, before, out) {
            Ok(first) => Ok(Ok(first)),
            Err(fault) => Err(fault),
        },
        Ok(Err(code)) => Ok(Err(code)),
        Err(fault) => Err(fault),
    }
}

/// Tells for whom something still waits, if it does.
fn tell_first(end: &mut Vec<u8>, first: Option<Party>)
    requires { vec_len end.old + 11 ≤ vec_capacity end.old }
    ensures items { end.new.items ≡ end.old.items ++ frames (waiting first) }
    ensures len { vec_len end.new ≤ vec_len end.old + 11 }
    ensures capacity { vec_capacity end.old ≤ vec_capacity end.new }
{
    match first {
        Some(to) => tell_waiting(end, &to),
        None => (),
    }
}

/// Tells how the answer to a command ends.
fn tell_end(core: &Server, end: &mut Vec<u8>, happened: Happened)
    requires empty { vec_len end.old ≡ 0 }
    requires room { 64 ≤ vec_capacity end.old }
    ensures tells { TellsEnd core.now happened end.new.items }
    ensures capacity { vec_capacity end.old ≤ vec_capacity end.new }
{
    match happened {
        Ok(first) => {
            let standing = standing(core);
            tell_first(end, first);
            tell_done(end, &standing);
        }
        Err(code) => tell_refused(end, code),
    }
}

/// Answers a command that isn't late, and says whether it was refused.
fn answer_in_time(
    links: &mut Links,
    core: &mut Server,
    command: &Command,
    out: &mut Vec<u8>,
    end: &mut Vec<u8>,
) -> Result<bool, TooLong>
    requires empty { vec_len end.old ≡ 0 }
    requires room { 64 ≤ vec_capacity end.old }
    ensures tells { IfOk result (λ is_refused. TellsBy is_refused command.now (state links.old core.old) (state links.new core.new) out.old.items out.new.items end.new.items) }
    ensures front { OnOk result (IsPrefix out.old.items out.new.items) }
    ensures err { OnErr result (IsPrefix out.old.items out.new.items) }
    ensures capacity { vec_capacity end.old ≤ vec_capacity end.new }
{
    match go_on(links, core, command, out) {
        Ok(happened) => {
            let is_refused = happened.is_err();
            tell_end(core, end, happened);
            Ok(is_refused)
        }
        Err(fault) => Err(fault),
    }
}

/// Tells that a command comes too late: its stream has ended.
fn tell_late(end: &mut Vec<u8>)
    requires empty { vec_len end.old ≡ 0 }
    requires room { 64 ≤ vec_capacity end.old }
    ensures tells { end.new.items ≡ frames (responses.Refused STREAM_ENDED ∷ []) }
    ensures capacity { vec_capacity end.old ≤ vec_capacity end.new }
{
    tell_refused(end, STREAM_ENDED);
}

/// Answers a command. An arrival is refused whose stream has ended, and one that is refused ends its stream.
fn answer_command(
    links: &mut Links,
    core: &mut Server,
    streams: &mut Streams,
    command: &Command,
    out: &mut Vec<u8>,
    end: &mut Vec<u8>,
) -> Result<(), TooLong>
    requires empty { vec_len end.old ≡ 0 }
    requires room { 64 ≤ vec_capacity end.old }
    ensures tells { OnOk result (TellsOfCommand command.now (process links.old core.old streams.old.ended) (process links.new core.new streams.new.ended) out.old.items out.new.items end.new.items) }
    ensures front { OnOk result (IsPrefix out.old.items out.new.items) }
    ensures err { OnErr result (IsPrefix out.old.items out.new.items) }
    ensures capacity { vec_capacity end.old ≤ vec_capacity end.new }
{
    if streams.has_ended(command.stream()) {
        tell_late(end);
        return Ok(());
    }
    match answer_in_time(links, core, command, out, end) {
        Ok(true) => {
            streams.end(command.stream());
            Ok(())
        }
        Ok(false) => Ok(()),
        Err(fault) => Err(fault),
    }
}

/// Answers a command that was read of these bytes.
pub fn answer_read(
    links: &mut Links,
    core: &mut Server,
    streams: &mut Streams,
    _bytes: &[u8],
    command: &Command,
    out: &mut Vec<u8>,
    end: &mut Vec<u8>,
) -> Result<(), TooLong>
    requires read { whole_at command_at _bytes.now ≡ Ok command.now }
    requires empty { vec_len end.old ≡ 0 }
    requires room { 64 ≤ vec_capacity end.old }
    ensures tells { OnOk result (TellsAnswer (Some _bytes.now) (process links.old core.old streams.old.ended) (process links.new core.new streams.new.ended) out.old.items out.new.items end.new.items) }
    ensures front { OnOk result (IsPrefix out.old.items out.new.items) }
    ensures err { OnErr result (IsPrefix out.old.items out.new.items) }
    ensures capacity { vec_capacity end.old ≤ vec_capacity end.new }
{
    answer_command(links, core, streams, command, out, end)
}

/// Tells that bytes are those of no command, or that there was no memory to read them.
fn tell_fault(end: &mut Vec<u8>, fault: &ReadFault)
    requires empty { vec_len end.old ≡ 0 }
    requires room { 64 ≤ vec_capacity end.old }
    ensures tells { end.new.items ≡ frames (unread_as fault.now) }
    ensures capacity { vec_capacity end.old ≤ vec_capacity end.new }
{
    let code = u32::from(fault.code());
    match fault {
        ReadFault::NoMemory => tell_refused(end, code),
        ReadFault::Bad(_) => tell_unread(end, code),
    }
}

/// Answers the bytes of a frame. Those of an arrival that can't be read end its stream.
fn answer_bytes(
    alloc: Global,
    links: &mut Links,
    core: &mut Server,
    streams: &mut Streams,
    bytes: &[u8],
    out: &mut Vec<u8>,
    end: &mut Vec<u8>,
) -> Result<(), TooLong>
    requires empty { vec_len end.old ≡ 0 }
    requires room { 64 ≤ vec_capacity end.old }
    ensures tells { OnOk result (TellsAnswer (Some bytes.now) (process links.old core.old streams.old.ended) (process links.new core.new streams.new.ended) out.old.items out.new.items end.new.items) }
    ensures err { OnErr result (IsPrefix out.old.items out.new.items) }
    ensures capacity { vec_capacity end.old ≤ vec_capacity end.new }
{
    match read_command(alloc, bytes) {
        Ok(command) => answer_read(links, core, streams, bytes, &command, out, end),
        Err(fault) => {
            streams.end(stream_of(bytes));
            tell_fault(end, &fault);
            Ok(())
        }
    }
}

/// Answers the bytes of a frame, or a frame that was too long: as `ServerProcess::answer` says.
pub fn answer(
    alloc: Global,
    links: &mut Links,
    core: &mut Server,
    streams: &mut Streams,
    frame: Option<&[u8]>,
    out: &mut Vec<u8>,
    end: &mut Vec<u8>,
) -> Result<(), TooLong>
    requires empty { vec_len end.old ≡ 0 }
    requires room { 64 ≤ vec_capacity end.old }
    ensures tells { OnOk result (TellsAnswer (option_map (λ bytes. bytes.now) frame.entry) (process links.old core.old streams.old.ended) (process links.new core.new streams.new.ended) out.old.items out.new.items end.new.items) }
    ensures err { OnErr result (IsPrefix out.old.items out.new.items) }
    ensures capacity { vec_capacity end.old ≤ vec_capacity end.new }
{
    match frame {
        Some(bytes) => answer_bytes(alloc, links, core, streams, bytes, out, end),
        None => {
            tell_fault(end, &ReadFault::Bad(WireFault::BadNumber));
            Ok(())
        }
    }
}

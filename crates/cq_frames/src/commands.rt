//! Commands by their kinds, each from the front of bytes. Each answers the command and the bytes behind it.
ghost use Rattle.std.specs.Prelude.{◌≡◌};
ghost use Rattle.cq_frames.specs.Reading.{arrive_at, ask_at, command_at, detect_at, gone_at, join_at, load_at, more_at, take_at};
ghost use Rattle.cq_wire.specs.Reading.{Gives};

use crate::command::Command;
use crate::party::{party_of, piece_number_of, piece_of};
use cq_wire::{ReadFault, WireFault, moment_of, query_of, request_of, server_of, u64_of};
use std::alloc::Global;

#[tactic(auto, unfolding(crate::specs::Reading::arrive_at))]
fn arrive_of(alloc: Global, bytes: &[u8]) -> Result<(Command, &[u8]), ReadFault>
    ensures { Gives (λ x. (x.0, x.1.now)) result (arrive_at bytes.now) }
{
    let (stream, rest) = match u64_of(bytes) {
        Ok(read) => read,
        Err(fault) => return Err(fault),
    };
    let (clock, rest) = match moment_of(rest) {
        Ok(read) => read,
        Err(fault) => return Err(fault),
    };
    let (request, rest) = match request_of(alloc, rest) {
        Ok(read) => read,
        Err(fault) => return Err(fault),
    };
    let command = Command::Arrive {
        stream,
        clock,
        request,
    };
    Ok((command, rest))
}

#[tactic(auto, unfolding(crate::specs::Reading::ask_at))]
fn ask_of(alloc: Global, bytes: &[u8]) -> Result<(Command, &[u8]), ReadFault>
    ensures { Gives (λ x. (x.0, x.1.now)) result (ask_at bytes.now) }
{
    let (query, rest) = match query_of(alloc, bytes) {
        Ok(read) => read,
        Err(fault) => return Err(fault),
    };
    Ok((Command::Ask { query }, rest))
}

#[tactic(auto, unfolding(crate::specs::Reading::take_at))]
fn take_of(alloc: Global, bytes: &[u8]) -> Result<(Command, &[u8]), ReadFault>
    ensures { Gives (λ x. (x.0, x.1.now)) result (take_at bytes.now) }
{
    let (from, rest) = match party_of(bytes) {
        Ok(read) => read,
        Err(fault) => return Err(fault),
    };
    let (number, rest) = match piece_number_of(rest) {
        Ok(read) => read,
        Err(fault) => return Err(fault),
    };
    let (piece, rest) = match piece_of(alloc, rest) {
        Ok(read) => read,
        Err(fault) => return Err(fault),
    };
    let command = Command::Take {
        from,
        number,
        piece,
    };
    Ok((command, rest))
}

#[tactic(auto, unfolding(crate::specs::Reading::detect_at))]
fn detect_of(bytes: &[u8]) -> Result<(Command, &[u8]), ReadFault>
    ensures { Gives (λ x. (x.0, x.1.now)) result (detect_at bytes.now) }
{
    let (server, rest) = match server_of(bytes) {
        Ok(read) => read,
        Err(fault) => return Err(fault),
    };
    Ok((Command::Detect { server }, rest))
}

#[tactic(auto, unfolding(crate::specs::Reading::join_at))]
fn join_of(bytes: &[u8]) -> Result<(Command, &[u8]), ReadFault>
    ensures { Gives (λ x. (x.0, x.1.now)) result (join_at bytes.now) }
{
    let (server, rest) = match server_of(bytes) {
        Ok(read) => read,
        Err(fault) => return Err(fault),
    };
    Ok((Command::Join { server }, rest))
}

#[tactic(auto, unfolding(crate::specs::Reading::more_at))]
fn more_of(bytes: &[u8]) -> Result<(Command, &[u8]), ReadFault>
    ensures { Gives (λ x. (x.0, x.1.now)) result (more_at bytes.now) }
{
    let (to, rest) = match party_of(bytes) {
        Ok(read) => read,
        Err(fault) => return Err(fault),
    };
    Ok((Command::More { to }, rest))
}

#[tactic(auto, unfolding(crate::specs::Reading::gone_at))]
fn gone_of(bytes: &[u8]) -> Result<(Command, &[u8]), ReadFault>
    ensures { Gives (λ x. (x.0, x.1.now)) result (gone_at bytes.now) }
{
    let (server, rest) = match server_of(bytes) {
        Ok(read) => read,
        Err(fault) => return Err(fault),
    };
    Ok((Command::Gone { server }, rest))
}

#[tactic(auto, unfolding(crate::specs::Reading::load_at))]
fn load_of(alloc: Global, bytes: &[u8]) -> Result<(Command, &[u8]), ReadFault>
    ensures { Gives (λ x. (x.0, x.1.now)) result (load_at bytes.now) }
{
    let (chunk, rest) = match piece_of(alloc, bytes) {
        Ok(read) => read,
        Err(fault) => return Err(fault),
    };
    Ok((Command::Load { chunk }, rest))
}

#[tactic(auto, unfolding(crate::specs::Reading::command_at))]
pub fn command_of(alloc: Global, bytes: &[u8]) -> Result<(Command, &[u8]), ReadFault>
    ensures { Gives (λ x. (x.0, x.1.now)) result (command_at bytes.now) }
{
    match bytes {
        [] => Err(ReadFault::Bad(WireFault::Truncated)),
        [0, rest @ ..] => arrive_of(alloc, rest),
        [1, rest @ ..] => ask_of(alloc, rest),
        [2, rest @ ..] => take_of(alloc, rest),
        [3, rest @ ..] => detect_of(rest),
        [4, rest @ ..] => join_of(rest),
        [5, rest @ ..] => more_of(rest),
        [6, rest @ ..] => gone_of(rest),
        [7, rest @ ..] => Ok((Command::Save, rest)),
        [8, rest @ ..] => load_of(alloc, rest),
        [_, ..] => Err(ReadFault::Bad(WireFault::BadTag)),
    }
}

//! Whole commands and responses, from all of the bytes.
ghost use Rattle.std.specs.Prelude.{◌≡◌, IfOk, Ok, true, false};
ghost use Rattle.cq_frames.specs.declared.command.Command as rust_command;
ghost use Rattle.cq_frames.specs.declared.command.Command.TheVariants.{Save};
ghost use Rattle.cq_frames.specs.declared.response.Response as rust_response;
ghost use Rattle.cq_frames.specs.Layout.{command, response};
ghost use Rattle.cq_frames.specs.Limits.{IsCommand, IsResponse};
ghost use Rattle.cq_frames.specs.Reading.{command_at, response_at};
ghost use Rattle.cq_wire.specs.Layout.{whole};
ghost use Rattle.cq_wire.specs.Reading.{Gives, all_of, whole_at};

use crate::command::Command;
use crate::commands::command_of;
use crate::response::Response;
use crate::responses::response_of;
use cq_wire::{ReadFault, VERSION, WireFault};
use std::alloc::Global;

#[tactic(auto, unfolding(cq_wire::specs::Reading::all_of))]
fn all_of_command(alloc: Global, bytes: &[u8]) -> Result<Command, ReadFault>
    ensures { Gives (λ x. x) result (all_of command_at bytes.now) }
{
    let (command, rest) = match command_of(alloc, bytes) {
        Ok(read) => read,
        Err(fault) => return Err(fault),
    };
    if !rest.is_empty() {
        return Err(ReadFault::Bad(WireFault::BytesLeft));
    }
    Ok(command)
}

#[tactic(auto, unfolding(cq_wire::specs::Reading::whole_at))]
fn whole_command(alloc: Global, bytes: &[u8]) -> Result<Command, ReadFault>
    ensures { Gives (λ x. x) result (whole_at command_at bytes.now) }
{
    match bytes {
        [] => Err(ReadFault::Bad(WireFault::Truncated)),
        [version, rest @ ..] => {
            if *version == VERSION {
                all_of_command(alloc, rest)
            } else {
                Err(ReadFault::Bad(WireFault::OtherVersion))
            }
        }
    }
}

/// The command that the bytes of a frame are, all of them: O(bytes). It takes memory for its texts and its piece alone.
pub fn read_command(alloc: Global, bytes: &[u8]) -> Result<Command, ReadFault>
    // What is read was written so: no other bytes are read as the same command.
    ensures found { IfOk result (λ x. IsCommand x × (bytes.now ≡ whole command x)) }
    // What was written is read, unless memory runs out.
    ensures only { (x : rust_command.Command) → IsCommand x → bytes.now ≡ whole command x → Gives (λ y. y) result (Ok x) }
    // Which fault it is.
    ensures exact { Gives (λ x. x) result (whole_at command_at bytes.now) }
{
    whole_command(alloc, bytes)
}

/// Whether the bytes of a frame are those of `Save`, without reading them as any other command: O(1).
#[tactic(auto, unfolding(crate::specs::Layout::command, cq_wire::specs::Layout::whole))]
pub fn is_save(bytes: &[u8]) -> bool
    ensures yes { result ≡ true → bytes.now ≡ whole command Save }
    ensures no { result ≡ false → bytes.now ≡ whole command Save → ⊥ }
{
    match bytes {
        [version, kind] => *version == VERSION && *kind == 7,
        _ => false,
    }
}

#[tactic(auto, unfolding(cq_wire::specs::Reading::all_of))]
fn all_of_response(alloc: Global, bytes: &[u8]) -> Result<Response, ReadFault>
    ensures { Gives (λ x. x) result (all_of response_at bytes.now) }
{
    let (response, rest) = match response_of(alloc, bytes) {
        Ok(read) => read,
        Err(fault) => return Err(fault),
    };
    if !rest.is_empty() {
        return Err(ReadFault::Bad(WireFault::BytesLeft));
    }
    Ok(response)
}

#[tactic(auto, unfolding(cq_wire::specs::Reading::whole_at))]
fn whole_response(alloc: Global, bytes: &[u8]) -> Result<Response, ReadFault>
    ensures { Gives (λ x. x) result (whole_at response_at bytes.now) }
{
    match bytes {
        [] => Err(ReadFault::Bad(WireFault::Truncated)),
        [version, rest @ ..] => {
            if *version == VERSION {
                all_of_response(alloc, rest)
            } else {
                Err(ReadFault::Bad(WireFault::OtherVersion))
            }
        }
    }
}

/// The response that the bytes of a frame are, all of them: O(bytes). It takes memory for its piece alone.
pub fn read_response(alloc: Global, bytes: &[u8]) -> Result<Response, ReadFault>
    ensures found { IfOk result (λ x. IsResponse x × (bytes.now ≡ whole response x)) }
    ensures only { (x : rust_response.Response) → IsResponse x → bytes.now ≡ whole response x → Gives (λ y. y) result (Ok x) }
    ensures exact { Gives (λ x. x) result (whole_at response_at bytes.now) }
{
    whole_response(alloc, bytes)
}

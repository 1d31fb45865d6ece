//! Whole commands and responses, at the end of bytes.
ghost use Rattle.std.specs.Prelude.{◌≡◌, ◌++◌, OnOk, OnErr};
ghost use Rattle.cq_frames.specs.Layout.{command, response};
ghost use Rattle.cq_wire.specs.Layout.{whole};

use crate::command::Command;
use crate::put::{put_command, put_response};
use crate::response::Response;
use cq_base::NoMemory;
use cq_wire::{VERSION, Writer};
use std::mem;

#[tactic(auto, unfolding(cq_wire::specs::Layout::whole))]
fn put_whole_command(out: &mut Writer, value: &Command) -> Result<(), NoMemory>
    ensures ok { OnOk result (out.new.value ≡ out.old.value ++ whole command value.now) }
    ensures before { out.new.before ≡ out.old.before }
{
    out.put(&[VERSION])?;
    put_command(out, value)
}

/// Writes a command behind the bytes: O(bytes of it). After `NoMemory` they are as before.
pub fn write_command(bytes: &mut Vec<u8>, value: &Command) -> Result<(), NoMemory>
    ensures ok { OnOk result (bytes.new.items ≡ bytes.old.items ++ whole command value.now) }
    ensures err { OnErr result (bytes.new.items ≡ bytes.old.items) }
{
    let empty = Vec::new(*bytes.allocator());
    let mut out = Writer::after(mem::replace(bytes, empty));
    if put_whole_command(&mut out, value).is_err() {
        *bytes = out.undone();
        return Err(NoMemory);
    }
    *bytes = out.whole();
    Ok(())
}

#[tactic(auto, unfolding(cq_wire::specs::Layout::whole))]
fn put_whole_response(out: &mut Writer, value: &Response) -> Result<(), NoMemory>
    ensures ok { OnOk result (out.new.value ≡ out.old.value ++ whole response value.now) }
    ensures before { out.new.before ≡ out.old.before }
{
    out.put(&[VERSION])?;
    put_response(out, value)
}

/// Writes a response behind the bytes: O(bytes of it). After `NoMemory` they are as before.
pub fn write_response(bytes: &mut Vec<u8>, value: &Response) -> Result<(), NoMemory>
    ensures ok { OnOk result (bytes.new.items ≡ bytes.old.items ++ whole response value.now) }
    ensures err { OnErr result (bytes.new.items ≡ bytes.old.items) }
{
    let empty = Vec::new(*bytes.allocator());
    let mut out = Writer::after(mem::replace(bytes, empty));
    if put_whole_response(&mut out, value).is_err() {
        *bytes = out.undone();
        return Err(NoMemory);
    }
    *bytes = out.whole();
    Ok(())
}

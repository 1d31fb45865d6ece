//! Whole messages, at the end of bytes.
ghost use Rattle.std.specs.Prelude.{◌≡◌, ◌++◌, OnOk, OnErr};
ghost use Rattle.cq_wire.specs.Layout.{whole};
ghost use Rattle.cq_chain_wire.specs.Layout.{message};
ghost use Rattle.cq_chain_wire.specs.Limits.{IsPlain};

use crate::put::put_message;
use cq_base::NoMemory;
use cq_chain::Message;
use cq_wire::{VERSION, Writer};
use std::mem;

#[tactic(auto, unfolding(cq_wire::specs::Layout::whole))]
fn put_whole_message(out: &mut Writer, value: &Message) -> Result<(), NoMemory>
    requires { IsPlain value.now }
    ensures ok { OnOk result (out.new.value ≡ out.old.value ++ whole message value.now) }
    ensures before { out.new.before ≡ out.old.before }
{
    out.put(&[VERSION])?;
    put_message(out, value)
}

/// Writes a message that isn't a snapshot behind the bytes: O(bytes of it). After `NoMemory` they are as before.
pub fn write_message(bytes: &mut Vec<u8>, value: &Message) -> Result<(), NoMemory>
    requires { IsPlain value.now }
    ensures ok { OnOk result (bytes.new.items ≡ bytes.old.items ++ whole message value.now) }
    ensures err { OnErr result (bytes.new.items ≡ bytes.old.items) }
{
    let empty = Vec::new(*bytes.allocator());
    let mut out = Writer::after(mem::replace(bytes, empty));
    if put_whole_message(&mut out, value).is_err() {
        *bytes = out.undone();
        return Err(NoMemory);
    }
    *bytes = out.whole();
    Ok(())
}

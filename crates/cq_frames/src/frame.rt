//! Frames: a length, in four bytes, and so many bytes.
ghost use Rattle.std.specs.Prelude.{◌≡◌, ◌≤◌, ◌++◌, length, Ok, Err, IfOk, IfErr, OnOk, OnErr};
ghost use Rattle.cq_frames.specs.Frames.{frame_at};
ghost use Rattle.cq_wire.specs.Layout.{text};

use cq_base::NoMemory;
use cq_wire::{WireFault, Writer};
use std::mem;

/// The most bytes of a frame, its length left out.
pub const FRAME_LIMIT: usize = 4_194_304;

/// The first frame of these bytes, and what stands behind it. `Truncated`: more bytes have to come; `BadNumber`: its length is above
/// `FRAME_LIMIT`, and nothing behind it can be read. O(1).
#[tactic(auto, unfolding(crate::specs::Frames::frame_at, cq_wire::specs::Reading::number_at, cq_wire::specs::Reading::bytes_at))]
pub fn frame_of(bytes: &[u8]) -> Result<(&[u8], &[u8]), WireFault>
    ensures frame { IfOk result (λ x. frame_at bytes.now ≡ Ok (x.0.now, x.1.now)) }
    ensures fault { IfErr result (λ fault. frame_at bytes.now ≡ Err fault) }
{
    if bytes.len() < 4 {
        return Err(WireFault::Truncated);
    }
    let (front, rest) = bytes.split_at(4);
    let count = u32::from_le_bytes([front[0], front[1], front[2], front[3]]) as usize;
    if FRAME_LIMIT < count {
        return Err(WireFault::BadNumber);
    }
    if rest.len() < count {
        return Err(WireFault::Truncated);
    }
    Ok(rest.split_at(count))
}

/// Writes these bytes as a frame behind the others: O(bytes). After `NoMemory` they are as before.
pub fn write_frame(out: &mut Vec<u8>, bytes: &[u8]) -> Result<(), NoMemory>
    requires { length bytes.now ≤ FRAME_LIMIT }
    ensures ok { OnOk result (out.new.items ≡ out.old.items ++ text bytes.now) }
    ensures err { OnErr result (out.new.items ≡ out.old.items) }
{
    let empty = Vec::new(*out.allocator());
    let mut writer = Writer::after(mem::replace(out, empty));
    if writer.put_run(bytes).is_err() {
        *out = writer.undone();
        return Err(NoMemory);
    }
    *out = writer.whole();
    Ok(())
}

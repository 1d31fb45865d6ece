//! What stands before a piece in its frame: put before the piece is there, and sealed behind it.
ghost use Rattle.std.specs.Prelude.{◌≡◌, ◌+◌, ◌≤◌, ◌<◌, ◌^◌, ◌++◌, List, ℕ, length, OnOk, OnErr};
ghost use Rattle.cq_base.specs.declared.party.Party as rust_party;
ghost use Rattle.cq_frames.specs.declared.response.Response.TheVariants as responses;
ghost use Rattle.cq_frames.specs.Layout.{piece_number};
ghost use Rattle.cq_process_frames.specs.declared.front.TheConstants.{FRONT_LIMIT};
ghost use Rattle.cq_process_frames.specs.Frames.{frame, front, mark};
ghost use Rattle.cq_wire.specs.Layout.{number32};

use crate::patch::{write_number_at, write_u32_at};
use cq_base::{NoMemory, Party};
use cq_frames::{PIECE_LIMIT, PieceNumber};
use cq_wire::{VERSION, Writer};
use std::mem;

/// More bytes than stand before a piece in its frame, whoever it is for.
pub const FRONT_LIMIT: usize = 100;

/// A piece has more bytes than a frame may bear.
#[derive(Clone, Copy, Debug)]
pub struct TooLong;

#[tactic(auto, unfolding(cq_frames::specs::Layout::party))]
fn put_mark(out: &mut Writer, to: &Party) -> Result<(), NoMemory>
    ensures ok { OnOk result (out.new.value ≡ out.old.value ++ mark to.now) }
    ensures before { out.new.before ≡ out.old.before }
{
    match to {
        Party::Master => out.put(&[VERSION, 0, 0]),
        Party::Clients => out.put(&[VERSION, 0, 1]),
        Party::Server(id) => {
            out.put(&[VERSION, 0, 2])?;
            out.put_u32(id.get())
        }
    }
}

fn put_all(out: &mut Writer, to: &Party) -> Result<(), NoMemory>
    ensures ok { OnOk result (out.new.value ≡ out.old.value ++ front to.now) }
    ensures before { out.new.before ≡ out.old.before }
{
    out.put(&[0, 0, 0, 0])?;
    put_mark(out, to)?;
    out.put(&[0, 0, 0, 0, 0, 0, 0, 0, 0, 0, 0, 0, 0, 0, 0, 0, 0, 0, 0, 0])
}

/// Writes what stands before a piece for the party, with zeros where the lengths and the number will stand. After `NoMemory` the
/// bytes are as before.
pub fn put_front(out: &mut Vec<u8>, to: &Party) -> Result<(), NoMemory>
    ensures ok { OnOk result (out.new.items ≡ out.old.items ++ front to.now) }
    ensures err { OnErr result (out.new.items ≡ out.old.items) }
{
    let empty = Vec::new(*out.allocator());
    let mut writer = Writer::after(mem::replace(out, empty));
    if put_all(&mut writer, to).is_err() {
        *out = writer.undone();
        return Err(NoMemory);
    }
    *out = writer.whole();
    Ok(())
}

/// Writes the lengths and the number over their zeros, in a frame that begins at that place.
fn fill(bytes: &mut [u8], place: usize, mark: usize, number: PieceNumber, count: u32)
    requires room { place + mark + 24 ≤ length bytes.old }
    requires fits { mark + 20 + count < 2 ^ 32 }
    ensures { (a z m n i k r : List ℕ) → bytes.old ≡ a ++ (z ++ (m ++ (n ++ (i ++ (k ++ r))))) → length a ≡ place → length z ≡ 4
        → length m ≡ mark → length n ≡ 8 → length i ≡ 8 → length k ≡ 4
        → bytes.new ≡ a ++ (number32 (mark + 20 + count) ++ (m ++ (piece_number number ++ (number32 count ++ r)))) }
{
    let total = mark as u32 + 20 + count;
    write_u32_at(bytes, place, total);
    write_number_at(bytes, place + 4 + mark, number);
    write_u32_at(bytes, place + 20 + mark, count);
}

/// Makes a frame of what `put_front` wrote from `start` on and of the piece that stands behind it, from `body` on. Where the piece is
/// too long the bytes are as before. It takes no memory: O(1).
pub fn seal(
    out: &mut Vec<u8>,
    start: usize,
    body: usize,
    number: PieceNumber,
) -> Result<(), TooLong>
    requires order { start + 24 ≤ body }
    requires short { body ≤ start + FRONT_LIMIT }
    requires within { body ≤ length out.old.items }
    ensures ok { (old piece : List ℕ) (to : rust_party.Party) → out.old.items ≡ (old ++ front to) ++ piece → length old ≡ start
        → start + length (front to) ≡ body → OnOk result (out.new.items ≡ old ++ frame (responses.Put to number piece)) }
    ensures err { OnErr result (out.new.items ≡ out.old.items) }
{
    let count = out.len() - body;
    if PIECE_LIMIT < count {
        return Err(TooLong);
    }
    fill(
        out.as_mut_slice(),
        start,
        body - start - 24,
        number,
        count as u32,
    );
    Ok(())
}

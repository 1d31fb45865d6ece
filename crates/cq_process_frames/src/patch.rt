//! Bytes that are written over others.
ghost use Rattle.std.specs.Prelude.{◌≡◌, ◌+◌, ◌≤◌, ◌++◌, List, ℕ, drop, length, take};
ghost use Rattle.cq_frames.specs.Layout.{piece_number};
ghost use Rattle.cq_wire.specs.Layout.{number32, number64};

use cq_frames::PieceNumber;

/// Writes the piece over as many bytes, from that place on: O(bytes of the piece).
fn write_at(bytes: &mut [u8], place: usize, piece: &[u8])
    requires { place + length piece.now ≤ length bytes.old }
    ensures { bytes.new ≡ take place bytes.old ++ (piece.now ++ drop (place + length piece.now) bytes.old) }
{
    let (_, back) = bytes.split_at_mut(place);
    let (over, _) = back.split_at_mut(piece.len());
    over.copy_from_slice(piece);
}

/// Writes a number over four bytes, the lowest first.
#[tactic(auto, unfolding(cq_wire::specs::Layout::number32))]
pub fn write_u32_at(bytes: &mut [u8], place: usize, number: u32)
    requires { place + 4 ≤ length bytes.old }
    ensures { bytes.new ≡ take place bytes.old ++ (number32 number ++ drop (place + 4) bytes.old) }
{
    write_at(bytes, place, &number.to_le_bytes());
}

/// Writes a number over eight bytes, the lowest first.
#[tactic(auto, unfolding(cq_wire::specs::Layout::number64))]
fn write_u64_at(bytes: &mut [u8], place: usize, number: u64)
    requires { place + 8 ≤ length bytes.old }
    ensures { bytes.new ≡ take place bytes.old ++ (number64 number ++ drop (place + 8) bytes.old) }
{
    write_at(bytes, place, &number.to_le_bytes());
}

/// Writes the number of a piece over sixteen bytes.
pub fn write_number_at(bytes: &mut [u8], place: usize, number: PieceNumber)
    requires { place + 16 ≤ length bytes.old }
    ensures { (a m i r : List ℕ) → bytes.old ≡ a ++ (m ++ (i ++ r)) → length a ≡ place → length m ≡ 8 → length i ≡ 8
        → bytes.new ≡ a ++ (piece_number number ++ r) }
{
    write_u64_at(bytes, place, number.message);
    write_u64_at(bytes, place + 8, number.index);
}

//! The frame at the front of bytes.
ghost use Rattle.std.specs.Prelude.{◌≡◌, ◌+◌, ◌-◌, ◌^◌, ◌≤◌, ◌<◌, [], drop, length, option_map, IfSome, IfNone};
ghost use Rattle.cq_frames.specs.declared.frame.TheConstants.{FRAME_LIMIT};
ghost use Rattle.cq_frame_loop.specs.Cutting.{frames_behind, said_size};
ghost use Rattle.cq_frame_loop.specs.within.Advances.{BeginsWith};

use cq_frames::FRAME_LIMIT;

/// How many bytes the frame has that begins here, its length left out: O(1).
#[tactic(auto, unfolding(crate::specs::Cutting::said_size))]
fn size_of(bytes: &[u8]) -> usize
    requires { 4 ≤ length bytes.now }
    ensures value { result ≡ said_size bytes.now }
    ensures small { result < 2 ^ 32 }
{
    let (front, _) = bytes.split_at(4);
    u32::from_le_bytes([front[0], front[1], front[2], front[3]]) as usize
}

/// The frame at the front of these bytes, and how many bytes it takes with its length. It is none where it is too long: then its bytes
/// need not be there. Nothing: more bytes have to come. O(1).
pub(crate) fn front_of(bytes: &[u8]) -> Option<(Option<&[u8]>, usize)>
    ensures begins { IfSome result (λ front. BeginsWith bytes.now (option_map (λ frame. frame.now) front.0) front.1) }
    ensures long { IfSome result (λ front. (4 ≤ front.1) × (4 ≤ length bytes.now)) }
    ensures unfinished { IfNone result (frames_behind 0 bytes.now ≡ []) }
    ensures short { IfNone result (length bytes.now < FRAME_LIMIT + 4) }
{
    if bytes.len() < 4 {
        return None;
    }
    let size = size_of(bytes);
    if FRAME_LIMIT < size {
        return Some((None, 4 + size));
    }
    let (_, rest) = bytes.split_at(4);
    if rest.len() < size {
        return None;
    }
    let (frame, _) = rest.split_at(size);
    Some((Some(frame), 4 + size))
}

/// What is left of these bytes behind so many, and how many more are to be passed over: O(1).
pub(crate) fn pass(bytes: &[u8], count: usize) -> (&[u8], usize)
    ensures rest { result.0.now ≡ drop count bytes.now }
    ensures more { result.1 ≡ count - length bytes.now }
{
    let passed = count.min(bytes.len());
    let (_, rest) = bytes.split_at(passed);
    (rest, count - passed)
}

//! The stream of an arrival, before the rest of it is read.
ghost use Rattle.std.specs.Prelude.{◌≡◌};
ghost use Rattle.std.specs.Int.{w64};
ghost use Rattle.cq_frames.specs.Streams.{first_of, stream_at, stream_of};
ghost use Rattle.cq_wire.specs.Reading.{number_at};

use cq_wire::VERSION;

/// A number of eight bytes, if they are there.
#[tactic(auto, unfolding(cq_wire::specs::Reading::number_at))]
fn number_of(bytes: &[u8]) -> Option<u64>
    ensures { result ≡ first_of (number_at w64 bytes.now) }
{
    if bytes.len() < 8 {
        return None;
    }
    let (front, _) = bytes.split_at(8);
    Some(u64::from_le_bytes([
        front[0], front[1], front[2], front[3], front[4], front[5], front[6], front[7],
    ]))
}

/// The stream, behind the version.
#[tactic(auto, unfolding(crate::specs::Streams::stream_at))]
fn stream_behind(bytes: &[u8]) -> Option<u64>
    ensures { result ≡ stream_at bytes.now }
{
    match bytes {
        [0, rest @ ..] => number_of(rest),
        _ => None,
    }
}

/// The stream of the arrival that the bytes of a frame begin with, also where no arrival stands behind its number, or there is no memory to
/// read it. None where they don't begin as those of an arrival. O(1).
#[tactic(auto, unfolding(crate::specs::Streams::stream_of))]
pub fn stream_of(bytes: &[u8]) -> Option<u64>
    ensures { result ≡ stream_of bytes.now }
{
    match bytes {
        [] => None,
        [version, rest @ ..] => {
            if *version == VERSION {
                stream_behind(rest)
            } else {
                None
            }
        }
    }
}

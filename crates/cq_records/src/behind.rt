//! What comes behind the records of a log.
ghost use Rattle.std.specs.Prelude.{◌≡◌, slice_index};
ghost use Rattle.cq_records.specs.Frames.{are_zeros, has_no_one, is_torn, may_follow};

use crate::HEAD_LENGTH;
use memchr::memchr;

/// What may come behind the records of a log. Where anything else does, one of its records was lost.
#[derive(Clone, Copy, Debug, PartialEq, Eq)]
pub enum Behind {
    /// Zeros: the log doesn't grow any more.
    Zeros,
    /// What a crash leaves of one batch, of which each byte is zero or the written one.
    TornBatch,
    /// Any bytes, as a crash may leave them where nothing is supposed of torn writes.
    Anything,
}

/// Whether these bytes may come behind the records: O(their number).
pub(crate) fn may_follow(behind: Behind, rest: &[u8]) -> bool
    ensures { result ≡ may_follow behind rest.now }
{
    match behind {
        Behind::Zeros => are_zeros(rest),
        Behind::TornBatch => is_torn(rest),
        Behind::Anything => true,
    }
}

fn are_zeros(bytes: &[u8]) -> bool
    ensures { result ≡ are_zeros bytes.now }
{
    bytes.iter().all(|byte| *byte == 0)
}

fn is_torn(rest: &[u8]) -> bool
    ensures { result ≡ is_torn rest.now }
{
    let gate = byte_at(rest, 0);
    if gate != 0 && gate != 2 {
        return false;
    }
    byte_at(rest, 8) <= 2 && (rest.len() < HEAD_LENGTH || has_no_one(&rest[HEAD_LENGTH..]))
}

fn byte_at(bytes: &[u8], at: usize) -> u8
    ensures { result ≡ slice_index bytes.now at }
{
    match bytes.get(at) {
        Some(byte) => *byte,
        None => 0,
    }
}

fn has_no_one(bytes: &[u8]) -> bool
    ensures { result ≡ has_no_one bytes.now }
{
    memchr(1, bytes).is_none()
}

//! The buffer that the input is read into.
ghost use Rattle.std.specs.Prelude.{◌≡◌, ◌-◌, ◌≤◌, drop, length, take};
ghost use Rattle.std.specs.Io.{ReadsAtMost};
ghost use Rattle.std.specs.Io.KnownBytes.{ReadConsumes};
ghost use Rattle.cq_frame_loop.specs.Writes.{IsReadFault};

use crate::fault::LoopFault;
use cq_lines::Source;
use std::io;

/// Reads into the buffer behind its first `len` bytes.
pub(crate) fn read_behind<R: Source>(
    reader: &mut R,
    buffer: &mut [u8],
    len: usize,
) -> io::Result<usize>
    requires { len ≤ length buffer.old }
    ensures front { take len buffer.new ≡ take len buffer.old }
    ensures bound { ReadsAtMost result (drop len buffer.new) }
    ensures bytes { ReadConsumes (R.remaining reader.old) (R.remaining reader.new) result (drop len buffer.new) }
{
    let (_, room) = buffer.split_at_mut(len);
    reader.read(room)
}

/// What to answer after a read gave an error.
pub(crate) fn read_fault<R: Source>(reader: &R) -> LoopFault
    ensures { IsReadFault result (R.has_failed reader.now) }
{
    if reader.failed() {
        LoopFault::ReadFailed
    } else {
        LoopFault::Interrupted
    }
}

/// Moves the last `left` ones of the first `len` bytes to the front, where these aren't all: O(left).
pub(crate) fn keep_last(buffer: &mut [u8], len: usize, left: usize)
    requires within { len ≤ length buffer.old }
    requires part { left ≤ len }
    ensures { take left buffer.new ≡ drop (len - left) (take len buffer.old) }
{
    if left < len {
        buffer.copy_within(len - left..len, 0);
    }
}

//! A message that is written and read again.
ghost use Rattle.std.specs.Prelude.{◌≡◌, IfOk};

use crate::fitting::message_holds;
use crate::reader::{MessageReader, Progress};
use crate::writer::MessageWriter;
use cq_base::NoMemory;
use cq_chain::Message;
use std::alloc::Global;

/// The same message, read from pieces that are written one after another, those of a snapshot of about `enough` bytes each: as it
/// comes to another process. It shares nothing with the first one. O(bytes), expected; no more than a piece stands beside the two.
pub fn passed(alloc: Global, message: &Message, enough: usize) -> Result<Message, NoMemory>
    ensures { IfOk result (λ other. other ≡ message.now) }
{
    message_holds(message);
    let mut writer = MessageWriter::new(alloc);
    let mut reader = MessageReader::new(alloc);
    while !writer.is_done() {
        let mut bytes = Vec::new(alloc);
        writer.next(message, &mut bytes, enough)?;
        reader = match reader.feed(&bytes) {
            Ok(Progress::More(next)) => next,
            Ok(Progress::Whole(other)) => return Ok(other),
            Err(_) => return Err(NoMemory),
        };
    }
    Err(NoMemory)
}

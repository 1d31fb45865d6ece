//! A chunk of a copy, told as a frame.
ghost use Rattle.std.specs.Prelude.{◌≡◌, ◌++◌, OnErr, OnOk};
ghost use Rattle.cq_base.specs.Relations.{IsPrefix};
ghost use Rattle.cq_frames.specs.declared.response.Response.TheVariants as responses;
ghost use Rattle.cq_process_frames.specs.Frames.{frame};

use cq_base::NoMemory;
use cq_frames::{Piece, Response, write_frame, write_response};
use std::alloc::Global;

/// Why a chunk isn't told.
#[derive(Clone, Copy, Debug, PartialEq, Eq)]
pub enum Unsaved {
    /// There is no memory for its frame.
    NoMemory,
    /// It has more bytes than a frame may bear: the process has to end. No chunk is so long, though its type doesn't say so.
    TooLong,
}

/// Writes the frame of a response that fits into one.
fn write_saved(alloc: Global, out: &mut Vec<u8>, count: u64, chunk: Piece) -> Result<(), NoMemory>
    ensures ok { OnOk result (out.new.items ≡ out.old.items ++ frame (responses.Saved count chunk)) }
    ensures err { OnErr result (out.new.items ≡ out.old.items) }
{
    // It is no longer than a frame may be.
    let _few = chunk.as_bytes();
    let mut bytes = Vec::new(alloc);
    match write_response(&mut bytes, &Response::Saved { count, chunk }) {
        Ok(()) => write_frame(out, bytes.as_slice()),
        Err(_) => Err(NoMemory),
    }
}

/// Tells a chunk of a copy at so many entries. Where it isn't told, the bytes are as before.
pub fn tell_saved(
    alloc: Global,
    out: &mut Vec<u8>,
    count: u64,
    chunk: Vec<u8>,
) -> Result<(), Unsaved>
    ensures ok { OnOk result (out.new.items ≡ out.old.items ++ frame (responses.Saved count chunk.items)) }
    ensures err { OnErr result (out.new.items ≡ out.old.items) }
{
    match Piece::new(chunk) {
        Some(piece) => match write_saved(alloc, out, count, piece) {
            Ok(()) => Ok(()),
            Err(_) => Err(Unsaved::NoMemory),
        },
        None => Err(Unsaved::TooLong),
    }
}

//! The faults that end a loop over frames.

use thiserror::Error;

/// Why a loop over frames did not come to the end of its input.
#[derive(Clone, Copy, Debug, PartialEq, Eq, Error)]
pub enum LoopFault {
    /// There was no memory for the buffers. Nothing was read.
    #[error("out of memory")]
    NoMemory,
    #[error("the input could not be read")]
    ReadFailed,
    #[error("the output could not be written")]
    WriteFailed,
    /// The handler couldn't tell what became of a frame.
    #[error("a frame could not be answered")]
    Unanswered,
    /// A read or a write gave an error, though the reader or the writer says that it has not failed. `Checked` never does.
    #[error("a read or a write was interrupted")]
    Interrupted,
    /// Reads can't be counted in 64 bits any more.
    #[error("the input has too many bytes")]
    TooManyBytes,
}

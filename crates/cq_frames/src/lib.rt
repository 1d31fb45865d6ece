//! What a process that keeps one server of a chain, or its master, is told, and what it tells, as bytes. `specs/Layout.antt` has the
//! bytes of each command and of each response, `specs/Reading.antt` what is read of any bytes, and where they are of none the
//! fault; `cq_wire` has the parts. Each stands in a frame: its length, in four bytes, and its bytes (`specs/Frames.antt`).
#![tactic(auto)]

mod command;
mod commands;
mod fitting;
mod frame;
pub mod laws;
mod number;
mod party;
mod piece;
mod put;
mod read;
mod response;
mod responses;
mod stream;
mod write;

pub use command::Command;
pub use fitting::{command_fits, response_fits};
pub use frame::{FRAME_LIMIT, frame_of, write_frame};
pub use number::PieceNumber;
pub use piece::{PIECE_LIMIT, Piece};
pub use read::{is_save, read_command, read_response};
pub use response::{NO_MEMORY, NOT_HERE, Response, STREAM_ENDED, Standing};
pub use stream::stream_of;
pub use write::{write_command, write_response};

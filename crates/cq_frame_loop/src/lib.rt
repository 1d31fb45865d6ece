//! The loop of a process over frames: it reads them, has each answered, and writes the answers. `specs/` holds the rules.
#![tactic(auto)]

mod answering;
mod buffer;
mod fault;
mod frame_loop;
mod front;
mod handler;
pub mod laws;
mod settled_loop;
mod settled_writing;
mod settling;
mod telling;
mod writing;

pub use fault::LoopFault;
pub use frame_loop::{BUFFER_SIZE, answer_frames};
pub use handler::{ANSWER_ROOM, FrameHandler, Unanswered};
pub use settled_loop::answer_settled_frames;
pub use settling::{SettledFault, SettlingHandler, Unsettled};
pub use telling::SettledSink;

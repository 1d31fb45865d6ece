//! The processes of a chain: frames are read, answered by a server or by the master, and written, until the input ends. `specs/` holds
//! the rules.
#![tactic(auto)]

mod keep;

pub use cq_frame_loop::LoopFault;
pub use keep::{LoadEnd, keep_first, keep_joining, keep_loaded, keep_master};

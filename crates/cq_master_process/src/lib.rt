//! What a process that keeps the master of a chain does of each command, and what it tells of it, as frames. `specs/` holds the
//! rules.
#![tactic(auto)]

mod handler;
pub mod laws;
mod link;
mod links;
mod process;
mod telling;

pub use process::{ANSWER_ROOM, MasterProcess, Unanswered};

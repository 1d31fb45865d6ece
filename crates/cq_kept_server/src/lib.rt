//! A process that keeps the only server of a chain, and the entries of that server in a journal: nothing is told of an entry before it is
//! kept. `specs/` holds the rules.
#![tactic(auto)]

mod answering;
mod handler;
pub mod laws;
mod server;
mod settling;

pub use answering::NO_ROOM;
pub use server::KeptServer;

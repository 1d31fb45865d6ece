//! A process that keeps one server of a chain: what it does of each command, and what it tells, as frames. `specs/` holds the rules.
#![tactic(auto)]

mod answer;
mod commands;
mod handler;
mod process;
mod send;
mod streams;
mod turn;
mod turns;

pub use process::ServerProcess;
pub use streams::Streams;
pub use turn::Stop;

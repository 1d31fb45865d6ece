//! The world of a chain: servers, and the links between them, one event at a time. `specs/` holds the rules.
#![tactic(auto)]

pub mod laws;
mod links;
mod ran;
mod sim;

pub use cq_events::Event;
pub use ran::Ran;
pub use sim::Sim;

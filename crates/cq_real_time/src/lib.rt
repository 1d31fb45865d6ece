//! Orders in time of what the parties of a chain did, each by its own core. `specs/` holds the rules.
#![tactic(auto)]

pub mod laws;

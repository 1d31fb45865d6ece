//! Laws of a process that keeps a server: what it tells are actions of its core. `specs/` holds the rules.
#![tactic(auto)]

pub mod laws;

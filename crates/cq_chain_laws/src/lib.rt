//! Laws of all processes of a chain together. `specs/` holds the rules.
#![tactic(auto)]

pub mod laws;

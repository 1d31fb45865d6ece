//! Laws of servers whose entries are kept, as members of a chain. `specs/` holds the rules.
#![tactic(auto)]

pub mod laws;

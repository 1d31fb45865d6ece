//! The tests of texts that come in chunks, with a parser of two words. They stand here since a crate that has tests is proved
//! twice.
//! `specs/` has its grammar.
#![tactic(auto)]

mod switches;

pub use switches::{Switch, SwitchParser, read_chunks};

#[cfg(test)]
mod chunks;

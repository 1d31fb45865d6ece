//! The tests of the loop over frames, with a handler that numbers them. They stand here since a crate that has tests is proved twice.
//! `specs/` says what it tells.
#![tactic(auto)]

mod numbering;

pub use numbering::Numbering;

#[cfg(test)]
mod inputs;

//! The command line of the program `cq`: what its arguments ask for, and what help says.
//! `specs/` holds the rules.
#![tactic(auto)]

mod commands;
mod invocation;

pub use invocation::{Invocation, JournalOptions, VERSION, invocation_of};

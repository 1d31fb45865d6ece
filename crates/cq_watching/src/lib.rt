//! Lines that are run as those of a session, and may ask what the world holds.
//! `specs/` holds the rules.
#![tactic(auto)]

pub mod laws;
mod watcher;
mod watching;

pub use watching::watch;

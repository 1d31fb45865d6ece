//! The tests of what a process does that keeps one server of a chain, by its public calls. They stand here since a crate that has
//! tests is proved twice.
#![tactic(auto)]

#[cfg(test)]
mod frames;
#[cfg(test)]
mod links;

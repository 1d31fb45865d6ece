//! The tests of clients and worlds, by their public calls. They stand here since a crate that has tests is proved
//! twice, and scripts need not wait for them.
#![tactic(auto)]

#[cfg(test)]
mod clients;
#[cfg(test)]
mod worlds;

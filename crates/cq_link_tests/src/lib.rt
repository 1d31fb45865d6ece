//! The tests of links, inboxes and wires, by their public calls. They stand here since a crate that has tests is proved
//! twice.
#![tactic(auto)]

#[cfg(test)]
mod links;
#[cfg(test)]
mod wires;

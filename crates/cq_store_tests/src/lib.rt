//! The tests of values and of stores, and of a store that is refused memory, by their public calls. They stand here since
//! a crate that has tests is proved twice, and what stands on the store need not wait for them.
#![tactic(auto)]

#[cfg(test)]
mod memory;
#[cfg(test)]
mod stores;
#[cfg(test)]
mod values;

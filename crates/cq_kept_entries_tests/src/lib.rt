//! The tests of entries that are kept: opened again, behind a base, without space, and on a file whose machine loses its power. They
//! stand here since a crate that has tests is proved twice.
#![tactic(auto)]

#[cfg(test)]
mod crashes;
#[cfg(test)]
mod keeping;

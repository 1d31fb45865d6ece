//! The tests of sessions that keep their lines: opened again at each byte, without space, and on a file whose machine loses its
//! power. They stand here since a crate that has tests is proved twice.
#![tactic(auto)]

#[cfg(test)]
mod bases;
#[cfg(test)]
mod crashes;
#[cfg(test)]
mod emptied;
#[cfg(test)]
mod filled;
#[cfg(test)]
mod openings;
#[cfg(test)]
mod rewriting;
#[cfg(test)]
mod rooms;
#[cfg(test)]
mod taking;

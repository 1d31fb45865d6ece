//! The tests of scripts, sessions and live scripts, by their public calls, where these are given readers and writers that
//! fail, or that give and take parts. They stand here since a crate that has tests is proved twice, and the program need not
//! wait for them.
#![tactic(auto)]

#[cfg(test)]
mod live_scripts;
#[cfg(test)]
mod resumed;
#[cfg(test)]
mod scripts;

//! What is wrong with the lines of a script, or of a live script, in sentences for people. `specs/` says which lines are told as bad.
#![tactic(auto)]

mod bad;
mod event;
mod finding;
mod keys;
mod live;
mod object;
mod script;
mod telling;
#[cfg(test)]
mod tests;
mod texts;
mod words;

pub use finding::Finding;
pub use live::{explain_live, explain_step};
pub use script::{explain_line, explain_script};

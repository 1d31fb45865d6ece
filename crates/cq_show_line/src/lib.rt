//! What a chain holds at one moment, as values, and the line of JSON that tells it.
//! `specs/` holds the rules.
#![tactic(auto)]

mod line;
mod member;
mod server;
mod shown;
mod way;

pub use line::show_line;
pub use shown::{MessageKind, NextMessage, Shown, ShownServer, Way};

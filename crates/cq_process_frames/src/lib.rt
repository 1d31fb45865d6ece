//! What a process that keeps one server of a chain, or its master, tells of what it does, as frames. `specs/` holds the rules.
#![tactic(auto)]

mod front;
mod patch;
mod put;
mod small;

pub use front::{FRONT_LIMIT, TooLong, put_front, seal};
pub use put::{Unput, put_piece};
pub use small::{tell_done, tell_heard, tell_refused, tell_unread, tell_waiting};

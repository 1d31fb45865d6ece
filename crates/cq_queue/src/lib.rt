//! One incarnation of a FIFO queue: what is sent to it, handed out, deleted and changed.
#![tactic(auto)]

mod accepted;
mod change;
mod delete;
mod queue;
mod window;

pub use accepted::Accepted;
pub use queue::Queue;

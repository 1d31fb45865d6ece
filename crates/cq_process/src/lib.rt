//! What a process that keeps one server of a chain does when it is asked, and at the two ends of its links. `specs/` holds the rules.
#![tactic(auto)]

mod asks;
mod incoming;
mod incoming_ends;
pub mod laws;
mod links;
mod outgoing;
mod outgoing_ends;
mod reads;

pub use asks::{arrive, ask};
pub use incoming::{Incoming, TakeFault, Taken};
pub use links::Links;
pub use outgoing::{LINK_LIMIT, Outgoing, PutFault, Written};
pub use reads::standing;

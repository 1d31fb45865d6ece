//! The servers of a chain, its master and its clients, each by itself: what it does when a request, a query, a
//! message, an answer or the news of a crash comes to it.
//! `specs/` holds the rules.
#![tactic(auto)]

mod client;
mod fault;
mod fifo;
mod identity;
mod master;
mod message;
mod outboxes;
mod replica;
mod server;
mod snapshot;

pub use client::Client;
pub use fault::{ClientFault, WorldFault};
pub use fifo::Fifo;
pub use master::Master;
pub use message::{Answer, Message, Untaken};
pub use server::Server;
pub use snapshot::Snapshot;

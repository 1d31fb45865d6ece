//! The ends of links that a node holds, and the messages that wait at them.
ghost use Rattle.std.specs.Prelude.{◌≡◌};
ghost use Rattle.cq_nodes.specs.Ends.{party_at};

use cq_base::{Party, ServerId};
use cq_chain::Message;

/// The end of a link to one party, and the message that the link handed back, if there is one. That message goes first.
#[derive(Drop)]
pub struct Out<P: Drop> {
    pub end: P,
    pub kept: Option<Message>,
}

/// The end of a link from one party, and the message that was taken from it but that the core had no memory to read.
#[derive(Drop)]
pub struct In<T: Drop> {
    pub end: T,
    pub unread: Option<Message>,
}

/// The ends of the links to the two clients, and the message to either of them that was handed back.
#[derive(Drop)]
pub struct ToClients<P: Drop> {
    pub first: P,
    pub second: P,
    pub kept: Option<Message>,
}

/// The party at that place: the master at 0, and each server at its number.
pub fn party_at(place: u32) -> Party
    ensures { result ≡ party_at place }
{
    match ServerId::new(place) {
        Some(id) => Party::Server(id),
        None => Party::Master,
    }
}

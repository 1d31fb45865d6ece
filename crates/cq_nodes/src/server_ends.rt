//! What a server's node begins with, and what is left of it.
use crate::ends::{In, Out, ToClients};
use crate::links::Links;
use cq_base::{ChainSize, Request, ServerId};
use cq_chain::Message;
use cq_events::Event;
use cq_link::{PutEnd, TakeEnd};

/// The ends that a server's node gets.
#[derive(Drop)]
pub struct ServerEnds<
    P: PutEnd<Message> + Drop,
    T: TakeEnd<Message> + Drop,
    I: TakeEnd<Request> + Drop,
> {
    /// The links to and from the master, at place 0, and to and from each server, at its number.
    pub links: Links<P, T>,
    /// The link to the first client.
    pub first: P,
    /// The link to the second client.
    pub second: P,
    /// The inbox, from which its requests come.
    pub inbox: I,
}

/// What a server's node hands out at its end.
#[derive(Drop)]
pub struct ServerParts<
    P: PutEnd<Message> + Drop,
    T: TakeEnd<Message> + Drop,
    I: TakeEnd<Request> + Drop,
> {
    pub size: ChainSize,
    pub id: ServerId,
    pub outs: Vec<Out<P>>,
    pub clients: ToClients<P>,
    pub ins: Vec<In<T>>,
    pub inbox: I,
    /// What it did, in order.
    pub trace: Vec<Event>,
    /// The number of entries at which it was to crash, if it was.
    pub crash_after: Option<u64>,
    /// Whether it found no memory, and so crashed.
    pub starved: bool,
    /// How many turns it had, counted up to `TURNS_LIMIT`.
    pub turns: u64,
    /// Whether it has crashed.
    pub ended: bool,
}

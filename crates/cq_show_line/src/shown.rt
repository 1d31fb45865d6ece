//! What a chain holds at one moment.
use cq_base::{Party, ServerId};

/// The kind of a message that servers, the master and the clients tell each other.
#[derive(Clone, Copy, Debug, PartialEq, Eq)]
pub enum MessageKind {
    Fwd,
    Snap,
    Ack,
    BeHead,
    Report,
    Adopt,
    BeTail,
    Feed,
    Have,
    Adopted,
    Caught,
    Ready,
    Answer,
}

/// The message that leaves an outbox next.
#[derive(Clone, Copy, Debug, PartialEq, Eq)]
pub struct NextMessage {
    pub kind: MessageKind,
    /// The first number that it bears: a place, a server, a count of entries or a length. 0 where it bears none.
    pub number: u64,
}

/// What is on its way from one party to another.
#[derive(Clone, Copy, Debug, PartialEq, Eq)]
pub struct Way {
    pub from: Party,
    pub to: Party,
    /// How many messages wait in the outbox.
    pub waits: u64,
    /// How many messages stand in the link.
    pub stands: u64,
    /// The message that waits first.
    pub next: Option<NextMessage>,
}

/// One server.
#[derive(Clone, Copy, Debug, PartialEq, Eq)]
pub struct ShownServer {
    pub id: ServerId,
    pub is_down: bool,
    pub is_head: bool,
    pub is_acting: bool,
    pub is_full: bool,
    /// How many entries its history has.
    pub count: u64,
    /// How many of them are known to have reached the tail.
    pub acked: u64,
}

/// All that is shown of a chain.
#[derive(Debug, Drop)]
pub struct Shown {
    /// The members of the chain, head first.
    pub chain: Vec<ServerId>,
    /// The server that joins, and is no member yet.
    pub joiner: Option<ServerId>,
    /// Whether the master has heard that the last member acts.
    pub is_ready: bool,
    pub servers: Vec<ShownServer>,
    /// Where messages are on their way.
    pub ways: Vec<Way>,
}

//! What servers, the master and the clients tell each other.
ghost use Rattle.std.specs.Prelude.{◌≡◌, IfErr, IfOk};
ghost use Rattle.cq_chain.specs.Stands.{answer_of};
ghost use Rattle.cq_chain.specs.declared.message.Message.TheVariants as stored;

use crate::fault::WorldFault;
use crate::snapshot::Snapshot;
use cq_base::{Entry, Reply, ServerId};

/// What a server answers to a client.
#[derive(Debug)]
pub struct Answer {
    /// The client that asked.
    pub client: u32,
    /// The number of its request, or the tag of its query.
    pub number: u64,
    /// It answers a query, and not a request.
    pub is_query: bool,
    /// Of a request the place of its entry in the history, from 1; of a query how many entries the server had.
    pub length: u64,
    pub reply: Reply,
}

/// Written out, not derived: CONTRIBUTING.md, "Drop".
impl Drop for Answer {
    fn drop(self) {
        let Answer {
            client: _,
            number: _,
            is_query: _,
            length: _,
            reply: _,
        } = self;
    }
}

/// What servers, the master and the clients tell each other.
#[derive(Debug)]
pub enum Message {
    /// To a successor: the entry at that place of the sender's history, from 1.
    Fwd { place: u64, entry: Entry },
    /// To a successor that lacks much: the state of the sender after its whole history.
    Snap { state: Snapshot },
    /// To a predecessor: all entries up to that place have reached the tail.
    Ack { place: u64 },
    /// From the master: the server is the head from now on.
    BeHead,
    /// From the master: the server's predecessor is that one from now on, and is to be told.
    Report { pred: ServerId },
    /// From the master: the server's successor is that one from now on, which has so many entries.
    Adopt { succ: ServerId, have: u64 },
    /// From the master: the server is the tail from now on, and acts once it has so many entries.
    BeTail { at_least: u64 },
    /// From the master, to one that acts: it is to feed that server as its successor from now on, or nobody any more.
    Feed { succ: Option<ServerId> },
    /// To the master: the sender has that predecessor, and so many entries.
    Have { pred: ServerId, count: u64 },
    /// To the master: the sender has that successor, and has so many entries itself.
    Adopted { succ: ServerId, count: u64 },
    /// To the master: the sender has that predecessor, and took a snapshot of so many entries.
    Caught { pred: ServerId, count: u64 },
    /// To the master: the sender acts as tail.
    Ready,
    /// To the clients: an answer.
    Answer(Answer),
}

/// Written out, not derived: CONTRIBUTING.md, "Drop".
impl Drop for Message {
    fn drop(self) {
        match self {
            Message::Fwd { place: _, entry: _ } => (),
            Message::Snap { state: _ } => (),
            Message::Ack { place: _ } => (),
            Message::BeHead => (),
            Message::Report { pred: _ } => (),
            Message::Adopt { succ: _, have: _ } => (),
            Message::BeTail { at_least: _ } => (),
            Message::Feed { succ: _ } => (),
            Message::Have { pred: _, count: _ } => (),
            Message::Adopted { succ: _, count: _ } => (),
            Message::Caught { pred: _, count: _ } => (),
            Message::Ready => (),
            Message::Answer(_) => (),
        }
    }
}

/// A message that a server handed back, and why it didn't take it.
#[derive(Debug, Drop)]
pub struct Untaken {
    pub message: Message,
    pub fault: WorldFault,
}

impl Message {
    /// The answer that it is, if it is one; none for each other message, which is dropped. O(1).
    pub fn into_answer(self) -> Option<Answer>
        ensures { result ≡ answer_of self }
    {
        match self {
            Message::Answer(answer) => Some(answer),
            _ => None,
        }
    }

    /// The snapshot that it is, if it is one; itself, if it isn't. O(1).
    pub(crate) fn into_snapshot(self) -> Result<Snapshot, Message>
        ensures snapshot { IfOk result (λ state. self ≡ stored.Snap state) }
        ensures other { IfErr result (λ message. message ≡ self) }
    {
        match self {
            Message::Snap { state } => Ok(state),
            other => Err(other),
        }
    }
}

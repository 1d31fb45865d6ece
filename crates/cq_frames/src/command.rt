//! What a process is told by its host.
ghost use Rattle.std.specs.Prelude.{◌≡◌};
ghost use Rattle.cq_frames.specs.Streams.{stream_in};

use crate::number::PieceNumber;
use crate::piece::Piece;
use cq_base::{Moment, Party, Query, Request, ServerId};

/// What a process that keeps a server, or the master, of a chain is told by its host.
#[derive(Debug)]
pub enum Command {
    /// At a server: a request arrives at that moment, as the next one of that stream. Streams are numbered from 1, and what is refused
    /// ends its stream and all lower ones.
    Arrive {
        stream: u64,
        clock: Moment,
        request: Request,
    },
    /// At a server: a query is asked.
    Ask {
        query: Query,
    },
    /// The piece of that number on the link from that party.
    Take {
        from: Party,
        number: PieceNumber,
        piece: Piece,
    },
    /// At the master: that server has crashed.
    Detect {
        server: ServerId,
    },
    /// At the master: that server joins.
    Join {
        server: ServerId,
    },
    /// The next part of what waits for that party, or of what there was no memory for, is to be put.
    More {
        to: Party,
    },
    /// That server is gone: what waits for it is put and thrown away, and half a snapshot from or to it is let go.
    Gone {
        server: ServerId,
    },
    /// At a server: the next chunk of a copy of its store is to be told.
    Save,
    /// At a server that is to begin with a store: its next chunk.
    Load {
        chunk: Piece,
    },
}

/// Written out, not derived: CONTRIBUTING.md, "Drop".
impl Drop for Command {
    fn drop(self) {
        match self {
            Command::Arrive {
                stream: _,
                clock: _,
                request: _,
            } => (),
            Command::Ask { query: _ } => (),
            Command::Take {
                from: _,
                number: _,
                piece: _,
            } => (),
            Command::Detect { server: _ } => (),
            Command::Join { server: _ } => (),
            Command::More { to: _ } => (),
            Command::Gone { server: _ } => (),
            Command::Save => (),
            Command::Load { chunk: _ } => (),
        }
    }
}

impl Command {
    /// The stream of an arrival: O(1).
    pub fn stream(&self) -> Option<u64>
        ensures { result ≡ stream_in self.now }
    {
        match self {
            Command::Arrive {
                stream,
                clock: _,
                request: _,
            } => Some(*stream),
            _ => None,
        }
    }
}

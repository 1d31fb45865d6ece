//! What a process tells its host.
use crate::number::PieceNumber;
use crate::piece::Piece;
use cq_base::{Moment, Party};

/// The number under which a command is refused that means nothing to the process, whatever it keeps: a detection or a join at a
/// server, a request, a query or a copy of the store at the master.
pub const NOT_HERE: u32 = 47;

/// The number under which a command is refused for which there is no memory: it can be given again.
pub const NO_MEMORY: u32 = 20;

/// The number under which an arrival is refused whose stream has ended.
pub const STREAM_ENDED: u32 = 49;

/// Where a server stands.
#[derive(Clone, Copy, Debug, PartialEq, Eq)]
pub struct Standing {
    /// How many entries its history has.
    pub count: u64,
    /// How many of them are known to have reached the tail.
    pub acked: u64,
    /// The moment of the last one.
    pub last: Moment,
    /// Whether requests arrive at it.
    pub is_head: bool,
    /// Whether it acts as tail.
    pub is_acting: bool,
    /// Whether it was a member of the first chain, or has acted as tail.
    pub is_full: bool,
}

/// What a process that keeps a server, or the master, of a chain tells its host.
#[derive(Debug)]
pub enum Response {
    /// The piece of that number on the link to that party.
    Put {
        to: Party,
        number: PieceNumber,
        piece: Piece,
    },
    /// The command was refused, by the fault of that number, and nothing happened.
    Refused {
        code: u32,
    },
    /// The bytes of a frame are those of no command, by the fault of that number, and nothing happened.
    Unread {
        code: u32,
    },
    /// A message for that party waits for memory, or for `More`.
    Waiting {
        to: Party,
    },
    /// The next chunk of a copy of the store, which was made at so many entries.
    Saved {
        count: u64,
        chunk: Piece,
    },
    /// All that came of the command was told; the server stands so.
    Done {
        standing: Standing,
    },
    /// All that came of the command was told; the master has no more to say of itself.
    Heard,
}

/// Written out, not derived: CONTRIBUTING.md, "Drop".
impl Drop for Response {
    fn drop(self) {
        match self {
            Response::Put {
                to: _,
                number: _,
                piece: _,
            } => (),
            Response::Refused { code: _ } => (),
            Response::Unread { code: _ } => (),
            Response::Waiting { to: _ } => (),
            Response::Saved { count: _, chunk: _ } => (),
            Response::Done { standing: _ } => (),
            Response::Heard => (),
        }
    }
}

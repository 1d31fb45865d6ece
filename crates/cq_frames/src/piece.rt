//! A piece of a message or of a store, as bytes.
ghost use Rattle.std.specs.Prelude.{◌≡◌, ◌<◌, ◌≤◌, List, ℕ, length, IfSome, IfNone};

use std::fmt;
use std::marker::Model;

/// The most bytes of a piece.
pub const PIECE_LIMIT: usize = 4_000_000;

/// A piece of a message or of a store (`cq_chain_wire`, `cq_store_wire`), which has at most `PIECE_LIMIT` bytes.
#[derive(Drop)]
pub struct Piece {
    bytes: Vec<u8>,
}

impl Model for Piece {
    ghost use Rattle.std.specs.Prelude.{List, ℕ, ◌≤◌, length};
    ghost use Rattle.cq_frames.specs.declared.piece.TheConstants.{PIECE_LIMIT};

    ghost Value = { List ℕ };

    ghost view = { λ p. p.bytes.items };

    ghost invariant = { λ p. length p.bytes.items ≤ PIECE_LIMIT };
}

/// It shows how many bytes it has.
impl fmt::Debug for Piece {
    fn fmt<W: fmt::Write>(&self, f: &mut fmt::Formatter<W>) -> fmt::Result {
        let count = self.bytes.len();
        write!(f, "Piece({count} bytes)")
    }
}

impl Piece {
    /// These bytes, if there are at most `PIECE_LIMIT` of them: O(1).
    pub fn new(bytes: Vec<u8>) -> Option<Piece>
        ensures some { IfSome result (λ piece. (piece ≡ bytes.items) × (length piece ≤ PIECE_LIMIT)) }
        ensures none { IfNone result (PIECE_LIMIT < length bytes.items) }
    {
        if bytes.len() <= PIECE_LIMIT {
            Some(Piece { bytes })
        } else {
            None
        }
    }

    /// Its bytes: O(1).
    pub fn as_bytes(&self) -> &[u8]
        ensures bytes { result.now ≡ self.now }
        ensures few { length self.now ≤ PIECE_LIMIT }
    {
        &self.bytes
    }

    /// Its bytes, which are given away: O(1).
    pub fn into_bytes(self) -> Vec<u8>
        ensures { result.items ≡ self }
    {
        let Piece { bytes } = self;
        bytes
    }
}

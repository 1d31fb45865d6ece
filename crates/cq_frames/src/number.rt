//! The numbers of pieces on their links.

/// Which piece of which message a piece is.
#[derive(Clone, Copy, Debug, PartialEq, Eq)]
pub struct PieceNumber {
    /// The number of its message on the link, from 1.
    pub message: u64,
    /// Its place among the pieces of the message, from 0.
    pub index: u64,
}

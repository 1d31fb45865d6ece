//! The limits of a text.

/// The most bytes that a line of a script may have, without the line feed that ends it.
pub const LINE_LIMIT: usize = 2_097_152;

/// The most lines that a script may have.
pub const LINES_LIMIT: u64 = 1_000_000;

/// What the lines of a text may be.
#[derive(Clone, Copy, Debug)]
pub struct Limits {
    /// The most bytes of a line, without the line feed that ends it.
    pub line_len: usize,
    /// The most lines, blank ones too.
    pub line_count: u64,
}

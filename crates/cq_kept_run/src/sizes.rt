//! The lengths of a session's journal.

/// The length of a half of the root, which names up to 100,000 regions.
pub(crate) const HALF: usize = 524_288;

/// In so many of the first bytes the first root of a journal is written, which names one region: 20.
pub(crate) const FIRST_ROOT: usize = 64;

/// The length of a region.
pub(crate) const REGION: usize = 16_777_216;

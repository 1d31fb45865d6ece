//! The version of the layout.

/// The first byte of each whole. Bytes of another version are refused as `OtherVersion`.
pub const VERSION: u8 = 1;

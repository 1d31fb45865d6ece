//! A new base, which is to take the place of all regions that count.

/// Regions of a journal's device that its root doesn't name, each of them a log. Records are added to the last of these.
#[derive(Drop)]
pub struct Base {
    /// The places of its regions that don't grow any more, in order.
    pub(crate) closed: Vec<u64>,
    /// The place of the region that grows.
    pub(crate) growing: usize,
    /// Where the log in that region ends.
    pub(crate) end: usize,
}

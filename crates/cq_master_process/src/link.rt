//! What is known of the links from and to one server.

/// The numbers of the last messages that were taken from a server and that were put for it, 0 where there were none, and whether it
/// is gone.
#[derive(Clone, Copy)]
pub struct Link {
    pub taken: u64,
    pub put: u64,
    pub is_gone: bool,
}

//! The steps of a live run.
use cq_base::{Ask, ServerId};

/// One thing that a live run is to do.
#[derive(Debug, PartialEq, Eq)]
pub enum LiveStep {
    /// The next ask of that client.
    Client {
        /// 1 or 2.
        client: u32,
        ask: Ask,
    },
    /// The server crashes at its first turn with at least so many entries.
    Crash {
        server: ServerId,
        after: u64,
    },
    /// The server joins the chain, from the master's turn of that number on. Turns count from 1.
    Join {
        server: ServerId,
        after: u64,
    },
}

/// Written out, not derived: CONTRIBUTING.md, "Drop".
impl Drop for LiveStep {
    fn drop(self) {
        match self {
            LiveStep::Client { client: _, ask: _ } => (),
            LiveStep::Crash {
                server: _,
                after: _,
            } => (),
            LiveStep::Join {
                server: _,
                after: _,
            } => (),
        }
    }
}

//! A session that keeps its lines in a file: it is opened or made, what it has is run, and the lines of a reader are served. And what is
//! told or copied of such a file.
//! `specs/` holds the rules.
#![tactic(auto)]

mod blank;
mod copying;
mod dumping;
mod entries;
mod fault;
mod kind;
mod looking;
mod run;
mod server;
mod sizes;
mod source;
mod store;
mod verifying;

pub use copying::copy;
pub use dumping::dump;
pub use fault::{JournalFault, KeptFault, ServerFault};
pub use run::run_kept;
pub use server::{open_server_file, run_kept_server};
pub use verifying::verify;

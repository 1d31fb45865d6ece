//! Copies of the store of a process that keeps a server: it tells one a chunk at a time, and a process begins with one. `specs/` holds
//! the rules.
#![tactic(auto)]

mod copy;
mod handlers;
mod loading;
mod saving;
mod tell;

pub use copy::StoreCopy;
pub use loading::{LoadingProcess, Stage};
pub use saving::SavingProcess;

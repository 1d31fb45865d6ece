//! What each party of a chain did, and one order of it all. `specs/` holds the rules.
#![tactic(auto)]

mod auditing;
mod bad_traces;
mod fault;
pub mod laws;
mod order;
mod rounds;

pub use auditing::audit;
pub use cq_events::Trace;
pub use fault::AuditFault;

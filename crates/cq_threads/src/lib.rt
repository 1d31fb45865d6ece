//! Nodes on threads of their own: the master, servers and two clients run side by side until they have ended. `specs/`
//! holds the rules.
#![tactic(auto)]

mod fault;
mod nodes;
mod threads;

pub use fault::ThreadFault;
pub use nodes::Nodes;

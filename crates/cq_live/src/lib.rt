//! A live chain: servers, the master and two clients on threads of their own, and what an audit says of what they did.
//! The nodes are made of the ends of the run's links, run, and taken apart into these ends. `specs/` holds the rules.
#![tactic(auto)]

mod apart;
mod bare_ends;
mod fault;
mod fresh;
pub mod laws;
mod live_run;
mod node_types;
mod nodes;
mod report;
mod roles;
mod sends;
mod servers;
mod settle;
mod threads;
mod wires;

pub use fault::LiveFault;
pub use live_run::live;
pub use report::LiveReport;

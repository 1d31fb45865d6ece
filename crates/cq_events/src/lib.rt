//! The events of a chain, the worlds that they lead to, and what each party did. `specs/` holds the rules.
#![tactic(auto)]

mod event;
mod trace;

pub use event::Event;
pub use trace::Trace;

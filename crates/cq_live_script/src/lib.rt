//! The lines of a live run, and reading them. `specs/` holds the rules.
#![tactic(auto)]

mod live;
mod step;
mod step_line;

pub use live::read_live;
pub use step::AFTER_LIMIT;
pub use step_line::step_of;

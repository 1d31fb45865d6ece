//! What a live run is to do: what its clients ask, which servers crash, and which join. `specs/` holds the rules.
#![tactic(auto)]

mod asked;
mod bad_steps;
mod joins;
mod step;

pub use asked::{asks_of, crash_of};
pub use bad_steps::first_bad_step;
pub use joins::{Join, joins_of};
pub use step::LiveStep;

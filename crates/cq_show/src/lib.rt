//! What a world holds, as it is shown to people: the line that tells it.
//! `specs/` holds the rules.
#![tactic(auto)]

mod message;
mod servers;
mod show;
mod ways;

pub use show::world_line;

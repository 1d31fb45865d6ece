//! A session that keeps its lines on a device before it answers them, and goes on behind them after any crash.
//! `specs/` holds the rules.
#![tactic(auto)]

mod base;
mod calls;
mod class;
mod clients;
mod contents;
mod fault;
mod kept;
mod laws;
mod rewriting;
mod room;
mod serve;
mod serving;
mod starting;
mod telling;
mod text;

pub use base::Header;
pub use calls::take_takes;
pub use class::{LineClass, class_of_line};
pub use clients::Highest;
pub use contents::{Contents, read_contents};
pub use fault::{ServeFault, StartFault, TakeFault};
pub use kept::KeptSession;
pub use laws::{bases_are_read_so, what_is_told_is_of_what_is_kept};
pub use serving::NO_ROOM;
pub use telling::KeptSink;

//! A journal of the entries of a server, from which its store is made again after any crash. `specs/` holds the rules.
#![tactic(auto)]

mod class;
mod contents;
mod fault;
mod kept;
mod laws;
mod reader;
mod rewriting;
mod room;
mod space;
mod starting;

pub use class::{EntryClass, class_of};
pub use contents::{EntriesContents, read_entries};
pub use fault::StartFault;
pub use kept::KeptEntries;
pub use laws::entries_are_read_so;

//! The tests of devices, and of logs, roots and journals on them: of a file that a crash tears by a seed, and of real files. They stand
//! here since a crate that has tests is proved twice.
#![tactic(auto)]

mod changes;
mod filling;
mod lives;
mod rewriting;
mod simulated;
mod sparse;
mod writing;

pub use changes::{Changed, change, count_changes};
pub use filling::{Filled, count_records, fill, text_of};
pub use lives::{Life, live};
pub use rewriting::{LEFT, Rewritten, write_and_rewrite};
pub use simulated::{Left, Simulated};
pub use sparse::Sparse;
pub use writing::{Written, count_journal, write};

#[cfg(test)]
mod copies;
#[cfg(test)]
mod crashes;
#[cfg(test)]
mod failures;
#[cfg(test)]
mod files;
#[cfg(test)]
mod journals;
#[cfg(test)]
mod recoveries;
#[cfg(test)]
mod regions;
#[cfg(test)]
mod rewrites;
#[cfg(test)]
mod roots;
#[cfg(test)]
mod rot;
#[cfg(test)]
mod space;

//! Lists of numbers in which the first one that is at most a limit is found without a walk over those before it.
//! `specs/` holds what that means.
#![tactic(auto)]

mod min_blocks;
mod min_list;
mod min_search;
mod min_tree;
mod number_list;
mod packed;
mod spans;

pub use min_blocks::MinBlocks;
pub use min_list::MinList;
pub use min_search::MinSearch;
pub use min_tree::{MinTree, new_min_tree};
pub use number_list::NumberList;
pub use packed::Packed;

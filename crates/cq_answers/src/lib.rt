//! The lines that tell answers and refusals: JSON with no space, the keys of an object in the order of their bytes.
//! `specs/` holds the rules.
#![tactic(auto)]

mod line;
mod member;
mod reply;
mod row;
mod row_reply;
mod write;

pub use line::{answer_line, refused_line};
pub use write::{write_answer, write_refused};

//! What stands in the place of records that were kept before: a base, in pieces; and when it is due. `specs/` holds the rules.
#![tactic(auto)]

mod counts;
mod laws;
mod records;
mod schedule;
mod stuffing;
mod writer;

pub use counts::message_count;
pub use laws::texts_are_stuffed_so;
pub use records::{batch_of, next_chunk, piece_size, piece_text};
pub use schedule::Schedule;
pub use stuffing::{stuff, unstuffed};
pub use writer::{BaseWriter, add_record, begin_base, end_base};

//! A log of records on a device. Each is on the medium before it is acknowledged, and what a crash at any moment
//! leaves is the acknowledged records, and so many of the batch under way from its first on. `specs/` holds the rules.
#![tactic(auto)]

mod batch;
mod behind;
mod blanks;
mod crc;
mod fault;
mod frame;
mod laws;
mod log;
mod reading;
mod writes;

pub use batch::Batch;
pub use behind::Behind;
pub use blanks::blank;
pub use crc::checksum;
pub use fault::{LogFault, ReadFault};
pub use frame::{HEAD_LENGTH, TEXT_LIMIT, is_text};
pub use laws::{
    a_commit_leaves_no_damage, a_part_changes_alone, bytes_stand_for, no_outcome_is_damaged,
};
pub use log::Log;
pub use reading::{Found, read_into, read_log, read_record};

//! Values as bytes: each has one layout, which is read back, and nothing else is read as it. `specs/Layout.antt` has the bytes
//! of each, `specs/Reading.antt` what is read of any bytes, and where they are of no value the fault.
//!
//! Other crates lay out values of their own by the parts that are public here: a `Writer` puts them behind what is there, and
//! each function `.._of` reads one from the front of bytes, and answers it with the bytes behind it.
#![tactic(auto)]

mod asks;
mod fault;
mod fitting;
pub mod laws;
mod parts;
mod put;
mod read;
mod replies;
mod version;
mod write;
mod writer;

pub use asks::{entry_of, query_of, request_of};
pub use fault::{ReadFault, WireFault};
pub use fitting::{
    body_fits, dedup_fits, entry_fits, group_fits, name_fits, query_fits, reply_fits, request_fits,
    server_fits,
};
pub use parts::{
    body_of, dedup_of, flag_of, group_of, moment_of, name_of, receipt_of, run_of, seconds_of,
    server_of, u32_of, u64_of,
};
pub use put::{put_entry, put_query, put_receipt, put_reply, put_request};
pub use read::{read_entry, read_query, read_reply, read_request};
pub use replies::reply_of;
pub use version::VERSION;
pub use write::{write_entry, write_query, write_reply, write_request};
pub use writer::Writer;

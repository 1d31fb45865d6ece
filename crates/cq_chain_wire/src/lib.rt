//! Messages of the chain as bytes. Each but a snapshot has one layout, which is read back, and nothing else is read as it.
//! `specs/Layout.antt` has the bytes of each, `specs/Reading.antt` what is read of any bytes, and where they are of no message
//! the fault; `cq_wire` has the parts.
//!
//! Any message is written and read in pieces, one at a time: a snapshot is one for each chunk of its store (`cq_store_wire`), and
//! one that ends it. `specs/Pieces.antt` has the pieces, `specs/Feeding.antt` what is read of any.
#![tactic(auto)]

mod fitting;
pub mod laws;
mod parts;
mod pass;
mod put;
mod read;
mod reader;
mod write;
mod writer;

pub use fitting::{is_plain, message_fits, message_holds};
pub use pass::passed;
pub use read::read_message;
pub use reader::{MessageReader, Progress};
pub use write::write_message;
pub use writer::MessageWriter;

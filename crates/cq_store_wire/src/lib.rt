//! A store as bytes, a part after another, so that no more of it than one part has to be there at once. `specs/Layout.antt`
//! has the bytes of each part and `specs/Order.antt` the parts of a store in their order; `specs/Reading.antt` what is read of
//! any bytes, and `specs/Building.antt` the store that is made of the parts, or the fault. `cq_wire` has numbers and texts.
#![tactic(auto)]

mod bodies;
mod build;
mod fitting;
pub mod laws;
mod open_queue;
mod part;
mod partial_store;
mod parts;
mod pass;
mod put;
mod put_reply;
mod reader;
mod replies;
mod reply;
mod resolved;
mod writer;

pub use fitting::store_fits;
pub use open_queue::OpenQueue;
pub use part::{NameRecord, Part};
pub use pass::passed;
pub use reader::StoreReader;
pub use writer::StoreWriter;

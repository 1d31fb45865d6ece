//! Links and inboxes, which hand messages from one thread to another. A link is a ring between two threads.
//! An inbox has two ends on which requests are put and one from which they are taken. Those of a live run are all made
//! before it begins, and settled when it has ended.
#![tactic(auto)]

mod clients;
mod columns;
mod ends;
mod fault;
mod inbox;
mod link;
mod memory;
mod ports;
mod row;
mod rule;

pub use clients::{ClientPorts, ClientWires, ServerPorts, settle_clients, wire_clients};
pub use ends::{Full, PutEnd, TakeEnd};
pub use fault::LinkFault;
pub use inbox::{InLeft, InPut, InTake, Inbox};
pub use link::{CAPACITY_LIMIT, Left, Link, Putter, Taker, settle};
pub use memory::{Memory, MemoryPut, MemoryTake};
pub use ports::{Ports, settle_all, wire};
pub use rule::Tagged;

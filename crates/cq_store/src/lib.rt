//! The store of queues: it takes requests one after another, and answers each as the queue object does.
#![tactic(auto)]

mod answered;
mod clients;
/// Laws of the queue object, each the contract of a function, for every list of entries.
pub mod laws;
mod queue_record;
mod queues;
mod store;

pub use clients::ClientRecord;
pub use queue_record::QueueRecord;
pub use store::Store;

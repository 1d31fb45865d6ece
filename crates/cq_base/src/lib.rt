//! The values that the whole store speaks of: names, ids and bodies, moments, receipts, requests and
//! replies. `specs/` holds, beside their rules, the definition of the queue object.
#![tactic(auto)]

mod ask;
mod fault;
mod limits;
mod number;
mod party;
mod receipt;
mod reply;
mod text;

pub use ask::{Ask, Entry, Query, Request};
pub use fault::{BaseFault, NoMemory};
pub use limits::{
    BATCH_LIMIT, BODY_LIMIT, CHAIN_LIMIT, DEDUPLICATION_WINDOW, FIRST_ID_BYTE, FLIGHT_LIMIT,
    HISTORY_LIMIT, ID_LIMIT, LAST_ID_BYTE, MOMENT_LIMIT, NAME_LIMIT, NUMBER_LIMIT, PARTY_LIMIT,
    REMOVAL_DELAY, REQUESTS_LIMIT, SECOND, SECONDS_LIMIT, SLICE_LIMIT,
};
pub use number::{BatchSize, ChainSize, Moment, Seconds, ServerId};
pub use party::Party;
pub use receipt::Receipt;
pub use reply::{Deliveries, Delivery, Refusal, Reply};
pub use text::{Body, DedupId, GroupId, QueueName};

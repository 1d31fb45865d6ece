//! Requests as JSON: what the members of an object say, and the asks that objects say.
//! `specs/` holds the rules.
#![tactic(auto)]

mod ask;
mod fields;
mod flat;
mod flat_ask;
mod flat_reading;
mod flat_text;
mod key;
mod plain;
mod spares;
mod texts;

pub use ask::read_ask;
pub use fields::{
    ReadFault, has_only, member_at, moment_at, parse, party_at, server_at, text_at, u32_at, u64_at,
};
pub use flat::Flat;
pub use flat_ask::read_flat_ask_at;
pub use flat_reading::{FlatObject, LineScratch};
pub use key::Key;
pub use plain::plain_len;
pub use texts::queue_name;

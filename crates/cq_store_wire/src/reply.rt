//! The replies that are kept of clients, as they are spelled: each body once, and by its number after.
ghost use Rattle.std.specs.Prelude.{◌≡◌};

use cq_base::{Body, GroupId, Receipt, Reply};
use std::marker::Model;

/// A body in a kept reply.
#[derive(Drop)]
pub enum Mention {
    /// The body, at its first mention.
    First(Body),
    /// The body of that number: they are counted from 0, in the order of their first mentions.
    Again(u64),
}

/// A delivery of a kept reply.
#[derive(Drop)]
pub struct DeliveryRecord {
    pub receipt: Receipt,
    pub group: GroupId,
    pub body: Mention,
}

/// The deliveries of a kept reply, in their order.
#[derive(Drop)]
pub struct DeliveryRecords {
    items: Vec<DeliveryRecord>,
}

impl Model for DeliveryRecords {
    ghost use Rattle.std.specs.Prelude.{List};
    ghost use Rattle.cq_store_wire.specs.declared.reply.DeliveryRecord.{DeliveryRecord};

    ghost Value = { List DeliveryRecord };

    ghost view = { λ d. d.items.items };
}

impl DeliveryRecords {
    /// The deliveries of the vector. It takes no memory.
    pub fn from_vec(items: Vec<DeliveryRecord>) -> DeliveryRecords
        ensures { result ≡ items.items }
    {
        DeliveryRecords { items }
    }

    pub fn as_slice(&self) -> &[DeliveryRecord]
        ensures { result.now ≡ self.now }
    {
        self.items.as_slice()
    }
}

/// A kept reply.
#[derive(Drop)]
pub enum ReplyRecord {
    Received(DeliveryRecords),
    /// One without deliveries.
    Other(Reply),
}

//! Kept replies, each from the front of bytes.
ghost use Rattle.std.specs.Prelude.{◌≡◌};
ghost use Rattle.cq_wire.specs.Reading.{Gives, listed_at, several_at};
ghost use Rattle.cq_store_wire.specs.Reading.{delivery_record_at, mention_at, other_at, received_at, reply_record_at};

use crate::reply::{DeliveryRecord, DeliveryRecords, Mention, ReplyRecord};
use cq_wire::{ReadFault, WireFault, body_of, group_of, receipt_of, reply_of, u64_of};
use std::alloc::Global;

#[tactic(auto, unfolding(crate::specs::Reading::mention_at, crate::specs::Reading::first_at, crate::specs::Reading::again_at))]
fn mention_of(alloc: Global, bytes: &[u8]) -> Result<(Mention, &[u8]), ReadFault>
    ensures { Gives (λ x. (x.0, x.1.now)) result (mention_at bytes.now) }
{
    match bytes {
        [] => Err(ReadFault::Bad(WireFault::Truncated)),
        [0, rest @ ..] => {
            let (body, rest) = body_of(alloc, rest)?;
            Ok((Mention::First(body), rest))
        }
        [1, rest @ ..] => {
            let (number, rest) = u64_of(rest)?;
            Ok((Mention::Again(number), rest))
        }
        [_, ..] => Err(ReadFault::Bad(WireFault::BadTag)),
    }
}

#[tactic(auto, unfolding(crate::specs::Reading::delivery_record_at))]
fn delivery_record_of(alloc: Global, bytes: &[u8]) -> Result<(DeliveryRecord, &[u8]), ReadFault>
    ensures { Gives (λ x. (x.0, x.1.now)) result (delivery_record_at bytes.now) }
{
    let (receipt, rest) = match receipt_of(bytes) {
        Ok(read) => read,
        Err(fault) => return Err(fault),
    };
    let (group, rest) = group_of(alloc, rest)?;
    let (body, rest) = match mention_of(alloc, rest) {
        Ok(read) => read,
        Err(fault) => return Err(fault),
    };
    Ok((
        DeliveryRecord {
            receipt,
            group,
            body,
        },
        rest,
    ))
}

/// So many deliveries. The count isn't believed: memory is taken for each once it is read.
fn several_of(
    alloc: Global,
    count: u64,
    bytes: &[u8],
) -> Result<(Vec<DeliveryRecord>, &[u8]), ReadFault>
    ensures { Gives (λ x. (x.0.items, x.1.now)) result (several_at delivery_record_at count bytes.now) }
{
    let mut records = Vec::new(alloc);
    let mut rest = bytes;
    for _ in 0..count {
        let (record, behind) = match delivery_record_of(alloc, rest) {
            Ok(read) => read,
            Err(fault) => return Err(fault),
        };
        records.push(record)?;
        rest = behind;
    }
    Ok((records, rest))
}

#[tactic(auto, unfolding(crate::specs::Reading::received_at, cq_wire::specs::Reading::listed_at))]
fn received_of(alloc: Global, bytes: &[u8]) -> Result<(ReplyRecord, &[u8]), ReadFault>
    ensures { Gives (λ x. (x.0, x.1.now)) result (received_at bytes.now) }
{
    let (count, rest) = u64_of(bytes)?;
    let (records, rest) = several_of(alloc, count, rest)?;
    let records = DeliveryRecords::from_vec(records);
    Ok((ReplyRecord::Received(records), rest))
}

#[tactic(auto, unfolding(crate::specs::Reading::other_at))]
fn other_of(alloc: Global, bytes: &[u8]) -> Result<(ReplyRecord, &[u8]), ReadFault>
    ensures { Gives (λ x. (x.0, x.1.now)) result (other_at bytes.now) }
{
    let (reply, rest) = match reply_of(alloc, bytes) {
        Ok(read) => read,
        Err(fault) => return Err(fault),
    };
    Ok((ReplyRecord::Other(reply), rest))
}

/// A kept reply. O(bytes of it), and memory for its deliveries and their texts alone.
#[tactic(auto, unfolding(crate::specs::Reading::reply_record_at))]
pub fn reply_record_of(alloc: Global, bytes: &[u8]) -> Result<(ReplyRecord, &[u8]), ReadFault>
    ensures { Gives (λ x. (x.0, x.1.now)) result (reply_record_at bytes.now) }
{
    match bytes {
        [] => Err(ReadFault::Bad(WireFault::Truncated)),
        [3, rest @ ..] => received_of(alloc, rest),
        [_, ..] => other_of(alloc, bytes),
    }
}

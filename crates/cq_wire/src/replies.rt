//! Deliveries and replies, each from the front of bytes.
ghost use Rattle.std.specs.Prelude.{◌≡◌};
ghost use Rattle.cq_wire.specs.Reading.{Gives, several_at, listed_at, delivery_at, refusal_of, created_at, sent_at, received_at, deleted_at, counts_at, refused_at, reply_at};

use crate::fault::{ReadFault, WireFault};
use crate::parts::{body_of, flag_of, group_of, receipt_of, u32_of, u64_of};
use cq_base::{Deliveries, Delivery, Refusal, Reply};
use std::alloc::Global;

#[tactic(auto, unfolding(crate::specs::Reading::delivery_at))]
fn delivery_of(alloc: Global, bytes: &[u8]) -> Result<(Delivery, &[u8]), ReadFault>
    ensures { Gives (λ x. (x.0, x.1.now)) result (delivery_at bytes.now) }
{
    let (receipt, rest) = match receipt_of(bytes) {
        Ok(read) => read,
        Err(fault) => return Err(fault),
    };
    let (group, rest) = group_of(alloc, rest)?;
    let (body, rest) = body_of(alloc, rest)?;
    Ok((
        Delivery {
            receipt,
            group,
            body,
        },
        rest,
    ))
}

/// So many deliveries. The count isn't believed: memory is taken for each once it is read.
fn several_of(alloc: Global, count: u64, bytes: &[u8]) -> Result<(Vec<Delivery>, &[u8]), ReadFault>
    ensures { Gives (λ x. (x.0.items, x.1.now)) result (several_at delivery_at count bytes.now) }
{
    let mut deliveries = Vec::new(alloc);
    let mut rest = bytes;
    for _ in 0..count {
        let (delivery, behind) = match delivery_of(alloc, rest) {
            Ok(read) => read,
            Err(fault) => return Err(fault),
        };
        deliveries.push(delivery)?;
        rest = behind;
    }
    Ok((deliveries, rest))
}

#[tactic(auto, unfolding(crate::specs::Reading::listed_at))]
fn deliveries_of(alloc: Global, bytes: &[u8]) -> Result<(Deliveries, &[u8]), ReadFault>
    ensures { Gives (λ x. (x.0, x.1.now)) result (listed_at delivery_at bytes.now) }
{
    let (count, rest) = u64_of(bytes)?;
    let (deliveries, rest) = several_of(alloc, count, rest)?;
    Ok((Deliveries::from_vec(deliveries), rest))
}

#[tactic(auto, unfolding(crate::specs::Reading::refusal_of))]
fn refusal_of(number: u32) -> Result<Refusal, ReadFault>
    ensures { Gives (λ x. x) result (refusal_of number) }
{
    match number {
        1 => Ok(Refusal::QueueDoesNotExist),
        2 => Ok(Refusal::QueueNameExists),
        3 => Ok(Refusal::QueueDeletedRecently),
        4 => Ok(Refusal::ReceiptHandleIsInvalid),
        5 => Ok(Refusal::MessageNotInflight),
        6 => Ok(Refusal::VisibilityBeyondLimit),
        7 => Ok(Refusal::StaleNumber),
        8 => Ok(Refusal::MissingDedupId),
        _ => Err(ReadFault::Bad(WireFault::BadNumber)),
    }
}

#[tactic(auto, unfolding(crate::specs::Reading::created_at))]
fn created_of(bytes: &[u8]) -> Result<(Reply, &[u8]), ReadFault>
    ensures { Gives (λ x. (x.0, x.1.now)) result (created_at bytes.now) }
{
    let (incarnation, rest) = u64_of(bytes)?;
    Ok((Reply::Created(incarnation), rest))
}

#[tactic(auto, unfolding(crate::specs::Reading::sent_at))]
fn sent_of(bytes: &[u8]) -> Result<(Reply, &[u8]), ReadFault>
    ensures { Gives (λ x. (x.0, x.1.now)) result (sent_at bytes.now) }
{
    let (sequence, rest) = u64_of(bytes)?;
    Ok((Reply::Sent(sequence), rest))
}

#[tactic(auto, unfolding(crate::specs::Reading::received_at))]
fn received_of(alloc: Global, bytes: &[u8]) -> Result<(Reply, &[u8]), ReadFault>
    ensures { Gives (λ x. (x.0, x.1.now)) result (received_at bytes.now) }
{
    let (deliveries, rest) = match deliveries_of(alloc, bytes) {
        Ok(read) => read,
        Err(fault) => return Err(fault),
    };
    Ok((Reply::Received(deliveries), rest))
}

#[tactic(auto, unfolding(crate::specs::Reading::deleted_at))]
fn deleted_of(bytes: &[u8]) -> Result<(Reply, &[u8]), ReadFault>
    ensures { Gives (λ x. (x.0, x.1.now)) result (deleted_at bytes.now) }
{
    let (removed, rest) = flag_of(bytes)?;
    Ok((Reply::Deleted(removed), rest))
}

#[tactic(auto, unfolding(crate::specs::Reading::counts_at))]
fn counts_of(bytes: &[u8]) -> Result<(Reply, &[u8]), ReadFault>
    ensures { Gives (λ x. (x.0, x.1.now)) result (counts_at bytes.now) }
{
    let (visible, rest) = u64_of(bytes)?;
    let (in_flight, rest) = u64_of(rest)?;
    Ok((Reply::Counts { visible, in_flight }, rest))
}

#[tactic(auto, unfolding(crate::specs::Reading::refused_at))]
fn refused_of(bytes: &[u8]) -> Result<(Reply, &[u8]), ReadFault>
    ensures { Gives (λ x. (x.0, x.1.now)) result (refused_at bytes.now) }
{
    let (number, rest) = u32_of(bytes)?;
    let refusal = refusal_of(number)?;
    Ok((Reply::Refused(refusal), rest))
}

/// A reply. O(bytes of it), and memory for its deliveries and their texts alone.
#[tactic(auto, unfolding(crate::specs::Reading::reply_at))]
pub fn reply_of(alloc: Global, bytes: &[u8]) -> Result<(Reply, &[u8]), ReadFault>
    ensures { Gives (λ x. (x.0, x.1.now)) result (reply_at bytes.now) }
{
    match bytes {
        [] => Err(ReadFault::Bad(WireFault::Truncated)),
        [0, rest @ ..] => created_of(rest),
        [1, rest @ ..] => Ok((Reply::Removed, rest)),
        [2, rest @ ..] => sent_of(rest),
        [3, rest @ ..] => received_of(alloc, rest),
        [4, rest @ ..] => deleted_of(rest),
        [5, rest @ ..] => Ok((Reply::Changed, rest)),
        [6, rest @ ..] => counts_of(rest),
        [7, rest @ ..] => refused_of(rest),
        [_, ..] => Err(ReadFault::Bad(WireFault::BadTag)),
    }
}

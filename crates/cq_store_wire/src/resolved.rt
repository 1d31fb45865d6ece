//! Kept replies with the bodies that they mention.
ghost use Rattle.std.specs.Prelude.{◌≡◌, None, IfOk};
ghost use Rattle.cq_wire.specs.Reading.{Gives};
ghost use Rattle.cq_store_wire.specs.Bodies.{all_resolved, and_bodies, and_body, and_reply, deliveries_in, other_resolved, reply_resolved, resolved};

use crate::bodies::Bodies;
use crate::reply::{DeliveryRecord, ReplyRecord};
use cq_base::{Deliveries, Delivery, Reply};
use cq_wire::{ReadFault, WireFault};
use std::alloc::Global;

#[tactic(auto, unfolding(crate::specs::Bodies::resolved))]
fn delivery_of(bodies: &mut Bodies, kept: &DeliveryRecord) -> Result<Delivery, ReadFault>
    ensures delivery { Gives (λ d. d) result (resolved bodies.old kept.now) }
    ensures known { IfOk result (λ d. bodies.new ≡ and_body bodies.old d.body) }
{
    let body = match bodies.resolve(&kept.body) {
        Ok(body) => body,
        Err(fault) => return Err(fault),
    };
    match kept.group.try_copy() {
        Ok(group) => Ok(Delivery {
            receipt: kept.receipt,
            group,
            body,
        }),
        Err(_) => Err(ReadFault::NoMemory),
    }
}

fn several_of(
    alloc: Global,
    bodies: &mut Bodies,
    records: &[DeliveryRecord],
) -> Result<Vec<Delivery>, ReadFault>
    ensures deliveries { Gives (λ d. d.items) result (all_resolved bodies.old records.now) }
    ensures known { IfOk result (λ d. bodies.new ≡ and_bodies bodies.old d.items) }
{
    let mut deliveries = Vec::with_capacity(alloc, records.len())?;
    for kept in records {
        let delivery = match delivery_of(bodies, kept) {
            Ok(delivery) => delivery,
            Err(fault) => return Err(fault),
        };
        deliveries.push(delivery)?;
    }
    Ok(deliveries)
}

/// A reply that mentions no bodies: it has no deliveries.
fn other_of(reply: Reply) -> Result<Reply, ReadFault>
    ensures reply { Gives (λ r. r) result (other_resolved reply (deliveries_in reply)) }
    ensures without { IfOk result (λ r. deliveries_in r ≡ None) }
{
    if matches!(&reply, Reply::Received(_)) {
        return Err(ReadFault::Bad(WireFault::BadTag));
    }
    Ok(reply)
}

/// The reply, and the bodies so far with those that it mentions first. O(bytes of these and deliveries), expected and amortized.
#[tactic(auto, unfolding(crate::specs::Bodies::reply_resolved))]
pub fn reply_of(alloc: Global, bodies: &mut Bodies, kept: ReplyRecord) -> Result<Reply, ReadFault>
    ensures reply { Gives (λ r. r) result (reply_resolved bodies.old kept) }
    ensures known { IfOk result (λ r. bodies.new ≡ and_reply bodies.old r) }
{
    match kept {
        ReplyRecord::Received(records) => {
            let deliveries = several_of(alloc, bodies, records.as_slice())?;
            Ok(Reply::Received(Deliveries::from_vec(deliveries)))
        }
        ReplyRecord::Other(reply) => other_of(reply),
    }
}

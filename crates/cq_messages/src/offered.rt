//! Messages as they are handed out.
ghost use Rattle.std.specs.Prelude.{◌≡◌, ◌<◌, ◌++◌, map, get_or, take, IfOk, OnOk, option_to_list};
ghost use Rattle.std.specs.List.{flat_map};
ghost use Rattle.cq_base.specs.queue.Effects.{message_at};
ghost use Rattle.cq_base.specs.queue.Receiving.{delivery_of};
ghost use Rattle.cq_messages.specs.Slots.{live, IsAscending};
ghost use Rattle.cq_messages.specs.within.Offered.{numbered};

use crate::messages::message_in;
use crate::slot::Slot;
use cq_base::{Delivery, NoMemory};
use std::alloc::Global;

/// Adds the message of that sequence number as it is handed out, if it isn't deleted.
fn push_delivery(
    deliveries: &mut Vec<Delivery>,
    slots: &[Slot],
    incarnation: u64,
    sequence: u64,
) -> Result<(), NoMemory>
    requires incarnation { 0 < incarnation }
    requires ascending { IsAscending 0 slots.now }
    ensures { OnOk result (deliveries.new.items
        ≡ deliveries.old.items ++ map (delivery_of incarnation) (option_to_list (message_at sequence (live slots.now)))) }
{
    if let Some(message) = message_in(slots, sequence) {
        deliveries.push(message.delivery(incarnation)?)?;
    }
    Ok(())
}

/// The messages of these sequence numbers that aren't deleted, as they are handed out: O(numbers, each log places).
pub fn deliveries_of(
    alloc: Global,
    slots: &[Slot],
    incarnation: u64,
    numbers: &[u64],
) -> Result<Vec<Delivery>, NoMemory>
    requires incarnation { 0 < incarnation }
    requires ascending { IsAscending 0 slots.now }
    ensures { IfOk result (λ deliveries. deliveries.items
        ≡ map (delivery_of incarnation) (numbered (live slots.now) numbers.now)) }
{
    let mut deliveries = Vec::with_capacity(alloc, numbers.len())?;
    for i in 0..numbers.len() {
        push_delivery(&mut deliveries, slots, incarnation, numbers[i])?;
    }
    Ok(deliveries)
}

//! Slots of deleted messages are given back.
ghost use Rattle.std.specs.Prelude.{◌≡◌, ◌<◌, ◌≤◌, length, get_or, set};
ghost use Rattle.cq_messages.specs.within.Gathered.{AreGathered, full_slots};
ghost use Rattle.cq_messages.specs.declared.slot.TheConstants.{NEVER};

use crate::slot::{NEVER, Slot};
use cq_min_index::{MinTree, NumberList, Packed};

/// Moves a number to that place, which isn't after its own. Where it stood is the largest number then.
fn move_down<T: NumberList>(beside: &mut T, from: usize, to: usize)
    requires from { from < length (T.numbers beside.old) }
    requires to { to ≤ from }
    ensures { T.numbers beside.new ≡ set (set (T.numbers beside.old) from NEVER) to (get_or (T.numbers beside.old) from 0) }
{
    let number = beside.get(from);
    if to < from {
        beside.set(from, NEVER);
        beside.set(to, number);
    }
}

/// Moves the numbers beside slots that have a message to the front, in their order. O(slots log slots).
fn gather<T: NumberList>(beside: &mut T, slots: &[Slot])
    requires { length slots.now ≤ length (T.numbers beside.old) }
    ensures { AreGathered slots.now (T.numbers beside.old) (T.numbers beside.new) }
{
    let mut to = 0;
    for from in 0..slots.len() {
        if slots[from].message.is_some() {
            move_down(beside, from, to);
            to += 1;
        }
    }
}

/// Takes out the slots of deleted messages. It takes no memory. O(slots log slots).
pub fn compact(slots: &mut Vec<Slot>, lead_times: &mut MinTree, flight_ends: &mut Packed)
    requires lead_times { length slots.old.items ≤ length lead_times.old }
    requires flight_ends { length slots.old.items ≤ length flight_ends.old }
    ensures slots { slots.new.items ≡ full_slots slots.old.items }
    ensures lead_times { AreGathered slots.old.items lead_times.old lead_times.new }
    ensures flight_ends { AreGathered slots.old.items flight_ends.old flight_ends.new }
{
    gather(lead_times, slots);
    gather(flight_ends, slots);
    slots.retain(|slot| slot.message.is_some());
}

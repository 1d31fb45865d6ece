//! Which messages a receive hands out, from one open group to the next.
ghost use Rattle.std.specs.Prelude.{◌≡◌, ◌<◌, ◌≤◌, ◌++◌, [], ◌∷◌, take, length, get_or, map, IfSome, IsNone};
ghost use Rattle.arrayvec.specs.ArrayVec.{array_vec_len};
ghost use Rattle.cq_messages.specs.within.Indexed.{AreWaits, AreNumbers};
ghost use Rattle.cq_messages.specs.Changes.{numbers_to_hand};
ghost use Rattle.cq_base.specs.queue.Receiving.{leads};
ghost use Rattle.cq_messages.specs.within.Opened.{numbers_for, numbers_led, leaders_upto};
ghost use Rattle.cq_messages.specs.within.Passing.{NonePasses, IsNext};
ghost use Rattle.cq_messages.specs.Slots.{live, gone, IsAscending};

use crate::groups::{Group, Groups};
use crate::slot::Slot;
use arrayvec::ArrayVec;
use cq_base::{BATCH_LIMIT, BatchSize, Moment};
use cq_min_index::{MinSearch, MinTree};

/// The most messages that one receive hands out.
const MOST: usize = BATCH_LIMIT as usize;

/// The sequence numbers of the messages that one receive hands out.
pub type Numbers = ArrayVec<u64, MOST>;

/// Adds one more number, if fewer than `size` are there.
fn push_up_to(numbers: &mut Numbers, size: BatchSize, number: u64)
    requires { length numbers.old.items ≤ size }
    ensures { numbers.new.items ≡ take size (numbers.old.items ++ number ∷ []) }
{
    if numbers.len() < usize::from(size.get()) {
        numbers.push(number);
    }
}

/// Adds the numbers of a group, up to `size` of all. O(size).
fn push_group(numbers: &mut Numbers, size: BatchSize, group: &Group)
    requires { length numbers.old.items ≤ size }
    ensures { numbers.new.items ≡ take size (numbers.old.items ++ group.now.numbers) }
{
    let end = group.len().min(usize::from(size.get()));
    for i in 0..end {
        push_up_to(numbers, size, group.number(i));
    }
}

/// The first place from `from` on whose message leads an open group. O(log places).
fn next_open(slots: &[Slot], lead_times: &MinTree, moment: Moment, from: usize) -> Option<usize>
    requires ascending { IsAscending 0 slots.now }
    requires lead_times { AreWaits slots.now lead_times.now }
    ensures some { IfSome result (IsNext (leads moment (live slots.now)) slots.now from) }
    ensures none { IsNone result → NonePasses (leads moment (live slots.now)) slots.now from (length slots.now) }
{
    match lead_times.first_at_most(from, moment.get()) {
        Some(place) if place < slots.len() => Some(place),
        _ => None,
    }
}

/// Adds the numbers of the group of the message at that place, up to `size` of all.
fn push_open(numbers: &mut Numbers, size: BatchSize, slots: &[Slot], groups: &Groups, place: usize)
    requires numbers { length numbers.old.items ≤ size }
    requires place { place < length slots.now }
    requires groups { AreNumbers slots.now groups.now }
    ensures { numbers.new.items ≡ take size (numbers.old.items
        ++ numbers_for (live slots.now) (get_or slots.now place gone).message) }
{
    if let Some(message) = &slots[place].message {
        if let Some(group) = groups.get(&message.group) {
            push_group(numbers, size, group);
        }
    }
}

/// The sequence numbers of the messages that a receive of that size hands out, in order. It takes no
/// memory. O(size log places).
pub fn numbers_to_hand(
    slots: &[Slot],
    lead_times: &MinTree,
    groups: &Groups,
    moment: Moment,
    size: BatchSize,
) -> Numbers
    requires ascending { IsAscending 0 slots.now }
    requires lead_times { AreWaits slots.now lead_times.now }
    requires groups { AreNumbers slots.now groups.now }
    ensures { result.items ≡ numbers_to_hand size moment (live slots.now) }
{
    let mut numbers = Numbers::new();
    let mut from = 0;
    while numbers.len() < usize::from(size.get()) {
        match next_open(slots, lead_times, moment, from) {
            Some(place) => {
                push_open(&mut numbers, size, slots, groups, place);
                from = place + 1;
            }
            None => return numbers,
        }
    }
    numbers
}

//! One more message behind all others: its place, and the message itself.
ghost use Rattle.std.specs.Prelude.{◌≡◌, ◌≢◌, ℕ, ◌+◌, ◌==◌, ◌++◌, [], ◌∷◌, ◌<◌, ◌≤◌, cond, length, get_or, take, vec_len, vec_capacity, OnOk, OnErr, None};
ghost use Rattle.cq_base.specs.queue.Messages as object;
ghost use Rattle.cq_base.specs.Relations.{Among};
ghost use Rattle.cq_messages.specs.within.Groups.{numbers_at};
ghost use Rattle.cq_messages.specs.within.Indexed.{IsIndexed};
ghost use Rattle.cq_messages.specs.declared.slot.TheConstants.{NEVER};
ghost use Rattle.cq_messages.specs.Slots.{live, gone};

use crate::groups::Groups;
use crate::message::Message;
use crate::slot::{NEVER, Slot};
use cq_base::{GroupId, NoMemory};
use cq_min_index::{MinTree, NumberList, Packed};

/// Makes a place behind all others: the slots of deleted messages at the end go, and there is room for one more slot and
/// for what stands beside it. The messages stay, with memory or without. Amortized O(log n).
pub fn make_place(
    slots: &mut Vec<Slot>,
    lead_times: &mut MinTree,
    flight_ends: &mut Packed,
    groups: &Groups,
) -> Result<(), NoMemory>
    requires { IsIndexed slots.old.items lead_times.old flight_ends.old groups.now }
    ensures indexed { IsIndexed slots.new.items lead_times.new flight_ends.new groups.now }
    ensures same { live slots.new.items ≡ live slots.old.items }
    ensures last { (k : ℕ) → k + 1 ≡ length slots.new.items → (get_or slots.new.items k gone).message ≢ None }
    ensures slots { OnOk result (vec_len slots.new < vec_capacity slots.new) }
    ensures lead_times { OnOk result (length slots.new.items < length lead_times.new) }
    ensures flight_ends { OnOk result (length slots.new.items < length flight_ends.new) }
{
    trim(slots);
    slots.reserve(1)?;
    let place = slots.len();
    make_room(lead_times, place)?;
    make_room(flight_ends, place)
}

/// Adds a message in the place behind all others, which was made. After `NoMemory` the messages are as before. O(log n).
pub fn append(
    slots: &mut Vec<Slot>,
    lead_times: &mut MinTree,
    flight_ends: &mut Packed,
    groups: &mut Groups,
    message: Message,
) -> Result<(), NoMemory>
    requires indexed { IsIndexed slots.old.items lead_times.old flight_ends.old groups.old }
    requires last { (k : ℕ) → k + 1 ≡ length slots.old.items → (get_or slots.old.items k gone).message ≢ None }
    requires slots { vec_len slots.old < vec_capacity slots.old }
    requires lead_times { length slots.old.items < length lead_times.old }
    requires flight_ends { length slots.old.items < length flight_ends.old }
    requires fresh { message.until ≡ 0 }
    requires order { (m : object.Message) → Among m (live slots.old.items) → m.sequence < message.sequence }
    ensures indexed { IsIndexed slots.new.items lead_times.new flight_ends.new groups.new }
    ensures ok { OnOk result (live slots.new.items ≡ live slots.old.items ++ message ∷ []) }
    ensures err { OnErr result (live slots.new.items ≡ live slots.old.items) }
{
    let wait = first_wait(has_none(groups, &message.group));
    let alloc = *slots.allocator();
    groups.add(alloc, &message.group, message.sequence)?;
    let place = slots.len();
    let sequence = message.sequence;
    slots.push_reserved(Slot {
        sequence,
        message: Some(message),
    });
    lead_times.set(place, wait);
    flight_ends.set(place, NEVER);
    Ok(())
}

/// Takes the slots of deleted messages from the end.
fn trim(slots: &mut Vec<Slot>)
    ensures prefix { slots.new.items ≡ take (length slots.new.items) slots.old.items }
    ensures same { live slots.new.items ≡ live slots.old.items }
    ensures last { (k : ℕ) → k + 1 ≡ length slots.new.items → (get_or slots.new.items k gone).message ≢ None }
{
    let mut len = slots.len();
    while len > 0 && slots[len - 1].message.is_none() {
        slots.truncate(len - 1);
        len -= 1;
    }
}

/// Makes the list longer than that place. What stands at earlier places stays, with memory or without.
fn make_room<T: NumberList>(beside: &mut T, place: usize) -> Result<(), NoMemory>
    requires { place ≤ length (T.numbers beside.old) }
    ensures ok { OnOk result (place < length (T.numbers beside.new)) }
    ensures long { place ≤ length (T.numbers beside.new) }
    ensures same { (k : ℕ) → k < place → get_or (T.numbers beside.new) k 0 ≡ get_or (T.numbers beside.old) k 0 }
{
    if beside.len() == place {
        beside.push(NEVER)?;
    }
    Ok(())
}

/// Whether a group has no message.
fn has_none(groups: &Groups, group: &GroupId) -> bool
    ensures { result ≡ (length (numbers_at groups.now group.now) == 0) }
{
    match groups.get(group) {
        Some(kept) => kept.len() == 0,
        None => true,
    }
}

/// From when on a new message of a group leads it, if its group is open.
fn first_wait(is_first: bool) -> u64
    ensures { result ≡ cond is_first 0 NEVER }
{
    if is_first { 0 } else { NEVER }
}

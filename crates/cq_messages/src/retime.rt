//! Other timeouts for a message, and what is kept beside it.
ghost use Rattle.std.specs.Prelude.{◌≡◌, ◌≤◌, ◌<◌, length, get_or, set, Some};
ghost use Rattle.cq_base.specs.declared.limits.TheConstants.{HISTORY_LIMIT};
ghost use Rattle.cq_base.specs.queue.Messages as object;
ghost use Rattle.cq_messages.specs.within.Indexed.{IsIndexed};
ghost use Rattle.cq_messages.specs.Slots.{live, gone};
ghost use Rattle.cq_messages.specs.within.Touched.{retimed_in};

use crate::groups::Groups;
use crate::heads::refresh_after;
use crate::slot::Slot;
use cq_base::Moment;
use cq_min_index::{MinTree, NumberList, Packed};

/// Gives the message at that place other handings and another timeout, and answers when the timeout ended before.
fn write_times(
    slots: &mut Vec<Slot>,
    place: usize,
    handings: u64,
    handed_at: Moment,
    until: u64,
) -> u64
    requires place { place < length slots.old.items }
    requires few { handings ≤ HISTORY_LIMIT }
    ensures slots { slots.new.items ≡ set slots.old.items place
        (retimed_in handings handed_at until (get_or slots.old.items place gone)) }
    ensures before { (m : object.Message) → (get_or slots.old.items place gone).message ≡ Some m → result ≡ m.until }
{
    if let Some(message) = &mut slots[place].message {
        let before = message.until;
        message.handings = handings;
        message.handed_at = handed_at;
        message.until = until;
        return before;
    }
    0
}

/// The same, and what is kept beside the messages follows. It takes no memory. O(log places) where the timeout doesn't
/// end earlier than before, or else O(messages of the group that were handed out, each log places).
pub fn retime(
    slots: &mut Vec<Slot>,
    lead_times: &mut MinTree,
    flight_ends: &mut Packed,
    groups: &mut Groups,
    place: usize,
    handings: u64,
    handed_at: Moment,
    until: u64,
)
    requires place { place < length slots.old.items }
    requires few { handings ≤ HISTORY_LIMIT }
    requires indexed { IsIndexed slots.old.items lead_times.old flight_ends.old groups.old }
    ensures slots { slots.new.items ≡ set slots.old.items place
        (retimed_in handings handed_at until (get_or slots.old.items place gone)) }
    ensures indexed { IsIndexed slots.new.items lead_times.new flight_ends.new groups.new }
    ensures count { length (live slots.new.items) ≡ length (live slots.old.items) }
{
    let before = write_times(slots, place, handings, handed_at, until);
    if let Some(message) = &slots[place].message {
        flight_ends.set(place, u64::MAX - until);
        groups.raise(&message.group, message.sequence);
        refresh_after(slots, lead_times, groups, &message.group, before, until);
    }
}

//! The oldest message of a group, and how long the group is busy.
ghost use Rattle.std.specs.Prelude.{◌≡◌, ◌≤◌, ◌<◌, [], max, length, get_or, set, ℕ, IfSome, IsNone};
ghost use Rattle.cq_base.specs.Relations.{Among};
ghost use Rattle.cq_base.specs.queue.Messages as object;
ghost use Rattle.cq_messages.specs.within.Indexed.{AreNumbers, AreHanded};
ghost use Rattle.cq_messages.specs.Slots.{live, gone, busy, in_group, IsAscending};
ghost use Rattle.cq_messages.specs.within.Touched.{IsHead};

use crate::groups::Groups;
use crate::places::place_of;
use crate::slot::Slot;
use cq_base::GroupId;
use cq_min_index::{MinTree, NumberList};

/// The place of the oldest message of a group. O(log places).
pub fn head_of(slots: &[Slot], groups: &Groups, group: &GroupId) -> Option<usize>
    requires ascending { IsAscending 0 slots.now }
    requires groups { AreNumbers slots.now groups.now }
    ensures some { IfSome result (IsHead slots.now group.now) }
    ensures none { IsNone result → in_group group.now (live slots.now) ≡ [] }
{
    match groups.get(group) {
        Some(kept) if kept.len() != 0 => place_of(slots, kept.number(0)),
        _ => None,
    }
}

/// When the timeout of the message of that sequence number ends; 0 if there is none.
fn until_at(slots: &[Slot], sequence: u64) -> u64
    requires ascending { IsAscending 0 slots.now }
    ensures { (m : object.Message) → Among m (live slots.now) → m.sequence ≡ sequence → result ≡ m.until }
{
    match place_of(slots, sequence) {
        Some(place) => match &slots[place].message {
            Some(message) => message.until,
            None => 0,
        },
        None => 0,
    }
}

/// When the last of the timeouts of a group's messages ends. O(messages of the group that were handed out,
/// each log places).
pub fn busy_of(slots: &[Slot], groups: &Groups, group: &GroupId) -> u64
    requires ascending { IsAscending 0 slots.now }
    requires groups { AreNumbers slots.now groups.now }
    requires handed { AreHanded slots.now groups.now }
    ensures { result ≡ busy (in_group group.now (live slots.now)) }
{
    let mut most: u64 = 0;
    if let Some(kept) = groups.get(group) {
        for i in 0..kept.len() {
            if kept.number(i) > kept.handed() {
                return most;
            }
            most = most.max(until_at(slots, kept.number(i)));
        }
    }
    most
}

/// Writes beside a group's oldest message when the last of its timeouts ends. O(messages of the group that
/// were handed out, each log places).
pub fn refresh(slots: &[Slot], lead_times: &mut MinTree, groups: &Groups, group: &GroupId)
    requires ascending { IsAscending 0 slots.now }
    requires groups { AreNumbers slots.now groups.now }
    requires handed { AreHanded slots.now groups.now }
    requires long { length slots.now ≤ length lead_times.old }
    ensures head { (h : ℕ) → IsHead slots.now group.now h
        → lead_times.new ≡ set lead_times.old h (busy (in_group group.now (live slots.now))) }
    ensures none { in_group group.now (live slots.now) ≡ [] → lead_times.new ≡ lead_times.old }
{
    if let Some(head) = head_of(slots, groups, group) {
        let busy = busy_of(slots, groups, group);
        lead_times.set(head, busy);
    }
}

/// Writes beside a group's oldest message that it waits at least up to `until`. O(log places).
fn raise_wait(
    slots: &[Slot],
    lead_times: &mut MinTree,
    groups: &Groups,
    group: &GroupId,
    until: u64,
)
    requires ascending { IsAscending 0 slots.now }
    requires groups { AreNumbers slots.now groups.now }
    requires long { length slots.now ≤ length lead_times.old }
    ensures head { (h : ℕ) → IsHead slots.now group.now h
        → lead_times.new ≡ set lead_times.old h (max (get_or lead_times.old h 0) until) }
    ensures none { in_group group.now (live slots.now) ≡ [] → lead_times.new ≡ lead_times.old }
{
    if let Some(head) = head_of(slots, groups, group) {
        let wait = lead_times.get(head).max(until);
        lead_times.set(head, wait);
    }
}

/// As `refresh`, after the timeout of one of the group's messages was made to end at `until` in place of `before`.
/// O(log places) where it doesn't end earlier than before.
pub fn refresh_after(
    slots: &[Slot],
    lead_times: &mut MinTree,
    groups: &Groups,
    group: &GroupId,
    before: u64,
    until: u64,
)
    requires ascending { IsAscending 0 slots.now }
    requires groups { AreNumbers slots.now groups.now }
    requires handed { AreHanded slots.now groups.now }
    requires long { length slots.now ≤ length lead_times.old }
    requires raised { before ≤ until → (h : ℕ) → IsHead slots.now group.now h
        → max (get_or lead_times.old h 0) until ≡ busy (in_group group.now (live slots.now)) }
    ensures head { (h : ℕ) → IsHead slots.now group.now h
        → lead_times.new ≡ set lead_times.old h (busy (in_group group.now (live slots.now))) }
    ensures none { in_group group.now (live slots.now) ≡ [] → lead_times.new ≡ lead_times.old }
{
    if before <= until {
        raise_wait(slots, lead_times, groups, group, until);
    } else {
        refresh(slots, lead_times, groups, group);
    }
}

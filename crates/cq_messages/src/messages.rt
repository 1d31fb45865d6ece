//! The messages of an incarnation, and what is kept beside them to find those that are wanted.
ghost use Rattle.std.specs.List.{list_any, All};
ghost use Rattle.std.specs.Prelude.{◌≡◌, ℕ, ◌≢◌, ◌+◌, ◌==◌, ◌++◌, [], ◌∷◌, ◌<◌, ◌≤◌, map, filter, not, cond, length, get_or, take, set, IfOk, IfSome, OnOk, OnErr, Some, None};
ghost use Rattle.std.specs.Option.{option_map};
ghost use Rattle.cq_base.specs.declared.limits.TheConstants.{HISTORY_LIMIT};
ghost use Rattle.cq_base.specs.queue.Effects.{message_at};
ghost use Rattle.cq_base.specs.queue.Messages as object;
ghost use Rattle.cq_base.specs.queue.Receiving.{to_hand, delivery_of, is_in_flight};
ghost use Rattle.cq_base.specs.Relations.{Among};
ghost use Rattle.cq_messages.specs.within.Groups.{numbers_at};
ghost use Rattle.cq_messages.specs.within.Indexed.{IsIndexed};
ghost use Rattle.cq_messages.specs.Changes.{marked, hidden_until, is_other, numbers_to_hand, handed_at_until};
ghost use Rattle.cq_messages.specs.declared.slot.TheConstants.{NEVER};
ghost use Rattle.cq_messages.specs.Slots.{live, gone, IsAscending};
ghost use Rattle.cq_messages.specs.within.Touched.{retimed};

mod restore;

use crate::append::{append, make_place};
use crate::compact::compact;
use crate::copies::copies;
use crate::counts::count_in_flight;
use crate::groups::Groups;
use crate::heads::refresh;
use crate::message::Message;
use crate::offered::deliveries_of;
use crate::open::{self, Numbers};
use crate::places::place_of;
use crate::retime::retime;
use crate::slot::{NEVER, Slot};
use cq_base::{BatchSize, Delivery, Moment, NoMemory};
use cq_min_index::{MinTree, NumberList, Packed, new_min_tree};
use std::alloc::Global;
use std::marker::Model;

/// The messages of an incarnation that aren't deleted, in order of sending. Contracts see the list of them.
pub struct Messages {
    /// In order of sequence numbers. A message that is deleted leaves its slot behind, up to a later push.
    slots: Vec<Slot>,
    /// Beside each slot the moment from which its message is the oldest of an open group, if it can be.
    lead_times: MinTree,
    /// Beside each slot a number that is the smaller, the later its message's timeout ends.
    flight_ends: Packed,
    groups: Groups,
    /// How many messages aren't deleted.
    count: u64,
}

/// Written out, not derived: CONTRIBUTING.md, "Drop".
impl Drop for Messages {
    fn drop(self) {
        let Messages {
            slots: _,
            lead_times: _,
            flight_ends: _,
            groups: _,
            count: _,
        } = self;
    }
}

impl Model for Messages {
    ghost use Rattle.std.specs.Prelude.{List, length, ◌≡◌};
    ghost use Rattle.cq_base.specs.queue.Messages as object;
    ghost use Rattle.cq_messages.specs.Slots.{live};
    ghost use Rattle.cq_messages.specs.within.Indexed.{IsIndexed};

    ghost Value = { List object.Message };

    ghost view = { λ m. live m.slots.items };

    ghost invariant = { λ m. IsIndexed m.slots.items m.lead_times m.flight_ends m.groups
        × (m.count ≡ length (live m.slots.items)) };
}

/// The message of that sequence number.
pub fn message_in(slots: &[Slot], sequence: u64) -> Option<&Message>
    requires { IsAscending 0 slots.now }
    ensures { option_map (λ x. x.now) result ≡ message_at sequence (live slots.now) }
{
    match place_of(slots, sequence) {
        Some(place) => slots[place].message.as_ref(),
        None => None,
    }
}

impl Messages {
    /// No message. It takes no memory: O(1).
    pub fn new(alloc: Global) -> Messages
        ensures { result ≡ [] }
    {
        Messages {
            slots: Vec::new(alloc),
            lead_times: new_min_tree(alloc),
            flight_ends: Packed::new(alloc),
            groups: Groups::new(alloc),
            count: 0,
        }
    }

    /// How many messages there are: O(1).
    pub fn len(&self) -> u64
        ensures { result ≡ length self.now }
    {
        self.count
    }

    /// How many messages aren't in flight at that moment, and how many are. It takes no memory. O(in flight, each
    /// log n).
    pub fn counts(&self, moment: Moment) -> (u64, u64)
        ensures visible { result.0 ≡ length (filter (λ x. not (is_in_flight moment x)) self.now) }
        ensures in_flight { result.1 ≡ length (filter (is_in_flight moment) self.now) }
    {
        let in_flight = count_in_flight(&self.slots, &self.flight_ends, moment);
        (self.count - in_flight, in_flight)
    }

    /// The same messages. It shares the texts: O(n), and as much for the slots of messages that were deleted.
    pub fn try_copy(&self) -> Result<Messages, NoMemory>
        ensures { IfOk result (λ copy. copy ≡ self.now) }
    {
        let alloc = *self.slots.allocator();
        Ok(Messages {
            slots: copies(alloc, &self.slots)?,
            lead_times: self.lead_times.try_copy()?,
            flight_ends: self.flight_ends.try_copy()?,
            groups: self.groups.try_copy()?,
            count: self.count,
        })
    }

    /// The message of that sequence number, if it isn't deleted: O(log n).
    pub fn get(&self, sequence: u64) -> Option<&Message>
        ensures { option_map (λ x. x.now) result ≡ message_at sequence self.now }
    {
        message_in(&self.slots, sequence)
    }

    /// The sequence numbers of the messages that a receive of that size hands out, in order. It takes no memory.
    /// O(size log n).
    pub fn numbers_to_hand(&self, moment: Moment, size: BatchSize) -> Numbers
        ensures { result.items ≡ numbers_to_hand size moment self.now }
    {
        open::numbers_to_hand(&self.slots, &self.lead_times, &self.groups, moment, size)
    }

    /// What a receive of that size hands out at that moment, in order, from the queue of that incarnation, in a list that has
    /// room for no more. The texts are shared: O(size log n).
    pub fn offer(
        &self,
        incarnation: u64,
        moment: Moment,
        size: BatchSize,
    ) -> Result<Vec<Delivery>, NoMemory>
        requires { 0 < incarnation }
        ensures { IfOk result (λ deliveries. deliveries.items
            ≡ map (delivery_of incarnation) (to_hand size moment self.now)) }
    {
        let numbers = self.numbers_to_hand(moment, size);
        let alloc = *self.slots.allocator();
        deliveries_of(alloc, &self.slots, incarnation, numbers.as_slice())
    }

    /// Hides the message of that sequence number up to `end`, in milliseconds. It takes no memory. O(log n), or where
    /// its timeout ended later before, O(log n) for each message of its group that was handed out and isn't deleted.
    pub fn hide(&mut self, sequence: u64, end: u64)
        ensures { self.new ≡ map (hidden_until sequence end) self.old }
    {
        if let Some(place) = place_of(&self.slots, sequence) {
            if let Some(message) = &self.slots[place].message {
                let handings = message.handings;
                let handed_at = message.handed_at;
                retime(
                    &mut self.slots,
                    &mut self.lead_times,
                    &mut self.flight_ends,
                    &mut self.groups,
                    place,
                    handings,
                    handed_at,
                    end,
                );
            }
        }
    }

    /// Hands out the message of that sequence number at that moment, and hides it up to `end`: as `hide`.
    fn hand_one(&mut self, sequence: u64, moment: Moment, end: u64)
        requires { (m : object.Message) → Among m self.old → m.sequence ≡ sequence → m.handings < HISTORY_LIMIT }
        ensures { self.new ≡ map (marked moment end (sequence ∷ [])) self.old }
    {
        if let Some(place) = place_of(&self.slots, sequence) {
            if let Some(message) = &self.slots[place].message {
                let handings = message.handings + 1;
                retime(
                    &mut self.slots,
                    &mut self.lead_times,
                    &mut self.flight_ends,
                    &mut self.groups,
                    place,
                    handings,
                    moment,
                    end,
                );
            }
        }
    }

    /// Hands out those of the messages whose sequence numbers are given, at that moment, and hides them up to `end`. It
    /// takes no memory. As `hide` for each of them.
    pub fn mark(&mut self, moment: Moment, end: u64, numbers: &[u64])
        requires { All (λ m. m.handings < HISTORY_LIMIT) self.old }
        ensures { self.new ≡ map (marked moment end numbers.now) self.old }
    {
        for i in 0..numbers.len() {
            if !is_before(numbers, i) {
                self.hand_one(numbers[i], moment, end);
            }
        }
    }

    /// Takes out the message of that sequence number. It takes no memory. As `hide`, and O(k) for the k-th message of its
    /// group: one that was handed out is among the first of its group, as many as a receive hands out.
    pub fn take_out(&mut self, sequence: u64)
        ensures { self.new ≡ filter (is_other sequence) self.old }
    {
        if let Some(place) = place_of(&self.slots, sequence) {
            if empty(
                &mut self.slots,
                &mut self.lead_times,
                &mut self.flight_ends,
                &mut self.groups,
                place,
            ) {
                self.count -= 1;
            }
        }
    }

    /// Adds a message that was never handed out, behind all others. After `NoMemory` the messages are as before.
    /// Amortized O(log n): where more than half of all slots are those of deleted messages, their room is given back
    /// first, in place. That takes O(slots log slots), and half as many messages were deleted since it was done last.
    pub fn push(&mut self, message: Message) -> Result<(), NoMemory>
        requires fresh { message.until ≡ 0 }
        requires order { (m : object.Message) → Among m self.old → m.sequence < message.sequence }
        ensures ok { OnOk result (self.new ≡ self.old ++ message ∷ []) }
        ensures err { OnErr result (self.new ≡ self.old) }
    {
        self.compact();
        self.add(message)
    }

    /// Takes out the slots of deleted messages, where these are more than half of all slots. It takes no memory.
    /// O(slots log slots), or else O(1).
    fn compact(&mut self)
        ensures { self.new ≡ self.old }
    {
        let deleted = self.slots.len() as u64 - self.count;
        if deleted > self.count {
            compact(&mut self.slots, &mut self.lead_times, &mut self.flight_ends);
        }
    }

    /// Adds a message behind all others. After `NoMemory` the messages are as before. Amortized O(log n).
    fn add(&mut self, message: Message) -> Result<(), NoMemory>
        requires fresh { message.until ≡ 0 }
        requires order { (m : object.Message) → Among m self.old → m.sequence < message.sequence }
        ensures ok { OnOk result (self.new ≡ self.old ++ message ∷ []) }
        ensures err { OnErr result (self.new ≡ self.old) }
    {
        make_place(
            &mut self.slots,
            &mut self.lead_times,
            &mut self.flight_ends,
            &self.groups,
        )?;
        append(
            &mut self.slots,
            &mut self.lead_times,
            &mut self.flight_ends,
            &mut self.groups,
            message,
        )?;
        self.count += 1;
        Ok(())
    }
}

/// Takes out the message at that place, and answers whether there was one.
fn empty(
    slots: &mut Vec<Slot>,
    lead_times: &mut MinTree,
    flight_ends: &mut Packed,
    groups: &mut Groups,
    place: usize,
) -> bool
    requires place { place < length slots.old.items }
    requires indexed { IsIndexed slots.old.items lead_times.old flight_ends.old groups.old }
    ensures slots { slots.new.items ≡ set slots.old.items place
        (record { sequence = (get_or slots.old.items place gone).sequence; message = None }) }
    ensures indexed { IsIndexed slots.new.items lead_times.new flight_ends.new groups.new }
    ensures count { length (live slots.new.items) + cond result 1 0 ≡ length (live slots.old.items) }
{
    let taken = slots[place].message.take();
    if let Some(message) = taken {
        lead_times.set(place, NEVER);
        flight_ends.set(place, NEVER);
        groups.take_out(&message.group, message.sequence);
        refresh(slots, lead_times, groups, &message.group);
        return true;
    }
    false
}

/// Whether the number at that place stands at an earlier one, too.
fn is_before(numbers: &[u64], place: usize) -> bool
    requires { place < length numbers.now }
    ensures { result ≡ list_any (λ n. n == get_or numbers.now place 0) (take place numbers.now) }
{
    for i in 0..place {
        if numbers[i] == numbers[place] {
            return true;
        }
    }
    false
}

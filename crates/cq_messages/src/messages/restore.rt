//! The messages in order, one by one; and those of a list, built again as they stood.
ghost use Rattle.std.specs.Prelude.{◌≡◌, ℕ, ◌<◌, ◌++◌, [], ◌∷◌, IfSome, IsNone, OnOk, OnErr};
ghost use Rattle.std.specs.List.{find};
ghost use Rattle.std.specs.Option.{option_map};
ghost use Rattle.cq_base.specs.queue.Messages as object;
ghost use Rattle.cq_base.specs.Relations.{Among};
ghost use Rattle.cq_messages.specs.Ordered.{IsRising, is_after, all_after};
ghost use Rattle.cq_messages.specs.Slots.{live, IsAscending};

use super::Messages;
use crate::message::Message;
use crate::places::count_below;
use crate::slot::Slot;
use cq_base::NoMemory;

/// The first message with a larger sequence number.
fn first_after(slots: &[Slot], sequence: u64) -> Option<&Message>
    requires { IsAscending 0 slots.now }
    ensures { option_map (λ m. m.now) result ≡ find (is_after sequence) (live slots.now) }
{
    for place in count_below(slots, sequence)..slots.len() {
        if let Some(message) = &slots[place].message {
            if sequence < message.sequence {
                return Some(message);
            }
        }
    }
    None
}

impl Messages {
    /// The first message with a larger sequence number. So from 0 on, each call with the number of the one before, all
    /// messages come in order. O(log n), and O(1) for each slot of a deleted message that stands before it.
    pub fn after(&self, sequence: u64) -> Option<&Message>
        ensures some { IfSome result (λ m. all_after sequence self.now ≡ m.now ∷ all_after m.now.sequence self.now) }
        ensures none { IsNone result → all_after sequence self.now ≡ [] }
        ensures all { all_after 0 self.now ≡ self.now }
        ensures rising { IsRising 0 self.now }
    {
        first_after(&self.slots, sequence)
    }

    /// Adds a message as it stands, behind all others. After `NoMemory` the messages are as before. As `push`, and as
    /// `hide` where it was handed out.
    pub fn restore(&mut self, message: Message) -> Result<(), NoMemory>
        requires order { (m : object.Message) → Among m self.old → m.sequence < message.sequence }
        ensures ok { OnOk result (self.new ≡ self.old ++ message ∷ []) }
        ensures err { OnErr result (self.new ≡ self.old) }
    {
        let sequence = message.sequence;
        let until = message.until;
        let mut fresh = message;
        fresh.until = 0;
        self.push(fresh)?;
        if until > 0 {
            self.hide(sequence, until);
        }
        Ok(())
    }
}

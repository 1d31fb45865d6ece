//! A queue in its parts, and a queue that is made of them again.
ghost use Rattle.std.specs.Prelude.{◌≡◌, ◌<◌, ◌≤◌, [], true, false, slice_get, IfOk, OnErr};
ghost use Rattle.std.specs.Option.{option_map};
ghost use Rattle.cq_base.specs.declared.limits.TheConstants.{HISTORY_LIMIT};
ghost use Rattle.cq_base.specs.queue.Incarnations as object;
ghost use Rattle.cq_queue.specs.Parts.{AreInOrder, AreParts, IsNextMessage, IsNextAccepted, and_message, and_accepted};

use super::Queue;
use crate::accepted::Accepted;
use crate::window::Window;
use cq_base::{DedupId, Moment, NoMemory, Seconds};
use cq_messages::{Message, Messages};
use std::alloc::Global;

impl Queue {
    /// How many sends it has accepted. O(1).
    pub fn sent(&self) -> u64
        ensures { result ≡ self.now.sent }
    {
        self.sent
    }

    /// The messages that aren't deleted, and what holds of each queue's parts. O(1).
    pub fn messages(&self) -> &Messages
        ensures messages { result.now ≡ self.now.messages }
        ensures parts { AreParts self.now }
    {
        &self.messages
    }

    /// The accepted send at that place, of those whose ids are kept, in order of their moments. O(1).
    pub fn accepted(&self, index: usize) -> Option<&Accepted>
        ensures item { option_map (λ a. a.now) result ≡ slice_get self.now.accepted index }
        ensures order { AreInOrder self.now.accepted }
    {
        self.window.get(index)
    }

    /// A queue that has accepted so many sends, and has no message and no id. It takes no memory. O(1).
    pub fn restored(
        alloc: Global,
        incarnation: u64,
        visibility: Seconds,
        content: bool,
        sent: u64,
        used: u64,
        last: Moment,
    ) -> Queue
        requires positive { 0 < incarnation }
        requires sends { sent ≤ used }
        requires uses { used ≤ HISTORY_LIMIT }
        ensures { result ≡ record {
          number = incarnation;
          attributes = record { visibility = visibility; content = content };
          sent = sent;
          messages = [];
          accepted = [];
          last = last;
          used = used;
        } }
    {
        Queue {
            alloc,
            number: incarnation,
            visibility,
            content,
            sent,
            messages: Messages::new(alloc),
            window: Window::new(alloc),
            last,
            used,
        }
    }

    /// Puts a message as it stands behind all others, and answers whether it did: not where it can't be the next one,
    /// and then, as after `NoMemory`, the queue is as before. Amortized O(log messages).
    pub fn restore_message(&mut self, message: Message) -> Result<bool, NoMemory>
        ensures put { IfOk result (λ is. is ≡ true → self.new ≡ and_message message self.old) }
        ensures next { IfOk result (λ is. is ≡ true → IsNextMessage self.old message) }
        ensures refused { IfOk result (λ is. is ≡ false → self.new ≡ self.old) }
        ensures only { IfOk result (λ is. is ≡ false → IsNextMessage self.old message → ⊥) }
        ensures err { OnErr result (self.new ≡ self.old) }
    {
        if message.sequence > self.sent || message.handings > self.used {
            return Ok(false);
        }
        if self.messages.after(message.sequence - 1).is_some() {
            return Ok(false);
        }
        self.messages.restore(message)?;
        Ok(true)
    }

    /// Puts an accepted send behind all others whose ids are kept, and answers whether it did: not where it can't be the
    /// next one, and then, as after `NoMemory`, the queue is as before. O(1) expected and amortized.
    pub fn restore_accepted(&mut self, accepted: Accepted) -> Result<bool, NoMemory>
        ensures put { IfOk result (λ is. is ≡ true → self.new ≡ and_accepted accepted self.old) }
        ensures next { IfOk result (λ is. is ≡ true → IsNextAccepted self.old accepted) }
        ensures refused { IfOk result (λ is. is ≡ false → self.new ≡ self.old) }
        ensures only { IfOk result (λ is. is ≡ false → IsNextAccepted self.old accepted → ⊥) }
        ensures err { OnErr result (self.new ≡ self.old) }
    {
        if accepted.moment.get() > self.last.get() || self.window.len() as u64 >= self.sent {
            return Ok(false);
        }
        if !self.window.is_next(&accepted) {
            return Ok(false);
        }
        let id = accepted.dedup.try_copy()?;
        self.window.restore(accepted, id)?;
        Ok(true)
    }
}

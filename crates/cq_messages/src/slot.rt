//! The places of messages.
ghost use Rattle.std.specs.Prelude.{◌≡◌, IfOk};

use crate::message::Message;
use cq_base::NoMemory;

/// A moment that no timeout reaches, in milliseconds.
pub const NEVER: u64 = u64::MAX;

/// The place of a message in the order of sending, which stays when the message is deleted.
pub struct Slot {
    pub sequence: u64,
    pub message: Option<Message>,
}

/// Written out, not derived: CONTRIBUTING.md, "Drop".
impl Drop for Slot {
    fn drop(self) {
        let Slot {
            sequence: _,
            message: _,
        } = self;
    }
}

impl Slot {
    /// The same slot. It shares the texts: O(1).
    pub fn try_copy(&self) -> Result<Slot, NoMemory>
        ensures { IfOk result (λ copy. copy ≡ self.now) }
    {
        let message = match &self.message {
            Some(message) => Some(message.try_copy()?),
            None => None,
        };
        Ok(Slot {
            sequence: self.sequence,
            message,
        })
    }
}

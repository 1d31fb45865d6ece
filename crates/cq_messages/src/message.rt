//! A message of a queue.
ghost use Rattle.std.specs.Prelude.{◌≡◌, ◌<◌, IfOk};
ghost use Rattle.cq_base.specs.queue.Receiving.{is_in_flight, delivery_of};
ghost use Rattle.cq_messages.specs.Changes.{new_message};

use cq_base::{Body, Delivery, GroupId, Moment, NoMemory, Receipt};
use std::marker::Model;

/// A message of a queue as it stands.
pub struct Message {
    pub sequence: u64,
    pub group: GroupId,
    pub body: Body,
    /// How many times it was handed out.
    pub handings: u64,
    /// When it was last handed out; 0 if it never was.
    pub handed_at: Moment,
    /// Up to when it is hidden, in milliseconds; 0 if it was never handed out.
    pub until: u64,
}

/// Written out, not derived: CONTRIBUTING.md, "Drop".
impl Drop for Message {
    fn drop(self) {
        let Message {
            sequence: _,
            group: _,
            body: _,
            handings: _,
            handed_at: _,
            until: _,
        } = self;
    }
}

impl Model for Message {
    ghost use Rattle.std.specs.Prelude.{◌<◌, ◌≤◌};
    ghost use Rattle.cq_base.specs.declared.limits.TheConstants.{HISTORY_LIMIT};
    ghost use Rattle.cq_base.specs.queue.Messages as object;

    ghost Value = { object.Message };

    ghost view = { λ m. record {
      sequence = m.sequence;
      group = m.group;
      body = m.body;
      handings = m.handings;
      handed_at = m.handed_at;
      until = m.until;
    } };

    ghost invariant = { λ m. (0 < m.sequence) × (m.handings ≤ HISTORY_LIMIT) };
}

impl Message {
    /// A message that was never handed out. It shares the texts: O(1).
    pub fn new(sequence: u64, group: &GroupId, body: &Body) -> Result<Message, NoMemory>
        requires { 0 < sequence }
        ensures { IfOk result (λ m. m ≡ new_message sequence group.now body.now) }
    {
        Ok(Message {
            sequence,
            group: group.try_copy()?,
            body: body.try_copy()?,
            handings: 0,
            handed_at: Moment::zero(),
            until: 0,
        })
    }

    /// Whether it is in flight at that moment.
    pub fn is_in_flight(&self, moment: Moment) -> bool
        ensures { result ≡ is_in_flight moment self.now }
    {
        moment.get() < self.until
    }

    /// The same message. It shares the texts: O(1).
    pub fn try_copy(&self) -> Result<Message, NoMemory>
        ensures { IfOk result (λ copy. copy ≡ self.now) }
    {
        Ok(Message {
            sequence: self.sequence,
            group: self.group.try_copy()?,
            body: self.body.try_copy()?,
            handings: self.handings,
            handed_at: self.handed_at,
            until: self.until,
        })
    }

    /// The message as it is handed out.
    pub fn delivery(&self, incarnation: u64) -> Result<Delivery, NoMemory>
        requires { 0 < incarnation }
        ensures { IfOk result (λ delivery. delivery ≡ delivery_of incarnation self.now) }
    {
        Ok(Delivery {
            receipt: Receipt::new(incarnation, self.sequence, self.handings + 1).unwrap(),
            group: self.group.try_copy()?,
            body: self.body.try_copy()?,
        })
    }
}

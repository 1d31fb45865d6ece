//! What is kept of all names.
ghost use Rattle.std.specs.Prelude.{◌≡◌, ◌≤◌, ◌+◌, ◌-◌, ◌++◌, [], ◌∷◌, ℕ, List, None, Some, true, false, length, slice_get, IfOk, IfSome, IfNone, OnErr};
ghost use Rattle.std.specs.List.{IsDistinct};
ghost use Rattle.std.specs.Map.{keys_of};
ghost use Rattle.std.specs.Str.{bytes_eq};
ghost use Rattle.cq_base.specs.declared.limits.TheConstants.{HISTORY_LIMIT};
ghost use Rattle.cq_base.specs.queue.Asks.{queue_of};
ghost use Rattle.cq_store.specs.within.Asked.{IsAnswer, IsCount};
ghost use Rattle.cq_store.specs.within.Rooms.{CameBy};
ghost use Rattle.cq_store.specs.Parts.{IsWithin};
ghost use Rattle.cq_store.specs.Stands.{name_at, or_unknown, ids_of, sent_of};

use crate::answered::ReplyPair;
use crate::queue_record::QueueRecord;
use cq_base::{Ask, Moment, NoMemory, QueueName, Refusal, Reply};
use indexmap::IndexMap;
use std::alloc::Global;
use std::marker::Model;

/// What is kept of all names, found by a hash of the name, in order of their first creations.
pub struct Queues {
    kept: IndexMap<QueueName, QueueRecord>,
}

/// Written out, not derived: CONTRIBUTING.md, "Drop".
impl Drop for Queues {
    fn drop(self) {
        let Queues { kept: _ } = self;
    }
}

impl Model for Queues {
    ghost use Rattle.std.specs.Prelude.{List, ℕ};
    ghost use Rattle.cq_store.specs.Stands as spec;

    ghost Value = { List (List ℕ × spec.QueueRecord) };

    ghost view = { λ n. n.kept.entries };
}

impl Queues {
    /// No name is known yet.
    pub fn new(alloc: Global) -> Queues
        ensures none { (queue : List ℕ) → name_at result queue ≡ None }
        ensures empty { result ≡ [] }
    {
        Queues {
            kept: IndexMap::new(alloc),
        }
    }

    /// How many names there are: O(1).
    pub fn len(&self) -> usize
        ensures len { result ≡ length self.now }
        ensures distinct { IsDistinct bytes_eq (keys_of self.now) }
    {
        self.kept.len()
    }

    /// The name at that place, and what is kept of it: O(1).
    pub fn get_index(&self, index: usize) -> Option<(&QueueName, &QueueRecord)>
        ensures some { IfSome result (λ q. slice_get self.now index ≡ Some (q.0.now, q.1.now)) }
        ensures none { IfNone result (slice_get self.now index ≡ None) }
    {
        self.kept.get_index(index)
    }

    /// Puts that of a name behind all others, and answers whether it did: not where the name is there. After `NoMemory`
    /// nothing has changed. O(1) expected and amortized.
    pub fn restore(&mut self, queue: QueueName, one: QueueRecord) -> Result<bool, NoMemory>
        ensures put { IfOk result (λ is. is ≡ true → self.new ≡ self.old ++ (queue, one) ∷ []) }
        ensures new { IfOk result (λ is. is ≡ true → name_at self.old queue ≡ None) }
        ensures refused { IfOk result (λ is. is ≡ false → self.new ≡ self.old) }
        ensures only { IfOk result (λ is. is ≡ false → name_at self.old queue ≡ None → ⊥) }
        ensures err { OnErr result (self.new ≡ self.old) }
    {
        if self.kept.get(&queue).is_some() {
            return Ok(false);
        }
        self.kept.insert(queue, one)?;
        Ok(true)
    }

    /// An ask about a name for which no creation took effect.
    fn apply_unknown(
        &mut self,
        alloc: Global,
        moment: Moment,
        ask: &Ask,
    ) -> Result<ReplyPair, NoMemory>
        requires { name_at self.old (queue_of ask.now) ≡ None }
        ensures ok { IfOk result (λ answered. IsAnswer (or_unknown (name_at self.old (queue_of ask.now)))
            (or_unknown (name_at self.new (queue_of ask.now))) moment ask.now answered.reply) }
        ensures kept { IfOk result (λ answered. answered.kept ≡ answered.reply) }
        ensures others { (queue : List ℕ) → bytes_eq (queue_of ask.now) queue ≡ false
            → name_at self.new queue ≡ name_at self.old queue }
        ensures within { (count : ℕ) → IsWithin count moment (or_unknown (name_at self.old (queue_of ask.now)))
            → IsWithin (count + 1) moment (or_unknown (name_at self.new (queue_of ask.now))) }
        ensures err { OnErr result (self.new ≡ self.old) }
    {
        match ask {
            Ask::Create { queue, .. } => {
                let mut name = QueueRecord::unknown();
                let answered = name.apply(alloc, moment, ask)?;
                self.kept.insert(queue.try_copy()?, name)?;
                Ok(answered)
            }
            _ => Ok(ReplyPair::refused(Refusal::QueueDoesNotExist)),
        }
    }

    /// What one ask does, and its reply: O(1), and what the ask takes on its queue. After `NoMemory` nothing has
    /// changed.
    pub fn apply(&mut self, alloc: Global, moment: Moment, ask: &Ask) -> Result<ReplyPair, NoMemory>
        requires { IsWithin (HISTORY_LIMIT - 1) moment (or_unknown (name_at self.old (queue_of ask.now))) }
        ensures ok { IfOk result (λ answered. IsAnswer (or_unknown (name_at self.old (queue_of ask.now)))
            (or_unknown (name_at self.new (queue_of ask.now))) moment ask.now answered.reply) }
        ensures kept { IfOk result (λ answered. answered.kept ≡ answered.reply) }
        ensures others { (queue : List ℕ) → bytes_eq (queue_of ask.now) queue ≡ false
            → name_at self.new queue ≡ name_at self.old queue }
        ensures within { (count : ℕ) → IsWithin count moment (or_unknown (name_at self.old (queue_of ask.now)))
            → IsWithin (count + 1) moment (or_unknown (name_at self.new (queue_of ask.now))) }
        ensures err { OnErr result (name_at self.new (queue_of ask.now) ≡ name_at self.old (queue_of ask.now)) }
    {
        match self.kept.get_mut(ask.queue()) {
            Some(name) => name.apply(alloc, moment, ask),
            None => self.apply_unknown(alloc, moment, ask),
        }
    }

    /// How many deduplication ids the queue keeps; 0 if it doesn't live: O(1) expected.
    pub fn kept_ids(&self, queue: &QueueName) -> u64
        ensures value { result ≡ ids_of (or_unknown (name_at self.now queue.now)).living }
        ensures fewer { result ≤ sent_of (or_unknown (name_at self.now queue.now)).living }
    {
        match self.kept.get(queue) {
            Some(name) => name.kept_ids(),
            None => 0,
        }
    }

    /// How many messages the queue has at that moment: O(log messages) for each that is in flight.
    pub fn counts(&self, moment: Moment, queue: &QueueName) -> Reply
        requires { CameBy moment (or_unknown (name_at self.now queue.now)).living }
        ensures { IsCount (or_unknown (name_at self.now queue.now)) moment result }
    {
        match self.kept.get(queue) {
            Some(name) => name.counts(moment),
            None => Reply::Refused(Refusal::QueueDoesNotExist),
        }
    }

    /// The same of each name. It shares the texts: O(names and what is kept of each).
    pub fn try_copy(&self) -> Result<Queues, NoMemory>
        ensures { IfOk result (λ copy. (queue : List ℕ) → name_at copy queue ≡ name_at self.now queue) }
    {
        let mut kept = IndexMap::new(*self.kept.allocator());
        for i in 0..self.kept.len() {
            match self.kept.get_index(i) {
                Some((queue, name)) => {
                    kept.insert(queue.try_copy()?, name.try_copy()?)?;
                }
                None => unreachable!(),
            }
        }
        Ok(Queues { kept })
    }
}

//! What is kept of one name of queues, and what each ask does to it.
ghost use Rattle.std.specs.Prelude.{◌≡◌, ◌<◌, ◌≤◌, ◌+◌, ◌-◌, true, false, ℕ, List, None, Some, IfOk, OnErr};
ghost use Rattle.std.specs.Option.{option_copied, option_map};
ghost use Rattle.cq_base.specs.declared.limits.TheConstants.{HISTORY_LIMIT};
ghost use Rattle.cq_base.specs.declared.ask.Ask.TheVariants as asks;
ghost use Rattle.cq_base.specs.queue.Effects.{create_again};
ghost use Rattle.cq_store.specs.within.Asked.{IsAnswer, IsCount};
ghost use Rattle.cq_store.specs.within.Rooms.{CameBy};
ghost use Rattle.cq_store.specs.Parts.{IsWithin};
ghost use Rattle.cq_store.specs.Stands.{is_resting, unknown, ids_of, sent_of};

use crate::answered::ReplyPair;
use cq_base::{
    Ask, BatchSize, Body, DedupId, Deliveries, GroupId, Moment, NoMemory, REMOVAL_DELAY, Receipt,
    Refusal, Reply, Seconds,
};
use cq_queue::Queue;
use std::alloc::Global;
use std::marker::Model;

/// What is kept of a name of queues.
pub struct QueueRecord {
    /// How many creations took effect.
    creations: u64,
    /// When the last removal took effect.
    removed: Option<Moment>,
    /// The incarnation as which the queue lives.
    living: Option<Queue>,
}

/// Written out, not derived: CONTRIBUTING.md, "Drop".
impl Drop for QueueRecord {
    fn drop(self) {
        let QueueRecord {
            creations: _,
            removed: _,
            living: _,
        } = self;
    }
}

impl Model for QueueRecord {
    ghost use Rattle.cq_store.specs.Stands as spec;

    ghost Value = { spec.QueueRecord };

    ghost view = { λ n. record { creations = n.creations; removed = n.removed; living = n.living } };
}

impl QueueRecord {
    /// A name for which no creation took effect.
    pub fn unknown() -> QueueRecord
        ensures { result ≡ unknown }
    {
        QueueRecord {
            creations: 0,
            removed: None,
            living: None,
        }
    }

    /// What is kept of a name with so many creations, that last removal, and that incarnation as which it lives.
    pub fn restored(creations: u64, removed: Option<Moment>, living: Option<Queue>) -> QueueRecord
        ensures { result ≡ record { creations = creations; removed = removed; living = living } }
    {
        QueueRecord {
            creations,
            removed,
            living,
        }
    }

    /// How many creations took effect.
    pub fn creations(&self) -> u64
        ensures { result ≡ self.now.creations }
    {
        self.creations
    }

    /// When the last removal took effect.
    pub fn removed(&self) -> Option<Moment>
        ensures { result ≡ self.now.removed }
    {
        self.removed
    }

    /// The incarnation as which the queue lives.
    pub fn living(&self) -> Option<&Queue>
        ensures { option_map (λ q. q.now) result ≡ self.now.living }
    {
        self.living.as_ref()
    }

    /// Whether it has no more creations, and its queue no more uses than `count`, nor a later moment than `last`.
    pub fn is_within(&self, count: u64, last: Moment) -> bool
        ensures is { result ≡ true → IsWithin count last self.now }
        ensures only { result ≡ false → IsWithin count last self.now → ⊥ }
    {
        match &self.living {
            Some(queue) => {
                self.creations <= count && queue.used() <= count && queue.last().get() <= last.get()
            }
            None => self.creations <= count,
        }
    }

    /// Whether the minute after the last removal isn't over.
    fn is_resting(&self, moment: Moment) -> bool
        ensures { result ≡ is_resting self.now.removed moment }
    {
        match self.removed {
            Some(removed) => moment.get() < removed.get() + REMOVAL_DELAY,
            None => false,
        }
    }

    /// A creation of a queue that doesn't live.
    fn begin(
        &mut self,
        alloc: Global,
        moment: Moment,
        visibility: Seconds,
        content: bool,
    ) -> Result<ReplyPair, NoMemory>
        requires dead { self.old.living ≡ None }
        requires room { IsWithin (HISTORY_LIMIT - 1) moment self.old }
        ensures ok { IfOk result (λ answered. (queue : List ℕ) →
            IsAnswer self.old self.new moment (asks.Create queue visibility content) answered.reply) }
        ensures kept { IfOk result (λ answered. answered.kept ≡ answered.reply) }
        ensures within { (count : ℕ) → IsWithin count moment self.old → IsWithin (count + 1) moment self.new }
        ensures err { OnErr result (self.new ≡ self.old) }
    {
        if self.is_resting(moment) {
            return Ok(ReplyPair::refused(Refusal::QueueDeletedRecently));
        }
        let incarnation = self.creations + 1;
        self.living = Some(Queue::new(alloc, incarnation, visibility, content)?);
        self.creations = incarnation;
        Ok(ReplyPair::created(incarnation))
    }

    /// A creation of a queue that lives.
    fn create_again(&self, queue: &Queue, visibility: Seconds, content: bool) -> ReplyPair
        ensures reply { result.reply ≡ (create_again queue.now.number queue.now.attributes
            (record { visibility = visibility; content = content })).reply }
        ensures kept { result.kept ≡ result.reply }
    {
        if visibility == queue.visibility() && content == queue.content() {
            ReplyPair::created(queue.incarnation())
        } else {
            ReplyPair::refused(Refusal::QueueNameExists)
        }
    }

    /// A creation. After `NoMemory` nothing has changed.
    pub fn create(
        &mut self,
        alloc: Global,
        moment: Moment,
        visibility: Seconds,
        content: bool,
    ) -> Result<ReplyPair, NoMemory>
        requires room { IsWithin (HISTORY_LIMIT - 1) moment self.old }
        ensures ok { IfOk result (λ answered. (queue : List ℕ) →
            IsAnswer self.old self.new moment (asks.Create queue visibility content) answered.reply) }
        ensures kept { IfOk result (λ answered. answered.kept ≡ answered.reply) }
        ensures within { (count : ℕ) → IsWithin count moment self.old → IsWithin (count + 1) moment self.new }
        ensures err { OnErr result (self.new ≡ self.old) }
    {
        match &self.living {
            Some(queue) => Ok(self.create_again(queue, visibility, content)),
            None => self.begin(alloc, moment, visibility, content),
        }
    }

    /// A removal.
    pub fn remove(&mut self, moment: Moment) -> ReplyPair
        ensures ok { (queue : List ℕ) →
            IsAnswer self.old self.new moment (asks.Remove queue) result.reply }
        ensures kept { result.kept ≡ result.reply }
        ensures within { (count : ℕ) → IsWithin count moment self.old → IsWithin (count + 1) moment self.new }
    {
        if self.living.is_none() {
            return ReplyPair::refused(Refusal::QueueDoesNotExist);
        }
        self.living = None;
        self.removed = Some(moment);
        ReplyPair::removed()
    }

    /// A send. After `NoMemory` nothing has changed.
    pub fn send(
        &mut self,
        moment: Moment,
        group: &GroupId,
        dedup: Option<&DedupId>,
        body: &Body,
    ) -> Result<ReplyPair, NoMemory>
        requires room { IsWithin (HISTORY_LIMIT - 1) moment self.old }
        ensures ok { IfOk result (λ answered. (queue : List ℕ) →
            IsAnswer self.old self.new moment (asks.Send queue group.now (option_copied dedup.entry) body.now) answered.reply) }
        ensures kept { IfOk result (λ answered. answered.kept ≡ answered.reply) }
        ensures within { (count : ℕ) → IsWithin count moment self.old → IsWithin (count + 1) moment self.new }
        ensures err { OnErr result (self.new ≡ self.old) }
    {
        match &mut self.living {
            Some(queue) => match queue.send(moment, group, dedup, body)? {
                Ok(sequence) => Ok(ReplyPair::sent(sequence)),
                Err(refusal) => Ok(ReplyPair::refused(refusal)),
            },
            None => Ok(ReplyPair::refused(Refusal::QueueDoesNotExist)),
        }
    }

    /// A receive. After `NoMemory` nothing has changed.
    pub fn receive(
        &mut self,
        moment: Moment,
        size: BatchSize,
        visibility: Option<Seconds>,
    ) -> Result<ReplyPair, NoMemory>
        requires room { IsWithin (HISTORY_LIMIT - 1) moment self.old }
        ensures ok { IfOk result (λ answered. (queue : List ℕ) →
            IsAnswer self.old self.new moment (asks.Receive queue size visibility) answered.reply) }
        ensures kept { IfOk result (λ answered. answered.kept ≡ answered.reply) }
        ensures within { (count : ℕ) → IsWithin count moment self.old → IsWithin (count + 1) moment self.new }
        ensures err { OnErr result (self.new ≡ self.old) }
    {
        match &mut self.living {
            Some(queue) => {
                let offered = queue.offer(moment, size)?;
                let answered = ReplyPair::received(Deliveries::from_vec(offered))?;
                queue.hand(moment, size, visibility);
                Ok(answered)
            }
            None => Ok(ReplyPair::refused(Refusal::QueueDoesNotExist)),
        }
    }

    /// A delete.
    pub fn delete(&mut self, moment: Moment, receipt: &Receipt) -> ReplyPair
        ensures ok { (queue : List ℕ) →
            IsAnswer self.old self.new moment (asks.Delete queue receipt.now) result.reply }
        ensures kept { result.kept ≡ result.reply }
        ensures within { (count : ℕ) → IsWithin count moment self.old → IsWithin (count + 1) moment self.new }
    {
        match &mut self.living {
            Some(queue) => match queue.delete(receipt) {
                Ok(removed) => ReplyPair::deleted(removed),
                Err(refusal) => ReplyPair::refused(refusal),
            },
            None => ReplyPair::refused(Refusal::QueueDoesNotExist),
        }
    }

    /// A change of a message's visibility timeout.
    pub fn change(&mut self, moment: Moment, receipt: &Receipt, visibility: Seconds) -> ReplyPair
        requires room { IsWithin (HISTORY_LIMIT - 1) moment self.old }
        ensures ok { (queue : List ℕ) →
            IsAnswer self.old self.new moment (asks.Change queue receipt.now visibility) result.reply }
        ensures kept { result.kept ≡ result.reply }
        ensures within { (count : ℕ) → IsWithin count moment self.old → IsWithin (count + 1) moment self.new }
    {
        match &mut self.living {
            Some(queue) => match queue.change(moment, receipt, visibility) {
                Ok(()) => ReplyPair::changed(),
                Err(refusal) => ReplyPair::refused(refusal),
            },
            None => ReplyPair::refused(Refusal::QueueDoesNotExist),
        }
    }

    /// What one ask does. After `NoMemory` nothing has changed.
    pub fn apply(&mut self, alloc: Global, moment: Moment, ask: &Ask) -> Result<ReplyPair, NoMemory>
        requires room { IsWithin (HISTORY_LIMIT - 1) moment self.old }
        ensures ok { IfOk result (λ answered. IsAnswer self.old self.new moment ask.now answered.reply) }
        ensures kept { IfOk result (λ answered. answered.kept ≡ answered.reply) }
        ensures within { (count : ℕ) → IsWithin count moment self.old → IsWithin (count + 1) moment self.new }
        ensures err { OnErr result (self.new ≡ self.old) }
    {
        match ask {
            Ask::Create {
                visibility,
                content,
                ..
            } => self.create(alloc, moment, *visibility, *content),
            Ask::Remove { .. } => Ok(self.remove(moment)),
            Ask::Send {
                group,
                dedup,
                body,
                ..
            } => self.send(moment, group, dedup.as_ref(), body),
            Ask::Receive {
                size,
                visibility,
                ..
            } => self.receive(moment, *size, *visibility),
            Ask::Delete { receipt, .. } => Ok(self.delete(moment, receipt)),
            Ask::Change {
                receipt,
                visibility,
                ..
            } => Ok(self.change(moment, receipt, *visibility)),
        }
    }

    /// How many deduplication ids the queue keeps; 0 if it doesn't live: O(1).
    pub fn kept_ids(&self) -> u64
        ensures value { result ≡ ids_of self.now.living }
        ensures fewer { result ≤ sent_of self.now.living }
    {
        match &self.living {
            Some(queue) => queue.kept_ids(),
            None => 0,
        }
    }

    /// How many messages the queue has at that moment. It takes no memory.
    pub fn counts(&self, moment: Moment) -> Reply
        requires { CameBy moment self.now.living }
        ensures { IsCount self.now moment result }
    {
        match &self.living {
            Some(queue) => {
                let (visible, in_flight) = queue.counts(moment);
                Reply::Counts { visible, in_flight }
            }
            None => Reply::Refused(Refusal::QueueDoesNotExist),
        }
    }

    /// The same. It shares the texts.
    pub fn try_copy(&self) -> Result<QueueRecord, NoMemory>
        ensures { IfOk result (λ copy. copy ≡ self.now) }
    {
        let living = match &self.living {
            Some(queue) => Some(queue.try_copy()?),
            None => None,
        };
        Ok(QueueRecord {
            creations: self.creations,
            removed: self.removed,
            living,
        })
    }
}

//! The queue, and the calls that change it.
ghost use Rattle.std.specs.Prelude.{◌≡◌, ◌+◌, ◌*◌, ◌<◌, ◌≤◌, ℕ, [], false, IsOk, IsErr, IfOk, IfErr, IfSome, OnOk, OnErr, Some, None};
ghost use Rattle.std.specs.Option.{option_copied};
ghost use Rattle.cq_base.specs.declared.limits.TheConstants.{HISTORY_LIMIT};
ghost use Rattle.cq_base.specs.declared.reply.Reply.TheVariants.{Sent, Deleted, Changed, Refused};
ghost use Rattle.cq_base.specs.declared.reply.Refusal.TheVariants.{MissingDedupId};
ghost use Rattle.cq_base.specs.queue.Incarnations.{IncarnationStandsFor, repeated};
ghost use Rattle.cq_queue.specs.within.Answers.{send_reply, delete_reply, is_deleting, change_reply, is_changing};
ghost use Rattle.cq_queue.specs.Entries.{IsSend, IsSendAs, IsReceive, IsDelete, IsChange, StandsAfter, IsAnswered, IsNoRepeat, KeepsIds, IsSameQueue};
ghost use Rattle.cq_queue.specs.within.Kept.{used_at, repeated_at, with_message, handed_out, is_receipt_of, without_message, deletion, with_timeout, alteration};

mod parts;
mod reads;

use crate::accepted::Accepted;
use crate::change::{change_sent, end_of};
use crate::delete::delete_sent;
use crate::window::Window;
use cq_base::{BatchSize, Body, DedupId, GroupId, Moment, NoMemory, Receipt, Refusal, Seconds};
use cq_messages::{Message, Messages};
use std::alloc::Global;
use std::marker::Model;

/// What is kept of one incarnation of a queue. Contracts see it as an `Incarnation`, and say for which
/// entries it stands. The caller keeps the moments in order and the uses below 2^62.
pub struct Queue {
    alloc: Global,
    number: u64,
    visibility: Seconds,
    /// Whether it makes the deduplication ids of sends that have none, of their bodies.
    content: bool,
    /// How many sends it has accepted.
    sent: u64,
    /// The messages that aren't deleted, in order of sending.
    messages: Messages,
    /// The accepted sends of the five minutes up to the last send that had a number for its answer.
    window: Window,
    last: Moment,
    used: u64,
}

/// Written out, not derived: CONTRIBUTING.md, "Drop".
impl Drop for Queue {
    fn drop(self) {
        let Queue {
            alloc: _,
            number: _,
            visibility: _,
            content: _,
            sent: _,
            messages: _,
            window: _,
            last: _,
            used: _,
        } = self;
    }
}

impl Model for Queue {
    ghost use Rattle.cq_base.specs.queue.Incarnations as object;

    ghost Value = { object.Incarnation };

    ghost use Rattle.cq_queue.specs.within.Sound.{IsSound};

    ghost view = { λ q. record {
      number = q.number;
      attributes = record { visibility = q.visibility; content = q.content };
      sent = q.sent;
      messages = q.messages;
      accepted = q.window.items;
      last = q.last;
      used = q.used;
    } };

    ghost invariant = { λ q. IsSound q.number q.sent q.used q.messages q.last q.window.items };
}

impl Queue {
    /// The queue to which nothing came. It takes no memory before the first send. O(1).
    pub fn new(
        alloc: Global,
        incarnation: u64,
        visibility: Seconds,
        content: bool,
    ) -> Result<Queue, NoMemory>
        requires { 0 < incarnation }
        ensures made { IsOk result }
        ensures stands { IfOk result (λ queue. IncarnationStandsFor queue []) }
        ensures number { IfOk result (λ queue. queue.number ≡ incarnation) }
        ensures attributes { IfOk result (λ queue.
            queue.attributes ≡ record { visibility = visibility; content = content }) }
        ensures last { IfOk result (λ queue. queue.last ≡ 0) }
        ensures used { IfOk result (λ queue. queue.used ≡ 0) }
    {
        Ok(Queue {
            alloc,
            number: incarnation,
            visibility,
            content,
            sent: 0,
            messages: Messages::new(alloc),
            window: Window::new(alloc),
            last: Moment::zero(),
            used: 0,
        })
    }

    /// The sequence number of the message that a send of that deduplication id repeats. O(1) expected.
    fn repeated(&self, dedup: &DedupId, moment: Moment) -> Option<u64>
        ensures { result ≡ repeated dedup.now moment self.now.accepted }
    {
        self.window.repeated(dedup, moment)
    }

    /// Counts a send that repeats a message, and answers with that one's sequence number. It forgets the ids
    /// whose five minutes are over.
    fn count_repeat(&mut self, moment: Moment, sequence: u64) -> u64
        requires order { self.old.last ≤ moment }
        requires room { self.old.used < HISTORY_LIMIT }
        ensures sequence { result ≡ sequence }
        ensures used { self.new ≡ repeated_at moment self.old }
    {
        self.used += 1;
        // The five minutes of the send that it repeats go on as before.
        self.window.forget_old(moment);
        self.last = moment;
        sequence
    }

    /// Adds a message, and answers with its sequence number.
    fn accept(
        &mut self,
        moment: Moment,
        group: &GroupId,
        dedup: &DedupId,
        body: &Body,
    ) -> Result<u64, NoMemory>
        requires order { self.old.last ≤ moment }
        requires room { self.old.used < HISTORY_LIMIT }
        requires new { repeated dedup.now moment self.old.accepted ≡ None }
        ensures sequence { IfOk result (λ n. n ≡ self.old.sent + 1) }
        ensures ok { OnOk result (self.new ≡ with_message moment group.now dedup.now body.now self.old) }
        ensures err { OnErr result (self.new ≡ self.old) }
    {
        let sequence = self.sent + 1;
        let message = Message::new(sequence, group, body)?;
        let accepted = Accepted {
            dedup: dedup.try_copy()?,
            moment,
            sequence,
        };
        let id = dedup.try_copy()?;
        self.window.reserve()?;
        self.messages.push(message)?;
        self.window.accept(accepted, id);
        self.sent = sequence;
        self.last = moment;
        self.used += 1;
        Ok(sequence)
    }

    /// A send that comes at that moment and has that deduplication id, given or made.
    fn send_as(
        &mut self,
        moment: Moment,
        group: &GroupId,
        dedup: &DedupId,
        body: &Body,
    ) -> Result<u64, NoMemory>
        requires order { self.old.last ≤ moment }
        requires room { self.old.used < HISTORY_LIMIT }
        ensures stands { OnOk result
            (StandsAfter (IsSendAs self.old.attributes moment group.now dedup.now body.now) self.old self.new) }
        ensures reply { IfOk result (λ sequence.
            IsAnswered (IsSendAs self.old.attributes moment group.now dedup.now body.now) self.old (Sent sequence)) }
        ensures last { OnOk result (self.new.last ≡ moment) }
        ensures used { OnOk result (self.new.used ≡ self.old.used + 1) }
        ensures ids { OnOk result (KeepsIds moment self.new) }
        ensures memory { IsErr result → IsNoRepeat dedup.now moment self.old }
        ensures err { OnErr result (self.new ≡ self.old) }
        ensures same { IsSameQueue self.old self.new }
    {
        match self.repeated(dedup, moment) {
            Some(sequence) => Ok(self.count_repeat(moment, sequence)),
            None => self.accept(moment, group, dedup, body),
        }
    }

    /// Counts a send that has no deduplication id, and gets none.
    fn refuse(&mut self, moment: Moment) -> Refusal
        requires order { self.old.last ≤ moment }
        requires room { self.old.used < HISTORY_LIMIT }
        ensures refusal { result ≡ MissingDedupId }
        ensures used { self.new ≡ used_at moment self.old }
    {
        self.used += 1;
        self.last = moment;
        Refusal::MissingDedupId
    }

    /// A send that comes at that moment without a deduplication id.
    fn send_without(
        &mut self,
        moment: Moment,
        group: &GroupId,
        body: &Body,
    ) -> Result<Result<u64, Refusal>, NoMemory>
        requires order { self.old.last ≤ moment }
        requires room { self.old.used < HISTORY_LIMIT }
        ensures stands { OnOk result
            (StandsAfter (IsSend moment group.now None body.now) self.old self.new) }
        ensures reply { IfOk result (λ answer.
            IsAnswered (IsSend moment group.now None body.now) self.old (send_reply answer)) }
        ensures last { OnOk result (self.new.last ≡ moment) }
        ensures used { OnOk result (self.new.used ≡ self.old.used + 1) }
        ensures ids { IfOk result (λ answer. OnOk answer (KeepsIds moment self.new)) }
        ensures refused { IfOk result (λ answer. OnErr answer (self.new.accepted ≡ self.old.accepted)) }
        ensures err { OnErr result (self.new ≡ self.old) }
        ensures same { IsSameQueue self.old self.new }
    {
        if !self.content {
            return Ok(Err(self.refuse(moment)));
        }
        let made = DedupId::of_body(body)?;
        Ok(Ok(self.send_as(moment, group, &made, body)?))
    }

    /// A send that comes at that moment. It is answered with the message's sequence number: a new one, or
    /// that of the message that it repeats. Without a deduplication id it has the one that is made of its
    /// body, if the queue makes ids, and is refused else; a refused one leaves the accepted sends as they are,
    /// and any other forgets those whose five minutes are over. One that repeats under a given id takes no
    /// memory. After `NoMemory` the queue is as before. O(1) expected and amortized, also for what it forgets,
    /// and O(length of the body) for a made id.
    pub fn send(
        &mut self,
        moment: Moment,
        group: &GroupId,
        dedup: Option<&DedupId>,
        body: &Body,
    ) -> Result<Result<u64, Refusal>, NoMemory>
        requires order { self.old.last ≤ moment }
        requires room { self.old.used < HISTORY_LIMIT }
        ensures stands { OnOk result
            (StandsAfter (IsSend moment group.now (option_copied dedup.entry) body.now) self.old self.new) }
        ensures reply { IfOk result (λ answer.
            IsAnswered (IsSend moment group.now (option_copied dedup.entry) body.now) self.old (send_reply answer)) }
        ensures last { OnOk result (self.new.last ≡ moment) }
        ensures used { OnOk result (self.new.used ≡ self.old.used + 1) }
        ensures ids { IfOk result (λ answer. OnOk answer (KeepsIds moment self.new)) }
        ensures refused { IfOk result (λ answer. OnErr answer (self.new.accepted ≡ self.old.accepted)) }
        ensures memory { IsErr result → IfSome (option_copied dedup.entry) (λ id. IsNoRepeat id moment self.old) }
        ensures err { OnErr result (self.new ≡ self.old) }
        ensures same { IsSameQueue self.old self.new }
    {
        match dedup {
            Some(dedup) => Ok(Ok(self.send_as(moment, group, dedup, body)?)),
            None => self.send_without(moment, group, body),
        }
    }

    /// Hands out up to so many messages, hides each for that timeout, and counts the receive.
    fn mark(&mut self, moment: Moment, size: BatchSize, timeout: Seconds)
        requires order { self.old.last ≤ moment }
        requires room { self.old.used < HISTORY_LIMIT }
        ensures { self.new ≡ handed_out moment size (Some timeout) self.old }
    {
        let numbers = self.messages.numbers_to_hand(moment, size);
        let end = end_of(moment, timeout);
        self.messages.mark(moment, end, numbers.as_slice());
        self.last = moment;
        self.used += 1;
    }

    /// A receive that comes at that moment, with that visibility timeout or else the queue's. It hands out
    /// what `offer` lists. It takes no memory. O(size log messages).
    pub fn hand(&mut self, moment: Moment, size: BatchSize, visibility: Option<Seconds>)
        requires order { self.old.last ≤ moment }
        requires room { self.old.used < HISTORY_LIMIT }
        ensures stands { StandsAfter (IsReceive moment size visibility) self.old self.new }
        ensures last { self.new.last ≡ moment }
        ensures used { self.new.used ≡ self.old.used + 1 }
        ensures same { IsSameQueue self.old self.new }
    {
        let timeout = visibility.unwrap_or(self.visibility());
        self.mark(moment, size, timeout);
    }

    /// Whether the receipt is one of this incarnation, for a message that was sent to it.
    fn is_receipt_of(&self, receipt: &Receipt) -> bool
        ensures value { result ≡ is_receipt_of self.now receipt.now }
        ensures positive { 0 < receipt.now.sequence }
    {
        let sequence = receipt.sequence();
        receipt.incarnation() == self.number && sequence <= self.sent
    }

    /// Whether a delete with that receipt takes effect.
    fn deletion(&self, receipt: &Receipt) -> Result<bool, Refusal>
        ensures reply { delete_reply result ≡ (deletion self.now receipt.now).reply }
        ensures effective { is_deleting result ≡ (deletion self.now receipt.now).effective }
        ensures positive { 0 < receipt.now.sequence }
    {
        if self.is_receipt_of(receipt) {
            delete_sent(*receipt, &self.messages)
        } else {
            Err(Refusal::ReceiptHandleIsInvalid)
        }
    }

    /// Takes out the message of that sequence number.
    fn take_out(&mut self, sequence: u64)
        ensures { self.new ≡ without_message sequence self.old }
    {
        self.messages.take_out(sequence);
    }

    /// A delete with that receipt, and whether it takes effect. Where it doesn't, or is refused, nothing
    /// changes. It takes no memory. O(log messages) for each message of its group that was handed out; these are the
    /// group's first, and never more than the ten that one receive may hand out.
    pub fn delete(&mut self, receipt: &Receipt) -> Result<bool, Refusal>
        ensures stands { StandsAfter (IsDelete receipt.now) self.old self.new }
        ensures ok { IfOk result (λ deleted. IsAnswered (IsDelete receipt.now) self.old (Deleted deleted)) }
        ensures err { IfErr result (λ refusal. IsAnswered (IsDelete receipt.now) self.old (Refused refusal)) }
        ensures idle { IfOk result (λ deleted. deleted ≡ false → self.new ≡ self.old) }
        ensures refused { OnErr result (self.new ≡ self.old) }
        ensures last { self.new.last ≡ self.old.last }
        ensures used { self.new.used ≡ self.old.used }
        ensures same { IsSameQueue self.old self.new }
    {
        let deleted = self.deletion(receipt)?;
        if deleted {
            self.take_out(receipt.sequence());
        }
        Ok(deleted)
    }

    /// Whether a change of a timeout with that receipt takes effect, or why not.
    fn alteration(
        &self,
        moment: Moment,
        receipt: &Receipt,
        visibility: Seconds,
    ) -> Result<(), Refusal>
        ensures reply { change_reply result ≡ (alteration moment visibility self.now receipt.now).reply }
        ensures effective { is_changing result ≡ (alteration moment visibility self.now receipt.now).effective }
        ensures positive { 0 < receipt.now.sequence }
    {
        if self.is_receipt_of(receipt) {
            change_sent(moment, visibility, *receipt, &self.messages)
        } else {
            Err(Refusal::ReceiptHandleIsInvalid)
        }
    }

    /// Gives the message of that sequence number a timeout of so many seconds from this moment on.
    fn hide(&mut self, moment: Moment, sequence: u64, visibility: Seconds)
        requires { self.old.last ≤ moment }
        ensures { self.new ≡ with_timeout moment sequence visibility self.old }
    {
        self.messages.hide(sequence, end_of(moment, visibility));
        self.last = moment;
    }

    /// A change of a message's visibility timeout that comes at that moment. Where it is refused, nothing
    /// changes. It takes no memory. O(log messages) for each message of its group that was handed out; these are the
    /// group's first, and never more than the ten that one receive may hand out.
    pub fn change(
        &mut self,
        moment: Moment,
        receipt: &Receipt,
        visibility: Seconds,
    ) -> Result<(), Refusal>
        requires order { self.old.last ≤ moment }
        ensures stands { StandsAfter (IsChange moment receipt.now visibility) self.old self.new }
        ensures ok { OnOk result (IsAnswered (IsChange moment receipt.now visibility) self.old Changed) }
        ensures err { IfErr result (λ refusal.
            IsAnswered (IsChange moment receipt.now visibility) self.old (Refused refusal)) }
        ensures refused { OnErr result (self.new ≡ self.old) }
        ensures last { self.new.last ≤ moment }
        ensures used { self.new.used ≡ self.old.used }
        ensures same { IsSameQueue self.old self.new }
    {
        self.alteration(moment, receipt, visibility)?;
        self.hide(moment, receipt.sequence(), visibility);
        Ok(())
    }
}

//! What a queue replies: deliveries, refusals, and the rest.
ghost use Rattle.std.specs.Prelude.{◌≡◌, List, Some, IfOk};
ghost use Rattle.cq_base.specs.Refusals.{refusal_code, refusal_name};

use crate::fault::NoMemory;
use crate::receipt::Receipt;
use crate::text::{Body, GroupId};
use std::alloc::Global;
use std::fmt;
use std::marker::Model;

/// One message as a receive hands it out.
#[derive(Debug, PartialEq, Eq, Drop)]
pub struct Delivery {
    pub receipt: Receipt,
    pub group: GroupId,
    pub body: Body,
}

impl Delivery {
    /// The same delivery. It shares the texts: O(1).
    pub fn try_copy(&self) -> Result<Delivery, NoMemory>
        ensures { IfOk result (λ copy. copy ≡ self.now) }
    {
        Ok(Delivery {
            receipt: self.receipt,
            group: self.group.try_copy()?,
            body: self.body.try_copy()?,
        })
    }
}

/// The messages that one receive hands out, in order.
#[derive(Debug, Drop)]
pub struct Deliveries {
    items: Vec<Delivery>,
}

impl Model for Deliveries {
    ghost use Rattle.std.specs.Prelude.{List};
    ghost use Rattle.cq_base.specs.declared.reply.Delivery.{Delivery};

    ghost Value = { List Delivery };

    ghost view = { λ d. d.items.items };
}

impl Deliveries {
    /// The messages of the vector. It takes no memory.
    pub fn from_vec(items: Vec<Delivery>) -> Deliveries
        ensures { result ≡ items.items }
    {
        Deliveries { items }
    }

    /// The messages as a vector. It takes no memory.
    pub fn into_vec(self) -> Vec<Delivery>
        ensures { result.items ≡ self }
    {
        let Deliveries { items } = self;
        items
    }

    pub fn as_slice(&self) -> &[Delivery]
        ensures { result.now ≡ self.now }
    {
        self.items.as_slice()
    }

    /// The same messages. It shares their texts: O(number of messages).
    pub fn try_copy(&self) -> Result<Deliveries, NoMemory>
        ensures { IfOk result (λ copy. copy ≡ self.now) }
    {
        Ok(Deliveries {
            items: copies(*self.items.allocator(), self.as_slice())?,
        })
    }
}

fn copies(alloc: Global, deliveries: &[Delivery]) -> Result<Vec<Delivery>, NoMemory>
    ensures { IfOk result (λ copy. copy.items ≡ deliveries.now) }
{
    let mut copy = Vec::with_capacity(alloc, deliveries.len())?;
    for delivery in deliveries {
        copy.push(delivery.try_copy()?)?;
    }
    Ok(copy)
}

/// Why a request was refused. A refused request changes nothing of a queue.
#[derive(Clone, Copy, Debug, PartialEq, Eq)]
pub enum Refusal {
    /// No queue of this name lives (SQS API Reference, "SendMessage" and "ReceiveMessage",
    /// `QueueDoesNotExist`).
    QueueDoesNotExist,
    /// A queue of this name lives with another visibility timeout, or makes ids where the creation asks for
    /// none, or the other way round (SQS API Reference, "CreateQueue", `QueueNameExists`).
    QueueNameExists,
    /// The queue was removed less than 60,000 ms before (SQS API Reference, "CreateQueue",
    /// `QueueDeletedRecently`).
    QueueDeletedRecently,
    /// The receipt handle isn't one of a message of this incarnation, or not of a handing that allows it
    /// (SQS API Reference, "DeleteMessage" and "ChangeMessageVisibility", `ReceiptHandleIsInvalid`).
    ReceiptHandleIsInvalid,
    /// The message isn't in flight, or deleted (SQS API Reference, "ChangeMessageVisibility",
    /// `MessageNotInflight`).
    MessageNotInflight,
    /// The message would be in flight for more than 43,200,000 ms from its last handing on (SQS API
    /// Reference, "ChangeMessageVisibility"; the name is this project's).
    VisibilityBeyondLimit,
    /// The client has used a larger number already (a rule of this project).
    StaleNumber,
    /// The send has no deduplication id, and the queue makes none (SQS API Reference, "SendMessage",
    /// `MessageDeduplicationId`; the name is this project's).
    MissingDedupId,
}

impl Refusal {
    /// The number under which the refusal is told.
    pub fn code(&self) -> u16
        ensures { result ≡ refusal_code self.now }
    {
        match self {
            Refusal::QueueDoesNotExist => 1,
            Refusal::QueueNameExists => 2,
            Refusal::QueueDeletedRecently => 3,
            Refusal::ReceiptHandleIsInvalid => 4,
            Refusal::MessageNotInflight => 5,
            Refusal::VisibilityBeyondLimit => 6,
            Refusal::StaleNumber => 7,
            Refusal::MissingDedupId => 8,
        }
    }

    /// The name under which the refusal is told.
    pub fn name(&self) -> &'static str
        ensures { result.now ≡ refusal_name self.now }
    {
        match self {
            Refusal::QueueDoesNotExist => "QueueDoesNotExist",
            Refusal::QueueNameExists => "QueueNameExists",
            Refusal::QueueDeletedRecently => "QueueDeletedRecently",
            Refusal::ReceiptHandleIsInvalid => "ReceiptHandleIsInvalid",
            Refusal::MessageNotInflight => "MessageNotInflight",
            Refusal::VisibilityBeyondLimit => "VisibilityBeyondLimit",
            Refusal::StaleNumber => "StaleNumber",
            Refusal::MissingDedupId => "MissingDedupId",
        }
    }
}

impl fmt::Display for Refusal {
    ghost output = { λ r. Some (refusal_name r) };

    fn fmt<W: fmt::Write>(&self, f: &mut fmt::Formatter<W>) -> fmt::Result {
        f.write_str(self.name())
    }
}

/// What a request or a query is answered with.
#[derive(Debug, Drop)]
pub enum Reply {
    /// The queue lives; the number of its incarnation.
    Created(u64),
    /// The queue is gone, and its messages with it.
    Removed,
    /// The message is in the queue; its sequence number.
    Sent(u64),
    /// The messages handed out, none to ten.
    Received(Deliveries),
    /// Whether this delete took effect: false if the message is deleted already, or was handed out again
    /// since the handing of the receipt.
    Deleted(bool),
    /// The message has its new visibility timeout.
    Changed,
    /// How many messages of the queue aren't in flight, and how many are.
    Counts { visible: u64, in_flight: u64 },
    /// It was refused.
    Refused(Refusal),
}

impl Reply {
    /// The same reply. It shares the texts: O(number of messages).
    pub fn try_copy(&self) -> Result<Reply, NoMemory>
        ensures { IfOk result (λ copy. copy ≡ self.now) }
    {
        Ok(match self {
            Reply::Created(incarnation) => Reply::Created(*incarnation),
            Reply::Removed => Reply::Removed,
            Reply::Sent(sequence) => Reply::Sent(*sequence),
            Reply::Received(deliveries) => Reply::Received(deliveries.try_copy()?),
            Reply::Deleted(removed) => Reply::Deleted(*removed),
            Reply::Changed => Reply::Changed,
            Reply::Counts { visible, in_flight } => Reply::Counts {
                visible: *visible,
                in_flight: *in_flight,
            },
            Reply::Refused(refusal) => Reply::Refused(*refusal),
        })
    }
}

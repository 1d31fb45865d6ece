//! What clients ask: of a queue, as a request under a number, as an entry of a history, or as a query.
ghost use Rattle.std.specs.Prelude.{◌≡◌, IfOk};
ghost use Rattle.cq_base.specs.queue.Asks.{queue_of};

use crate::fault::NoMemory;
use crate::number::{BatchSize, Moment, Seconds};
use crate::receipt::Receipt;
use crate::text::{Body, DedupId, GroupId, QueueName};

/// What a client asks of a queue.
#[derive(Debug, PartialEq, Eq)]
pub enum Ask {
    /// Makes the queue, unless it lives already (SQS API Reference, "CreateQueue").
    Create {
        queue: QueueName,
        visibility: Seconds,
        /// Whether the queue makes the deduplication id of a send that has none, of its body (SQS API
        /// Reference, "CreateQueue", `ContentBasedDeduplication`).
        content: bool,
    },
    /// Ends the queue and its messages at once (SQS API Reference, "DeleteQueue").
    Remove {
        queue: QueueName,
    },
    /// Adds a message to the end of its group (SQS API Reference, "SendMessage"). Without a deduplication
    /// id it has the one that the queue makes of its body, or is refused.
    Send {
        queue: QueueName,
        group: GroupId,
        dedup: Option<DedupId>,
        body: Body,
    },
    /// Hands out messages of open groups (SQS API Reference, "ReceiveMessage"). Without a visibility
    /// timeout it takes the queue's.
    Receive {
        queue: QueueName,
        size: BatchSize,
        visibility: Option<Seconds>,
    },
    /// Deletes a message, by the receipt of its last handing (SQS API Reference, "DeleteMessage").
    Delete {
        queue: QueueName,
        receipt: Receipt,
    },
    /// Sets a new visibility timeout of a message in flight, from now on (SQS API Reference,
    /// "ChangeMessageVisibility").
    Change {
        queue: QueueName,
        receipt: Receipt,
        visibility: Seconds,
    },
}

/// Written out, not derived: CONTRIBUTING.md, "Drop".
impl Drop for Ask {
    fn drop(self) {
        match self {
            Ask::Create {
                queue: _,
                visibility: _,
                content: _,
            } => (),
            Ask::Remove { queue: _ } => (),
            Ask::Send {
                queue: _,
                group: _,
                dedup: _,
                body: _,
            } => (),
            Ask::Receive {
                queue: _,
                size: _,
                visibility: _,
            } => (),
            Ask::Delete {
                queue: _,
                receipt: _,
            } => (),
            Ask::Change {
                queue: _,
                receipt: _,
                visibility: _,
            } => (),
        }
    }
}

impl Ask {
    /// The queue that it names.
    pub fn queue(&self) -> &QueueName
        ensures { result.now ≡ queue_of self.now }
    {
        match self {
            Ask::Create { queue, .. } => queue,
            Ask::Remove { queue } => queue,
            Ask::Send { queue, .. } => queue,
            Ask::Receive { queue, .. } => queue,
            Ask::Delete { queue, .. } => queue,
            Ask::Change { queue, .. } => queue,
        }
    }

    /// The same ask. It shares the texts: O(1).
    pub fn try_copy(&self) -> Result<Ask, NoMemory>
        ensures { IfOk result (λ copy. copy ≡ self.now) }
    {
        Ok(match self {
            Ask::Create {
                queue,
                visibility,
                content,
            } => Ask::Create {
                queue: queue.try_copy()?,
                visibility: *visibility,
                content: *content,
            },
            Ask::Remove { queue } => Ask::Remove {
                queue: queue.try_copy()?,
            },
            Ask::Send {
                queue,
                group,
                dedup,
                body,
            } => Ask::Send {
                queue: queue.try_copy()?,
                group: group.try_copy()?,
                dedup: copy_of(dedup)?,
                body: body.try_copy()?,
            },
            Ask::Receive {
                queue,
                size,
                visibility,
            } => Ask::Receive {
                queue: queue.try_copy()?,
                size: *size,
                visibility: *visibility,
            },
            Ask::Delete { queue, receipt } => Ask::Delete {
                queue: queue.try_copy()?,
                receipt: *receipt,
            },
            Ask::Change {
                queue,
                receipt,
                visibility,
            } => Ask::Change {
                queue: queue.try_copy()?,
                receipt: *receipt,
                visibility: *visibility,
            },
        })
    }
}

/// The same id, if there is one. It shares the text: O(1).
fn copy_of(dedup: &Option<DedupId>) -> Result<Option<DedupId>, NoMemory>
    ensures { IfOk result (λ copy. copy ≡ dedup.now) }
{
    match dedup {
        Some(dedup) => Ok(Some(dedup.try_copy()?)),
        None => Ok(None),
    }
}

/// An ask of a client under a number of its own, by which a repeat is known.
#[derive(Debug, PartialEq, Eq, Drop)]
pub struct Request {
    pub client: u32,
    pub number: u64,
    pub ask: Ask,
}

impl Request {
    /// The same request. It shares the texts: O(1).
    pub fn try_copy(&self) -> Result<Request, NoMemory>
        ensures { IfOk result (λ copy. copy ≡ self.now) }
    {
        Ok(Request {
            client: self.client,
            number: self.number,
            ask: self.ask.try_copy()?,
        })
    }
}

/// A request and the moment at which it counts.
#[derive(Debug, PartialEq, Eq, Drop)]
pub struct Entry {
    pub moment: Moment,
    pub request: Request,
}

impl Entry {
    /// The same entry. It shares the texts: O(1).
    pub fn try_copy(&self) -> Result<Entry, NoMemory>
        ensures { IfOk result (λ copy. copy ≡ self.now) }
    {
        Ok(Entry {
            moment: self.moment,
            request: self.request.try_copy()?,
        })
    }
}

/// A question about a queue: how many messages it has. It is no request, and stands in no list. The tag
/// is the client's own, by which it knows the answer.
#[derive(Debug, PartialEq, Eq, Drop)]
pub struct Query {
    pub client: u32,
    pub tag: u64,
    pub queue: QueueName,
}

impl Query {
    /// The same query. It shares the name: O(1).
    pub fn try_copy(&self) -> Result<Query, NoMemory>
        ensures { IfOk result (λ copy. copy ≡ self.now) }
    {
        Ok(Query {
            client: self.client,
            tag: self.tag,
            queue: self.queue.try_copy()?,
        })
    }
}

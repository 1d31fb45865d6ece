//! Replies that are both given and kept.
ghost use Rattle.std.specs.Prelude.{◌≡◌, IfOk};
ghost use Rattle.cq_base.specs.declared.reply.Reply.TheVariants as replies;

use cq_base::{Deliveries, NoMemory, Refusal, Reply};

/// A reply, once to be given and once to be kept.
#[derive(Drop)]
pub struct ReplyPair {
    pub reply: Reply,
    pub kept: Reply,
}

impl ReplyPair {
    pub fn created(incarnation: u64) -> ReplyPair
        ensures reply { result.reply ≡ replies.Created incarnation }
        ensures kept { result.kept ≡ replies.Created incarnation }
    {
        ReplyPair {
            reply: Reply::Created(incarnation),
            kept: Reply::Created(incarnation),
        }
    }

    pub fn removed() -> ReplyPair
        ensures reply { result.reply ≡ replies.Removed }
        ensures kept { result.kept ≡ replies.Removed }
    {
        ReplyPair {
            reply: Reply::Removed,
            kept: Reply::Removed,
        }
    }

    pub fn sent(sequence: u64) -> ReplyPair
        ensures reply { result.reply ≡ replies.Sent sequence }
        ensures kept { result.kept ≡ replies.Sent sequence }
    {
        ReplyPair {
            reply: Reply::Sent(sequence),
            kept: Reply::Sent(sequence),
        }
    }

    /// Takes memory for a second list of the deliveries.
    pub fn received(deliveries: Deliveries) -> Result<ReplyPair, NoMemory>
        ensures reply { IfOk result (λ answered. answered.reply ≡ replies.Received deliveries) }
        ensures kept { IfOk result (λ answered. answered.kept ≡ replies.Received deliveries) }
    {
        let copy = deliveries.try_copy()?;
        Ok(ReplyPair {
            reply: Reply::Received(deliveries),
            kept: Reply::Received(copy),
        })
    }

    pub fn deleted(removed: bool) -> ReplyPair
        ensures reply { result.reply ≡ replies.Deleted removed }
        ensures kept { result.kept ≡ replies.Deleted removed }
    {
        ReplyPair {
            reply: Reply::Deleted(removed),
            kept: Reply::Deleted(removed),
        }
    }

    pub fn changed() -> ReplyPair
        ensures reply { result.reply ≡ replies.Changed }
        ensures kept { result.kept ≡ replies.Changed }
    {
        ReplyPair {
            reply: Reply::Changed,
            kept: Reply::Changed,
        }
    }

    pub fn refused(refusal: Refusal) -> ReplyPair
        ensures reply { result.reply ≡ replies.Refused refusal }
        ensures kept { result.kept ≡ replies.Refused refusal }
    {
        ReplyPair {
            reply: Reply::Refused(refusal),
            kept: Reply::Refused(refusal),
        }
    }
}

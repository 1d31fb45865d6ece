//! Messages by their kinds, each from the front of bytes. Each answers the message and the bytes behind it.
ghost use Rattle.std.specs.Prelude.{◌≡◌};
ghost use Rattle.cq_wire.specs.Reading.{Gives, optional_at, server_at};
ghost use Rattle.cq_chain_wire.specs.Reading.{answer_at, fwd_at, ack_at, report_at, adopt_at, be_tail_at, feed_at, have_at, adopted_at, caught_at, answered_at, message_at};

use cq_base::ServerId;
use cq_chain::{Answer, Message};
use cq_wire::{ReadFault, WireFault, entry_of, flag_of, reply_of, server_of, u32_of, u64_of};
use std::alloc::Global;

#[tactic(auto, unfolding(cq_wire::specs::Reading::optional_at))]
fn server_if_of(bytes: &[u8]) -> Result<(Option<ServerId>, &[u8]), ReadFault>
    ensures { Gives (λ x. (x.0, x.1.now)) result (optional_at server_at bytes.now) }
{
    let (is_there, rest) = flag_of(bytes)?;
    if is_there {
        let (id, rest) = match server_of(rest) {
            Ok(read) => read,
            Err(fault) => return Err(fault),
        };
        Ok((Some(id), rest))
    } else {
        Ok((None, rest))
    }
}

#[tactic(auto, unfolding(crate::specs::Reading::answer_at))]
fn answer_of(alloc: Global, bytes: &[u8]) -> Result<(Answer, &[u8]), ReadFault>
    ensures { Gives (λ x. (x.0, x.1.now)) result (answer_at bytes.now) }
{
    let (client, rest) = u32_of(bytes)?;
    let (number, rest) = u64_of(rest)?;
    let (is_query, rest) = flag_of(rest)?;
    let (length, rest) = u64_of(rest)?;
    let (reply, rest) = match reply_of(alloc, rest) {
        Ok(read) => read,
        Err(fault) => return Err(fault),
    };
    Ok((
        Answer {
            client,
            number,
            is_query,
            length,
            reply,
        },
        rest,
    ))
}

#[tactic(auto, unfolding(crate::specs::Reading::fwd_at))]
fn fwd_of(alloc: Global, bytes: &[u8]) -> Result<(Message, &[u8]), ReadFault>
    ensures { Gives (λ x. (x.0, x.1.now)) result (fwd_at bytes.now) }
{
    let (place, rest) = u64_of(bytes)?;
    let (entry, rest) = match entry_of(alloc, rest) {
        Ok(read) => read,
        Err(fault) => return Err(fault),
    };
    Ok((Message::Fwd { place, entry }, rest))
}

#[tactic(auto, unfolding(crate::specs::Reading::ack_at))]
fn ack_of(bytes: &[u8]) -> Result<(Message, &[u8]), ReadFault>
    ensures { Gives (λ x. (x.0, x.1.now)) result (ack_at bytes.now) }
{
    let (place, rest) = u64_of(bytes)?;
    Ok((Message::Ack { place }, rest))
}

#[tactic(auto, unfolding(crate::specs::Reading::report_at))]
fn report_of(bytes: &[u8]) -> Result<(Message, &[u8]), ReadFault>
    ensures { Gives (λ x. (x.0, x.1.now)) result (report_at bytes.now) }
{
    let (pred, rest) = match server_of(bytes) {
        Ok(read) => read,
        Err(fault) => return Err(fault),
    };
    Ok((Message::Report { pred }, rest))
}

#[tactic(auto, unfolding(crate::specs::Reading::adopt_at))]
fn adopt_of(bytes: &[u8]) -> Result<(Message, &[u8]), ReadFault>
    ensures { Gives (λ x. (x.0, x.1.now)) result (adopt_at bytes.now) }
{
    let (succ, rest) = match server_of(bytes) {
        Ok(read) => read,
        Err(fault) => return Err(fault),
    };
    let (have, rest) = u64_of(rest)?;
    Ok((Message::Adopt { succ, have }, rest))
}

#[tactic(auto, unfolding(crate::specs::Reading::be_tail_at))]
fn be_tail_of(bytes: &[u8]) -> Result<(Message, &[u8]), ReadFault>
    ensures { Gives (λ x. (x.0, x.1.now)) result (be_tail_at bytes.now) }
{
    let (at_least, rest) = u64_of(bytes)?;
    Ok((Message::BeTail { at_least }, rest))
}

#[tactic(auto, unfolding(crate::specs::Reading::feed_at))]
fn feed_of(bytes: &[u8]) -> Result<(Message, &[u8]), ReadFault>
    ensures { Gives (λ x. (x.0, x.1.now)) result (feed_at bytes.now) }
{
    let (succ, rest) = match server_if_of(bytes) {
        Ok(read) => read,
        Err(fault) => return Err(fault),
    };
    Ok((Message::Feed { succ }, rest))
}

#[tactic(auto, unfolding(crate::specs::Reading::have_at))]
fn have_of(bytes: &[u8]) -> Result<(Message, &[u8]), ReadFault>
    ensures { Gives (λ x. (x.0, x.1.now)) result (have_at bytes.now) }
{
    let (pred, rest) = match server_of(bytes) {
        Ok(read) => read,
        Err(fault) => return Err(fault),
    };
    let (count, rest) = u64_of(rest)?;
    Ok((Message::Have { pred, count }, rest))
}

#[tactic(auto, unfolding(crate::specs::Reading::adopted_at))]
fn adopted_of(bytes: &[u8]) -> Result<(Message, &[u8]), ReadFault>
    ensures { Gives (λ x. (x.0, x.1.now)) result (adopted_at bytes.now) }
{
    let (succ, rest) = match server_of(bytes) {
        Ok(read) => read,
        Err(fault) => return Err(fault),
    };
    let (count, rest) = u64_of(rest)?;
    Ok((Message::Adopted { succ, count }, rest))
}

#[tactic(auto, unfolding(crate::specs::Reading::caught_at))]
fn caught_of(bytes: &[u8]) -> Result<(Message, &[u8]), ReadFault>
    ensures { Gives (λ x. (x.0, x.1.now)) result (caught_at bytes.now) }
{
    let (pred, rest) = match server_of(bytes) {
        Ok(read) => read,
        Err(fault) => return Err(fault),
    };
    let (count, rest) = u64_of(rest)?;
    Ok((Message::Caught { pred, count }, rest))
}

#[tactic(auto, unfolding(crate::specs::Reading::answered_at))]
fn answered_of(alloc: Global, bytes: &[u8]) -> Result<(Message, &[u8]), ReadFault>
    ensures { Gives (λ x. (x.0, x.1.now)) result (answered_at bytes.now) }
{
    let (answer, rest) = match answer_of(alloc, bytes) {
        Ok(read) => read,
        Err(fault) => return Err(fault),
    };
    Ok((Message::Answer(answer), rest))
}

#[tactic(auto, unfolding(crate::specs::Reading::message_at))]
pub fn message_of(alloc: Global, bytes: &[u8]) -> Result<(Message, &[u8]), ReadFault>
    ensures { Gives (λ x. (x.0, x.1.now)) result (message_at bytes.now) }
{
    match bytes {
        [] => Err(ReadFault::Bad(WireFault::Truncated)),
        [0, rest @ ..] => fwd_of(alloc, rest),
        [2, rest @ ..] => ack_of(rest),
        [3, rest @ ..] => Ok((Message::BeHead, rest)),
        [4, rest @ ..] => report_of(rest),
        [5, rest @ ..] => adopt_of(rest),
        [6, rest @ ..] => be_tail_of(rest),
        [7, rest @ ..] => feed_of(rest),
        [8, rest @ ..] => have_of(rest),
        [9, rest @ ..] => adopted_of(rest),
        [10, rest @ ..] => caught_of(rest),
        [11, rest @ ..] => Ok((Message::Ready, rest)),
        [12, rest @ ..] => answered_of(alloc, rest),
        [_, ..] => Err(ReadFault::Bad(WireFault::BadTag)),
    }
}

//! Parts of a store, each from the front of bytes.
ghost use Rattle.std.specs.Prelude.{◌≡◌};
ghost use Rattle.cq_wire.specs.Reading.{Gives, optional_at, moment_at};
ghost use Rattle.cq_store_wire.specs.Reading.{a_message_at, a_name_at, accepted_at, an_accepted_at, client_at, handings_at, message_at, name_record_at, part_at, queue_at, start_at, uses_at};

use crate::open_queue::OpenQueue;
use crate::part::{NameRecord, Part};
use crate::replies::reply_record_of;
use cq_base::{HISTORY_LIMIT, Moment};
use cq_messages::Message;
use cq_queue::{Accepted, Queue};
use cq_wire::{
    ReadFault, WireFault, body_of, dedup_of, flag_of, group_of, moment_of, name_of, seconds_of,
    u32_of, u64_of,
};
use std::alloc::Global;

#[tactic(auto, unfolding(crate::specs::Reading::uses_at))]
fn uses_of(bytes: &[u8]) -> Result<((u64, u64, Moment), &[u8]), ReadFault>
    ensures { Gives (λ x. ((x.0.0, (x.0.1, x.0.2)), x.1.now)) result (uses_at bytes.now) }
{
    let (sent, rest) = u64_of(bytes)?;
    let (used, rest) = u64_of(rest)?;
    let (last, rest) = match moment_of(rest) {
        Ok(read) => read,
        Err(fault) => return Err(fault),
    };
    Ok(((sent, used, last), rest))
}

#[tactic(auto, unfolding(crate::specs::Reading::any_queue_at, crate::specs::Reading::queue_at))]
fn queue_of(alloc: Global, bytes: &[u8]) -> Result<(OpenQueue, &[u8]), ReadFault>
    ensures { Gives (λ x. (x.0, x.1.now)) result (queue_at bytes.now) }
{
    let (number, rest) = u64_of(bytes)?;
    let (visibility, rest) = match seconds_of(rest) {
        Ok(read) => read,
        Err(fault) => return Err(fault),
    };
    let (content, rest) = flag_of(rest)?;
    let ((sent, used, last), rest) = match uses_of(rest) {
        Ok(read) => read,
        Err(fault) => return Err(fault),
    };
    if number == 0 || used < sent || HISTORY_LIMIT < used {
        return Err(ReadFault::Bad(WireFault::BadNumber));
    }
    let queue = Queue::restored(alloc, number, visibility, content, sent, used, last);
    match OpenQueue::new(alloc, queue) {
        Ok(open) => Ok((open, rest)),
        Err(_) => Err(ReadFault::NoMemory),
    }
}

#[tactic(auto, unfolding(cq_wire::specs::Reading::optional_at))]
fn queue_if_of(alloc: Global, bytes: &[u8]) -> Result<(Option<OpenQueue>, &[u8]), ReadFault>
    ensures { Gives (λ x. (x.0, x.1.now)) result (optional_at queue_at bytes.now) }
{
    let (is_there, rest) = flag_of(bytes)?;
    if is_there {
        let (queue, rest) = match queue_of(alloc, rest) {
            Ok(read) => read,
            Err(fault) => return Err(fault),
        };
        Ok((Some(queue), rest))
    } else {
        Ok((None, rest))
    }
}

#[tactic(auto, unfolding(cq_wire::specs::Reading::optional_at))]
fn moment_if_of(bytes: &[u8]) -> Result<(Option<Moment>, &[u8]), ReadFault>
    ensures { Gives (λ x. (x.0, x.1.now)) result (optional_at moment_at bytes.now) }
{
    let (is_there, rest) = flag_of(bytes)?;
    if is_there {
        let (moment, rest) = match moment_of(rest) {
            Ok(read) => read,
            Err(fault) => return Err(fault),
        };
        Ok((Some(moment), rest))
    } else {
        Ok((None, rest))
    }
}

#[tactic(auto, unfolding(crate::specs::Reading::name_record_at))]
fn name_record_of(alloc: Global, bytes: &[u8]) -> Result<(NameRecord, &[u8]), ReadFault>
    ensures { Gives (λ x. (x.0, x.1.now)) result (name_record_at bytes.now) }
{
    let (name, rest) = name_of(alloc, bytes)?;
    let (creations, rest) = u64_of(rest)?;
    let (removed, rest) = match moment_if_of(rest) {
        Ok(read) => read,
        Err(fault) => return Err(fault),
    };
    let (living, rest) = match queue_if_of(alloc, rest) {
        Ok(read) => read,
        Err(fault) => return Err(fault),
    };
    let record = NameRecord {
        name,
        creations,
        removed,
        living,
    };
    Ok((record, rest))
}

#[tactic(auto, unfolding(crate::specs::Reading::handings_at))]
fn handings_of(bytes: &[u8]) -> Result<((u64, Moment, u64), &[u8]), ReadFault>
    ensures { Gives (λ x. ((x.0.0, (x.0.1, x.0.2)), x.1.now)) result (handings_at bytes.now) }
{
    let (handings, rest) = u64_of(bytes)?;
    let (handed_at, rest) = match moment_of(rest) {
        Ok(read) => read,
        Err(fault) => return Err(fault),
    };
    let (until, rest) = u64_of(rest)?;
    Ok(((handings, handed_at, until), rest))
}

#[tactic(auto, unfolding(crate::specs::Reading::any_message_at, crate::specs::Reading::message_at))]
fn message_of(alloc: Global, bytes: &[u8]) -> Result<(Message, &[u8]), ReadFault>
    ensures { Gives (λ x. (x.0, x.1.now)) result (message_at bytes.now) }
{
    let (sequence, rest) = u64_of(bytes)?;
    let (group, rest) = group_of(alloc, rest)?;
    let (body, rest) = body_of(alloc, rest)?;
    let ((handings, handed_at, until), rest) = match handings_of(rest) {
        Ok(read) => read,
        Err(fault) => return Err(fault),
    };
    if sequence == 0 || HISTORY_LIMIT < handings {
        return Err(ReadFault::Bad(WireFault::BadNumber));
    }
    let message = Message {
        sequence,
        group,
        body,
        handings,
        handed_at,
        until,
    };
    Ok((message, rest))
}

#[tactic(auto, unfolding(crate::specs::Reading::accepted_at))]
fn accepted_of(alloc: Global, bytes: &[u8]) -> Result<(Accepted, &[u8]), ReadFault>
    ensures { Gives (λ x. (x.0, x.1.now)) result (accepted_at bytes.now) }
{
    let (dedup, rest) = dedup_of(alloc, bytes)?;
    let (moment, rest) = match moment_of(rest) {
        Ok(read) => read,
        Err(fault) => return Err(fault),
    };
    let (sequence, rest) = u64_of(rest)?;
    let accepted = Accepted {
        dedup,
        moment,
        sequence,
    };
    Ok((accepted, rest))
}

#[tactic(auto, unfolding(crate::specs::Reading::start_at))]
fn start_of(bytes: &[u8]) -> Result<(Part, &[u8]), ReadFault>
    ensures { Gives (λ x. (x.0, x.1.now)) result (start_at bytes.now) }
{
    let (count, rest) = u64_of(bytes)?;
    let (last, rest) = match moment_of(rest) {
        Ok(read) => read,
        Err(fault) => return Err(fault),
    };
    Ok((Part::Start { count, last }, rest))
}

#[tactic(auto, unfolding(crate::specs::Reading::client_at))]
fn client_of(alloc: Global, bytes: &[u8]) -> Result<(Part, &[u8]), ReadFault>
    ensures { Gives (λ x. (x.0, x.1.now)) result (client_at bytes.now) }
{
    let (client, rest) = u32_of(bytes)?;
    let (number, rest) = u64_of(rest)?;
    let (reply, rest) = match reply_record_of(alloc, rest) {
        Ok(read) => read,
        Err(fault) => return Err(fault),
    };
    let part = Part::Client {
        client,
        number,
        reply,
    };
    Ok((part, rest))
}

#[tactic(auto, unfolding(crate::specs::Reading::a_name_at))]
fn a_name_of(alloc: Global, bytes: &[u8]) -> Result<(Part, &[u8]), ReadFault>
    ensures { Gives (λ x. (x.0, x.1.now)) result (a_name_at bytes.now) }
{
    let (record, rest) = match name_record_of(alloc, bytes) {
        Ok(read) => read,
        Err(fault) => return Err(fault),
    };
    Ok((Part::Name(record), rest))
}

#[tactic(auto, unfolding(crate::specs::Reading::a_message_at))]
fn a_message_of(alloc: Global, bytes: &[u8]) -> Result<(Part, &[u8]), ReadFault>
    ensures { Gives (λ x. (x.0, x.1.now)) result (a_message_at bytes.now) }
{
    let (message, rest) = match message_of(alloc, bytes) {
        Ok(read) => read,
        Err(fault) => return Err(fault),
    };
    Ok((Part::Message(message), rest))
}

#[tactic(auto, unfolding(crate::specs::Reading::an_accepted_at))]
fn an_accepted_of(alloc: Global, bytes: &[u8]) -> Result<(Part, &[u8]), ReadFault>
    ensures { Gives (λ x. (x.0, x.1.now)) result (an_accepted_at bytes.now) }
{
    let (accepted, rest) = match accepted_of(alloc, bytes) {
        Ok(read) => read,
        Err(fault) => return Err(fault),
    };
    Ok((Part::Accepted(accepted), rest))
}

#[tactic(auto, unfolding(crate::specs::Reading::part_at))]
pub fn part_of(alloc: Global, bytes: &[u8]) -> Result<(Part, &[u8]), ReadFault>
    ensures { Gives (λ x. (x.0, x.1.now)) result (part_at bytes.now) }
{
    match bytes {
        [] => Err(ReadFault::Bad(WireFault::Truncated)),
        [0, rest @ ..] => start_of(rest),
        [1, rest @ ..] => client_of(alloc, rest),
        [2, rest @ ..] => a_name_of(alloc, rest),
        [3, rest @ ..] => a_message_of(alloc, rest),
        [4, rest @ ..] => an_accepted_of(alloc, rest),
        [5, rest @ ..] => Ok((Part::End, rest)),
        [_, ..] => Err(ReadFault::Bad(WireFault::BadTag)),
    }
}

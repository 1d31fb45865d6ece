//! Asks, requests, entries and queries, each from the front of bytes.
ghost use Rattle.std.specs.Prelude.{◌≡◌};
ghost use Rattle.cq_wire.specs.Reading.{Gives, create_at, remove_at, send_at, receive_at, delete_at, change_at, ask_at, request_at, entry_at, query_at};

use crate::fault::{ReadFault, WireFault};
use crate::parts::{
    batch_of, body_of, dedup_if_of, flag_of, group_of, moment_of, name_of, receipt_of,
    seconds_if_of, seconds_of, u32_of, u64_of,
};
use cq_base::{Ask, Entry, Query, Request};
use std::alloc::Global;

#[tactic(auto, unfolding(crate::specs::Reading::create_at))]
fn create_of(alloc: Global, bytes: &[u8]) -> Result<(Ask, &[u8]), ReadFault>
    ensures { Gives (λ x. (x.0, x.1.now)) result (create_at bytes.now) }
{
    let (queue, rest) = name_of(alloc, bytes)?;
    let (visibility, rest) = match seconds_of(rest) {
        Ok(read) => read,
        Err(fault) => return Err(fault),
    };
    let (content, rest) = flag_of(rest)?;
    Ok((
        Ask::Create {
            queue,
            visibility,
            content,
        },
        rest,
    ))
}

#[tactic(auto, unfolding(crate::specs::Reading::remove_at))]
fn remove_of(alloc: Global, bytes: &[u8]) -> Result<(Ask, &[u8]), ReadFault>
    ensures { Gives (λ x. (x.0, x.1.now)) result (remove_at bytes.now) }
{
    let (queue, rest) = name_of(alloc, bytes)?;
    Ok((Ask::Remove { queue }, rest))
}

#[tactic(auto, unfolding(crate::specs::Reading::send_at))]
fn send_of(alloc: Global, bytes: &[u8]) -> Result<(Ask, &[u8]), ReadFault>
    ensures { Gives (λ x. (x.0, x.1.now)) result (send_at bytes.now) }
{
    let (queue, rest) = name_of(alloc, bytes)?;
    let (group, rest) = group_of(alloc, rest)?;
    let (dedup, rest) = dedup_if_of(alloc, rest)?;
    let (body, rest) = body_of(alloc, rest)?;
    Ok((
        Ask::Send {
            queue,
            group,
            dedup,
            body,
        },
        rest,
    ))
}

#[tactic(auto, unfolding(crate::specs::Reading::receive_at))]
fn receive_of(alloc: Global, bytes: &[u8]) -> Result<(Ask, &[u8]), ReadFault>
    ensures { Gives (λ x. (x.0, x.1.now)) result (receive_at bytes.now) }
{
    let (queue, rest) = name_of(alloc, bytes)?;
    let (size, rest) = match batch_of(rest) {
        Ok(read) => read,
        Err(fault) => return Err(fault),
    };
    let (visibility, rest) = match seconds_if_of(rest) {
        Ok(read) => read,
        Err(fault) => return Err(fault),
    };
    Ok((
        Ask::Receive {
            queue,
            size,
            visibility,
        },
        rest,
    ))
}

#[tactic(auto, unfolding(crate::specs::Reading::delete_at))]
fn delete_of(alloc: Global, bytes: &[u8]) -> Result<(Ask, &[u8]), ReadFault>
    ensures { Gives (λ x. (x.0, x.1.now)) result (delete_at bytes.now) }
{
    let (queue, rest) = name_of(alloc, bytes)?;
    let (receipt, rest) = match receipt_of(rest) {
        Ok(read) => read,
        Err(fault) => return Err(fault),
    };
    Ok((Ask::Delete { queue, receipt }, rest))
}

#[tactic(auto, unfolding(crate::specs::Reading::change_at))]
fn change_of(alloc: Global, bytes: &[u8]) -> Result<(Ask, &[u8]), ReadFault>
    ensures { Gives (λ x. (x.0, x.1.now)) result (change_at bytes.now) }
{
    let (queue, rest) = name_of(alloc, bytes)?;
    let (receipt, rest) = match receipt_of(rest) {
        Ok(read) => read,
        Err(fault) => return Err(fault),
    };
    let (visibility, rest) = match seconds_of(rest) {
        Ok(read) => read,
        Err(fault) => return Err(fault),
    };
    Ok((
        Ask::Change {
            queue,
            receipt,
            visibility,
        },
        rest,
    ))
}

#[tactic(auto, unfolding(crate::specs::Reading::ask_at))]
fn ask_of(alloc: Global, bytes: &[u8]) -> Result<(Ask, &[u8]), ReadFault>
    ensures { Gives (λ x. (x.0, x.1.now)) result (ask_at bytes.now) }
{
    match bytes {
        [] => Err(ReadFault::Bad(WireFault::Truncated)),
        [0, rest @ ..] => create_of(alloc, rest),
        [1, rest @ ..] => remove_of(alloc, rest),
        [2, rest @ ..] => send_of(alloc, rest),
        [3, rest @ ..] => receive_of(alloc, rest),
        [4, rest @ ..] => delete_of(alloc, rest),
        [5, rest @ ..] => change_of(alloc, rest),
        [_, ..] => Err(ReadFault::Bad(WireFault::BadTag)),
    }
}

/// A request. O(bytes of it), and memory for its texts alone.
#[tactic(auto, unfolding(crate::specs::Reading::request_at))]
pub fn request_of(alloc: Global, bytes: &[u8]) -> Result<(Request, &[u8]), ReadFault>
    ensures { Gives (λ x. (x.0, x.1.now)) result (request_at bytes.now) }
{
    let (client, rest) = u32_of(bytes)?;
    let (number, rest) = u64_of(rest)?;
    let (ask, rest) = ask_of(alloc, rest)?;
    Ok((
        Request {
            client,
            number,
            ask,
        },
        rest,
    ))
}

/// An entry. O(bytes of it), and memory for its texts alone.
#[tactic(auto, unfolding(crate::specs::Reading::entry_at))]
pub fn entry_of(alloc: Global, bytes: &[u8]) -> Result<(Entry, &[u8]), ReadFault>
    ensures { Gives (λ x. (x.0, x.1.now)) result (entry_at bytes.now) }
{
    let (moment, rest) = match moment_of(bytes) {
        Ok(read) => read,
        Err(fault) => return Err(fault),
    };
    let (request, rest) = request_of(alloc, rest)?;
    Ok((Entry { moment, request }, rest))
}

/// A query. O(bytes of it), and memory for its text alone.
#[tactic(auto, unfolding(crate::specs::Reading::query_at))]
pub fn query_of(alloc: Global, bytes: &[u8]) -> Result<(Query, &[u8]), ReadFault>
    ensures { Gives (λ x. (x.0, x.1.now)) result (query_at bytes.now) }
{
    let (client, rest) = u32_of(bytes)?;
    let (tag, rest) = u64_of(rest)?;
    let (queue, rest) = name_of(alloc, rest)?;
    Ok((Query { client, tag, queue }, rest))
}

//! The parts of values, each from the front of bytes. Each answers the part and the bytes behind it.
ghost use Rattle.std.specs.Prelude.{◌≡◌};
ghost use Rattle.std.specs.Int.{w32, w64};
ghost use Rattle.cq_wire.specs.Reading.{Gives, number_at, bytes_at, run_at, server_at, text_at, flag_at, moment_at, seconds_at, batch_at, name_at, id_at, body_at, optional_at, receipt_at};
ghost use Rattle.cq_wire.specs.within.Checked.{utf8_in};

use crate::fault::{ReadFault, WireFault};
use cq_base::{
    BaseFault, BatchSize, Body, DedupId, GroupId, Moment, QueueName, Receipt, Seconds, ServerId,
};
use std::alloc::Global;
use std::str;

/// A number of four bytes, the lowest first. O(1).
#[tactic(auto, unfolding(crate::specs::Reading::number_at))]
pub fn u32_of(bytes: &[u8]) -> Result<(u32, &[u8]), ReadFault>
    ensures { Gives (λ x. (x.0, x.1.now)) result (number_at w32 bytes.now) }
{
    if bytes.len() < 4 {
        return Err(ReadFault::Bad(WireFault::Truncated));
    }
    let (front, rest) = bytes.split_at(4);
    let number = u32::from_le_bytes([front[0], front[1], front[2], front[3]]);
    Ok((number, rest))
}

/// A number of eight bytes, the lowest first. O(1).
#[tactic(auto, unfolding(crate::specs::Reading::number_at))]
pub fn u64_of(bytes: &[u8]) -> Result<(u64, &[u8]), ReadFault>
    ensures { Gives (λ x. (x.0, x.1.now)) result (number_at w64 bytes.now) }
{
    if bytes.len() < 8 {
        return Err(ReadFault::Bad(WireFault::Truncated));
    }
    let (front, rest) = bytes.split_at(8);
    let number = u64::from_le_bytes([
        front[0], front[1], front[2], front[3], front[4], front[5], front[6], front[7],
    ]);
    Ok((number, rest))
}

#[tactic(auto, unfolding(crate::specs::Reading::bytes_at))]
fn bytes_of(count: usize, bytes: &[u8]) -> Result<(&[u8], &[u8]), ReadFault>
    ensures { Gives (λ x. (x.0.now, x.1.now)) result (bytes_at count bytes.now) }
{
    if bytes.len() < count {
        return Err(ReadFault::Bad(WireFault::Truncated));
    }
    Ok(bytes.split_at(count))
}

/// Bytes behind their number, which has four bytes. O(1).
#[tactic(auto, unfolding(crate::specs::Reading::run_at))]
pub fn run_of(bytes: &[u8]) -> Result<(&[u8], &[u8]), ReadFault>
    ensures { Gives (λ x. (x.0.now, x.1.now)) result (run_at bytes.now) }
{
    let (count, rest) = u32_of(bytes)?;
    bytes_of(count as usize, rest)
}

/// The number of a server, of four bytes; `BadNumber` where it is 0. O(1).
#[tactic(auto, unfolding(crate::specs::Reading::server_at))]
pub fn server_of(bytes: &[u8]) -> Result<(ServerId, &[u8]), ReadFault>
    ensures { Gives (λ x. (x.0, x.1.now)) result (server_at bytes.now) }
{
    let (number, rest) = u32_of(bytes)?;
    match ServerId::new(number) {
        Some(id) => Ok((id, rest)),
        None => Err(ReadFault::Bad(WireFault::BadNumber)),
    }
}

fn str_of(bytes: &[u8]) -> Result<&str, ReadFault>
    ensures { Gives (λ x. x.now) result (utf8_in bytes.now) }
{
    match str::from_utf8(bytes) {
        Ok(text) => Ok(text),
        Err(_) => Err(ReadFault::Bad(WireFault::BadText)),
    }
}

#[tactic(auto, unfolding(crate::specs::Reading::text_at))]
fn text_of(bytes: &[u8]) -> Result<(&str, &[u8]), ReadFault>
    ensures { Gives (λ x. (x.0.now, x.1.now)) result (text_at bytes.now) }
{
    let (count, rest) = u32_of(bytes)?;
    let (front, rest) = bytes_of(count as usize, rest)?;
    Ok((str_of(front)?, rest))
}

/// Yes or no, of one byte. O(1).
#[tactic(auto, unfolding(crate::specs::Reading::flag_at))]
pub fn flag_of(bytes: &[u8]) -> Result<(bool, &[u8]), ReadFault>
    ensures { Gives (λ x. (x.0, x.1.now)) result (flag_at bytes.now) }
{
    match bytes {
        [] => Err(ReadFault::Bad(WireFault::Truncated)),
        [0, rest @ ..] => Ok((false, rest)),
        [1, rest @ ..] => Ok((true, rest)),
        [_, ..] => Err(ReadFault::Bad(WireFault::BadTag)),
    }
}

/// A moment, of eight bytes; `BadNumber` where it is above the largest. O(1).
#[tactic(auto, unfolding(crate::specs::Reading::moment_at))]
pub fn moment_of(bytes: &[u8]) -> Result<(Moment, &[u8]), ReadFault>
    ensures { Gives (λ x. (x.0, x.1.now)) result (moment_at bytes.now) }
{
    let (number, rest) = u64_of(bytes)?;
    match Moment::new(number) {
        Some(moment) => Ok((moment, rest)),
        None => Err(ReadFault::Bad(WireFault::BadNumber)),
    }
}

/// A number of seconds, of four bytes; `BadNumber` where it is above the largest. O(1).
#[tactic(auto, unfolding(crate::specs::Reading::seconds_at))]
pub fn seconds_of(bytes: &[u8]) -> Result<(Seconds, &[u8]), ReadFault>
    ensures { Gives (λ x. (x.0, x.1.now)) result (seconds_at bytes.now) }
{
    let (number, rest) = u32_of(bytes)?;
    match Seconds::new(number) {
        Some(seconds) => Ok((seconds, rest)),
        None => Err(ReadFault::Bad(WireFault::BadNumber)),
    }
}

#[tactic(auto, unfolding(crate::specs::Reading::batch_at))]
pub fn batch_of(bytes: &[u8]) -> Result<(BatchSize, &[u8]), ReadFault>
    ensures { Gives (λ x. (x.0, x.1.now)) result (batch_at bytes.now) }
{
    let (number, rest) = u32_of(bytes)?;
    if 10 < number {
        return Err(ReadFault::Bad(WireFault::BadNumber));
    }
    match BatchSize::new(number as u8) {
        Some(size) => Ok((size, rest)),
        None => Err(ReadFault::Bad(WireFault::BadNumber)),
    }
}

/// The name of a queue; `BadText` where it is none. O(bytes of it), and takes memory for them.
#[tactic(auto, unfolding(crate::specs::Reading::name_at))]
pub fn name_of(alloc: Global, bytes: &[u8]) -> Result<(QueueName, &[u8]), ReadFault>
    ensures { Gives (λ x. (x.0, x.1.now)) result (name_at bytes.now) }
{
    let (text, rest) = text_of(bytes)?;
    match QueueName::new(alloc, text) {
        Ok(name) => Ok((name, rest)),
        Err(BaseFault::BadQueueName) => Err(ReadFault::Bad(WireFault::BadText)),
        Err(_) => Err(ReadFault::NoMemory),
    }
}

/// The id of a group; `BadText` where it is none. O(bytes of it), and takes memory for them.
#[tactic(auto, unfolding(crate::specs::Reading::id_at))]
pub fn group_of(alloc: Global, bytes: &[u8]) -> Result<(GroupId, &[u8]), ReadFault>
    ensures { Gives (λ x. (x.0, x.1.now)) result (id_at bytes.now) }
{
    let (text, rest) = text_of(bytes)?;
    match GroupId::new(alloc, text) {
        Ok(id) => Ok((id, rest)),
        Err(BaseFault::BadGroup) => Err(ReadFault::Bad(WireFault::BadText)),
        Err(_) => Err(ReadFault::NoMemory),
    }
}

/// A deduplication id; `BadText` where it is none. O(bytes of it), and takes memory for them.
#[tactic(auto, unfolding(crate::specs::Reading::id_at))]
pub fn dedup_of(alloc: Global, bytes: &[u8]) -> Result<(DedupId, &[u8]), ReadFault>
    ensures { Gives (λ x. (x.0, x.1.now)) result (id_at bytes.now) }
{
    let (text, rest) = text_of(bytes)?;
    match DedupId::new(alloc, text) {
        Ok(id) => Ok((id, rest)),
        Err(BaseFault::BadDedup) => Err(ReadFault::Bad(WireFault::BadText)),
        Err(_) => Err(ReadFault::NoMemory),
    }
}

/// A body; `BadText` where it is none. O(bytes of it), and takes memory for them.
#[tactic(auto, unfolding(crate::specs::Reading::body_at))]
pub fn body_of(alloc: Global, bytes: &[u8]) -> Result<(Body, &[u8]), ReadFault>
    ensures { Gives (λ x. (x.0, x.1.now)) result (body_at bytes.now) }
{
    let (text, rest) = text_of(bytes)?;
    match Body::new(alloc, text) {
        Ok(body) => Ok((body, rest)),
        Err(BaseFault::InvalidMessageContents | BaseFault::BodyLength) => Err(ReadFault::Bad(
            WireFault::BadText,
        )),
        Err(_) => Err(ReadFault::NoMemory),
    }
}

#[tactic(auto, unfolding(crate::specs::Reading::optional_at))]
pub fn dedup_if_of(alloc: Global, bytes: &[u8]) -> Result<(Option<DedupId>, &[u8]), ReadFault>
    ensures { Gives (λ x. (x.0, x.1.now)) result (optional_at id_at bytes.now) }
{
    let (is_there, rest) = flag_of(bytes)?;
    if is_there {
        let (id, rest) = dedup_of(alloc, rest)?;
        Ok((Some(id), rest))
    } else {
        Ok((None, rest))
    }
}

#[tactic(auto, unfolding(crate::specs::Reading::optional_at))]
pub fn seconds_if_of(bytes: &[u8]) -> Result<(Option<Seconds>, &[u8]), ReadFault>
    ensures { Gives (λ x. (x.0, x.1.now)) result (optional_at seconds_at bytes.now) }
{
    let (is_there, rest) = flag_of(bytes)?;
    if is_there {
        let (seconds, rest) = match seconds_of(rest) {
            Ok(read) => read,
            Err(fault) => return Err(fault),
        };
        Ok((Some(seconds), rest))
    } else {
        Ok((None, rest))
    }
}

/// A receipt, of 24 bytes; `BadNumber` where one of its numbers is 0. O(1).
#[tactic(auto, unfolding(crate::specs::Reading::receipt_at))]
pub fn receipt_of(bytes: &[u8]) -> Result<(Receipt, &[u8]), ReadFault>
    ensures { Gives (λ x. (x.0, x.1.now)) result (receipt_at bytes.now) }
{
    let (incarnation, rest) = u64_of(bytes)?;
    let (sequence, rest) = u64_of(rest)?;
    let (handing, rest) = u64_of(rest)?;
    match Receipt::new(incarnation, sequence, handing) {
        Some(receipt) => Ok((receipt, rest)),
        None => Err(ReadFault::Bad(WireFault::BadNumber)),
    }
}

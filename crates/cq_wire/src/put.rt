//! Values, each written behind what is there.
ghost use Rattle.std.specs.Prelude.{◌≡◌, ◌++◌, ◌<◌, ◌^◌, length, OnOk};
ghost use Rattle.std.specs.List.{flat_map};
ghost use Rattle.cq_wire.specs.Layout.{number32, text, flag, optional, listed, receipt, ask, request, entry, query, delivery, reply};

use crate::writer::Writer;
use cq_base::{
    Ask, BatchSize, Body, DedupId, Delivery, Entry, GroupId, NoMemory, Query, QueueName, Receipt,
    Reply, Request, Seconds,
};

#[tactic(auto, unfolding(crate::specs::Layout::optional))]
fn put_dedup_if(out: &mut Writer, dedup: &Option<DedupId>) -> Result<(), NoMemory>
    ensures ok { OnOk result (out.new.value ≡ out.old.value ++ optional text dedup.now) }
    ensures before { out.new.before ≡ out.old.before }
{
    match dedup {
        Some(id) => {
            out.put(&[1])?;
            out.put_text(id.as_str())
        }
        None => out.put(&[0]),
    }
}

#[tactic(auto, unfolding(crate::specs::Layout::optional))]
fn put_seconds_if(out: &mut Writer, seconds: Option<Seconds>) -> Result<(), NoMemory>
    ensures ok { OnOk result (out.new.value ≡ out.old.value ++ optional number32 seconds) }
    ensures before { out.new.before ≡ out.old.before }
{
    match seconds {
        Some(seconds) => {
            out.put(&[1])?;
            out.put_u32(seconds.get())
        }
        None => out.put(&[0]),
    }
}

/// Puts a receipt: O(1). After `NoMemory` a front of its bytes may be there.
#[tactic(auto, unfolding(crate::specs::Layout::receipt))]
pub fn put_receipt(out: &mut Writer, handle: Receipt) -> Result<(), NoMemory>
    ensures ok { OnOk result (out.new.value ≡ out.old.value ++ receipt handle) }
    ensures before { out.new.before ≡ out.old.before }
{
    out.put_u64(handle.incarnation())?;
    out.put_u64(handle.sequence())?;
    out.put_u64(handle.handing())
}

/// What a creation has behind its tag.
fn put_create(
    out: &mut Writer,
    queue: &QueueName,
    visibility: Seconds,
    content: bool,
) -> Result<(), NoMemory>
    ensures ok { OnOk result (out.new.value ≡ out.old.value ++ (text queue.now ++ (number32 visibility ++ flag content))) }
    ensures before { out.new.before ≡ out.old.before }
{
    out.put_text(queue.as_str())?;
    out.put_u32(visibility.get())?;
    out.put_flag(content)
}

/// What a send has behind its tag.
fn put_send(
    out: &mut Writer,
    queue: &QueueName,
    group: &GroupId,
    dedup: &Option<DedupId>,
    body: &Body,
) -> Result<(), NoMemory>
    ensures ok { OnOk result (out.new.value ≡ out.old.value ++ (text queue.now ++ (text group.now ++ (optional text dedup.now ++ text body.now)))) }
    ensures before { out.new.before ≡ out.old.before }
{
    out.put_text(queue.as_str())?;
    out.put_text(group.as_str())?;
    put_dedup_if(out, dedup)?;
    out.put_text(body.as_str())
}

/// What a receive has behind its tag.
fn put_receive(
    out: &mut Writer,
    queue: &QueueName,
    size: BatchSize,
    visibility: Option<Seconds>,
) -> Result<(), NoMemory>
    ensures ok { OnOk result (out.new.value ≡ out.old.value ++ (text queue.now ++ (number32 size ++ optional number32 visibility))) }
    ensures before { out.new.before ≡ out.old.before }
{
    out.put_text(queue.as_str())?;
    out.put_u32(u32::from(size.get()))?;
    put_seconds_if(out, visibility)
}

/// What a deletion has behind its tag.
fn put_delete(out: &mut Writer, queue: &QueueName, handle: Receipt) -> Result<(), NoMemory>
    ensures ok { OnOk result (out.new.value ≡ out.old.value ++ (text queue.now ++ receipt handle)) }
    ensures before { out.new.before ≡ out.old.before }
{
    out.put_text(queue.as_str())?;
    put_receipt(out, handle)
}

/// What a change has behind its tag.
fn put_change(
    out: &mut Writer,
    queue: &QueueName,
    handle: Receipt,
    visibility: Seconds,
) -> Result<(), NoMemory>
    ensures ok { OnOk result (out.new.value ≡ out.old.value ++ (text queue.now ++ (receipt handle ++ number32 visibility))) }
    ensures before { out.new.before ≡ out.old.before }
{
    out.put_text(queue.as_str())?;
    put_receipt(out, handle)?;
    out.put_u32(visibility.get())
}

#[tactic(auto, unfolding(crate::specs::Layout::ask))]
fn put_ask(out: &mut Writer, value: &Ask) -> Result<(), NoMemory>
    ensures ok { OnOk result (out.new.value ≡ out.old.value ++ ask value.now) }
    ensures before { out.new.before ≡ out.old.before }
{
    match value {
        Ask::Create {
            queue,
            visibility,
            content,
        } => {
            out.put(&[0])?;
            put_create(out, queue, *visibility, *content)
        }
        Ask::Remove { queue } => {
            out.put(&[1])?;
            out.put_text(queue.as_str())
        }
        Ask::Send {
            queue,
            group,
            dedup,
            body,
        } => {
            out.put(&[2])?;
            put_send(out, queue, group, dedup, body)
        }
        Ask::Receive {
            queue,
            size,
            visibility,
        } => {
            out.put(&[3])?;
            put_receive(out, queue, *size, *visibility)
        }
        Ask::Delete { queue, receipt } => {
            out.put(&[4])?;
            put_delete(out, queue, *receipt)
        }
        Ask::Change {
            queue,
            receipt,
            visibility,
        } => {
            out.put(&[5])?;
            put_change(out, queue, *receipt, *visibility)
        }
    }
}

/// Puts a request, without a version: O(bytes of it). After `NoMemory` a front of its bytes may be there.
#[tactic(auto, unfolding(crate::specs::Layout::request))]
pub fn put_request(out: &mut Writer, value: &Request) -> Result<(), NoMemory>
    ensures ok { OnOk result (out.new.value ≡ out.old.value ++ request value.now) }
    ensures before { out.new.before ≡ out.old.before }
{
    out.put_u32(value.client)?;
    out.put_u64(value.number)?;
    put_ask(out, &value.ask)
}

/// Puts an entry, without a version: O(bytes of it). After `NoMemory` a front of its bytes may be there.
#[tactic(auto, unfolding(crate::specs::Layout::entry))]
pub fn put_entry(out: &mut Writer, value: &Entry) -> Result<(), NoMemory>
    ensures ok { OnOk result (out.new.value ≡ out.old.value ++ entry value.now) }
    ensures before { out.new.before ≡ out.old.before }
{
    out.put_u64(value.moment.get())?;
    put_request(out, &value.request)
}

/// Puts a query, without a version: O(bytes of it). After `NoMemory` a front of its bytes may be there.
#[tactic(auto, unfolding(crate::specs::Layout::query))]
pub fn put_query(out: &mut Writer, value: &Query) -> Result<(), NoMemory>
    ensures ok { OnOk result (out.new.value ≡ out.old.value ++ query value.now) }
    ensures before { out.new.before ≡ out.old.before }
{
    out.put_u32(value.client)?;
    out.put_u64(value.tag)?;
    out.put_text(value.queue.as_str())
}

#[tactic(auto, unfolding(crate::specs::Layout::delivery))]
fn put_delivery(out: &mut Writer, value: &Delivery) -> Result<(), NoMemory>
    ensures ok { OnOk result (out.new.value ≡ out.old.value ++ delivery value.now) }
    ensures before { out.new.before ≡ out.old.before }
{
    put_receipt(out, value.receipt)?;
    out.put_text(value.group.as_str())?;
    out.put_text(value.body.as_str())
}

fn put_several(out: &mut Writer, values: &[Delivery]) -> Result<(), NoMemory>
    ensures ok { OnOk result (out.new.value ≡ out.old.value ++ flat_map delivery values.now) }
    ensures before { out.new.before ≡ out.old.before }
{
    for value in values {
        put_delivery(out, value)?;
    }
    Ok(())
}

#[tactic(auto, unfolding(crate::specs::Layout::listed))]
fn put_deliveries(out: &mut Writer, values: &[Delivery]) -> Result<(), NoMemory>
    ensures ok { OnOk result (out.new.value ≡ out.old.value ++ listed delivery values.now) }
    ensures before { out.new.before ≡ out.old.before }
{
    out.put_u64(values.len() as u64)?;
    put_several(out, values)
}

/// Puts a reply, without a version: O(bytes of it). After `NoMemory` a front of its bytes may be there.
#[tactic(auto, unfolding(crate::specs::Layout::reply))]
pub fn put_reply(out: &mut Writer, value: &Reply) -> Result<(), NoMemory>
    ensures ok { OnOk result (out.new.value ≡ out.old.value ++ reply value.now) }
    ensures before { out.new.before ≡ out.old.before }
{
    match value {
        Reply::Created(incarnation) => {
            out.put(&[0])?;
            out.put_u64(*incarnation)
        }
        Reply::Removed => out.put(&[1]),
        Reply::Sent(sequence) => {
            out.put(&[2])?;
            out.put_u64(*sequence)
        }
        Reply::Received(deliveries) => {
            out.put(&[3])?;
            put_deliveries(out, deliveries.as_slice())
        }
        Reply::Deleted(removed) => {
            out.put(&[4])?;
            out.put_flag(*removed)
        }
        Reply::Changed => out.put(&[5]),
        Reply::Counts { visible, in_flight } => {
            out.put(&[6])?;
            out.put_u64(*visible)?;
            out.put_u64(*in_flight)
        }
        Reply::Refused(refusal) => {
            out.put(&[7])?;
            out.put_u32(u32::from(refusal.code()))
        }
    }
}

//! The JSON of asks.
ghost use Rattle.serde_json.specs.View.{view};
ghost use Rattle.cq_json.specs.Asks as spec;
ghost use Rattle.cq_json.specs.Readers.{Gives, same};

use crate::fields::{
    ReadFault, batch_size_if_at, has_only, seconds_at, seconds_if_at, text_at, text_if_at,
    truth_if_at,
};
use crate::texts::{dedup_id_if, group_id, message_body, queue_name, receipt};
use cq_base::{Ask, BatchSize, Seconds};
use serde_json::Value;
use std::alloc::Global;

/// The visibility timeout of a new queue for which none is said, in seconds (SQS API Reference,
/// "CreateQueue", `VisibilityTimeout`).
pub(crate) const DEFAULT_SECONDS: u32 = 30;

/// How many messages a receive asks for that does not say it (SQS API Reference, "ReceiveMessage",
/// `MaxNumberOfMessages`).
pub(crate) const DEFAULT_BATCH: u8 = 1;

#[tactic(auto, unfolding(crate::specs::Asks::create_in))]
fn read_create(alloc: Global, value: &Value) -> Result<Ask, ReadFault>
    ensures { Gives same result (spec.create_in (view value.now)) }
{
    if !has_only(value, &["kind", "queue", "visibility", "content_dedup"]) {
        return Err(ReadFault::Bad);
    }
    let queue = text_at(value, "queue")?;
    let visibility = seconds_if_at(value, "visibility")?;
    let content = truth_if_at(value, "content_dedup")?;
    Ok(Ask::Create {
        queue: queue_name(alloc, queue)?,
        visibility: visibility.unwrap_or(Seconds::new(DEFAULT_SECONDS).unwrap()),
        content: content.unwrap_or(false),
    })
}

#[tactic(auto, unfolding(crate::specs::Asks::remove_in))]
fn read_remove(alloc: Global, value: &Value) -> Result<Ask, ReadFault>
    ensures { Gives same result (spec.remove_in (view value.now)) }
{
    if !has_only(value, &["kind", "queue"]) {
        return Err(ReadFault::Bad);
    }
    let queue = text_at(value, "queue")?;
    Ok(Ask::Remove {
        queue: queue_name(alloc, queue)?,
    })
}

#[tactic(auto, unfolding(crate::specs::Asks::send_in))]
fn read_send(alloc: Global, value: &Value) -> Result<Ask, ReadFault>
    ensures { Gives same result (spec.send_in (view value.now)) }
{
    if !has_only(value, &["kind", "queue", "group", "dedup", "body"]) {
        return Err(ReadFault::Bad);
    }
    let queue = text_at(value, "queue")?;
    let group = text_at(value, "group")?;
    let dedup = text_if_at(value, "dedup")?;
    let body = text_at(value, "body")?;
    Ok(Ask::Send {
        queue: queue_name(alloc, queue)?,
        group: group_id(alloc, group)?,
        dedup: dedup_id_if(alloc, dedup)?,
        body: message_body(alloc, body)?,
    })
}

#[tactic(auto, unfolding(crate::specs::Asks::receive_in))]
fn read_receive(alloc: Global, value: &Value) -> Result<Ask, ReadFault>
    ensures { Gives same result (spec.receive_in (view value.now)) }
{
    if !has_only(value, &["kind", "queue", "size", "visibility"]) {
        return Err(ReadFault::Bad);
    }
    let queue = text_at(value, "queue")?;
    let size = batch_size_if_at(value, "size")?;
    let visibility = seconds_if_at(value, "visibility")?;
    Ok(Ask::Receive {
        queue: queue_name(alloc, queue)?,
        size: size.unwrap_or(BatchSize::new(DEFAULT_BATCH).unwrap()),
        visibility,
    })
}

#[tactic(auto, unfolding(crate::specs::Asks::delete_in))]
fn read_delete(alloc: Global, value: &Value) -> Result<Ask, ReadFault>
    ensures { Gives same result (spec.delete_in (view value.now)) }
{
    if !has_only(value, &["kind", "queue", "receipt"]) {
        return Err(ReadFault::Bad);
    }
    let queue = text_at(value, "queue")?;
    let receipt = receipt(text_at(value, "receipt")?)?;
    Ok(Ask::Delete {
        queue: queue_name(alloc, queue)?,
        receipt,
    })
}

#[tactic(auto, unfolding(crate::specs::Asks::change_in))]
fn read_change(alloc: Global, value: &Value) -> Result<Ask, ReadFault>
    ensures { Gives same result (spec.change_in (view value.now)) }
{
    if !has_only(value, &["kind", "queue", "receipt", "visibility"]) {
        return Err(ReadFault::Bad);
    }
    let queue = text_at(value, "queue")?;
    let receipt = receipt(text_at(value, "receipt")?)?;
    let visibility = seconds_at(value, "visibility")?;
    Ok(Ask::Change {
        queue: queue_name(alloc, queue)?,
        receipt,
        visibility,
    })
}

/// The ask that the value says.
#[tactic(auto, unfolding(crate::specs::Asks::ask_in))]
pub fn read_ask(alloc: Global, value: &Value) -> Result<Ask, ReadFault>
    ensures { Gives same result (spec.ask_in (view value.now)) }
{
    let kind = text_at(value, "kind")?;
    if kind == "create" {
        read_create(alloc, value)
    } else if kind == "remove" {
        read_remove(alloc, value)
    } else if kind == "send" {
        read_send(alloc, value)
    } else if kind == "receive" {
        read_receive(alloc, value)
    } else if kind == "delete" {
        read_delete(alloc, value)
    } else if kind == "change" {
        read_change(alloc, value)
    } else {
        Err(ReadFault::Bad)
    }
}

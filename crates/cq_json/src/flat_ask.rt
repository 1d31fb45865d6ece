//! The asks of flat objects.
ghost use Rattle.cq_json.specs.Asks as spec;
ghost use Rattle.cq_json.specs.Flat.{flat_data, ask_at};
ghost use Rattle.cq_json.specs.Keys.{key_text};
ghost use Rattle.cq_json.specs.Readers.{Gives, same};

use crate::ask::{DEFAULT_BATCH, DEFAULT_SECONDS};
use crate::fields::ReadFault;
use crate::flat::Flat;
use crate::key::Key;
use crate::texts::{dedup_id_if, group_id, message_body, queue_name, receipt};
use cq_base::{Ask, BatchSize, Seconds};
use std::alloc::Global;

#[tactic(auto, unfolding(crate::specs::Asks::create_in))]
fn read_create(alloc: Global, object: Flat<'_, '_>) -> Result<Ask, ReadFault>
    ensures { Gives same result (spec.create_in (flat_data object.entry)) }
{
    if !object.has_only(&[Key::Kind, Key::Queue, Key::Visibility, Key::ContentDedup]) {
        return Err(ReadFault::Bad);
    }
    let queue = object.text_at(Key::Queue)?;
    let visibility = object.seconds_if_at(Key::Visibility)?;
    let content = object.truth_if_at(Key::ContentDedup)?;
    Ok(Ask::Create {
        queue: queue_name(alloc, queue)?,
        visibility: visibility.unwrap_or(Seconds::new(DEFAULT_SECONDS).unwrap()),
        content: content.unwrap_or(false),
    })
}

#[tactic(auto, unfolding(crate::specs::Asks::remove_in))]
fn read_remove(alloc: Global, object: Flat<'_, '_>) -> Result<Ask, ReadFault>
    ensures { Gives same result (spec.remove_in (flat_data object.entry)) }
{
    if !object.has_only(&[Key::Kind, Key::Queue]) {
        return Err(ReadFault::Bad);
    }
    let queue = object.text_at(Key::Queue)?;
    Ok(Ask::Remove {
        queue: queue_name(alloc, queue)?,
    })
}

#[tactic(auto, unfolding(crate::specs::Asks::send_in))]
fn read_send(alloc: Global, object: Flat<'_, '_>) -> Result<Ask, ReadFault>
    ensures { Gives same result (spec.send_in (flat_data object.entry)) }
{
    if !object.has_only(&[Key::Kind, Key::Queue, Key::Group, Key::Dedup, Key::Body]) {
        return Err(ReadFault::Bad);
    }
    let queue = object.text_at(Key::Queue)?;
    let group = object.text_at(Key::Group)?;
    let dedup = object.text_if_at(Key::Dedup)?;
    let body = object.text_at(Key::Body)?;
    Ok(Ask::Send {
        queue: queue_name(alloc, queue)?,
        group: group_id(alloc, group)?,
        dedup: dedup_id_if(alloc, dedup)?,
        body: message_body(alloc, body)?,
    })
}

#[tactic(auto, unfolding(crate::specs::Asks::receive_in))]
fn read_receive(alloc: Global, object: Flat<'_, '_>) -> Result<Ask, ReadFault>
    ensures { Gives same result (spec.receive_in (flat_data object.entry)) }
{
    if !object.has_only(&[Key::Kind, Key::Queue, Key::Size, Key::Visibility]) {
        return Err(ReadFault::Bad);
    }
    let queue = object.text_at(Key::Queue)?;
    let size = object.batch_size_if_at(Key::Size)?;
    let visibility = object.seconds_if_at(Key::Visibility)?;
    Ok(Ask::Receive {
        queue: queue_name(alloc, queue)?,
        size: size.unwrap_or(BatchSize::new(DEFAULT_BATCH).unwrap()),
        visibility,
    })
}

#[tactic(auto, unfolding(crate::specs::Asks::delete_in))]
fn read_delete(alloc: Global, object: Flat<'_, '_>) -> Result<Ask, ReadFault>
    ensures { Gives same result (spec.delete_in (flat_data object.entry)) }
{
    if !object.has_only(&[Key::Kind, Key::Queue, Key::Receipt]) {
        return Err(ReadFault::Bad);
    }
    let queue = object.text_at(Key::Queue)?;
    let receipt = receipt(object.text_at(Key::Receipt)?)?;
    Ok(Ask::Delete {
        queue: queue_name(alloc, queue)?,
        receipt,
    })
}

#[tactic(auto, unfolding(crate::specs::Asks::change_in))]
fn read_change(alloc: Global, object: Flat<'_, '_>) -> Result<Ask, ReadFault>
    ensures { Gives same result (spec.change_in (flat_data object.entry)) }
{
    if !object.has_only(&[Key::Kind, Key::Queue, Key::Receipt, Key::Visibility]) {
        return Err(ReadFault::Bad);
    }
    let queue = object.text_at(Key::Queue)?;
    let receipt = receipt(object.text_at(Key::Receipt)?)?;
    let visibility = object.seconds_at(Key::Visibility)?;
    Ok(Ask::Change {
        queue: queue_name(alloc, queue)?,
        receipt,
        visibility,
    })
}

/// The ask that the object says.
#[tactic(auto, unfolding(crate::specs::Asks::ask_in))]
fn read_flat_ask(alloc: Global, object: Flat<'_, '_>) -> Result<Ask, ReadFault>
    ensures { Gives same result (spec.ask_in (flat_data object.entry)) }
{
    let kind = object.text_at(Key::Kind)?;
    if kind == "create" {
        read_create(alloc, object)
    } else if kind == "remove" {
        read_remove(alloc, object)
    } else if kind == "send" {
        read_send(alloc, object)
    } else if kind == "receive" {
        read_receive(alloc, object)
    } else if kind == "delete" {
        read_delete(alloc, object)
    } else if kind == "change" {
        read_change(alloc, object)
    } else {
        Err(ReadFault::Bad)
    }
}

/// The ask that the object under the key says.
#[tactic(auto, unfolding(crate::specs::Asks::ask_in))]
pub fn read_flat_ask_at(alloc: Global, object: Flat<'_, '_>, key: Key) -> Result<Ask, ReadFault>
    ensures { Gives same result (ask_at (key_text key) (flat_data object.entry)) }
{
    match object.inner_at(key) {
        Some(inner) => read_flat_ask(alloc, inner),
        None => Err(ReadFault::Bad),
    }
}

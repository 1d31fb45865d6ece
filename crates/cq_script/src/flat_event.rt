//! The events of flat objects.
ghost use Rattle.cq_script.specs.Events as spec;
ghost use Rattle.cq_json.specs.Flat.{flat_data};
ghost use Rattle.cq_json.specs.Readers.{Gives, same};

use cq_base::{Party, Query, Request, ServerId};
use cq_json::{Flat, Key, ReadFault, queue_name, read_flat_ask_at};
use cq_world::Event;
use std::alloc::Global;

#[tactic(auto, unfolding(crate::specs::Events::arrive_in))]
fn read_arrive(alloc: Global, object: Flat<'_, '_>) -> Result<Event, ReadFault>
    ensures { Gives same result (spec.arrive_in (flat_data object.entry)) }
{
    if !object.has_only(&[
        Key::Op,
        Key::At,
        Key::Clock,
        Key::Client,
        Key::Number,
        Key::Ask,
    ]) {
        return Err(ReadFault::Bad);
    }
    let at = object.server_at(Key::At)?;
    let clock = object.moment_at(Key::Clock)?;
    let client = object.u32_at(Key::Client)?;
    let number = object.u64_at(Key::Number)?;
    let ask = read_flat_ask_at(alloc, object, Key::Ask)?;
    Ok(Event::Arrive {
        at,
        clock,
        request: Request {
            client,
            number,
            ask,
        },
    })
}

#[tactic(auto, unfolding(crate::specs::Events::query_in))]
fn read_query(alloc: Global, object: Flat<'_, '_>) -> Result<Event, ReadFault>
    ensures { Gives same result (spec.query_in (flat_data object.entry)) }
{
    if !object.has_only(&[Key::Op, Key::At, Key::Client, Key::Tag, Key::Queue]) {
        return Err(ReadFault::Bad);
    }
    let at = object.server_at(Key::At)?;
    let client = object.u32_at(Key::Client)?;
    let tag = object.u64_at(Key::Tag)?;
    let queue = object.text_at(Key::Queue)?;
    Ok(Event::Ask {
        at,
        query: Query {
            client,
            tag,
            queue: queue_name(alloc, queue)?,
        },
    })
}

/// Both ends of an event that has nothing else.
#[tactic(auto, unfolding(crate::specs::Events::ends_in))]
fn read_ends(object: Flat<'_, '_>) -> Result<(Party, Party), ReadFault>
    ensures { Gives same result (spec.ends_in (flat_data object.entry)) }
{
    if !object.has_only(&[Key::Op, Key::From, Key::To]) {
        return Err(ReadFault::Bad);
    }
    let from = object.party_at(Key::From)?;
    let to = object.party_at(Key::To)?;
    Ok((from, to))
}

/// The server of an event that has nothing else.
#[tactic(auto, unfolding(crate::specs::Events::server_in))]
fn read_server(object: Flat<'_, '_>) -> Result<ServerId, ReadFault>
    ensures { Gives same result (spec.server_in (flat_data object.entry)) }
{
    if !object.has_only(&[Key::Op, Key::Server]) {
        return Err(ReadFault::Bad);
    }
    object.server_at(Key::Server)
}

/// The event that the object says.
#[tactic(auto, unfolding(crate::specs::Events::event_in))]
pub(crate) fn read_flat_event(alloc: Global, object: Flat<'_, '_>) -> Result<Event, ReadFault>
    ensures { Gives same result (spec.event_in (flat_data object.entry)) }
{
    let op = object.text_at(Key::Op)?;
    if op == "arrive" {
        read_arrive(alloc, object)
    } else if op == "ask" {
        read_query(alloc, object)
    } else if op == "put" {
        let (from, to) = read_ends(object)?;
        Ok(Event::Put { from, to })
    } else if op == "take" {
        let (from, to) = read_ends(object)?;
        Ok(Event::Take { from, to })
    } else if op == "crash" {
        Ok(Event::Crash {
            server: read_server(object)?,
        })
    } else if op == "detect" {
        Ok(Event::Detect {
            server: read_server(object)?,
        })
    } else if op == "join" {
        Ok(Event::Join {
            server: read_server(object)?,
        })
    } else {
        Err(ReadFault::Bad)
    }
}

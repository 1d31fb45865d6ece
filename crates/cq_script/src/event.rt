//! The JSON of events.
ghost use Rattle.serde_json.specs.View.{view};
ghost use Rattle.cq_script.specs.Events as spec;
ghost use Rattle.cq_json.specs.Readers.{Gives, same};

use cq_base::{Party, Query, Request, ServerId};
use cq_json::{
    ReadFault, has_only, member_at, moment_at, party_at, queue_name, read_ask, server_at, text_at,
    u32_at, u64_at,
};
use cq_world::Event;
use serde_json::Value;
use std::alloc::Global;

#[tactic(auto, unfolding(crate::specs::Events::arrive_in))]
fn read_arrive(alloc: Global, value: &Value) -> Result<Event, ReadFault>
    ensures { Gives same result (spec.arrive_in (view value.now)) }
{
    if !has_only(value, &["op", "at", "clock", "client", "number", "ask"]) {
        return Err(ReadFault::Bad);
    }
    let at = server_at(value, "at")?;
    let clock = moment_at(value, "clock")?;
    let client = u32_at(value, "client")?;
    let number = u64_at(value, "number")?;
    let ask = read_ask(alloc, member_at(value, "ask")?)?;
    Ok(Event::Arrive {
        at,
        clock,
        request: Request {
            client,
            number,
            ask,
        },
    })
}

#[tactic(auto, unfolding(crate::specs::Events::query_in))]
fn read_query(alloc: Global, value: &Value) -> Result<Event, ReadFault>
    ensures { Gives same result (spec.query_in (view value.now)) }
{
    if !has_only(value, &["op", "at", "client", "tag", "queue"]) {
        return Err(ReadFault::Bad);
    }
    let at = server_at(value, "at")?;
    let client = u32_at(value, "client")?;
    let tag = u64_at(value, "tag")?;
    let queue = text_at(value, "queue")?;
    Ok(Event::Ask {
        at,
        query: Query {
            client,
            tag,
            queue: queue_name(alloc, queue)?,
        },
    })
}

/// Both ends of an event that has nothing else.
#[tactic(auto, unfolding(crate::specs::Events::ends_in))]
fn read_ends(value: &Value) -> Result<(Party, Party), ReadFault>
    ensures { Gives same result (spec.ends_in (view value.now)) }
{
    if !has_only(value, &["op", "from", "to"]) {
        return Err(ReadFault::Bad);
    }
    let from = party_at(value, "from")?;
    let to = party_at(value, "to")?;
    Ok((from, to))
}

/// The server of an event that has nothing else.
#[tactic(auto, unfolding(crate::specs::Events::server_in))]
fn read_server(value: &Value) -> Result<ServerId, ReadFault>
    ensures { Gives same result (spec.server_in (view value.now)) }
{
    if !has_only(value, &["op", "server"]) {
        return Err(ReadFault::Bad);
    }
    server_at(value, "server")
}

/// The event that the value says.
#[tactic(auto, unfolding(crate::specs::Events::event_in))]
pub(crate) fn read_tree_event(alloc: Global, value: &Value) -> Result<Event, ReadFault>
    ensures { Gives same result (spec.event_in (view value.now)) }
{
    let op = text_at(value, "op")?;
    if op == "arrive" {
        read_arrive(alloc, value)
    } else if op == "ask" {
        read_query(alloc, value)
    } else if op == "put" {
        let (from, to) = read_ends(value)?;
        Ok(Event::Put { from, to })
    } else if op == "take" {
        let (from, to) = read_ends(value)?;
        Ok(Event::Take { from, to })
    } else if op == "crash" {
        Ok(Event::Crash {
            server: read_server(value)?,
        })
    } else if op == "detect" {
        Ok(Event::Detect {
            server: read_server(value)?,
        })
    } else if op == "join" {
        Ok(Event::Join {
            server: read_server(value)?,
        })
    } else {
        Err(ReadFault::Bad)
    }
}

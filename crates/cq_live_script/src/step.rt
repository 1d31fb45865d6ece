//! The JSON of steps.
ghost use Rattle.serde_json.specs.View.{view};
ghost use Rattle.cq_json.specs.Readers.{Gives, same};
ghost use Rattle.cq_live_script.specs.Steps as spec;

use cq_base::ServerId;
use cq_json::{ReadFault, has_only, member_at, read_ask, server_at, text_at, u32_at, u64_at};
use cq_live_plan::LiveStep;
use serde_json::Value;
use std::alloc::Global;

/// The most entries, or turns of the master, that a step may wait for.
pub const AFTER_LIMIT: u64 = 1 << 62;

/// The client of a step, which is 1 or 2.
#[tactic(auto, unfolding(crate::specs::Steps::client_at))]
fn client_at(value: &Value) -> Result<u32, ReadFault>
    ensures { Gives same result (spec.client_at (view value.now)) }
{
    let client = u32_at(value, "client")?;
    if client == 1 || client == 2 {
        Ok(client)
    } else {
        Err(ReadFault::Bad)
    }
}

/// How many entries or turns a step waits for.
#[tactic(auto, unfolding(crate::specs::Steps::after_at))]
fn after_at(value: &Value) -> Result<u64, ReadFault>
    ensures { Gives same result (spec.after_at (view value.now)) }
{
    let after = u64_at(value, "after")?;
    if after <= AFTER_LIMIT {
        Ok(after)
    } else {
        Err(ReadFault::Bad)
    }
}

#[tactic(auto, unfolding(crate::specs::Steps::client_in))]
fn read_client(alloc: Global, value: &Value) -> Result<LiveStep, ReadFault>
    ensures { Gives same result (spec.client_in (view value.now)) }
{
    if !has_only(value, &["op", "client", "ask"]) {
        return Err(ReadFault::Bad);
    }
    let client = client_at(value)?;
    let ask = read_ask(alloc, member_at(value, "ask")?)?;
    Ok(LiveStep::Client { client, ask })
}

/// The server of a step that has no client, and how long the step waits.
#[tactic(auto, unfolding(crate::specs::Steps::server_in))]
fn read_server(value: &Value) -> Result<(ServerId, u64), ReadFault>
    ensures { Gives same result (spec.server_in (view value.now)) }
{
    if !has_only(value, &["op", "server", "after"]) {
        return Err(ReadFault::Bad);
    }
    let server = server_at(value, "server")?;
    let after = after_at(value)?;
    Ok((server, after))
}

/// The step that the value says.
#[tactic(auto, unfolding(crate::specs::Steps::step_in))]
pub(crate) fn read_step(alloc: Global, value: &Value) -> Result<LiveStep, ReadFault>
    ensures { Gives same result (spec.step_in (view value.now)) }
{
    let op = text_at(value, "op")?;
    if op == "client" {
        read_client(alloc, value)
    } else if op == "crash" {
        let (server, after) = read_server(value)?;
        Ok(LiveStep::Crash { server, after })
    } else if op == "join" {
        let (server, after) = read_server(value)?;
        Ok(LiveStep::Join { server, after })
    } else {
        Err(ReadFault::Bad)
    }
}

//! Steps that a live run can't do.
ghost use Rattle.std.specs.Prelude.{◌≡◌, ◌==◌, ◌||◌, []};
ghost use Rattle.std.specs.List.{list_any};
ghost use Rattle.cq_live_plan.specs.Steps.{crashes, joins, is_crashed, are_crashed, is_bad, first_bad};

use crate::step::LiveStep;
use cq_base::{CHAIN_LIMIT, ChainSize, ServerId};

/// Whether the step crashes the server of that number.
fn crashes(step: &LiveStep, number: u32) -> bool
    ensures { result ≡ crashes number step.now }
{
    match step {
        LiveStep::Crash { server, .. } => server.get() == number,
        _ => false,
    }
}

/// Whether the step lets that server join.
fn joins(step: &LiveStep, id: ServerId) -> bool
    ensures { result ≡ joins id step.now }
{
    match step {
        LiveStep::Join { server, .. } => server.get() == id.get(),
        _ => false,
    }
}

/// Whether one of the steps crashes the server of that number.
fn is_crashed(steps: &[LiveStep], number: u32) -> bool
    ensures { result ≡ is_crashed steps.now number }
{
    steps.iter().any(|step| crashes(step, number))
}

/// Whether one of the steps lets that server join.
fn has_joined(steps: &[LiveStep], id: ServerId) -> bool
    ensures { result ≡ list_any (joins id) steps.now }
{
    steps.iter().any(|step| joins(step, id))
}

/// Whether the server of that number is that one, or crashed by one of the steps.
fn is_gone(steps: &[LiveStep], id: ServerId, number: u32) -> bool
    ensures { result ≡ (number == id || is_crashed steps.now number) }
{
    number == id.get() || is_crashed(steps, number)
}

/// Whether each of the first servers is that one, or crashed by one of the steps: O(servers * steps).
fn are_crashed(steps: &[LiveStep], id: ServerId, size: ChainSize) -> bool
    ensures { result ≡ are_crashed steps.now id size }
{
    for number in 0..u32::from(size.get()) {
        if !is_gone(steps, id, number + 1) {
            return false;
        }
    }
    true
}

/// Whether the step can't be done behind those before it.
fn is_bad(size: ChainSize, before: &[LiveStep], step: &LiveStep) -> bool
    ensures { result ≡ is_bad size before.now step.now }
{
    match step {
        LiveStep::Client { client, .. } => !(*client == 1 || *client == 2),
        LiveStep::Crash { server, .. } => {
            u32::from(size.get()) < server.get()
                || is_crashed(before, server.get())
                || are_crashed(before, *server, size)
        }
        LiveStep::Join { server, .. } => {
            server.get() <= u32::from(size.get())
                || u32::from(CHAIN_LIMIT) < server.get()
                || has_joined(before, *server)
        }
    }
}

/// The number of the first step that a live run can't do, in a chain that begins with so many servers: none where it can
/// do all. Numbers count from 1. It looks at the steps before a crash or a join, of which there are at most 16 that can be
/// done: O(steps).
pub fn first_bad_step(size: ChainSize, steps: &[LiveStep]) -> Option<u64>
    ensures { result ≡ first_bad size [] steps.now }
{
    for i in 0..steps.len() {
        if is_bad(size, &steps[..i], &steps[i]) {
            return Some(i as u64 + 1);
        }
    }
    None
}

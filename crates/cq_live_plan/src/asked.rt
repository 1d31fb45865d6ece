//! What the steps of a live run ask for.
ghost use Rattle.std.specs.Prelude.{◌≡◌, ◌∷◌, ◌++◌, [], IfOk, OnOk, MatchOption};
ghost use Rattle.cq_live_plan.specs.Steps.{asks_of, crash_of};

use crate::step::LiveStep;
use cq_base::{Ask, NoMemory, ServerId};
use std::alloc::Global;

/// What the client asks by that step, if it does.
fn ask_of(client: u32, step: &LiveStep) -> Option<&Ask>
    ensures { MatchOption result (asks_of client (step.now ∷ []) ≡ []) (λ ask. asks_of client (step.now ∷ []) ≡ ask.now ∷ []) }
{
    match step {
        LiveStep::Client { client: other, ask } if *other == client => Some(ask),
        _ => None,
    }
}

/// Adds a copy of what the client asks by that step, if it does.
fn add_ask(asks: &mut Vec<Ask>, client: u32, step: &LiveStep) -> Result<(), NoMemory>
    ensures { OnOk result (asks.new.items ≡ asks.old.items ++ asks_of client (step.now ∷ [])) }
{
    if let Some(ask) = ask_of(client, step) {
        asks.push(ask.try_copy()?)?;
    }
    Ok(())
}

/// What that client asks, in order. The asks are copies, which share the texts: O(steps).
pub fn asks_of(alloc: Global, client: u32, steps: &[LiveStep]) -> Result<Vec<Ask>, NoMemory>
    ensures { IfOk result (λ asks. asks.items ≡ asks_of client steps.now) }
{
    let mut asks = Vec::new(alloc);
    for step in steps {
        add_ask(&mut asks, client, step)?;
    }
    Ok(asks)
}

/// The number of entries at which the step lets that server crash, if it does.
fn crash_at(id: ServerId, step: &LiveStep) -> Option<u64>
    ensures { result ≡ crash_of id (step.now ∷ []) }
{
    match step {
        LiveStep::Crash { server, after } if server.get() == id.get() => Some(*after),
        _ => None,
    }
}

/// The number of entries at which that server is to crash, by the first of the steps that says one: O(steps).
pub fn crash_of(id: ServerId, steps: &[LiveStep]) -> Option<u64>
    ensures { result ≡ crash_of id steps.now }
{
    for step in steps {
        if let Some(after) = crash_at(id, step) {
            return Some(after);
        }
    }
    None
}

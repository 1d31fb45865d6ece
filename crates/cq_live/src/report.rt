//! What a live run reports.
ghost use Rattle.std.specs.Prelude.{◌≡◌, ◌+◌, IfOk, IfErr, false};
ghost use Rattle.cq_live.specs.Lives.{sends_closed};
ghost use Rattle.cq_live.specs.Faults.{is_of_steps, hides_memory};
ghost use Rattle.cq_live.specs.Reports.{IsReport};
ghost use Rattle.cq_live.specs.within.Runs.{HasEnded};

use crate::fault::LiveFault;
use crate::sends::sends_closed;
use crate::settle::Ended;
use cq_base::{Ask, ChainSize, ServerId};
use cq_live_plan::{LiveStep, asks_of};
use cq_trace::audit;
use cq_world::Event;
use std::alloc::Global;

/// What a live run did.
#[derive(Debug, Drop)]
pub struct LiveReport {
    /// How many sends a client was told to be accepted.
    pub accepted: u64,
    /// What the servers and the master did, in one order in which each event is enabled.
    pub events: Vec<Event>,
    /// The servers that found no memory, and so crashed.
    pub starved: Vec<ServerId>,
}

/// How many sends of the two clients were accepted.
fn accepted_of(first: &[Ask], second: &[Ask], ended: &Ended) -> u64
    ensures { result ≡ sends_closed first.now ended.now.first.items + sends_closed second.now ended.now.second.items }
{
    let of_first = sends_closed(first, &ended.first);
    let of_second = sends_closed(second, &ended.second);
    of_first as u64 + of_second as u64
}

/// Audits what was done. Where a client's asks aren't all closed, that is a `TurnLimit`.
pub(crate) fn report_of(
    alloc: Global,
    size: ChainSize,
    steps: &[LiveStep],
    ended: Ended,
) -> Result<LiveReport, LiveFault>
    requires { HasEnded size steps.now ended }
    ensures live { IfOk result (IsReport size steps.now) }
    ensures memory { IfOk result (λ report. ended.is_starved ≡ false) }
    ensures others { IfErr result (λ fault. is_of_steps fault ≡ false) }
    ensures audited { IfErr result (λ fault. hides_memory fault ≡ false) }
{
    let first = asks_of(alloc, 1, steps)?;
    let second = asks_of(alloc, 2, steps)?;
    if ended.first.len() != first.len() || ended.second.len() != second.len() {
        return Err(LiveFault::TurnLimit);
    }
    let accepted = accepted_of(&first, &second, &ended);
    let events = audit(alloc, size, &ended.traces)?;
    if ended.is_starved {
        return Err(LiveFault::NoMemory);
    }
    Ok(LiveReport {
        accepted,
        events,
        starved: ended.starved,
    })
}

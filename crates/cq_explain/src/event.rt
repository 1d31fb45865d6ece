//! Events that are refused.

ghost use Rattle.std.specs.Prelude.{◌≡◌, false, IfOk};
ghost use Rattle.cq_explain.specs.Findings.{is_bad};

use crate::finding::Finding;
use crate::words::party_name;
use cq_base::{NoMemory, Party, ServerId};
use cq_chain::WorldFault;
use cq_world::{Event, Sim};
use std::alloc::Global;

/// The event happens, or it is said why not.
pub(crate) fn explain_event(
    alloc: Global,
    sim: &mut Sim,
    event: &Event,
) -> Result<Finding, NoMemory>
    ensures { IfOk result (λ finding. is_bad finding ≡ false) }
{
    match sim.step(event) {
        Ok(_) => Ok(Finding::Nothing),
        Err(WorldFault::NoMemory) => Err(NoMemory),
        Err(fault) => Ok(Finding::Refused(explain_fault(alloc, sim, event, fault)?)),
    }
}

fn is_known(sim: &Sim, party: &Party) -> bool {
    match party {
        Party::Server(id) => sim.server(*id).is_some(),
        _ => true,
    }
}

/// The parties that an event names, in order; of most events one server.
fn parties(event: &Event) -> (Party, Party) {
    match event {
        Event::Arrive { at, .. } | Event::Ask { at, .. } => (
            Party::Server(*at),
            Party::Server(*at),
        ),
        Event::Put { from, to } | Event::Take { from, to } => (*from, *to),
        Event::Crash { server } | Event::Detect { server } | Event::Join { server } => {
            (Party::Server(*server), Party::Server(*server))
        }
    }
}

/// Who is at fault where a party is unknown or down.
fn culprit(sim: &Sim, event: &Event) -> Party {
    let (first, second) = parties(event);
    match event {
        Event::Take { .. } if is_known(sim, &first) => second,
        Event::Put { .. } if is_known(sim, &first) && !is_known(sim, &second) => second,
        _ => first,
    }
}

fn head_of(sim: &Sim) -> Option<ServerId> {
    sim.master().chain().first().copied()
}

fn explain_no_head(alloc: Global, sim: &Sim, at: &str) -> Result<String, NoMemory> {
    Ok(match head_of(sim) {
        Some(head) => {
            let head = head.get();
            format!(in alloc; ": {at} is not the head; the chain begins with server {head}")?
        }
        None => format!(in alloc; ": {at} is not the head")?,
    })
}

fn explain_fault(
    alloc: Global,
    sim: &Sim,
    event: &Event,
    fault: WorldFault,
) -> Result<String, NoMemory> {
    let (first, second) = parties(event);
    let (from, to) = (party_name(alloc, &first)?, party_name(alloc, &second)?);
    let one = party_name(alloc, &culprit(sim, event))?;
    Ok(match fault {
        WorldFault::NoSuchServer => format!(in alloc; ": there is no {one}")?,
        WorldFault::ServerDown => format!(in alloc; ": {one} has crashed")?,
        WorldFault::LinkEmpty => format!(in alloc;
            ": no message is on its way from {from} to {to}"
        )?,
        WorldFault::OutboxEmpty => format!(in alloc; ": no message waits at {from} for {to}")?,
        WorldFault::LastFull => format!(in alloc; ": no other full server is left but {one}")?,
        WorldFault::JoinPending => {
            format!(in alloc;
                ": another server joins, or the master hasn't heard yet that the last one acts"
            )?
        }
        WorldFault::IdUsed => format!(in alloc; ": the number of {one} was used before")?,
        WorldFault::ChainFull => format!(in alloc; ": the chain has eight servers")?,
        WorldFault::NotDown => format!(in alloc; ": {one} hasn't crashed")?,
        WorldFault::NotHead => explain_no_head(alloc, sim, from.as_str())?,
        WorldFault::HistoryFull => format!(in alloc; ": {one} has as many entries as it may")?,
        WorldFault::NotTail => format!(in alloc; ": {from} doesn't act as tail")?,
        WorldFault::NoMemory => format!(in alloc; ": there is no memory")?,
    })
}

//! A live run.
ghost use Rattle.std.specs.Prelude.{◌≡◌, ◌↔◌, ℕ, [], false, Some, Err, IfOk, IfErr};
ghost use Rattle.cq_live_plan.specs.Steps.{first_bad};
ghost use Rattle.cq_live.specs.Faults.{is_of_steps, hides_memory};
ghost use Rattle.cq_live.specs.declared.fault.LiveFault.TheVariants as faults;
ghost use Rattle.cq_world.specs.Laws.{Headline};
ghost use Rattle.cq_live.specs.Reports.{IsReport};
ghost use Rattle.cq_live.specs.within.Runs.{HasEnded};

use crate::fault::LiveFault;
use crate::nodes::nodes_of;
use crate::report::{LiveReport, report_of};
use crate::roles::servers_in;
use crate::settle::{Ended, settle};
use crate::threads::run_nodes;
use crate::wires::wires_for;
use cq_base::ChainSize;
use cq_live_plan::{LiveStep, first_bad_step, joins_of};
use cq_nodes::{Flags, Gate};
use cq_world::laws;
use std::alloc::Global;
use std::sync::Wait;
use std::thread::Threads;

/// Makes all nodes, runs them, and settles their links and inboxes.
fn perform<R: Threads + Wait + Sync, G: Gate + Sync>(
    rt: &R,
    alloc: Global,
    size: ChainSize,
    steps: &[LiveStep],
    turns: u64,
    gate: &G,
) -> Result<Ended, LiveFault>
    ensures ended { IfOk result (HasEnded size steps.now) }
    ensures others { IfErr result (λ fault. is_of_steps fault ≡ false) }
    ensures audited { IfErr result (λ fault. hides_memory fault ≡ false) }
{
    let joins = joins_of(alloc, steps)?;
    let servers = servers_in(size, &joins);
    let flags = Flags::new(alloc, servers)?;
    let wires = wires_for(alloc, servers)?;
    let live = nodes_of(alloc, size, servers, steps, joins, wires, &flags)?;
    let done = run_nodes(rt, alloc, live, turns, gate, &flags)?;
    if flags.is_stopped() {
        return Err(LiveFault::TurnLimit);
    }
    Ok(settle(alloc, done)?)
}

/// Runs a chain of so many servers, a master and two clients, each on a thread of its own, by these steps, and audits what
/// they did. Each node has so many turns, and each turn of a server and of the master begins once the gate lets it; it may
/// end before, as nodes do once the clients have their answers. It waits for all threads.
///
/// The events that it reports are those of the master and of the servers, in an order in which each is enabled; so all that
/// is known of such events is true of the run, the headline with it.
///
/// Faults, the first of these: BadScript (74), where the steps can't be done; SpawnFailed (73), where a thread can't be
/// started; TurnLimit (71), where a client ended before all its asks were answered, or the gate answered false; AuditRefused
/// (72); and NoMemory (20).
///
/// It takes O(steps) and what the nodes take for their turns, and the memory of all links, inboxes and traces.
pub fn live<R: Threads + Wait + Sync, G: Gate + Sync>(
    rt: &R,
    alloc: Global,
    size: ChainSize,
    steps: &[LiveStep],
    turns: u64,
    gate: &G,
) -> Result<LiveReport, LiveFault>
    ensures bad { (step : ℕ) → (result ≡ Err (faults.BadScript step)) ↔ (first_bad size [] steps.now ≡ Some step) }
    ensures audited { IfErr result (λ fault. hides_memory fault ≡ false) }
    ensures live { IfOk result (IsReport size steps.now) }
    ensures headline { IfOk result (λ report. Headline size report.events.items) }
{
    if let Some(step) = first_bad_step(size, steps) {
        return Err(LiveFault::BadScript(step));
    }
    laws::headline();
    let ended = perform(rt, alloc, size, steps, turns, gate)?;
    report_of(alloc, size, steps, ended)
}

//! The run of all nodes.
ghost use Rattle.std.specs.Prelude.{◌≡◌, ◌||◌, false, IfOk, IfErr};
ghost use Rattle.cq_live.specs.Faults.{is_of_steps, hides_memory};
ghost use Rattle.cq_live.specs.within.Runs.{WasRun};

use crate::apart::{Apart, take_apart};
use crate::fault::LiveFault;
use crate::nodes::LiveNodes;
use cq_nodes::{Flags, Gate};
use cq_threads::Nodes;
use std::alloc::Global;
use std::sync::Wait;
use std::thread::Threads;

/// What the nodes leave once their threads have ended.
#[derive(Drop)]
pub(crate) struct Done {
    pub apart: Apart,
    /// Whether the master or a client ended for want of memory.
    pub is_starved: bool,
}

/// Whether one of these is so.
fn is_any(one: bool, other: bool, third: bool) -> bool
    ensures { result ≡ (one || other || third) }
{
    one || other || third
}

/// Runs each node on a thread of its own, and takes the nodes apart.
pub(crate) fn run_nodes<R: Threads + Wait + Sync, G: Gate + Sync>(
    rt: &R,
    alloc: Global,
    live: LiveNodes<'_>,
    turns: u64,
    gate: &G,
    flags: &Flags,
) -> Result<Done, LiveFault>
    ensures run { IfOk result (λ done. WasRun live.entry done.apart done.is_starved) }
    ensures others { IfErr result (λ fault. is_of_steps fault ≡ false) }
    ensures audited { IfErr result (λ fault. hides_memory fault ≡ false) }
{
    let LiveNodes { own, nodes } = live;
    let Nodes {
        master,
        servers,
        first,
        second,
    } = nodes.run(rt, alloc, turns, gate, flags)?;
    let is_starved = is_any(master.is_starved(), first.is_starved(), second.is_starved());
    let apart = take_apart(alloc, master, own, servers, first, second)?;
    Ok(Done { apart, is_starved })
}

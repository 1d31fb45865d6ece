//! The end of a run: all links and inboxes are settled.
ghost use Rattle.std.specs.Prelude.{◌≡◌, IfOk};
ghost use Rattle.cq_link.specs.Clients.{AreTied};
ghost use Rattle.cq_link.specs.Wirings.{AreCrossed, wiring};
ghost use Rattle.cq_live.specs.within.Runs.{IsSettled};

use crate::apart::Apart;
use crate::threads::Done;
use cq_base::{NoMemory, ServerId};
use cq_chain::Answer;
use cq_link::{settle_all, settle_clients};
use cq_trace::Trace;
use std::alloc::Global;

/// What is known of a run that has ended.
#[derive(Drop)]
pub(crate) struct Ended {
    /// What the master did, and behind it what each server did.
    pub traces: Vec<Trace>,
    /// The answers that closed the first client's asks, in order.
    pub first: Vec<Answer>,
    /// The answers that closed the second client's asks, in order.
    pub second: Vec<Answer>,
    /// The servers that found no memory, and so crashed.
    pub starved: Vec<ServerId>,
    /// Whether the master or a client ended for want of memory.
    pub is_starved: bool,
}

/// Settles all links and inboxes of nodes that were taken apart. What is left on them is dropped.
pub(crate) fn settle(alloc: Global, done: Done) -> Result<Ended, NoMemory>
    requires crossed { AreCrossed (wiring done.apart.ports.items) }
    requires tied { AreTied done.apart.wires }
    ensures settled { IfOk result (IsSettled done.apart) }
    ensures memory { IfOk result (λ ended. ended.is_starved ≡ done.is_starved) }
{
    let Apart {
        ports,
        wires,
        traces,
        first,
        second,
        starved,
    } = done.apart;
    settle_all(alloc, ports)?;
    settle_clients(wires);
    Ok(Ended {
        traces,
        first,
        second,
        starved,
        is_starved: done.is_starved,
    })
}

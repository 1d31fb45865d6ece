//! One order of the events of several parties, in which each is enabled.
ghost use Rattle.std.specs.Prelude.{◌≡◌, ◌↔◌, List, [], None, Some, Err, ℕ, IfOk, IfErr};
ghost use Rattle.cq_base.specs.declared.party.Party as rust_party;
ghost use Rattle.cq_trace.specs.Audits.{first_bad, IsMerge, IsStuck, IsNoNext};
ghost use Rattle.cq_trace.specs.within.Along.{IsAuditFault};
ghost use Rattle.cq_trace.specs.declared.fault.AuditFault.TheVariants as faults;

use crate::bad_traces::first_bad_trace;
use crate::fault::AuditFault;
use crate::order::Order;
use crate::rounds::merge;
use cq_base::ChainSize;
use cq_events::{Event, Trace};
use std::alloc::Global;

/// The audit of traces of which none is bad.
fn audit_good(alloc: Global, size: ChainSize, traces: &[Trace]) -> Result<Vec<Event>, AuditFault>
    requires { first_bad [] traces.now ≡ None }
    ensures ok { IfOk result (λ events. IsMerge size traces.now events.items) }
    ensures err { IfErr result (λ fault. IsAuditFault size traces.now fault) }
{
    let mut order = Order::new(alloc, size)?;
    match merge(alloc, &mut order, traces) {
        Ok(left) => order.answer(left),
        Err(_) => Err(AuditFault::NoMemory),
    }
}

/// One order of all the events of these traces in which each is enabled in turn, from the first world of that size on. A
/// party without a trace did nothing.
///
/// It goes round the traces, and follows each as long as its next event is enabled. So it tries each event once, and one
/// more of each trace in each round, of which each but the last brings an event: O(events * traces) at most, and
/// O(events) where few rounds are enough, with what the servers and the master take for the events.
///
/// It never takes an event back. Where it stops, traces may have another order all the same: that of a true run is found
/// only where no crash that it takes early forbids a later one. The order that it gives shares the texts of the traces.
///
/// Faults: BadTrace (52) comes first and takes no memory; NoNextEvent (51); NoMemory (20).
pub fn audit(alloc: Global, size: ChainSize, traces: &[Trace]) -> Result<Vec<Event>, AuditFault>
    ensures ok { IfOk result (λ events. IsMerge size traces.now events.items) }
    ensures bad { (k : ℕ) → (result ≡ Err (faults.BadTrace k)) ↔ (first_bad [] traces.now ≡ Some k) }
    ensures stuck { IfErr result (λ fault. (parties : List rust_party.Party)
        → IsNoNext fault parties → IsStuck size traces.now parties) }
{
    match first_bad_trace(traces) {
        Some(number) => Err(AuditFault::BadTrace(number)),
        None => audit_good(alloc, size, traces),
    }
}

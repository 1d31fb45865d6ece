//! Traces that can't be audited.
ghost use Rattle.std.specs.Prelude.{◌≡◌, []};
ghost use Rattle.std.specs.List.{list_any};
ghost use Rattle.cq_chain.specs.Parties.{same};
ghost use Rattle.cq_trace.specs.Audits.{is_foreign, is_bad, first_bad};

use cq_base::Party;
use cq_events::{Event, Trace};

/// Whether two parties are the same.
fn is_same(a: Party, b: Party) -> bool
    ensures { result ≡ same a b }
{
    a == b
}

/// Whether one of the events is of another party.
fn has_foreign(party: Party, events: &[Event]) -> bool
    ensures { result ≡ is_foreign party events.now }
{
    events.iter().any(|event| !is_same(party, event.party()))
}

/// Whether the party has one of the traces.
fn has_trace(party: Party, traces: &[Trace]) -> bool
    ensures { result ≡ list_any (λ other. same party other.party) traces.now }
{
    traces.iter().any(|other| is_same(party, other.party))
}

/// Whether the trace has an event of another party, or its party has one of those before it.
fn is_bad_trace(before: &[Trace], trace: &Trace) -> bool
    ensures { result ≡ is_bad before.now trace.now }
{
    has_trace(trace.party, before) || has_foreign(trace.party, &trace.events)
}

/// The number of the first bad trace, from 1: O(traces * traces + events).
pub fn first_bad_trace(traces: &[Trace]) -> Option<u64>
    ensures { result ≡ first_bad [] traces.now }
{
    for i in 0..traces.len() {
        if is_bad_trace(&traces[..i], &traces[i]) {
            return Some(i as u64 + 1);
        }
    }
    None
}

//! Rounds over the traces, in each of which every trace is followed once.
ghost use Rattle.std.specs.Prelude.{◌≡◌, ◌≢◌, ◌<◌, [], Some, None, true, false, ℕ, length, slice_get, IfOk, OnOk};
ghost use Rattle.cq_trace.specs.Audits.{first_bad, IsMerge, IsStuck};
ghost use Rattle.cq_trace.specs.within.Along.{Leads, IsNext, IsAlong, event_at, left_count, unfinished};
ghost use Rattle.cq_events.specs.declared.event.Event as rust_event;

use crate::order::Order;
use cq_base::{NoMemory, Party};
use cq_events::Trace;
use std::alloc::Global;

/// Follows each trace from its place on, as far as its events are enabled, and gives whether an event came.
fn round(order: &mut Order, traces: &[Trace], places: &mut [usize]) -> Result<bool, NoMemory>
    requires good { first_bad [] traces.now ≡ None }
    requires along { IsAlong traces.now places.old order.old }
    ensures along { OnOk result (IsAlong traces.now places.new order.new) }
    ensures size { order.new.size ≡ order.old.size }
    ensures moved { IfOk result (λ moved. moved ≡ true
        → left_count traces.now places.new < left_count traces.now places.old) }
    ensures stuck { IfOk result (λ moved. moved ≡ false → (k place : ℕ) (event : rust_event.Event)
        → slice_get places.new k ≡ Some place → event_at traces.now k place ≡ Some event
        → IsNext order.new event → ⊥) }
{
    let mut moved = false;
    for k in 0..traces.len() {
        let from = places[k];
        let place = order.follow(&traces[k].events, from)?;
        places[k] = place;
        moved |= from < place;
    }
    Ok(moved)
}

/// Goes round until no event comes any more. Each round but the last brings an event, so there are at most as many as
/// events, and one.
fn follow_all(order: &mut Order, traces: &[Trace], places: &mut [usize]) -> Result<(), NoMemory>
    requires good { first_bad [] traces.now ≡ None }
    requires along { IsAlong traces.now places.old order.old }
    ensures along { OnOk result (IsAlong traces.now places.new order.new) }
    ensures size { order.new.size ≡ order.old.size }
    ensures stuck { OnOk result ((k place : ℕ) (event : rust_event.Event)
        → slice_get places.new k ≡ Some place → event_at traces.now k place ≡ Some event
        → IsNext order.new event → ⊥) }
{
    while round(order, traces, places)? {}
    Ok(())
}

/// The parties that have events left.
fn parties_left(alloc: Global, traces: &[Trace], places: &[usize]) -> Result<Vec<Party>, NoMemory>
    requires { length places.now ≡ length traces.now }
    ensures { IfOk result (λ parties. parties.items ≡ unfinished traces.now places.now) }
{
    let mut parties = Vec::new(alloc);
    for k in 0..traces.len() {
        if places[k] < traces[k].events.len() {
            parties.push(traces[k].party)?;
        }
    }
    Ok(parties)
}

/// Goes round from these places on, and gives the parties that have events left.
fn merge_from(
    alloc: Global,
    order: &mut Order,
    traces: &[Trace],
    places: &mut [usize],
) -> Result<Vec<Party>, NoMemory>
    requires good { first_bad [] traces.now ≡ None }
    requires along { IsAlong traces.now places.old order.old }
    ensures size { order.new.size ≡ order.old.size }
    ensures done { IfOk result (λ parties. parties.items ≡ []
        → IsMerge order.new.size traces.now order.new.events.items) }
    ensures stuck { IfOk result (λ parties. parties.items ≢ []
        → IsStuck order.new.size traces.now parties.items) }
{
    follow_all(order, traces, places)?;
    parties_left(alloc, traces, places)
}

/// Brings the events of the traces into the order, as far as that goes, and gives the parties that have events left.
pub fn merge(alloc: Global, order: &mut Order, traces: &[Trace]) -> Result<Vec<Party>, NoMemory>
    requires good { first_bad [] traces.now ≡ None }
    requires leads { Leads order.old }
    requires empty { order.old.events.items ≡ [] }
    ensures size { order.new.size ≡ order.old.size }
    ensures done { IfOk result (λ parties. parties.items ≡ []
        → IsMerge order.new.size traces.now order.new.events.items) }
    ensures stuck { IfOk result (λ parties. parties.items ≢ []
        → IsStuck order.new.size traces.now parties.items) }
{
    let mut places = vec![in alloc; 0usize; traces.len()]?;
    merge_from(alloc, order, traces, &mut places)
}

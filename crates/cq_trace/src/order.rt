//! An order that grows by one enabled event after another.
ghost use Rattle.std.specs.Prelude.{◌≡◌, ◌≢◌, ◌≤◌, ◌++◌, ◌∷◌, [], Some, true, false, drop, take, length, slice_get, IfOk, IfErr, OnOk, if◌then◌else◌};
ghost use Rattle.cq_trace.specs.within.Along.{Leads, IsNext};
ghost use Rattle.cq_trace.specs.declared.fault.AuditFault.TheVariants as faults;
ghost use Rattle.cq_events.specs.declared.event.Event as rust_event;

use crate::fault::AuditFault;
use cq_base::{ChainSize, NoMemory, Party};
use cq_chain::WorldFault;
use cq_world::{Event, Sim};
use std::alloc::Global;

/// Events in an order in which each is enabled, and the world that they lead to from the first one of that size.
#[derive(Drop)]
pub struct Order {
    size: ChainSize,
    sim: Sim,
    events: Vec<Event>,
}

/// Whether these are none.
fn is_nobody(parties: &[Party]) -> bool
    ensures none { result ≡ true → parties.now ≡ [] }
    ensures some { result ≡ false → parties.now ≢ [] }
{
    parties.is_empty()
}

impl Order {
    /// No event yet.
    pub fn new(alloc: Global, size: ChainSize) -> Result<Order, NoMemory>
        ensures leads { IfOk result (λ order. Leads order) }
        ensures size { IfOk result (λ order. order.size ≡ size) }
        ensures events { IfOk result (λ order. order.events.items ≡ []) }
    {
        Ok(Order {
            size,
            sim: Sim::new(alloc, size)?,
            events: Vec::new(alloc),
        })
    }

    /// The event comes next if it is enabled, which the answer says. The order keeps a copy.
    fn step(&mut self, event: &Event) -> Result<bool, NoMemory>
        requires { Leads self.old }
        ensures leads { OnOk result (Leads self.new) }
        ensures size { self.new.size ≡ self.old.size }
        ensures events { IfOk result (λ enabled. self.new.events.items
            ≡ (if enabled then self.old.events.items ++ event.now ∷ [] else self.old.events.items)) }
        ensures refused { IfOk result (λ enabled. enabled ≡ false → IsNext self.new event.now → ⊥) }
    {
        match self.sim.step(event) {
            Ok(_given) => {
                let copy = event.try_copy()?;
                self.events.push(copy)?;
                Ok(true)
            }
            Err(fault) => match fault {
                WorldFault::NoMemory => Err(NoMemory),
                _ => Ok(false),
            },
        }
    }

    /// The events of a trace from a place on come next, as long as they are enabled. It gives the place of the first that
    /// isn't. It tries each of these events once.
    pub fn follow(&mut self, events: &[Event], from: usize) -> Result<usize, NoMemory>
        requires leads { Leads self.old }
        requires from { from ≤ length events.now }
        ensures leads { OnOk result (Leads self.new) }
        ensures size { self.new.size ≡ self.old.size }
        ensures place { IfOk result (λ place. (from ≤ place) × (place ≤ length events.now)) }
        ensures events { IfOk result (λ place. self.new.events.items
            ≡ self.old.events.items ++ drop from (take place events.now)) }
        ensures refused { IfOk result (λ place. (event : rust_event.Event)
            → slice_get events.now place ≡ Some event → IsNext self.new event → ⊥) }
    {
        for place in from..events.len() {
            if !self.step(&events[place])? {
                return Ok(place);
            }
        }
        Ok(events.len())
    }

    /// What an audit answers that has come so far, where these parties have events left.
    pub fn answer(self, left: Vec<Party>) -> Result<Vec<Event>, AuditFault>
        ensures empty { OnOk result (left.items ≡ []) }
        ensures ok { IfOk result (λ events. events.items ≡ self.events.items) }
        ensures err { IfErr result (λ fault. (left.items ≢ []) × (fault ≡ faults.NoNextEvent left)) }
    {
        if is_nobody(&left) {
            Ok(self.events)
        } else {
            Err(AuditFault::NoNextEvent(left))
        }
    }
}

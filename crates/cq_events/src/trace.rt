//! What one party did.
use crate::Event;
use cq_base::Party;

/// The events of one party, in the order in which they happened there.
#[derive(Debug, Drop)]
pub struct Trace {
    pub party: Party,
    pub events: Vec<Event>,
}

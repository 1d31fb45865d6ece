//! How many messages are in flight.
ghost use Rattle.std.specs.Prelude.{◌≡◌, filter, length};
ghost use Rattle.cq_base.specs.queue.Receiving.{is_in_flight};
ghost use Rattle.cq_messages.specs.within.Indexed.{AreFlights};
ghost use Rattle.cq_messages.specs.Slots.{live};

use crate::slot::{NEVER, Slot};
use cq_base::Moment;
use cq_min_index::Packed;

/// How many messages are in flight at that moment. It takes no memory. O(in flight, each log n), where n are the
/// messages that were handed out and aren't deleted.
pub fn count_in_flight(slots: &[Slot], flight_ends: &Packed, moment: Moment) -> u64
    requires { AreFlights slots.now flight_ends.now }
    ensures { result ≡ length (filter (is_in_flight moment) (live slots.now)) }
{
    let limit = NEVER - 1 - moment.get();
    flight_ends.count_at_most(limit, slots.len())
}

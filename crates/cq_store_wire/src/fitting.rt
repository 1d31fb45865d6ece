//! What holds of each store, so that all its parts have bytes.
ghost use Rattle.std.specs.Prelude.{◌≡◌, ℕ, List, slice_get};
ghost use Rattle.cq_wire.specs.Limits.{IfThere};
ghost use Rattle.cq_store_wire.specs.declared.part.Part.TheVariants as parts;
ghost use Rattle.cq_store_wire.specs.Bodies.{and_reply};
ghost use Rattle.cq_store_wire.specs.Laws.{IsName, IsQueue, IsStore};
ghost use Rattle.cq_store_wire.specs.Limits.{IsAccepted, IsBare, IsMessage, IsMoment, IsNameRecord, IsPart};
ghost use Rattle.cq_store_wire.specs.Order.{client_part, emptied, emptied_if, name_record};

use crate::bodies::Bodies;
use cq_base::{Moment, QueueName};
use cq_messages::Message;
use cq_queue::{Accepted, Queue};
use cq_store::{ClientRecord, QueueRecord, Store};
use cq_wire::{body_fits, dedup_fits, group_fits, name_fits, reply_fits};

fn moment_if_fits(moment: Option<Moment>)
    ensures { IfThere IsMoment moment }
{
    match moment {
        Some(moment) => {
            let _number = moment.get();
        }
        None => (),
    }
}

/// The part that begins a store has bytes.
pub fn start_fits(count: u64, last: Moment)
    ensures { IsPart (parts.Start count last) }
{
    let _count = count;
    let _last = last.get();
}

/// Each message has bytes.
pub fn message_fits(message: &Message)
    ensures { IsMessage message.now }
{
    let _sequence = message.sequence;
    group_fits(&message.group);
    body_fits(&message.body);
    let _handed_at = message.handed_at.get();
    let _until = message.until;
}

/// Each accepted send has bytes.
pub fn accepted_fits(accepted: &Accepted)
    ensures { IsAccepted accepted.now }
{
    dedup_fits(&accepted.dedup);
    let _moment = accepted.moment.get();
    let _sequence = accepted.sequence;
}

/// The part of each client has bytes, whatever bodies were known before its reply, if these are known behind it.
pub fn client_fits(client: u32, kept: &ClientRecord, bodies: &Bodies)
    ensures { (known : List (List ℕ)) → bodies.now ≡ and_reply known kept.now.reply → IsPart (client_part known (client, kept.now)) }
{
    let _client = client;
    let _number = kept.number;
    let _count = bodies.len();
    reply_fits(&kept.reply);
}

fn queue_fits(queue: &Queue)
    ensures { IsBare (emptied queue.now) }
{
    let _number = queue.incarnation();
    let _visibility = queue.visibility().get();
    let _last = queue.last().get();
    let _messages = queue.messages();
}

fn living_fits(kept: &QueueRecord)
    ensures { IfThere IsBare (emptied_if kept.now.living) }
{
    match kept.living() {
        Some(queue) => queue_fits(queue),
        None => (),
    }
}

/// The part of each name has bytes.
pub fn record_fits(name: &QueueName, kept: &QueueRecord)
    ensures { IsNameRecord (name_record name.now kept.now) }
{
    name_fits(name);
    let _creations = kept.creations();
    moment_if_fits(kept.removed());
    living_fits(kept);
}

fn queue_holds(queue: &Queue)
    ensures { IsQueue queue.now }
{
    let _first = queue.messages().after(0);
    let _accepted = queue.accepted(0);
}

fn living_holds(kept: &QueueRecord)
    ensures { IfThere IsQueue kept.now.living }
{
    match kept.living() {
        Some(queue) => queue_holds(queue),
        None => (),
    }
}

/// What holds of the name at that place, or nothing.
fn name_holds(store: &Store, index: usize)
    ensures { IfThere IsName (slice_get store.now.queues index) }
{
    match store.name(index) {
        Some((_, kept)) => living_holds(kept),
        None => (),
    }
}

/// What holds of each store, so that it is read back: O(names).
pub fn store_fits(store: &Store)
    ensures { IsStore store.now }
{
    let _clients = store.client_count();
    let count = store.name_count();
    for index in 0..count {
        name_holds(store, index);
    }
}

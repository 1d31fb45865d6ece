//! A store is written as chunks, each of some parts.
ghost use Rattle.std.specs.Prelude.{◌≡◌, ℕ, suc, ◌<◌, List, [], ◌++◌, length, drop, true, false, IfOk, OnOk, OnErr};
ghost use Rattle.std.specs.Option.{option_map};
ghost use Rattle.cq_messages.specs.Ordered.{all_after};
ghost use Rattle.cq_base.specs.Relations.{IsPrefix};
ghost use Rattle.cq_store_wire.specs.Chunks.{IsChunk, IsNext};
ghost use Rattle.cq_store_wire.specs.Layout.{chunk};
ghost use Rattle.cq_store_wire.specs.Order.{all_names, living_at, messages_of, parts_from};
ghost use Rattle.cq_store_wire.specs.declared.writer.Place.TheVariants as places;

use crate::bodies::Bodies;
use crate::fitting::{accepted_fits, client_fits, message_fits, record_fits, start_fits};
use crate::put::{put_accepted, put_client, put_end, put_message, put_name, put_start};
use cq_base::NoMemory;
use cq_queue::Queue;
use cq_store::{QueueRecord, Store};
use cq_wire::{VERSION, Writer};
use std::alloc::Global;
use std::mem;

/// The part of a store that is written next.
#[derive(Clone, Copy, Debug, PartialEq, Eq, Drop)]
pub enum Place {
    Start,
    /// The client at that place, or what follows the last.
    Clients(usize),
    /// The name at that place, or what follows the last.
    Names(usize),
    /// Of the queue of the name at that place the first message with a larger number, or what follows the last.
    Messages { name: usize, after: u64 },
    /// Of the same queue the accepted send at that place, or what follows the last.
    Accepted { name: usize, next: usize },
    /// Nothing.
    End,
}

/// The queue of the name at that place, if it lives.
fn living_at(store: &Store, name: usize) -> Option<&Queue>
    ensures { option_map (λ q. q.now) result ≡ living_at store.now name }
{
    match store.name(name) {
        Some((_, kept)) => kept.living(),
        None => None,
    }
}

/// From 0 on all messages follow. O(log messages).
fn all_follow(kept: &QueueRecord)
    ensures { all_after 0 (messages_of kept.now.living) ≡ messages_of kept.now.living }
{
    match kept.living() {
        Some(queue) => {
            let _first = queue.messages().after(0);
        }
        None => (),
    }
}

fn put_name_at(out: &mut Writer, store: &Store, index: usize) -> Result<Place, NoMemory>
    ensures ok { (known : List (List ℕ)) → IfOk result (λ next. IsNext (parts_from store.now known (places.Names index)) (parts_from store.now known next) out.old.value out.new.value) }
    ensures before { out.new.before ≡ out.old.before }
{
    match store.name(index) {
        Some((name, kept)) => {
            record_fits(name, kept);
            put_name(out, name, kept)?;
            all_follow(kept);
            Ok(Place::Messages {
                name: index,
                after: 0,
            })
        }
        None => {
            put_end(out)?;
            Ok(Place::End)
        }
    }
}

/// Puts the name behind that one, or the end.
fn put_name_behind(out: &mut Writer, store: &Store, name: usize) -> Result<Place, NoMemory>
    ensures ok { (known : List (List ℕ)) → IfOk result (λ next. IsNext (all_names (drop (suc name) store.now.queues)) (parts_from store.now known next) out.old.value out.new.value) }
    ensures before { out.new.before ≡ out.old.before }
{
    if name < store.name_count() {
        put_name_at(out, store, name + 1)
    } else {
        put_end(out)?;
        Ok(Place::End)
    }
}

fn put_client_at(
    out: &mut Writer,
    store: &Store,
    bodies: &mut Bodies,
    index: usize,
) -> Result<Place, NoMemory>
    ensures ok { IfOk result (λ next. IsNext (parts_from store.now bodies.old (places.Clients index)) (parts_from store.now bodies.new next) out.old.value out.new.value) }
    ensures more { IsPrefix bodies.old bodies.new }
    ensures before { out.new.before ≡ out.old.before }
{
    if index >= store.client_count() {
        return put_name_at(out, store, 0);
    }
    match store.client(index) {
        Some((client, kept)) => {
            put_client(out, bodies, *client, kept)?;
            client_fits(*client, kept, bodies);
            Ok(Place::Clients(index + 1))
        }
        None => put_name_at(out, store, 0),
    }
}

fn put_accepted_at(
    out: &mut Writer,
    store: &Store,
    name: usize,
    next: usize,
) -> Result<Place, NoMemory>
    ensures ok { (known : List (List ℕ)) → IfOk result (λ then. IsNext (parts_from store.now known (places.Accepted name next)) (parts_from store.now known then) out.old.value out.new.value) }
    ensures before { out.new.before ≡ out.old.before }
{
    match living_at(store, name) {
        Some(queue) => {
            let _known = queue.messages();
            match queue.accepted(next) {
                Some(accepted) => {
                    accepted_fits(accepted);
                    put_accepted(out, accepted)?;
                    Ok(Place::Accepted {
                        name,
                        next: next + 1,
                    })
                }
                None => put_name_behind(out, store, name),
            }
        }
        None => put_name_behind(out, store, name),
    }
}

fn put_message_at(
    out: &mut Writer,
    store: &Store,
    name: usize,
    after: u64,
) -> Result<Place, NoMemory>
    ensures ok { (known : List (List ℕ)) → IfOk result (λ next. IsNext (parts_from store.now known (places.Messages name after)) (parts_from store.now known next) out.old.value out.new.value) }
    ensures before { out.new.before ≡ out.old.before }
{
    match living_at(store, name) {
        Some(queue) => match queue.messages().after(after) {
            Some(message) => {
                message_fits(message);
                put_message(out, message)?;
                Ok(Place::Messages {
                    name,
                    after: message.sequence,
                })
            }
            None => put_accepted_at(out, store, name, 0),
        },
        None => put_accepted_at(out, store, name, 0),
    }
}

/// Puts the part at that place, and answers the next place.
fn put_at(
    out: &mut Writer,
    store: &Store,
    bodies: &mut Bodies,
    place: Place,
) -> Result<Place, NoMemory>
    requires { place ≡ places.End → ⊥ }
    ensures ok { IfOk result (λ next. IsNext (parts_from store.now bodies.old place) (parts_from store.now bodies.new next) out.old.value out.new.value) }
    ensures more { IsPrefix bodies.old bodies.new }
    ensures before { out.new.before ≡ out.old.before }
{
    match place {
        Place::Start => {
            let count = store.count();
            let last = store.last();
            start_fits(count, last);
            put_start(out, count, last)?;
            Ok(Place::Clients(0))
        }
        Place::Clients(index) => put_client_at(out, store, bodies, index),
        Place::Names(index) => put_name_at(out, store, index),
        Place::Messages { name, after } => put_message_at(out, store, name, after),
        Place::Accepted { name, next } => put_accepted_at(out, store, name, next),
        Place::End => Ok(Place::End),
    }
}

/// Puts a chunk, from the version on, and answers the next place. A chunk has one part at least, if there is one.
fn put_chunk(
    out: &mut Writer,
    store: &Store,
    bodies: &mut Bodies,
    start: Place,
    enough: usize,
) -> Result<Place, NoMemory>
    requires { out.old.value ≡ [] }
    ensures ok { IfOk result (λ next. IsChunk (parts_from store.now bodies.old start) (parts_from store.now bodies.new next) out.new.value) }
    ensures moves { IfOk result (λ next. (start ≡ places.End → ⊥) → length (parts_from store.now bodies.new next) < length (parts_from store.now bodies.old start)) }
    ensures more { IsPrefix bodies.old bodies.new }
    ensures before { out.new.before ≡ out.old.before }
{
    out.put(&[VERSION])?;
    let least = enough.max(2);
    let mut place = start;
    while place != Place::End && out.len() < least {
        place = put_at(out, store, bodies, place)?;
    }
    Ok(place)
}

/// Writes a store as chunks, one at a time: it keeps its place in the store, and the bodies of the kept replies before that,
/// whose texts it shares.
#[derive(Drop)]
pub struct StoreWriter {
    bodies: Bodies,
    place: Place,
}

impl StoreWriter {
    /// Nothing of a store is written.
    pub fn new(alloc: Global) -> StoreWriter
        ensures start { result.place ≡ places.Start }
        ensures bodies { result.bodies ≡ [] }
    {
        StoreWriter {
            bodies: Bodies::new(alloc),
            place: Place::Start,
        }
    }

    /// Whether all was written.
    pub fn is_done(&self) -> bool
        ensures yes { result ≡ true → self.now.place ≡ places.End }
        ensures no { result ≡ false → self.now.place ≡ places.End → ⊥ }
    {
        self.place == Place::End
    }

    /// Writes the next chunk behind the bytes. It has one part at least, and ends with the part with which it has `enough`
    /// bytes, or with the store's last; so it has at most 2.7 MB more than `enough`. The store has to be the same at each
    /// call: what another one's chunks are read as isn't said. After `NoMemory` bytes and writer are as before. O(bytes of
    /// the chunk), and a search for each message: O(log messages).
    pub fn next(
        &mut self,
        store: &Store,
        bytes: &mut Vec<u8>,
        enough: usize,
    ) -> Result<(), NoMemory>
        ensures ok { OnOk result ((one : List ℕ) × (bytes.new.items ≡ bytes.old.items ++ one)
            × IsChunk (parts_from store.now self.old.bodies self.old.place) (parts_from store.now self.new.bodies self.new.place) one) }
        ensures moves { OnOk result ((self.old.place ≡ places.End → ⊥) → length (parts_from store.now self.new.bodies self.new.place) < length (parts_from store.now self.old.bodies self.old.place)) }
        ensures err { OnErr result ((bytes.new.items ≡ bytes.old.items) × (self.new ≡ self.old)) }
    {
        let empty = Vec::new(*bytes.allocator());
        let mut out = Writer::after(mem::replace(bytes, empty));
        let known = self.bodies.len();
        match put_chunk(&mut out, store, &mut self.bodies, self.place, enough) {
            Ok(place) => {
                self.place = place;
                *bytes = out.whole();
                Ok(())
            }
            Err(_) => {
                self.bodies.truncate(known);
                *bytes = out.undone();
                Err(NoMemory)
            }
        }
    }
}

//! A store in its parts, and a store that is made of them again.
ghost use Rattle.std.specs.Prelude.{◌≡◌, [], true, false, length, nat_eq, None, Some, slice_get, IfOk, IfSome, IfNone, OnErr};
ghost use Rattle.std.specs.List.{All, IsDistinct};
ghost use Rattle.std.specs.Map.{keys_of, values_of};
ghost use Rattle.std.specs.Str.{bytes_eq};
ghost use Rattle.cq_store.specs.Parts.{IsNextName, IsWithin, and_client, and_name};
ghost use Rattle.cq_store.specs.Stands.{client_at};

use super::Store;
use crate::clients::{ClientRecord, ClientTable};
use crate::queue_record::QueueRecord;
use crate::queues::Queues;
use cq_base::{Moment, NoMemory, QueueName, Reply};
use std::alloc::Global;

impl Store {
    /// How many clients there are, none of them twice. O(1).
    pub fn client_count(&self) -> usize
        ensures count { result ≡ length self.now.clients }
        ensures distinct { IsDistinct nat_eq (keys_of self.now.clients) }
    {
        self.clients.len()
    }

    /// The client at that place, in order of their first requests, and what is kept of it. O(1).
    pub fn client(&self, index: usize) -> Option<(&u32, &ClientRecord)>
        ensures some { IfSome result (λ c. slice_get self.now.clients index ≡ Some (c.0.now, c.1.now)) }
        ensures none { IfNone result (slice_get self.now.clients index ≡ None) }
    {
        self.clients.get_index(index)
    }

    /// How many names there are, none of them twice. No name has more creations, and no queue more uses, than the store
    /// took entries; and no queue a later moment than that of the last one. O(1).
    pub fn name_count(&self) -> usize
        ensures count { result ≡ length self.now.queues }
        ensures distinct { IsDistinct bytes_eq (keys_of self.now.queues) }
        ensures within { All (IsWithin self.now.count self.now.last) (values_of self.now.queues) }
    {
        self.queues.len()
    }

    /// The name at that place, in order of their first creations, and what is kept of it. O(1).
    pub fn name(&self, index: usize) -> Option<(&QueueName, &QueueRecord)>
        ensures some { IfSome result (λ q. slice_get self.now.queues index ≡ Some (q.0.now, q.1.now)) }
        ensures none { IfNone result (slice_get self.now.queues index ≡ None) }
    {
        self.queues.get_index(index)
    }

    /// A store that took so many entries, and keeps nothing of them but the moment of the last. It keeps the allocator.
    pub fn restored(alloc: Global, count: u64, last: Moment) -> Store
        ensures { result ≡ record { count = count; last = last; clients = []; queues = [] } }
    {
        Store {
            alloc,
            count,
            last,
            clients: ClientTable::new(alloc),
            queues: Queues::new(alloc),
        }
    }

    /// Keeps that reply as the one to the client's largest number, and answers whether it does: not where the client is
    /// kept already, and then, as after `NoMemory`, the store is as before. O(1) expected and amortized.
    pub fn restore_client(
        &mut self,
        client: u32,
        number: u64,
        reply: Reply,
    ) -> Result<bool, NoMemory>
        ensures put { IfOk result (λ is. is ≡ true → self.new ≡ and_client client (record { number = number; reply = reply }) self.old) }
        ensures new { IfOk result (λ is. is ≡ true → client_at self.old.clients client ≡ None) }
        ensures refused { IfOk result (λ is. is ≡ false → self.new ≡ self.old) }
        ensures only { IfOk result (λ is. is ≡ false → client_at self.old.clients client ≡ None → ⊥) }
        ensures err { OnErr result (self.new ≡ self.old) }
    {
        self.clients.restore(client, ClientRecord { number, reply })
    }

    /// Keeps that of the name, and answers whether it does: not where the name is kept already, or has more creations,
    /// its queue more uses or a later moment than the store has entries or its last one; then, as after `NoMemory`, the store is as before. O(1)
    /// expected and amortized.
    pub fn restore_name(&mut self, queue: QueueName, kept: QueueRecord) -> Result<bool, NoMemory>
        ensures put { IfOk result (λ is. is ≡ true → self.new ≡ and_name queue kept self.old) }
        ensures next { IfOk result (λ is. is ≡ true → IsNextName self.old queue kept) }
        ensures refused { IfOk result (λ is. is ≡ false → self.new ≡ self.old) }
        ensures only { IfOk result (λ is. is ≡ false → IsNextName self.old queue kept → ⊥) }
        ensures err { OnErr result (self.new ≡ self.old) }
    {
        if !kept.is_within(self.count, self.last) {
            return Ok(false);
        }
        self.queues.restore(queue, kept)
    }
}

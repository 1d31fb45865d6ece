//! The store, and the calls that change it.
ghost use Rattle.std.specs.Prelude.{◌≡◌, ◌<◌, ◌≤◌, ◌+◌, ℕ, List, [], ◌∷◌, ◌++◌, true, Some, cond, ◌==◌, IfOk, OnOk, OnErr};
ghost use Rattle.cq_base.specs.declared.limits.TheConstants.{HISTORY_LIMIT};
ghost use Rattle.cq_base.specs.declared.ask.Entry.{Entry};
ghost use Rattle.cq_base.specs.queue.Clients.{is_fresh};
ghost use Rattle.cq_base.specs.queue.History as object;
ghost use Rattle.cq_store.specs.Stands.{StandsFor, count_of, last_of};

mod parts;
mod reads;

use crate::clients::ClientTable;
use crate::queues::Queues;
use cq_base::{Entry, Moment, NoMemory, Query, Reply};
use std::alloc::Global;
use std::marker::Model;

/// A store of FIFO queues. It stands for the list of the entries that it was given, and answers each as
/// the queue object does at its place of the list.
pub struct Store {
    alloc: Global,
    count: u64,
    last: Moment,
    clients: ClientTable,
    queues: Queues,
}

/// Written out, not derived: CONTRIBUTING.md, "Drop".
impl Drop for Store {
    fn drop(self) {
        let Store {
            alloc: _,
            count: _,
            last: _,
            clients: _,
            queues: _,
        } = self;
    }
}

impl Model for Store {
    ghost use Rattle.std.specs.Prelude.{ℕ, List};
    ghost use Rattle.cq_store.specs.Parts.{IsWithin};
    ghost use Rattle.cq_store.specs.Stands as spec;
    ghost use Rattle.cq_store.specs.Stands.{name_at, or_unknown};

    ghost Value = { spec.StoreKept };

    ghost view = { λ s. record {
      count = s.count;
      last = s.last;
      clients = s.clients.kept;
      queues = s.queues;
    } };

    ghost invariant = { λ s. (queue : List ℕ) → IsWithin s.count s.last (or_unknown (name_at s.queues queue)) };
}

impl Store {
    /// A store that was given nothing yet. It keeps the allocator.
    pub fn new(alloc: Global) -> Result<Store, NoMemory>
        ensures { IfOk result (λ store. StandsFor store []) }
    {
        Ok(Store {
            alloc,
            count: 0,
            last: Moment::zero(),
            clients: ClientTable::new(alloc),
            queues: Queues::new(alloc),
        })
    }

    /// One more entry, which isn't fresh.
    fn pass(&mut self, entry: &Entry)
        requires room { count_of self.old < HISTORY_LIMIT }
        requires stamped { last_of self.old ≤ entry.now.moment }
        ensures count { self.new.count ≡ self.old.count + 1 }
        ensures last { self.new.last ≡ entry.now.moment }
        ensures clients { self.new.clients ≡ self.old.clients }
        ensures queues { self.new.queues ≡ self.old.queues }
    {
        self.count += 1;
        self.last = entry.moment;
    }

    /// One more entry, which is fresh.
    fn apply_fresh(&mut self, entry: &Entry) -> Result<Reply, NoMemory>
        requires room { count_of self.old < HISTORY_LIMIT }
        requires stamped { last_of self.old ≤ entry.now.moment }
        ensures ok { (entries : List Entry) → StandsFor self.old entries
            → is_fresh entry.now.request.client entry.now.request.number (object.history entries) ≡ true
            → IfOk result (λ reply. (reply ≡ object.reply_to entries entry.now)
            × StandsFor self.new (entries ++ entry.now ∷ [])) }
        ensures err { (entries : List Entry) → StandsFor self.old entries → OnErr result
            (StandsFor self.new entries) }
        ensures ok_count { OnOk result (count_of self.new ≡ count_of self.old + 1) }
        ensures err_count { OnErr result (count_of self.new ≡ count_of self.old) }
        ensures err_last { OnErr result (last_of self.new ≡ last_of self.old) }
    {
        self.clients.reserve()?;
        let request = &entry.request;
        let answered = self.queues.apply(self.alloc, entry.moment, &request.ask)?;
        self.clients
            .keep(request.client, request.number, answered.kept);
        self.count += 1;
        self.last = entry.moment;
        Ok(answered.reply)
    }

    /// Takes the next entry, and answers it. After `NoMemory` nothing has changed.
    ///
    /// The client and the queue are found by their hashes: O(1), and what the ask takes on its queue. A repeat
    /// copies the kept reply, and a receive makes two copies of its list.
    pub fn apply(&mut self, entry: &Entry) -> Result<Reply, NoMemory>
        requires room { count_of self.old < HISTORY_LIMIT }
        requires stamped { last_of self.old ≤ entry.now.moment }
        ensures ok { (entries : List Entry) → StandsFor self.old entries → IfOk result (λ reply.
            (reply ≡ object.reply_to entries entry.now) × StandsFor self.new (entries ++ entry.now ∷ [])) }
        ensures err { (entries : List Entry) → StandsFor self.old entries → OnErr result
            (StandsFor self.new entries) }
        ensures ok_count { OnOk result (count_of self.new ≡ count_of self.old + 1) }
        ensures err_count { OnErr result (count_of self.new ≡ count_of self.old) }
        ensures err_last { OnErr result (last_of self.new ≡ last_of self.old) }
    {
        let request = &entry.request;
        match self.clients.repeat_reply(request.client, request.number)? {
            Some(reply) => {
                self.pass(entry);
                Ok(reply)
            }
            None => self.apply_fresh(entry),
        }
    }

    /// How many messages a queue has, at the moment of the last entry. It takes no memory, and O(log
    /// messages) for each that is in flight.
    pub fn query(&self, query: &Query) -> Reply
        ensures stands { (entries : List Entry) → StandsFor self.now entries
            → result ≡ object.counts_after entries query.now.queue }
    {
        self.queues.counts(self.last, &query.queue)
    }

    /// A store of its own that stands for the same entries, so that each goes on from here alone. It shares the
    /// texts: O(clients + names + what is kept of each).
    pub fn try_copy(&self) -> Result<Store, NoMemory>
        ensures count { IfOk result (λ copy. count_of copy ≡ count_of self.now) }
        ensures last { IfOk result (λ copy. last_of copy ≡ last_of self.now) }
        ensures stands { (entries : List Entry) → StandsFor self.now entries → IfOk result (λ copy. StandsFor copy entries) }
    {
        Ok(Store {
            alloc: self.alloc,
            count: self.count,
            last: self.last,
            clients: self.clients.try_copy()?,
            queues: self.queues.try_copy()?,
        })
    }
}

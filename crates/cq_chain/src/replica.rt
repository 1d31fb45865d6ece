//! What a server has of its history.
ghost use Rattle.std.specs.Prelude.{◌≡◌, ◌<◌, ◌≤◌, ◌+◌, ◌-◌, ℕ, List, ◌++◌, ◌∷◌, [], length, max, IfOk, OnErr};
ghost use Rattle.cq_base.specs.declared.ask.Entry as rust_entry;
ghost use Rattle.cq_base.specs.declared.limits.TheConstants.{HISTORY_LIMIT};
ghost use Rattle.cq_base.specs.queue.History.{reply_to, counts_after};
ghost use Rattle.cq_chain.specs.within.Replicas.{Recalls, IsEntryAfter};
ghost use Rattle.cq_store.specs.Stands as stores;
ghost use Rattle.cq_store.specs.Stands.{count_of, last_of};

use cq_base::{Entry, Moment, NoMemory, Query, Reply};
use cq_store::Store;
use std::alloc::Global;
use std::collections::VecDeque;
use std::marker::Model;

/// What a server has of its history: the store that stands for all of it, and the entries after its floor, which it
/// may have to send once more. Those up to the floor are forgotten one by one.
pub struct Replica {
    store: Store,
    entries: VecDeque<Entry>,
}

/// Written out, not derived: CONTRIBUTING.md, "Drop".
impl Drop for Replica {
    fn drop(self) {
        let Replica {
            store: _,
            entries: _,
        } = self;
    }
}

impl Model for Replica {
    ghost use Rattle.std.specs.Prelude.{◌≤◌};
    ghost use Rattle.std.specs.VecDeque.{deque_len};
    ghost use Rattle.cq_chain.specs.within.Replicas as stored;
    ghost use Rattle.cq_store.specs.Stands.{count_of};

    ghost Value = { stored.Replica };

    ghost view = { λ r. record { store = r.store; entries = r.entries.items } };

    ghost invariant = { λ r. deque_len r.entries ≤ count_of r.store };
}

impl Replica {
    /// No entry yet. It keeps the allocator.
    pub fn new(alloc: Global) -> Result<Replica, NoMemory>
        ensures { IfOk result (λ replica. Recalls replica [] 0) }
    {
        Ok(Replica {
            store: Store::new(alloc)?,
            entries: VecDeque::new(alloc),
        })
    }

    /// With the history of a store, of which no entry is kept. It keeps the allocator.
    pub fn of_store(alloc: Global, store: Store) -> Replica
        ensures { (history : List rust_entry.Entry) → stores.StandsFor store history → Recalls result history (length history) }
    {
        Replica {
            store,
            entries: VecDeque::new(alloc),
        }
    }

    /// How many entries the history has: O(1).
    pub fn count(&self) -> u64
        ensures { result ≡ count_of self.now.store }
    {
        self.store.count()
    }

    /// The moment of the last entry, and 0 before the first: O(1).
    pub fn last(&self) -> Moment
        ensures { result ≡ last_of self.now.store }
    {
        self.store.last()
    }

    /// How many entries are kept: O(1).
    pub fn kept(&self) -> u64
        ensures { result ≡ length self.now.entries }
    {
        self.entries.len() as u64
    }

    /// So many entries are forgotten: O(1).
    pub fn floor(&self) -> u64
        ensures { result ≡ count_of self.now.store - length self.now.entries }
    {
        self.store.count() - self.entries.len() as u64
    }

    /// The store: O(1).
    pub fn store(&self) -> &Store
        ensures { result.now ≡ self.now.store }
    {
        &self.store
    }

    /// Takes the next entry, answers it, and keeps it. After `NoMemory` nothing has changed. It takes what the
    /// store takes.
    pub fn append(&mut self, entry: Entry) -> Result<Reply, NoMemory>
        requires room { count_of self.old.store < HISTORY_LIMIT }
        requires stamped { last_of self.old.store ≤ entry.moment }
        ensures ok { (history : List rust_entry.Entry) (floor : ℕ) → Recalls self.old history floor
            → IfOk result (λ reply. (reply ≡ reply_to history entry) × Recalls self.new (history ++ entry ∷ []) floor) }
        ensures err { (history : List rust_entry.Entry) (floor : ℕ) → Recalls self.old history floor
            → OnErr result (Recalls self.new history floor) }
    {
        self.entries.reserve(1)?;
        let reply = self.store.apply(&entry)?;
        self.entries.push_back_reserved(entry);
        Ok(reply)
    }

    /// The counts of the query's queue after all entries: O(log messages) for each that is in flight.
    pub fn query(&self, query: &Query) -> Reply
        ensures { (history : List rust_entry.Entry) → stores.StandsFor self.now.store history
            → result ≡ counts_after history query.now.queue }
    {
        self.store.query(query)
    }

    /// The entry that comes after so many, which is kept: O(1).
    pub fn entry_after(&self, before: u64) -> &Entry
        requires kept { count_of self.now.store - length self.now.entries ≤ before }
        requires within { before < count_of self.now.store }
        ensures { (history : List rust_entry.Entry) (floor : ℕ) → Recalls self.now history floor
            → IsEntryAfter history before result.now }
    {
        let floor = self.floor();
        &self.entries[(before - floor) as usize]
    }

    /// Forgets the entries up to that place, one by one: O(entries forgotten). It takes no memory.
    pub fn forget(&mut self, place: u64)
        ensures store { self.new.store ≡ self.old.store }
        ensures stands { (history : List rust_entry.Entry) (floor : ℕ) → Recalls self.old history floor → place ≤ length history
            → Recalls self.new history (max floor place) }
    {
        let count = place.saturating_sub(self.floor());
        for _ in 0..count {
            self.entries.pop_front();
        }
    }

    /// Forgets all entries, one by one: O(entries). It takes no memory.
    pub fn forget_all(&mut self)
        ensures store { self.new.store ≡ self.old.store }
        ensures stands { (history : List rust_entry.Entry) (floor : ℕ) → Recalls self.old history floor
            → Recalls self.new history (length history) }
    {
        self.entries.clear();
    }

    /// That store takes the place of its own, and no entry is kept: O(entries).
    pub fn restore(&mut self, store: Store)
        ensures store { self.new.store ≡ store }
        ensures stands { (history : List rust_entry.Entry) → stores.StandsFor store history
            → Recalls self.new history (length history) }
    {
        self.entries.clear();
        self.store = store;
    }
}

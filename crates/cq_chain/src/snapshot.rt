//! The state of a server, as its successor gets it.
ghost use Rattle.std.specs.Prelude.{◌≡◌, List, IfOk};
ghost use Rattle.cq_base.specs.declared.ask.Entry as rust_entry;
ghost use Rattle.cq_store.specs.Stands.{StandsFor, count_of};

use cq_base::NoMemory;
use cq_store::Store;
use std::fmt;
use std::marker::Model;

/// The state of a server after all entries of its history: a store of its own, which stands for them and knows how
/// many they are.
pub struct Snapshot {
    store: Store,
}

/// Written out, not derived: CONTRIBUTING.md, "Drop".
impl Drop for Snapshot {
    fn drop(self) {
        let Snapshot { store: _ } = self;
    }
}

impl Model for Snapshot {
    ghost use Rattle.cq_store.specs.Stands as spec;

    ghost Value = { spec.StoreKept };

    ghost view = { λ s. s.store };
}

/// It shows how many entries it stands for.
impl fmt::Debug for Snapshot {
    fn fmt<W: fmt::Write>(&self, f: &mut fmt::Formatter<W>) -> fmt::Result {
        let count = self.store.count();
        write!(f, "Snapshot {{ count: {count} }}")
    }
}

impl Snapshot {
    /// The state of a server that keeps that store: O(1).
    pub fn from_store(store: Store) -> Snapshot
        ensures { result ≡ store }
    {
        Snapshot { store }
    }

    /// A copy of that store. It takes what a copy of the store takes.
    pub(crate) fn of(store: &Store) -> Result<Snapshot, NoMemory>
        ensures { (entries : List rust_entry.Entry) → StandsFor store.now entries
            → IfOk result (λ snapshot. StandsFor snapshot entries) }
    {
        Ok(Snapshot {
            store: store.try_copy()?,
        })
    }

    /// How many entries it stands for: O(1).
    pub fn count(&self) -> u64
        ensures { result ≡ count_of self.now }
    {
        self.store.count()
    }

    /// Its store: O(1).
    pub fn store(&self) -> &Store
        ensures { result.now ≡ self.now }
    {
        &self.store
    }

    /// Its store, which is given away: O(1).
    pub fn into_store(self) -> Store
        ensures { result ≡ self }
    {
        let Snapshot { store } = self;
        store
    }
}

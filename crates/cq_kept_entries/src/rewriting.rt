//! How a journal of entries gets a base in the place of all that it has.
ghost use Rattle.std.specs.Prelude.{◌≡◌, ◌⊎◌, ◌≤◌, ◌++◌, [], ◌∷◌, ℕ, List, Ok, Some, IfOk, OnOk, IsErrOf, IsTrue};
ghost use Rattle.cq_base.specs.declared.ask.Entry as base_entry;
ghost use Rattle.cq_disk.specs.Device.{LeavesOnly};
ghost use Rattle.cq_records.specs.Batch.{batch_bytes};
ghost use Rattle.cq_records.specs.Frames.{joined};
ghost use Rattle.cq_records.specs.declared.fault.LogFault.TheVariants.{Full};
ghost use Rattle.cq_journal.specs.Base.{IsBase, base_records};
ghost use Rattle.cq_journal.specs.Changes.{replaces};
ghost use Rattle.cq_journal.specs.Histories.{Tries};
ghost use Rattle.cq_journal.specs.Journal.{IsJournal, journal_device, journal_half, journal_records, region_len};
ghost use Rattle.cq_journal.specs.Rests.{Rests};
ghost use Rattle.cq_store.specs.Stands as stores;
ghost use Rattle.cq_store_wire.specs.Building.{fed};
ghost use Rattle.cq_store_wire.specs.declared.build.State.{State};
ghost use Rattle.cq_store_wire.specs.declared.build.State.TheVariants as states;
ghost use Rattle.cq_kept_base.specs.Writing.{writer_records};
ghost use Rattle.cq_kept_entries.specs.Kept.{BytesStandFor};
ghost use Rattle.cq_kept_entries.specs.Pieces.{AreOf, at, listing, read, start, storing};

use crate::KeptEntries;
use crate::reader::STORE_HEAD;
use cq_disk::Device;
use cq_journal::{Base, Journal};
use cq_kept_base::{
    BaseWriter, add_record, begin_base, end_base, message_count, next_chunk, piece_size, piece_text,
};
use cq_records::LogFault;
use cq_store::Store;
use cq_store_wire::{StoreWriter, store_fits};
use std::alloc::Global;

/// Adds a piece of a store to a base.
fn add_piece<D: Device>(
    journal: &mut Journal<D>,
    alloc: Global,
    base: &mut BaseWriter,
    chunk: &[u8],
) -> Result<(), LogFault>
    requires journal { IsJournal journal.old }
    requires base { IsBase journal.old base.old.base }

    ensures journal { OnOk result (IsJournal journal.new) }
    ensures rests { Rests journal.old journal.new }
    ensures base { OnOk result (IsBase journal.new base.new.base) }
    ensures added { (state next : State) → read start (joined (writer_records journal.old base.old)) ≡ at [] (storing state) → fed chunk.now state ≡ Ok next
        → OnOk result (read start (joined (writer_records journal.new base.new)) ≡ at [] (storing next)) }
    ensures full { IsErrOf result Full → IsJournal journal.new }
{
    let text = piece_text(alloc, &[], chunk)?;
    add_record(journal, alloc, base, &text)
}

/// Adds the chunks of a store to a base that has begun.
fn add_store<D: Device>(
    journal: &mut Journal<D>,
    alloc: Global,
    base: &mut BaseWriter,
    store: &Store,
) -> Result<(), LogFault>
    requires journal { IsJournal journal.old }
    requires base { IsBase journal.old base.old.base }

    ensures journal { OnOk result (IsJournal journal.new) }
    ensures rests { Rests journal.old journal.new }
    ensures base { OnOk result (IsBase journal.new base.new.base) }
    ensures added { read start (joined (writer_records journal.old base.old)) ≡ at [] (storing states.Empty)
        → OnOk result (read start (joined (writer_records journal.new base.new)) ≡ at [] (storing (states.Whole store.now))) }
    ensures full { IsErrOf result Full → IsJournal journal.new }
{
    store_fits(store);
    let enough = piece_size(journal.region_size());
    let mut writer = StoreWriter::new(alloc);
    while !writer.is_done() {
        let chunk = next_chunk(alloc, &mut writer, store, enough)?;
        add_piece(journal, alloc, base, &chunk)?;
    }
    Ok(())
}

/// Adds all of a base: its first piece, the store, and the line feed that ends it.
fn add_all<D: Device>(
    journal: &mut Journal<D>,
    alloc: Global,
    base: &mut BaseWriter,
    store: &Store,
) -> Result<(), LogFault>
    requires journal { IsJournal journal.old }
    requires base { IsBase journal.old base.old.base }
    requires empty { writer_records journal.old base.old ≡ [] }

    ensures journal { OnOk result (IsJournal journal.new) }
    ensures rests { Rests journal.old journal.new }
    ensures base { OnOk result (IsBase journal.new base.new.base) }
    ensures stands { OnOk result (read start (joined (writer_records journal.new base.new)) ≡ at [] (listing (Some store.now) [])) }
    ensures flushed { OnOk result (batch_bytes base.new.batch ≡ []) }
    ensures full { IsErrOf result Full → IsJournal journal.new }
{
    add_record(journal, alloc, base, &STORE_HEAD)?;
    add_store(journal, alloc, base, store)?;
    end_base(journal, alloc, base, b"\n")
}

/// Writes a base beside the regions of a journal. `Full`: there is no space for it, and the journal goes on.
fn write_base<D: Device>(
    journal: &mut Journal<D>,
    alloc: Global,
    store: &Store,
) -> Result<Base, LogFault>
    requires { IsJournal journal.old }

    ensures journal { OnOk result (IsJournal journal.new) }
    ensures rests { Rests journal.old journal.new }
    ensures base { IfOk result (λ base. IsBase journal.new base) }
    ensures stands { IfOk result (λ base. read start (joined (base_records journal.new base)) ≡ at [] (listing (Some store.now) [])) }
    ensures full { IsErrOf result Full → IsJournal journal.new }
{
    let mut base = begin_base(journal, alloc)?;
    add_all(journal, alloc, &mut base, store)?;
    Ok(base.into_base())
}

/// Puts a base in the place of all records. `Full`: there is no space for it, and the journal goes on with the records that it had.
fn replace_records<D: Device>(
    journal: &mut Journal<D>,
    alloc: Global,
    store: &Store,
) -> Result<(), LogFault>
    requires { IsJournal journal.old }

    ensures journal { OnOk result (IsJournal journal.new) }
    ensures lengths { OnOk result ((journal_half journal.new ≡ journal_half journal.old) × (region_len journal.new ≡ region_len journal.old)) }
    ensures stands { OnOk result (read start (joined (journal_records journal.new)) ≡ at [] (listing (Some store.now) [])) }
    ensures honest { IsTrue (D.is_honest (journal_device journal.new)) → IsTrue (D.is_honest (journal_device journal.old)) }
    ensures tries { (base : List (List ℕ)) × Tries (replaces base) journal.old journal.new
        × ((base ≡ journal_records journal.old) ⊎ (read start (joined base) ≡ at [] (listing (Some store.now) []))) }
    ensures full { IsErrOf result Full → IsJournal journal.new × (journal_records journal.new ≡ journal_records journal.old) }
    ensures lengths_full { IsErrOf result Full → (journal_half journal.new ≡ journal_half journal.old) × (region_len journal.new ≡ region_len journal.old) }
{
    let base = write_base(journal, alloc, store)?;
    journal.rewrite(alloc, base)
}

impl<D: Device> KeptEntries<D> {
    ghost use Rattle.cq_kept_entries.specs.Kept.{IsKept, StandsFor, added_text, entries_device, entries_half, entries_journal, entries_len, kept_records};

    /// Puts a base in the place of all that is kept: this store. What was added and isn't kept stays so. `Full`: there is no space for
    /// a base, and nothing has changed. After another fault it is to be opened anew. It takes time in proportion to the store, and
    /// memory for a piece of it.
    pub fn rewrite(&mut self, store: &Store) -> Result<(), LogFault>
        requires { IsKept self.old }

        ensures kept { OnOk result (IsKept self.new) }
        ensures lengths { OnOk result ((entries_half self.new ≡ entries_half self.old) × (entries_len self.new ≡ entries_len self.old)) }
        ensures honest { IsTrue (D.is_honest (entries_device self.new)) → IsTrue (D.is_honest (entries_device self.old)) }
        ensures added { added_text self.new ≡ added_text self.old }

        // It stands for whatever entries the store stands for.
        ensures stands { OnOk result ((all : List base_entry.Entry) → stores.StandsFor store.now all → StandsFor self.new all) }

        // Where these are the entries that are kept, a crash at any moment leaves what stands for them.
        ensures any_moment { IsTrue (D.is_honest (entries_device self.new)) → (all : List base_entry.Entry) → StandsFor self.old all → stores.StandsFor store.now all
            → LeavesOnly D.moment D.left_since (entries_device self.old) (entries_device self.new) (λ c. BytesStandFor (entries_half self.old) (entries_len self.old) c all) }
        ensures tries { (base : List (List ℕ)) × Tries (replaces base) (entries_journal self.old) (entries_journal self.new)
            × ((base ≡ kept_records self.old) ⊎ ((all : List base_entry.Entry) → stores.StandsFor store.now all → AreOf (joined base) all)) }
        ensures full { IsErrOf result Full → IsKept self.new × (kept_records self.new ≡ kept_records self.old) }
        ensures lengths_full { IsErrOf result Full → (entries_half self.new ≡ entries_half self.old) × (entries_len self.new ≡ entries_len self.old) }
    {
        replace_records(&mut self.journal, self.alloc, store)
    }

    /// Rewrites what is kept where that is due before entries of so many bytes come, and there is space. `false`: nothing was done. O(names)
    /// beside a rewrite.
    pub fn rewrite_if_due(&mut self, store: &Store, coming: usize) -> Result<bool, LogFault>
        requires { IsKept self.old }

        ensures kept { OnOk result (IsKept self.new) }
        ensures lengths { OnOk result ((entries_half self.new ≡ entries_half self.old) × (entries_len self.new ≡ entries_len self.old)) }
        ensures honest { IsTrue (D.is_honest (entries_device self.new)) → IsTrue (D.is_honest (entries_device self.old)) }
        ensures added { added_text self.new ≡ added_text self.old }
        ensures stands { OnOk result (IsTrue (D.is_honest (entries_device self.new)) → (all : List base_entry.Entry) → StandsFor self.old all → stores.StandsFor store.now all → StandsFor self.new all) }
        ensures any_moment { IsTrue (D.is_honest (entries_device self.new)) → (all : List base_entry.Entry) → StandsFor self.old all → stores.StandsFor store.now all
            → LeavesOnly D.moment D.left_since (entries_device self.old) (entries_device self.new) (λ c. BytesStandFor (entries_half self.old) (entries_len self.old) c all) }
    {
        let entries = store.count();
        let used = self.used();
        if !self.schedule.is_due(used, coming, entries) {
            return Ok(false);
        }
        let messages = message_count(store);
        match self.rewrite(store) {
            Ok(()) => {
                let used = self.used();
                self.schedule.rewritten(used, messages, entries);
                // (the regions that are free now have space)
                self.lacks_space = false;
                Ok(true)
            }
            Err(LogFault::Full) => {
                let regions = self.journal.region_count();
                self.schedule.refused(regions, messages, entries);
                Ok(false)
            }
            Err(fault) => Err(fault),
        }
    }
}

//! How a journal of entries begins, and goes on behind what was kept.
ghost use Rattle.std.specs.Prelude.{◌≡◌, ◌⊎◌, ◌≤◌, ◌<◌, ◌+◌, ◌++◌, [], ◌∷◌, ℕ, List, length, Some, IsTrue, IfErr, IfOk, OnOk};
ghost use Rattle.cq_base.specs.declared.ask.Entry as base;
ghost use Rattle.cq_disk.specs.Device.{LeavesOnly};
ghost use Rattle.cq_journal.specs.Base.{HasEitherRecords};
ghost use Rattle.cq_journal.specs.Changes.{adds};
ghost use Rattle.cq_journal.specs.Histories.{Tries};
ghost use Rattle.cq_journal.specs.Intact.{IsIntact};
ghost use Rattle.cq_journal.specs.Journal.{IsJournal};
ghost use Rattle.cq_journal.specs.Regions.{kept};
ghost use Rattle.cq_journal.specs.Rests.{Rests};
ghost use Rattle.cq_store.specs.Stands as stores;
ghost use Rattle.cq_kept_entries.specs.Faults.{HasReason, IsOfCall};
ghost use Rattle.cq_kept_entries.specs.Kept.{BytesStandFor, StandForSome, head, headed};
ghost use Rattle.cq_kept_entries.specs.Pieces.{read, start};
ghost use Rattle.cq_kept_entries.specs.within.Readers.{IsReader};

use crate::StartFault;
use crate::kept::{KeptEntries, append_record};
use crate::reader::{EntriesReader, HEAD};
use cq_base::ChainSize;
use cq_disk::Device;
use cq_journal::{Journal, NUMBER_LIMIT};
use cq_kept_base::{Schedule, message_count};
use cq_store::Store;
use std::alloc::Global;

impl<D: Device> KeptEntries<D> {
    ghost use Rattle.cq_kept_entries.specs.Kept.{HasAdded, IsKept, StandsFor, StandsForSome, added_text, entries_device, entries_half, entries_journal, entries_len, kept_bytes, kept_records};

    /// Makes a journal of entries on a device: a root of two halves of this length, and behind it one region of this length. Whatever
    /// the device has is lost. `Write(Full)`: it is too short.
    pub fn create(
        alloc: Global,
        device: D,
        half: usize,
        len: usize,
    ) -> Result<KeptEntries<D>, StartFault>
        requires root { half + half ≤ length (D.seen device) }
        requires small { half + half < NUMBER_LIMIT }
        ensures kept { IfOk result IsKept }
        ensures empty { IfOk result (λ kept. StandsFor kept []) }
        ensures settled { IfOk result (λ kept. HasAdded kept []) }
        ensures lengths { IfOk result (λ kept. (entries_half kept ≡ half) × (entries_len kept ≡ len)) }
        ensures honest { IfOk result (λ kept. IsTrue (D.is_honest (entries_device kept)) → IsTrue (D.is_honest device)) }
        ensures refused { IfErr result IsOfCall }
    {
        let behind = device.len().saturating_sub(half).saturating_sub(half);
        let mut journal = Journal::create(alloc, device, half, len)?;
        append_record(&mut journal, alloc, &HEAD)?;
        Ok(KeptEntries::begin(alloc, journal, len, behind))
    }

    /// Goes on with the journal of entries that a device has, with halves of the root and regions of these lengths, and gives the store
    /// of its entries. It takes memory for the records of a region, beside the store. `Open(NoJournal)`: the device has none. `NoEntries`:
    /// it has one of something else.
    pub fn open(
        alloc: Global,
        device: D,
        half: usize,
        len: usize,
    ) -> Result<(KeptEntries<D>, Store), StartFault>
        requires { half + half ≤ length (D.seen device) }
        ensures kept { IfOk result (λ opened. IsKept opened.0) }
        ensures settled { IfOk result (λ opened. HasAdded opened.0 []) }
        ensures lengths { IfOk result (λ opened. (entries_half opened.0 ≡ half) × (entries_len opened.0 ≡ len)) }
        ensures records { IfOk result (λ opened. IsTrue (D.is_honest (entries_device opened.0)) → (rs : List (List ℕ)) × (kept half len (D.seen device) ≡ Some rs) × (kept_records opened.0 ≡ headed rs)) }

        // Whatever entries the bytes of the device stand for, what is kept stands for them, and so does the store.
        ensures stands { IfOk result (λ opened. IsTrue (D.is_honest (entries_device opened.0)) → (all : List base.Entry) → BytesStandFor half len (D.seen device) all → StandsFor opened.0 all) }
        ensures store { IfOk result (λ opened. IsTrue (D.is_honest (entries_device opened.0)) → (all : List base.Entry) → StandsFor opened.0 all → stores.StandsFor opened.1 all) }

        // A crash at any moment leaves what it might have left before, or what stands for the same entries.
        ensures any_moment { IfOk result (λ opened. IsTrue (D.is_honest (entries_device opened.0)) → (all : List base.Entry) → BytesStandFor half len (D.seen device) all
            → LeavesOnly D.moment D.left_since device (entries_device opened.0) (λ c. D.may_leave device c ⊎ BytesStandFor half len c all)) }

        // What it refuses, it refuses for a reason: `last` is the device as the calls on it have left it.
        ensures refused { IfErr result (λ fault. (last : D) × (IsTrue (D.is_honest last) → HasReason fault (IsIntact half len (D.seen device)) (StandForSome half len (D.seen device)))) }
    {
        let behind = device.len().saturating_sub(half).saturating_sub(half);
        let journal = Journal::open(alloc, device, half, len)?;
        let mut kept = KeptEntries::begin(alloc, journal, len, behind);
        let store = kept.restore()?;
        let used = kept.used();
        kept.schedule.opened(used, message_count(&store));
        // What is behind the base counts as a record: once something finds no room, another base is tried.
        kept.schedule.count(0);
        Ok((kept, store))
    }

    /// Nothing was added, over a journal.
    fn begin(alloc: Global, journal: Journal<D>, len: usize, behind: usize) -> KeptEntries<D>
        ensures journal { entries_journal result ≡ journal }
        ensures text { added_text result ≡ [] }
    {
        KeptEntries {
            alloc,
            journal,
            text: Vec::new(alloc),
            schedule: Schedule::new(ChainSize::one(), len, behind),
            with_space: 0,
            lacks_space: false,
        }
    }

    /// Reads what is kept, region by region.
    fn read_all(&mut self) -> Result<EntriesReader, StartFault>
        requires { IsJournal (entries_journal self.old) }

        ensures journal { IsJournal (entries_journal self.new) }
        ensures rests { Rests (entries_journal self.old) (entries_journal self.new) }
        ensures text { added_text self.new ≡ added_text self.old }
        ensures refused { IfErr result (λ fault. IsTrue (D.is_honest (entries_device self.new)) → HasReason fault (IsIntact (entries_half self.old) (entries_len self.old) (D.seen (entries_device self.old))) (StandsForSome self.old)) }
        ensures read { IfOk result (λ reader. IsTrue (D.is_honest (entries_device self.new)) → IsReader (read start (kept_bytes self.old)) reader) }
    {
        let mut text = Vec::new(self.alloc);
        let mut reader = EntriesReader::new(self.alloc);
        let mut index = 0;
        while index < self.journal.region_count() {
            text.clear();
            self.journal.read_region(self.alloc, index, &mut text)?;
            reader = reader.feed(&text)?;
            index += 1;
        }
        self.schedule.count(reader.behind);
        Ok(reader)
    }

    /// Reads what is kept, and gives the store of it. Where nothing is, the first piece of entries is kept.
    fn restore(&mut self) -> Result<Store, StartFault>
        requires journal { IsJournal (entries_journal self.old) }
        requires text { added_text self.old ≡ [] }

        ensures kept { OnOk result (IsKept self.new) }
        ensures text { OnOk result (added_text self.new ≡ []) }
        ensures lengths { OnOk result ((entries_half self.new ≡ entries_half self.old) × (entries_len self.new ≡ entries_len self.old)) }
        ensures honest { IsTrue (D.is_honest (entries_device self.new)) → IsTrue (D.is_honest (entries_device self.old)) }
        ensures records { OnOk result (IsTrue (D.is_honest (entries_device self.new)) → kept_records self.new ≡ headed (kept_records self.old)) }
        ensures stands { OnOk result (IsTrue (D.is_honest (entries_device self.new)) → (all : List base.Entry) → StandsFor self.old all → StandsFor self.new all) }
        ensures store { IfOk result (λ store. IsTrue (D.is_honest (entries_device self.new)) → (all : List base.Entry) → StandsFor self.new all → stores.StandsFor store all) }
        ensures refused { IfErr result (λ fault. IsTrue (D.is_honest (entries_device self.new)) → HasReason fault (IsIntact (entries_half self.old) (entries_len self.old) (D.seen (entries_device self.old))) (StandsForSome self.old)) }
        ensures any_moment { OnOk result (IsTrue (D.is_honest (entries_device self.new)) → LeavesOnly D.moment D.left_since (entries_device self.old) (entries_device self.new)
            (HasEitherRecords (entries_half self.old) (entries_len self.old) (kept_records self.old) (headed (kept_records self.old)))) }
    {
        let reader = self.read_all()?;
        match reader.into_store()? {
            Some(store) => Ok(store),
            None => self.begin_entries(),
        }
    }

    /// Keeps the first piece of entries, and gives the store of none.
    fn begin_entries(&mut self) -> Result<Store, StartFault>
        requires { IsJournal (entries_journal self.old) }

        ensures journal { OnOk result (IsJournal (entries_journal self.new)) }
        ensures text { added_text self.new ≡ added_text self.old }
        ensures lengths { OnOk result ((entries_half self.new ≡ entries_half self.old) × (entries_len self.new ≡ entries_len self.old)) }
        ensures records { OnOk result (kept_records self.new ≡ kept_records self.old ++ head ∷ []) }
        ensures honest { IsTrue (D.is_honest (entries_device self.new)) → IsTrue (D.is_honest (entries_device self.old)) }
        ensures tries { OnOk result (Tries (adds (head ∷ [])) (entries_journal self.old) (entries_journal self.new)) }
        ensures store { IfOk result (λ store. stores.StandsFor store []) }
        ensures refused { IfErr result IsOfCall }
    {
        let store = Store::new(self.alloc)?;
        append_record(&mut self.journal, self.alloc, &HEAD)?;
        Ok(store)
    }
}

//! How the next region gets its space before it is wanted.
ghost use Rattle.std.specs.Prelude.{◌≡◌, OnOk, IsTrue, ℕ, List};
ghost use Rattle.cq_base.specs.declared.ask.Entry as base_entry;
ghost use Rattle.cq_disk.specs.Device.{LeavesOnly};
ghost use Rattle.cq_journal.specs.Journal.{IsJournal};
ghost use Rattle.cq_journal.specs.Rests.{Rests};
ghost use Rattle.cq_store.specs.Stands as stores;
ghost use Rattle.cq_kept_entries.specs.Kept.{BytesStandFor};

use crate::KeptEntries;
use cq_disk::Device;
use cq_kept_base::begin_base;
use cq_records::LogFault;
use cq_store::Store;

impl<D: Device> KeptEntries<D> {
    ghost use Rattle.cq_kept_entries.specs.Kept.{IsKept, StandsFor, added_text, entries_device, entries_half, entries_journal, entries_len};

    /// Makes ready for what comes, entries of so many bytes: what is kept is rewritten where that is due, and the next region gets
    /// its space. Where the device has none, `has_room` says so from then on. After a fault it is to be opened anew. It takes time
    /// in proportion to the store where it is rewritten, and to a region where one gets its space.
    pub fn prepare(&mut self, store: &Store, coming: usize) -> Result<(), LogFault>
        requires { IsKept self.old }

        ensures kept { OnOk result (IsKept self.new) }
        ensures lengths { OnOk result ((entries_half self.new ≡ entries_half self.old) × (entries_len self.new ≡ entries_len self.old)) }
        ensures honest { IsTrue (D.is_honest (entries_device self.new)) → IsTrue (D.is_honest (entries_device self.old)) }
        ensures added { added_text self.new ≡ added_text self.old }
        ensures stands { OnOk result (IsTrue (D.is_honest (entries_device self.new)) → (all : List base_entry.Entry) → StandsFor self.old all → stores.StandsFor store.now all → StandsFor self.new all) }
        ensures any_moment { IsTrue (D.is_honest (entries_device self.new)) → (all : List base_entry.Entry) → StandsFor self.old all → stores.StandsFor store.now all
            → LeavesOnly D.moment D.left_since (entries_device self.old) (entries_device self.new) (λ c. BytesStandFor (entries_half self.old) (entries_len self.old) c all) }
    {
        self.rewrite_if_due(store, coming)?;
        self.take_space(coming)
    }

    /// Has the device take space for the next region, where one is wanted that may have none. Where the device has no space, that is
    /// noted.
    fn take_space(&mut self, coming: usize) -> Result<(), LogFault>
        requires { IsKept self.old }

        ensures kept { OnOk result (IsKept self.new) }
        ensures rests { Rests (entries_journal self.old) (entries_journal self.new) }
        ensures added { added_text self.new ≡ added_text self.old }
    {
        if !self.wants_space(coming) {
            return Ok(());
        }
        // A base that isn't gone on with is a free region of zeros.
        match begin_base(&mut self.journal, self.alloc) {
            Ok(_) => {
                self.with_space = self.journal.region_count().saturating_add(1);
                self.lacks_space = false;
                Ok(())
            }
            Err(LogFault::Full) => {
                self.lacks_space = true;
                Ok(())
            }
            Err(fault) => Err(fault),
        }
    }

    /// Whether the next region may have no space, and is to get it now: once half of the region that grows is used, or again where the
    /// device had none and entries of so many bytes found no room since.
    fn wants_space(&self, coming: usize) -> bool
        requires { IsJournal (entries_journal self.now) }
    {
        if self.journal.region_count() < self.with_space {
            return false;
        }
        if self.lacks_space {
            return coming > 0;
        }
        self.journal.bytes_left() <= self.journal.region_size() / 2 && self.journal.has_spare()
    }
}

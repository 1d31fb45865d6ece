//! How a journal goes on where its region that grows is full.
ghost use Rattle.std.specs.Prelude.{◌≡◌, ◌++◌, ◌<◌, IsTrue, OnOk, IsErrOf};
ghost use Rattle.cq_disk.specs.Device.{LeavesOnly};
ghost use Rattle.cq_records.specs.Batch.{batch_bytes};
ghost use Rattle.cq_records.specs.Frames.{records};
ghost use Rattle.cq_journal.specs.Regions.{HasPrefixOf};

use crate::Journal;
use cq_disk::Device;
use cq_records::{Batch, LogFault};
use std::alloc::Global;

impl<D: Device> Journal<D> {
    ghost use Rattle.cq_journal.specs.Intact.{LeavesIntact, StaysIntact};
    ghost use Rattle.cq_journal.specs.Journal.{IsJournal, journal_device, journal_half, journal_records, region_len};

    /// Adds the records of a batch as `commit` does, in the next region where the one that grows has no room for them. `Full`: there
    /// is no free region, the batch is longer than one, or the device has no space; the journal has the records from before, and goes
    /// on. After another fault it is to be opened anew.
    pub fn append(&mut self, alloc: Global, batch: &Batch) -> Result<(), LogFault>
        requires { IsJournal self.old }

        ensures journal { OnOk result (IsJournal self.new) }
        ensures lengths { OnOk result ((journal_half self.new ≡ journal_half self.old) × (region_len self.new ≡ region_len self.old)) }
        ensures acknowledged { OnOk result (journal_records self.new ≡ journal_records self.old ++ records (batch_bytes batch.now)) }
        ensures any_moment { IsTrue (D.is_honest (journal_device self.new)) → LeavesOnly D.moment D.left_since (journal_device self.old) (journal_device self.new)
            (HasPrefixOf (journal_half self.old) (region_len self.old) (journal_records self.old) (records (batch_bytes batch.now))) }
        ensures intact { LeavesIntact self.old self.new }
        ensures stays { OnOk result (StaysIntact self.old self.new) }
        ensures stays_full { IsErrOf result LogFault.Full → StaysIntact self.old self.new }
        ensures honest { IsTrue (D.is_honest (journal_device self.new)) → IsTrue (D.is_honest (journal_device self.old)) }
        ensures full { IsErrOf result LogFault.Full → IsJournal self.new × (journal_records self.new ≡ journal_records self.old) }
        ensures lengths_full { IsErrOf result LogFault.Full → (journal_half self.new ≡ journal_half self.old) × (region_len self.new ≡ region_len self.old) }
        ensures failed { IsErrOf result LogFault.Failed → D.faults (journal_device self.old) < D.faults (journal_device self.new) }
    {
        match self.commit(batch) {
            Err(LogFault::Full) => self.append_in_next(alloc, batch),
            done => done,
        }
    }

    /// Adds them in the next region.
    fn append_in_next(&mut self, alloc: Global, batch: &Batch) -> Result<(), LogFault>
        requires { IsJournal self.old }

        ensures journal { OnOk result (IsJournal self.new) }
        ensures lengths { OnOk result ((journal_half self.new ≡ journal_half self.old) × (region_len self.new ≡ region_len self.old)) }
        ensures acknowledged { OnOk result (journal_records self.new ≡ journal_records self.old ++ records (batch_bytes batch.now)) }
        ensures any_moment { IsTrue (D.is_honest (journal_device self.new)) → LeavesOnly D.moment D.left_since (journal_device self.old) (journal_device self.new)
            (HasPrefixOf (journal_half self.old) (region_len self.old) (journal_records self.old) (records (batch_bytes batch.now))) }
        ensures intact { LeavesIntact self.old self.new }
        ensures stays { OnOk result (StaysIntact self.old self.new) }
        ensures stays_full { IsErrOf result LogFault.Full → StaysIntact self.old self.new }
        ensures honest { IsTrue (D.is_honest (journal_device self.new)) → IsTrue (D.is_honest (journal_device self.old)) }
        ensures full { IsErrOf result LogFault.Full → IsJournal self.new × (journal_records self.new ≡ journal_records self.old) }
        ensures lengths_full { IsErrOf result LogFault.Full → (journal_half self.new ≡ journal_half self.old) × (region_len self.new ≡ region_len self.old) }
        ensures failed { IsErrOf result LogFault.Failed → D.faults (journal_device self.old) < D.faults (journal_device self.new) }
    {
        if batch.as_slice().len() > self.len {
            return Err(LogFault::Full);
        }
        let Some(place) = self.free_region() else {
            return Err(LogFault::Full);
        };
        self.next_region(alloc, place)?;
        self.commit(batch)
    }
}

//! Regions that don't count, and may be named later.
ghost use Rattle.std.specs.Prelude.{◌≡◌, ◌++◌, ◌+◌, ◌<◌, ◌≤◌, length, replicate, IsTrue, OnOk, IsErrOf};
ghost use Rattle.cq_disk.specs.Device.{LeavesOnly, HasCause};
ghost use Rattle.cq_disk.specs.Region.{part};
ghost use Rattle.cq_records.specs.Batch.{batch_bytes};
ghost use Rattle.cq_records.specs.Frames.{records};
ghost use Rattle.cq_records.specs.Layout.{IsLog};
ghost use Rattle.cq_journal.specs.Regions.{HasRecords};
ghost use Rattle.cq_journal.specs.Root.{log_end, HasHalves};

use crate::Journal;
use cq_disk::{Device, DeviceFault};
use cq_records::{Batch, LogFault};

impl<D: Device> Journal<D> {
    ghost use Rattle.cq_journal.specs.Intact.{LeavesIntact, StaysIntact};
    ghost use Rattle.cq_journal.specs.Journal.{IsJournal, journal_device, journal_half, journal_records, region_len};
    ghost use Rattle.cq_journal.specs.within.Outside.{IsOutside, ChangesOutside};

    /// Writes zeros over a region that doesn't count. The journal is the same, at each moment.
    pub(crate) fn blank_outside(&mut self, place: usize) -> Result<(), DeviceFault>
        requires journal { IsJournal self.old }
        requires outside { IsOutside self.old place }

        ensures journal { OnOk result (IsJournal self.new) }
        ensures halves { HasHalves self.new.root }
        ensures changes { ChangesOutside place self.old self.new }
        ensures records { journal_records self.new ≡ journal_records self.old }
        ensures zeros { OnOk result (part place (region_len self.old) (D.seen (journal_device self.new)) ≡ replicate (region_len self.old) 0) }
        ensures any_moment { IsTrue (D.is_honest (journal_device self.new)) → LeavesOnly D.moment D.left_since (journal_device self.old) (journal_device self.new)
            (HasRecords (journal_half self.old) (region_len self.old) (journal_records self.old)) }
        ensures intact { LeavesIntact self.old self.new }
        ensures stays { StaysIntact self.old self.new }
        ensures cause { HasCause (D.faults (journal_device self.old)) (D.faults (journal_device self.new)) result }
    {
        self.root.blank_at(place, self.len)
    }

    /// Writes zeros over a region that doesn't count. The journal is the same, at each moment. `Full`: a call failed, as a write
    /// for which there is no space does, and a sync has ended well since. The region may have any bytes then.
    pub(crate) fn clear_outside(&mut self, place: usize) -> Result<(), LogFault>
        requires journal { IsJournal self.old }
        requires outside { IsOutside self.old place }

        ensures journal { OnOk result (IsJournal self.new) }
        ensures changes { ChangesOutside place self.old self.new }
        ensures records { journal_records self.new ≡ journal_records self.old }
        ensures zeros { OnOk result (part place (region_len self.old) (D.seen (journal_device self.new)) ≡ replicate (region_len self.old) 0) }
        ensures any_moment { IsTrue (D.is_honest (journal_device self.new)) → LeavesOnly D.moment D.left_since (journal_device self.old) (journal_device self.new)
            (HasRecords (journal_half self.old) (region_len self.old) (journal_records self.old)) }
        ensures intact { LeavesIntact self.old self.new }
        ensures stays { StaysIntact self.old self.new }
        ensures full { IsErrOf result LogFault.Full → IsJournal self.new }
        ensures failed { IsErrOf result LogFault.Failed → D.faults (journal_device self.old) < D.faults (journal_device self.new) }
        ensures cause { IsErrOf result LogFault.Full → D.faults (journal_device self.old) < D.faults (journal_device self.new) }
        ensures later { D.faults (journal_device self.old) ≤ D.faults (journal_device self.new) }
    {
        match self.blank_outside(place) {
            Ok(()) => Ok(()),
            Err(DeviceFault::NoMemory) => Err(LogFault::NoMemory),
            Err(DeviceFault::Failed) => {
                self.root.settle()?;
                Err(LogFault::Full)
            }
        }
    }

    /// Adds the records of a batch to the log in a region that doesn't count, which ends there. The journal is the same, at
    /// each moment. Afterwards `root.log.end` is the end of that log.
    pub(crate) fn commit_outside(
        &mut self,
        place: usize,
        end: usize,
        batch: &Batch,
    ) -> Result<(), LogFault>
        requires journal { IsJournal self.old }
        requires outside { IsOutside self.old place }
        requires log { IsLog (part place (region_len self.old) (D.seen (journal_device self.old))) end }

        ensures journal { OnOk result (IsJournal self.new) }
        ensures changes { ChangesOutside place self.old self.new }
        ensures records { journal_records self.new ≡ journal_records self.old }
        ensures acknowledged { OnOk result (records (part place (region_len self.old) (D.seen (journal_device self.new))) ≡ records (part place (region_len self.old) (D.seen (journal_device self.old))) ++ records (batch_bytes batch.now)) }
        ensures log { OnOk result (IsLog (part place (region_len self.old) (D.seen (journal_device self.new))) (log_end self.new.root)) }
        ensures any_moment { IsTrue (D.is_honest (journal_device self.new)) → LeavesOnly D.moment D.left_since (journal_device self.old) (journal_device self.new)
            (HasRecords (journal_half self.old) (region_len self.old) (journal_records self.old)) }
        ensures intact { LeavesIntact self.old self.new }
        ensures stays { StaysIntact self.old self.new }
        ensures full { IsErrOf result LogFault.Full → IsJournal self.new × (journal_device self.new ≡ journal_device self.old) × (log_end self.new.root ≡ end) × (region_len self.old < end + length (batch_bytes batch.now)) }
        ensures failed { IsErrOf result LogFault.Failed → D.faults (journal_device self.old) < D.faults (journal_device self.new) }
        ensures later { D.faults (journal_device self.old) ≤ D.faults (journal_device self.new) }
    {
        self.root.commit_at(place, self.len, end, batch)
    }
}

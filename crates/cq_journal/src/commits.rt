//! Regions behind a root, each of them a log.
ghost use Rattle.std.specs.Prelude.{◌≡◌, ◌++◌, ◌+◌, ◌<◌, ◌≤◌, length, IsTrue, OnOk, IsErrOf};
ghost use Rattle.cq_disk.specs.Device.{LeavesOnly};
ghost use Rattle.cq_disk.specs.Region.{part, Beside};
ghost use Rattle.cq_records.specs.Batch.{batch_bytes};
ghost use Rattle.cq_records.specs.Frames.{frames, records};
ghost use Rattle.cq_records.specs.Layout.{IsLog};
ghost use Rattle.cq_records.specs.Outcomes.{HasPrefixInPart};
ghost use Rattle.cq_journal.specs.Root.{root_half, root_device, root_number, log_end, IsRoot};

use crate::Root;
use cq_disk::Device;
use cq_records::{Batch, LogFault};
use std::alloc::Global;

impl<D: Device> Root<D> {
    /// Adds the records of a batch to the log in the region of this length at this place, which ends there. The root is
    /// the same. Afterwards `log.end` is the end of that log.
    pub(crate) fn commit_at(
        &mut self,
        place: usize,
        len: usize,
        end: usize,
        batch: &Batch,
    ) -> Result<(), LogFault>
        requires root { IsRoot self.old }
        requires behind { root_half self.old + root_half self.old ≤ place }
        requires within { place + len ≤ length (D.seen (root_device self.old)) }
        requires log { IsLog (part place len (D.seen (root_device self.old))) end }

        ensures root { OnOk result (IsRoot self.new) }
        ensures half { root_half self.new ≡ root_half self.old }
        ensures number { root_number self.new ≡ root_number self.old }
        ensures acknowledged { OnOk result (frames (part place len (D.seen (root_device self.new))) ≡ frames (part place len (D.seen (root_device self.old))) ++ frames (batch_bytes batch.now)) }
        ensures log { OnOk result (IsLog (part place len (D.seen (root_device self.new))) (log_end self.new)) }
        ensures end { OnOk result (log_end self.new ≡ end + length (batch_bytes batch.now)) }
        ensures length { length (D.seen (root_device self.new)) ≡ length (D.seen (root_device self.old)) }
        ensures beside { Beside place len (D.seen (root_device self.old)) (D.seen (root_device self.new)) }
        ensures any_moment { LeavesOnly D.moment D.left_since (root_device self.old) (root_device self.new)
            (HasPrefixInPart (D.torn (root_device self.old)) place len (frames (part place len (D.seen (root_device self.old)))) (frames (batch_bytes batch.now)) (D.seen (root_device self.old))) }
        ensures keeps { D.keeps (root_device self.old) (root_device self.new) }
        ensures honest { D.is_honest (root_device self.new) ≡ D.is_honest (root_device self.old) }
        ensures full { IsErrOf result LogFault.Full → IsRoot self.new × (root_device self.new ≡ root_device self.old) × (log_end self.new ≡ end) × (len < end + length (batch_bytes batch.now)) }
        ensures failed { IsErrOf result LogFault.Failed → D.faults (root_device self.old) < D.faults (root_device self.new) }
        ensures later { D.faults (root_device self.old) ≤ D.faults (root_device self.new) }
    {
        let _len = self.log.device.device.len();
        let (start, half) = (self.log.device.start, self.log.device.len);
        self.log.device.len = 0;
        self.log.device.start = place;
        self.log.device.len = len;
        self.log.end = end;
        let done = self.log.commit(batch);
        self.log.device.len = 0;
        self.log.device.start = start;
        self.log.device.len = half;
        done
    }

    /// Adds the records of a batch as `commit_at` does, but its last record as a batch of its own: so once the region counts, its mark tells
    /// where one of the others was lost. Of a crash it says nothing but that all beside the region stays. `Full` may come behind the
    /// others.
    pub(crate) fn copy_at(
        &mut self,
        alloc: Global,
        place: usize,
        len: usize,
        end: usize,
        batch: Batch,
    ) -> Result<(), LogFault>
        requires root { IsRoot self.old }
        requires behind { root_half self.old + root_half self.old ≤ place }
        requires within { place + len ≤ length (D.seen (root_device self.old)) }
        requires log { IsLog (part place len (D.seen (root_device self.old))) end }

        ensures root { OnOk result (IsRoot self.new) }
        ensures half { root_half self.new ≡ root_half self.old }
        ensures number { root_number self.new ≡ root_number self.old }
        ensures copied { OnOk result (records (part place len (D.seen (root_device self.new))) ≡ records (part place len (D.seen (root_device self.old))) ++ records (batch_bytes batch)) }
        ensures log { OnOk result (IsLog (part place len (D.seen (root_device self.new))) (log_end self.new)) }
        ensures length { length (D.seen (root_device self.new)) ≡ length (D.seen (root_device self.old)) }
        ensures beside { Beside place len (D.seen (root_device self.old)) (D.seen (root_device self.new)) }
        ensures left { LeavesOnly D.moment D.left_since (root_device self.old) (root_device self.new) (Beside place len (D.seen (root_device self.old))) }
        ensures honest { D.is_honest (root_device self.new) ≡ D.is_honest (root_device self.old) }
        ensures full { IsErrOf result LogFault.Full → len < end + length (batch_bytes batch) }
        ensures failed { IsErrOf result LogFault.Failed → D.faults (root_device self.old) < D.faults (root_device self.new) }
        ensures later { D.faults (root_device self.old) ≤ D.faults (root_device self.new) }
    {
        let mut front = batch;
        let last = front.split_last(alloc)?;
        self.commit_at(place, len, end, &front)?;
        let end = self.log.end;
        self.commit_at(place, len, end, &last)
    }
}

//! How the records of a region behind a root are read.
ghost use Rattle.std.specs.Prelude.{◌≡◌, ℕ, true, ◌⊎◌, ◌++◌, ◌+◌, ◌<◌, ◌≤◌, false, length, drop, IsTrue, IfOk, OnOk, IsErrOf};
ghost use Rattle.cq_disk.specs.Device.{LeavesOnly};
ghost use Rattle.cq_disk.specs.Region.{part};
ghost use Rattle.cq_records.specs.Batch.{batch_bytes};
ghost use Rattle.cq_records.specs.Frames.{ends_with, frames, records, joined, all_sound, HasMore, IsDamaged};
ghost use Rattle.cq_journal.specs.Root.{root_half, root_device, root_number, IsRoot};

use crate::Root;
use cq_disk::Device;
use cq_records::{Batch, Behind, ReadFault, read_into, read_log};
use std::alloc::Global;

impl<D: Device> Root<D> {
    /// Adds the records of the region of this length at this place to a batch. `Damaged`: one is, or something comes behind them that may
    /// not. The root is the same, and so is all that
    /// is seen; a crash at any moment leaves just this.
    pub(crate) fn read_at(
        &mut self,
        alloc: Global,
        place: usize,
        len: usize,
        behind: Behind,
        batch: &mut Batch,
    ) -> Result<(), ReadFault>
        requires root { IsRoot self.old }
        requires within { place + len ≤ length (D.seen (root_device self.old)) }

        ensures root { OnOk result (IsRoot self.new) }
        ensures half { root_half self.new ≡ root_half self.old }
        ensures number { root_number self.new ≡ root_number self.old }
        ensures read { OnOk result (IsTrue (D.is_honest (root_device self.new)) → records (batch_bytes batch.new) ≡ records (batch_bytes batch.old) ++ records (part place len (D.seen (root_device self.old)))) }
        ensures length { OnOk result (length (batch_bytes batch.new) ≤ length (batch_bytes batch.old) + len) }
        ensures damaged { IsErrOf result ReadFault.Damaged → IsTrue (D.is_honest (root_device self.new))
            → (all_sound (frames (part place len (D.seen (root_device self.old)))) ≡ false) ⊎ (ends_with behind (part place len (D.seen (root_device self.old))) ≡ false) }
        ensures seen { D.seen (root_device self.new) ≡ D.seen (root_device self.old) }
        ensures any_moment { LeavesOnly D.moment D.left_since (root_device self.old) (root_device self.new)
            (λ c. c ≡ D.seen (root_device self.old)) }
        ensures keeps { D.keeps (root_device self.old) (root_device self.new) }
        ensures honest { IsTrue (D.is_honest (root_device self.new)) → IsTrue (D.is_honest (root_device self.old)) }
        ensures failed { IsErrOf result ReadFault.Failed → D.faults (root_device self.old) < D.faults (root_device self.new) }
        ensures later { D.faults (root_device self.old) ≤ D.faults (root_device self.new) }
    {
        let _len = self.log.device.device.len();
        let (start, half) = (self.log.device.start, self.log.device.len);
        self.log.device.len = 0;
        self.log.device.start = place;
        self.log.device.len = len;
        let done = read_into(alloc, &mut self.log.device, behind, batch);
        self.log.device.len = 0;
        self.log.device.start = start;
        self.log.device.len = half;
        done
    }

    /// Adds the texts of the records of the region of this length at this place to a text, one behind the other, and gives their number.
    /// Afterwards `at` is behind the last one that was added: after `Damaged`, where the damaged one begins in the region, or where
    /// something comes behind the records that may not. The root is the same, and so is all that is seen; a
    /// crash at any moment leaves just this.
    pub(crate) fn read_log_at(
        &mut self,
        alloc: Global,
        place: usize,
        len: usize,
        behind: Behind,
        at: &mut usize,
        text: &mut Vec<u8>,
    ) -> Result<usize, ReadFault>
        requires root { IsRoot self.old }
        requires within { place + len ≤ length (D.seen (root_device self.old)) }
        requires at { at.old ≡ 0 }

        ensures root { IsRoot self.new }
        ensures half { root_half self.new ≡ root_half self.old }
        ensures number { root_number self.new ≡ root_number self.old }
        ensures count { IfOk result (λ count. IsTrue (D.is_honest (root_device self.new)) → count ≡ length (records (part place len (D.seen (root_device self.old))))) }
        ensures read { OnOk result (IsTrue (D.is_honest (root_device self.new)) → text.new.items ≡ text.old.items ++ joined (records (part place len (D.seen (root_device self.old))))) }
        ensures ends { OnOk result (IsTrue (D.is_honest (root_device self.new)) → ends_with behind (part place len (D.seen (root_device self.old))) ≡ true) }
        ensures at { at.new ≤ length (part place len (D.seen (root_device self.old))) }
        ensures damaged { IsErrOf result ReadFault.Damaged → IsTrue (D.is_honest (root_device self.new))
            → IsDamaged (drop at.new (part place len (D.seen (root_device self.old)))) ⊎ HasMore behind at.new (part place len (D.seen (root_device self.old))) }
        ensures unsound { IsErrOf result ReadFault.Damaged → IsTrue (D.is_honest (root_device self.new))
            → (all_sound (frames (part place len (D.seen (root_device self.old)))) ≡ false) ⊎ (ends_with behind (part place len (D.seen (root_device self.old))) ≡ false) }
        ensures seen { D.seen (root_device self.new) ≡ D.seen (root_device self.old) }
        ensures any_moment { LeavesOnly D.moment D.left_since (root_device self.old) (root_device self.new)
            (λ c. c ≡ D.seen (root_device self.old)) }
        ensures keeps { D.keeps (root_device self.old) (root_device self.new) }
        ensures honest { IsTrue (D.is_honest (root_device self.new)) → IsTrue (D.is_honest (root_device self.old)) }
        ensures failed { IsErrOf result ReadFault.Failed → D.faults (root_device self.old) < D.faults (root_device self.new) }
        ensures later { D.faults (root_device self.old) ≤ D.faults (root_device self.new) }
    {
        let _len = self.log.device.device.len();
        let (start, half) = (self.log.device.start, self.log.device.len);
        self.log.device.len = 0;
        self.log.device.start = place;
        self.log.device.len = len;
        let done = read_log(alloc, &mut self.log.device, behind, at, text);
        self.log.device.len = 0;
        self.log.device.start = start;
        self.log.device.len = half;
        done
    }
}

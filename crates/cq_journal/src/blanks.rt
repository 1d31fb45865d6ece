//! How a region behind a root loses its records.
ghost use Rattle.std.specs.Prelude.{◌≡◌, ◌+◌, ◌≤◌, length, replicate, IsTrue, OnOk};
ghost use Rattle.cq_disk.specs.Device.{LeavesOnly, HasCause};
ghost use Rattle.cq_disk.specs.Region.{part, Beside};
ghost use Rattle.cq_journal.specs.Root.{root_half, root_device, root_number, IsRoot, HasHalves};

use crate::Root;
use cq_disk::{Device, DeviceFault};
use cq_records::blank;

impl<D: Device> Root<D> {
    /// Writes zeros over the region of this length at this place. The root is the same, and so is all beside the region,
    /// at each moment. It takes time in proportion to the length.
    pub(crate) fn blank_at(&mut self, place: usize, len: usize) -> Result<(), DeviceFault>
        requires root { IsRoot self.old }
        requires behind { root_half self.old + root_half self.old ≤ place }
        requires within { place + len ≤ length (D.seen (root_device self.old)) }

        ensures root { OnOk result (IsRoot self.new) }
        ensures halves { HasHalves self.new }
        ensures half { root_half self.new ≡ root_half self.old }
        ensures number { root_number self.new ≡ root_number self.old }
        ensures zeros { OnOk result (part place len (D.seen (root_device self.new)) ≡ replicate len 0) }
        ensures length { length (D.seen (root_device self.new)) ≡ length (D.seen (root_device self.old)) }
        ensures beside { Beside place len (D.seen (root_device self.old)) (D.seen (root_device self.new)) }
        ensures any_moment { LeavesOnly D.moment D.left_since (root_device self.old) (root_device self.new)
            (Beside place len (D.seen (root_device self.old))) }
        ensures keeps { D.keeps (root_device self.old) (root_device self.new) }
        ensures honest { IsTrue (D.is_honest (root_device self.new)) → IsTrue (D.is_honest (root_device self.old)) }
        ensures cause { HasCause (D.faults (root_device self.old)) (D.faults (root_device self.new)) result }
    {
        let _len = self.log.device.device.len();
        let (start, half) = (self.log.device.start, self.log.device.len);
        self.log.device.len = 0;
        self.log.device.start = place;
        self.log.device.len = len;
        let done = blank(&mut self.log.device);
        self.log.device.len = 0;
        self.log.device.start = start;
        self.log.device.len = half;
        done
    }

    /// Puts on the medium what a call that failed has left, which may be a write for which there was no space. The root is the
    /// same.
    pub(crate) fn settle(&mut self) -> Result<(), DeviceFault>
        requires { HasHalves self.old }

        ensures root { OnOk result (IsRoot self.new) }
        ensures half { root_half self.new ≡ root_half self.old }
        ensures number { root_number self.new ≡ root_number self.old }
        ensures seen { D.seen (root_device self.new) ≡ D.seen (root_device self.old) }
        ensures any_moment { LeavesOnly D.moment D.left_since (root_device self.old) (root_device self.new) (D.may_leave (root_device self.old)) }
        ensures honest { D.is_honest (root_device self.new) ≡ D.is_honest (root_device self.old) }
        ensures cause { HasCause (D.faults (root_device self.old)) (D.faults (root_device self.new)) result }
    {
        self.log.device.device.sync()
    }
}

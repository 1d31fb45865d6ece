//! How what is read of a device gets onto its medium.
ghost use Rattle.std.specs.Prelude.{◌≡◌, ◌+◌, ◌≤◌, length, IsTrue, OnOk};
ghost use Rattle.cq_disk.specs.declared.device.TornWrites.TheVariants.{OldOrNew};
ghost use Rattle.cq_disk.specs.Device.{Only, LeavesOnly, HasCause};
ghost use Rattle.cq_disk.specs.Region.{part};
ghost use Rattle.cq_journal.specs.within.Refreshed.{IsRefreshed};

use cq_disk::{Device, DeviceFault};
use std::alloc::Global;

/// Writes the bytes of a range over themselves, and syncs them: where the system takes them for written and the medium has
/// others, it has them then. A crash at any moment leaves what it might have left before, or that with bytes of the range as
/// they are read. It takes memory for the range.
pub(crate) fn refresh<D: Device>(
    alloc: Global,
    device: &mut D,
    at: usize,
    len: usize,
) -> Result<(), DeviceFault>
    requires within { at + len ≤ length (D.seen device.old) }
    requires torn { D.torn device.old ≡ OldOrNew }

    ensures seen { IsTrue (D.is_honest device.new) → D.seen device.new ≡ D.seen device.old }
    ensures length { length (D.seen device.new) ≡ length (D.seen device.old) }
    ensures durable { OnOk result (Only (D.seen device.new) (D.may_leave device.new)) }
    ensures any_moment { IsTrue (D.is_honest device.new) → LeavesOnly D.moment D.left_since device.old device.new
        (IsRefreshed (D.may_leave device.old) at (part at len (D.seen device.old))) }
    ensures honest { IsTrue (D.is_honest device.new) → IsTrue (D.is_honest device.old) }
    ensures cause { HasCause (D.faults device.old) (D.faults device.new) result }
{
    let mut bytes = vec![in alloc; 0u8; len]?;
    device.read_at(at, &mut bytes)?;
    device.write_at(at, &bytes)?;
    device.sync()
}

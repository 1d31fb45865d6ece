//! How a device loses its records.
ghost use Rattle.std.specs.Prelude.{◌≡◌, ◌≢◌, ◌⊎◌, ◌<◌, [], length, replicate, slice_index, IsTrue, OnOk};
ghost use Rattle.cq_disk.specs.Device.{Only, LeavesOnly, HasCause};
ghost use Rattle.cq_records.specs.Frames.{frames};
ghost use Rattle.cq_records.specs.within.Blanks.{HasZerosBehind};

use cq_disk::{Device, DeviceFault};

/// Writes zeros over a whole device, and syncs it. A crash leaves what was there, or no records, whatever a torn
/// write leaves: the first gate is shut before anything else is written. It takes time in proportion to the length.
pub fn blank<D: Device>(device: &mut D) -> Result<(), DeviceFault>
    requires { Only (D.seen device.old) (D.may_leave device.old) }

    ensures zeros { OnOk result (D.seen device.new ≡ replicate (length (D.seen device.old)) 0) }
    ensures durable { OnOk result (Only (D.seen device.new) (D.may_leave device.new)) }
    ensures any_moment { IsTrue (D.is_honest device.new) → LeavesOnly D.moment D.left_since device.old device.new
        (λ c. (frames c ≡ []) ⊎ (c ≡ D.seen device.old)) }
    ensures honest { IsTrue (D.is_honest device.new) → IsTrue (D.is_honest device.old) }
    ensures keeps { D.keeps device.old device.new }
    ensures cause { HasCause (D.faults device.old) (D.faults device.new) result }
{
    if device.len() == 0 {
        return Ok(());
    }
    shut(device)?;
    write_zeros(device)?;
    device.write_at(0, &[0])?;
    device.sync()
}

/// Shuts the first gate. No record begins with it any more.
fn shut<D: Device>(device: &mut D) -> Result<(), DeviceFault>
    requires durable { Only (D.seen device.old) (D.may_leave device.old) }
    requires some { 0 < length (D.seen device.old) }

    ensures shut { OnOk result (IsTrue (D.is_honest device.new) → slice_index (D.seen device.new) 0 ≢ 2) }
    ensures length { length (D.seen device.new) ≡ length (D.seen device.old) }
    ensures durable { OnOk result (Only (D.seen device.new) (D.may_leave device.new)) }
    ensures any_moment { IsTrue (D.is_honest device.new) → LeavesOnly D.moment D.left_since device.old device.new
        (λ c. (frames c ≡ []) ⊎ (c ≡ D.seen device.old)) }
    ensures honest { IsTrue (D.is_honest device.new) → IsTrue (D.is_honest device.old) }
    ensures keeps { D.keeps device.old device.new }
    ensures cause { HasCause (D.faults device.old) (D.faults device.new) result }
{
    let mut gate = [0];
    device.read_at(0, &mut gate)?;
    if gate[0] != 2 {
        return Ok(());
    }
    device.write_at(0, &[0])?;
    device.sync()
}

/// Writes zeros over all but the first byte, and syncs.
fn write_zeros<D: Device>(device: &mut D) -> Result<(), DeviceFault>
    requires durable { Only (D.seen device.old) (D.may_leave device.old) }
    requires some { 0 < length (D.seen device.old) }

    ensures zeros { OnOk result (HasZerosBehind (D.seen device.old) (D.seen device.new)) }
    ensures length { length (D.seen device.new) ≡ length (D.seen device.old) }
    ensures durable { OnOk result (Only (D.seen device.new) (D.may_leave device.new)) }
    ensures any_moment { slice_index (D.seen device.old) 0 ≢ 2 → LeavesOnly D.moment D.left_since device.old device.new (λ c. frames c ≡ []) }
    ensures honest { D.is_honest device.new ≡ D.is_honest device.old }
    ensures keeps { D.keeps device.old device.new }
    ensures cause { HasCause (D.faults device.old) (D.faults device.new) result }
{
    let len = device.len();
    let zeros = [0; 4096];
    let mut done = 1;
    while done < len {
        let many = (len - done).min(zeros.len());
        device.write_at(done, &zeros[..many])?;
        done += many;
    }
    device.sync()
}

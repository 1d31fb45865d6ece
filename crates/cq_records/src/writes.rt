//! How a batch gets onto the medium.
ghost use Rattle.std.specs.Prelude.{◌≡◌, ◌+◌, ◌^◌, ◌<◌, ◌≤◌, ◌++◌, length, replicate, OnOk};
ghost use Rattle.cq_disk.specs.declared.device.TornWrites.TheVariants.{OldOrNew, Any};
ghost use Rattle.cq_disk.specs.Device.{Only, LeavesOnly, HasCause};
ghost use Rattle.cq_records.specs.within.Batches.{IsBatch};
ghost use Rattle.cq_records.specs.Frames.{frames};
ghost use Rattle.cq_records.specs.Layout.{IsLog, IsPrefixOf};

use cq_disk::{Device, DeviceFault};

/// One write over zeros, and one sync. Of a torn write each byte is zero or the batch's, so the first frame that
/// isn't whole has a zero.
pub(crate) fn write_at_once<D: Device>(
    device: &mut D,
    end: usize,
    batch: &[u8],
) -> Result<(), DeviceFault>
    requires log { IsLog (D.seen device.old) end }
    requires durable { Only (D.seen device.old) (D.may_leave device.old) }
    requires batch { IsBatch batch.now }
    requires room { end + length batch.now ≤ length (D.seen device.old) }
    requires torn { D.torn device.old ≡ OldOrNew }

    ensures log { OnOk result (IsLog (D.seen device.new) (end + length batch.now)) }
    ensures durable { OnOk result (Only (D.seen device.new) (D.may_leave device.new)) }
    ensures frames { OnOk result (frames (D.seen device.new) ≡ frames (D.seen device.old) ++ frames batch.now) }
    ensures any_moment { LeavesOnly D.moment D.left_since device.old device.new (IsPrefixOf (D.torn device.old) (frames (D.seen device.old)) (frames batch.now)) }
    ensures honest { D.is_honest device.new ≡ D.is_honest device.old }
    ensures keeps { D.keeps device.old device.new }
    ensures cause { HasCause (D.faults device.old) (D.faults device.new) result }
{
    device.write_at(end, batch)?;
    device.sync()
}

/// The first gate of the batch stays zero until all behind it is on the medium. So whatever bytes a torn write
/// leaves, they count for nothing or for the whole batch.
pub(crate) fn write_then_open<D: Device>(
    device: &mut D,
    end: usize,
    batch: &[u8],
) -> Result<(), DeviceFault>
    requires log { IsLog (D.seen device.old) end }
    requires durable { Only (D.seen device.old) (D.may_leave device.old) }
    requires batch { IsBatch batch.now }
    requires room { end + length batch.now ≤ length (D.seen device.old) }
    requires short { length (D.seen device.old) < 2 ^ 64 }
    requires torn { D.torn device.old ≡ Any }

    ensures log { OnOk result (IsLog (D.seen device.new) (end + length batch.now)) }
    ensures durable { OnOk result (Only (D.seen device.new) (D.may_leave device.new)) }
    ensures frames { OnOk result (frames (D.seen device.new) ≡ frames (D.seen device.old) ++ frames batch.now) }
    ensures any_moment { LeavesOnly D.moment D.left_since device.old device.new (IsPrefixOf (D.torn device.old) (frames (D.seen device.old)) (frames batch.now)) }
    ensures honest { D.is_honest device.new ≡ D.is_honest device.old }
    ensures keeps { D.keeps device.old device.new }
    ensures cause { HasCause (D.faults device.old) (D.faults device.new) result }
{
    if batch.is_empty() {
        return Ok(());
    }
    device.write_at(end + 1, &batch[1..])?;
    device.sync()?;
    device.write_at(end, &batch[..1])?;
    device.sync()
}

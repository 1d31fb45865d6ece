//! What the definitions say, row by row, and what follows from the contracts.
ghost use Rattle.std.specs.Prelude.{◌≡◌, true};
ghost use Rattle.cq_disk.specs.declared.device.TornWrites.TheVariants.{OldOrNew};
ghost use Rattle.cq_disk.specs.Device.{LeavesOnly};
ghost use Rattle.cq_records.specs.declared.behind.Behind.TheVariants.{TornBatch};
ghost use Rattle.cq_records.specs.Frames.{frames, all_sound, ends_with};
ghost use Rattle.cq_records.specs.Logs.{IsSettled};
ghost use Rattle.cq_records.specs.Outcomes.{ChangesAlone, NoneDamaged};
ghost use Rattle.cq_records.specs.Examples.{Examples};

use crate::{Batch, Log, LogFault};
use cq_disk::Device;

/// What bytes of a log stand for.
pub fn bytes_stand_for()
    ensures { Examples }
{}

/// A commit in a part of a device leaves at each moment a part that has so many of the batch's records behind those
/// from before, and all beside it.
pub fn a_part_changes_alone<D: Device>(_old: &D, _new: &D)
    ensures { ChangesAlone D.moment D.left_since D.may_leave D.keeps D.seen _old.now _new.now }
{}

/// What a crash in a commit leaves is never taken for damage.
pub fn no_outcome_is_damaged()
    ensures { NoneDamaged }
{}

/// A commit in a log. A crash at any moment of it leaves bytes of which no reader of records says that they are damaged, also where it takes
/// whatever a torn batch doesn't leave for damage.
pub fn a_commit_leaves_no_damage<D: Device>(log: &mut Log<D>, batch: &Batch) -> Result<(), LogFault>
    requires { IsSettled D.seen D.may_leave log.old }
    ensures { LeavesOnly D.moment D.left_since log.old.device log.new.device
        (λ c. (all_sound (frames c) ≡ true) × (D.torn log.old.device ≡ OldOrNew → ends_with TornBatch c ≡ true)) }
{
    log.commit(batch)
}

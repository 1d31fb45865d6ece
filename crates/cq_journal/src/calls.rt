//! The calls of a journal as the changes of which its laws speak, and as calls that leave intact bytes.
ghost use Rattle.std.specs.Prelude.{◌≡◌, ◌+◌, ◌<◌, ◌≤◌, ℕ, length, Some, IsTrue, OnOk, IsErrOf};
ghost use Rattle.cq_records.specs.Batch.{batch_bytes};
ghost use Rattle.cq_records.specs.Frames.{records};
ghost use Rattle.cq_journal.specs.Base.{IsBase, base_records};
ghost use Rattle.cq_journal.specs.Changes.{adds, replaces, rests};
ghost use Rattle.cq_journal.specs.Histories.{Tries, Makes, OpensTo};
ghost use Rattle.cq_journal.specs.Intact.{IsIntact};
ghost use Rattle.cq_journal.specs.Journal.{HasRegions, IsJournal, journal_device, journal_half, journal_records, journal_regions, region_len};
ghost use Rattle.cq_journal.specs.Refusals.{GoesOn, LeavesWhole, OpensIntact};
ghost use Rattle.cq_journal.specs.Regions.{kept};

use crate::{Base, Found, Journal, OpenFault, RegionFault, read_root};
use cq_disk::{Device, Region};
use cq_records::{Batch, LogFault, ReadFault};
use std::alloc::Global;

/// A commit adds the records of its batch.
pub fn commit_adds<D: Device>(journal: &mut Journal<D>, batch: &Batch) -> Result<(), LogFault>
    requires { IsJournal journal.old }
    ensures tries { Tries (adds (records (batch_bytes batch.now))) journal.old journal.new }
    ensures makes { OnOk result (Makes (adds (records (batch_bytes batch.now))) journal.old journal.new) }
    ensures leaves { LeavesWhole journal.old journal.new }
    ensures goes_on { OnOk result (GoesOn journal.old journal.new) }
    ensures full { IsErrOf result LogFault.Full → GoesOn journal.old journal.new }
{
    journal.commit(batch)
}

/// So does one that goes on in the next region where it has to.
pub fn append_adds<D: Device>(
    journal: &mut Journal<D>,
    alloc: Global,
    batch: &Batch,
) -> Result<(), LogFault>
    requires { IsJournal journal.old }
    ensures tries { Tries (adds (records (batch_bytes batch.now))) journal.old journal.new }
    ensures makes { OnOk result (Makes (adds (records (batch_bytes batch.now))) journal.old journal.new) }
    ensures leaves { LeavesWhole journal.old journal.new }
    ensures goes_on { OnOk result (GoesOn journal.old journal.new) }
    ensures full { IsErrOf result LogFault.Full → GoesOn journal.old journal.new }
{
    journal.append(alloc, batch)
}

/// What is read of a region changes no record.
pub fn read_region_rests<D: Device>(
    journal: &mut Journal<D>,
    alloc: Global,
    index: usize,
    text: &mut Vec<u8>,
) -> Result<usize, RegionFault>
    requires journal { IsJournal journal.old }
    requires index { index < length (journal_regions journal.old) }
    ensures tries { Tries rests journal.old journal.new }
    ensures makes { Makes rests journal.old journal.new }
    ensures leaves { LeavesWhole journal.old journal.new }
    ensures goes_on { GoesOn journal.old journal.new }
{
    journal.read_region(alloc, index, text)
}

/// Growth changes no record.
pub fn next_region_rests<D: Device>(
    journal: &mut Journal<D>,
    alloc: Global,
    place: usize,
) -> Result<(), LogFault>
    requires { IsJournal journal.old }
    ensures tries { Tries rests journal.old journal.new }
    ensures makes { OnOk result (Makes rests journal.old journal.new) }
    ensures leaves { LeavesWhole journal.old journal.new }
    ensures goes_on { OnOk result (GoesOn journal.old journal.new) }
    ensures full { IsErrOf result LogFault.Full → GoesOn journal.old journal.new }
{
    journal.next_region(alloc, place)
}

/// The begin of a base changes no record.
pub fn begin_base_rests<D: Device>(
    journal: &mut Journal<D>,
    alloc: Global,
) -> Result<Base, LogFault>
    requires { IsJournal journal.old }
    ensures tries { Tries rests journal.old journal.new }
    ensures makes { OnOk result (Makes rests journal.old journal.new) }
    ensures leaves { LeavesWhole journal.old journal.new }
    ensures goes_on { GoesOn journal.old journal.new }
{
    journal.begin_base(alloc)
}

/// What is added to a base changes no record of the journal.
pub fn add_to_base_rests<D: Device>(
    journal: &mut Journal<D>,
    base: &mut Base,
    batch: &Batch,
) -> Result<(), LogFault>
    requires journal { IsJournal journal.old }
    requires base { IsBase journal.old base.old }
    ensures tries { Tries rests journal.old journal.new }
    ensures makes { OnOk result (Makes rests journal.old journal.new) }
    ensures leaves { LeavesWhole journal.old journal.new }
    ensures goes_on { GoesOn journal.old journal.new }
{
    journal.add_to_base(base, batch)
}

/// One more region of a base changes no record of the journal.
pub fn widen_base_rests<D: Device>(
    journal: &mut Journal<D>,
    alloc: Global,
    base: &mut Base,
) -> Result<(), LogFault>
    requires journal { IsJournal journal.old }
    requires base { IsBase journal.old base.old }
    ensures tries { Tries rests journal.old journal.new }
    ensures makes { OnOk result (Makes rests journal.old journal.new) }
    ensures leaves { LeavesWhole journal.old journal.new }
    ensures goes_on { GoesOn journal.old journal.new }
{
    journal.widen_base(alloc, base)
}

/// A rewrite puts the records of its base in the place of all.
pub fn rewrite_replaces<D: Device>(
    journal: &mut Journal<D>,
    alloc: Global,
    base: Base,
) -> Result<(), LogFault>
    requires journal { IsJournal journal.old }
    requires base { IsBase journal.old base }
    ensures tries { Tries (replaces (base_records journal.old base)) journal.old journal.new }
    ensures makes { OnOk result (Makes (replaces (base_records journal.old base)) journal.old journal.new) }
    ensures leaves { LeavesWhole journal.old journal.new }
    ensures goes_on { OnOk result (GoesOn journal.old journal.new) }
    ensures full { IsErrOf result LogFault.Full → GoesOn journal.old journal.new }
{
    journal.rewrite(alloc, base)
}

/// A recovery changes no record. Where the journal was found on a device, it is part of that one's opening.
pub fn recover_rests<D: Device>(journal: &mut Journal<D>, alloc: Global) -> Result<(), OpenFault>
    requires { HasRegions journal.old }
    ensures tries { Tries rests journal.old journal.new }
    ensures makes { OnOk result (Makes rests journal.old journal.new) }
    ensures opens { (first : D) → OpensTo D.moment D.left_since D.may_leave D.seen (journal_half journal.old) (region_len journal.old) first (journal_device journal.old)
        → kept (journal_half journal.old) (region_len journal.old) (D.seen first) ≡ Some (journal_records journal.old) → IsTrue (D.is_honest (journal_device journal.new))
        → OpensTo D.moment D.left_since D.may_leave D.seen (journal_half journal.old) (region_len journal.old) first (journal_device journal.new) }
    ensures leaves { LeavesWhole journal.old journal.new }
    ensures goes_on { OnOk result (GoesOn journal.old journal.new) }
    ensures opens_intact { (first : D) → OpensIntact D.moment D.left_since D.may_leave D.seen (journal_half journal.old) (region_len journal.old) first (journal_device journal.old)
        → (IsIntact (journal_half journal.old) (region_len journal.old) (D.seen first) → IsIntact (journal_half journal.old) (region_len journal.old) (D.seen (journal_device journal.old))) → IsTrue (D.is_honest (journal_device journal.new))
        → OpensIntact D.moment D.left_since D.may_leave D.seen (journal_half journal.old) (region_len journal.old) first (journal_device journal.new) }
{
    journal.recover(alloc)
}

/// The search for the root is the first part of an opening.
pub fn read_root_opens<D: Device>(
    alloc: Global,
    region: &mut Region<D>,
) -> Result<Option<Found>, ReadFault>
    requires start { region.old.start ≡ 0 }
    requires room { region.old.len + region.old.len ≤ length (D.seen region.old.device) }
    ensures opens { (len : ℕ) → IsTrue (D.is_honest region.new.device) → OpensTo D.moment D.left_since D.may_leave D.seen region.old.len len region.old.device region.new.device }
    ensures opens_intact { (len : ℕ) → IsTrue (D.is_honest region.new.device) → OpensIntact D.moment D.left_since D.may_leave D.seen region.old.len len region.old.device region.new.device }
{
    read_root(alloc, region)
}

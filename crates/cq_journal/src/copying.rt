//! How the records of a journal get into another one.
ghost use Rattle.std.specs.Prelude.{◌≡◌, ◌⊎◌, ◌++◌, ◌+◌, ◌<◌, ◌≤◌, [], ◌∷◌, length, IsTrue, OnOk, IsErrOf};
ghost use Rattle.cq_disk.specs.Device.{LeavesOnly};
ghost use Rattle.cq_disk.specs.Region.{part};
ghost use Rattle.cq_records.specs.Frames.{records};
ghost use Rattle.cq_journal.specs.Base.{HasEitherRecords};
ghost use Rattle.cq_journal.specs.Regions.{HasRecords, records_at};

use crate::places::behind_of;
use crate::{Base, Journal, OpenFault};
use cq_disk::Device;
use cq_records::{Batch, Behind};
use std::alloc::Global;

impl<D: Device> Journal<D> {
    ghost use Rattle.cq_journal.specs.Base.{IsBase, base_records};
    ghost use Rattle.cq_journal.specs.Intact.{LeavesIntact, StaysIntact};
    ghost use Rattle.cq_journal.specs.Journal.{HasRegions, IsJournal, StaysJournal, journal_device, journal_half, journal_records, region_len};
    ghost use Rattle.cq_journal.specs.Rests.{Rests};
    ghost use Rattle.cq_journal.specs.within.Reads.{IsRead, closed_places};

    /// Puts this journal's records in the place of another one's, which is on another device. This journal is the same, at each
    /// moment, and needn't be ready for records; a crash at any moment leaves the other one with the records from before, or with all of this one's. `Full`: the other
    /// one has too few free regions, or they are too short; both journals have the records from before. After another fault both are
    /// to be opened anew. It takes memory for the records of a region, and time in proportion to all regions.
    pub fn copy_into<E: Device>(
        &mut self,
        alloc: Global,
        to: &mut Journal<E>,
    ) -> Result<(), OpenFault>
        requires has_regions { HasRegions self.old }
        requires there { IsJournal to.old }

        ensures journal { OnOk result (StaysJournal self.old self.new) }
        ensures rests { Rests self.old self.new }
        ensures there { OnOk result (IsJournal to.new) }
        ensures lengths { OnOk result ((journal_half to.new ≡ journal_half to.old) × (region_len to.new ≡ region_len to.old)) }
        ensures copied { OnOk result (IsTrue (D.is_honest (journal_device self.new)) → journal_records to.new ≡ journal_records self.old) }
        ensures any_moment { IsTrue (D.is_honest (journal_device self.new)) → IsTrue (E.is_honest (journal_device to.new))
            → LeavesOnly E.moment E.left_since (journal_device to.old) (journal_device to.new) (HasEitherRecords (journal_half to.old) (region_len to.old) (journal_records to.old) (journal_records self.old)) }
        ensures intact { LeavesIntact to.old to.new }
        ensures stays { OnOk result (StaysIntact to.old to.new) }
        ensures honest { IsTrue (E.is_honest (journal_device to.new)) → IsTrue (E.is_honest (journal_device to.old)) }
        ensures full { IsErrOf result OpenFault.Full → StaysJournal self.old self.new }
        ensures full_there { IsErrOf result OpenFault.Full → IsJournal to.new × (journal_records to.new ≡ journal_records to.old) }
        ensures failed { IsErrOf result OpenFault.Failed → (D.faults (journal_device self.old) < D.faults (journal_device self.new)) ⊎ (E.faults (journal_device to.old) < E.faults (journal_device to.new)) }
    {
        let mut base = to.begin_base(alloc)?;
        self.copy_to_base(alloc, to, &mut base)?;
        to.rewrite(alloc, base)?;
        Ok(())
    }

    /// Adds the records of all regions to a base of another journal, each region's into one of its own. This journal is the same, at each
    /// moment, and needn't be ready for records; the other one has the records from before, also after a crash. `Full`: it has too few
    /// free regions, or they are too short, and goes on. It takes memory for the records of a region.
    pub fn copy_to_base<E: Device>(
        &mut self,
        alloc: Global,
        to: &mut Journal<E>,
        base: &mut Base,
    ) -> Result<(), OpenFault>
        requires has_regions { HasRegions self.old }
        requires there { IsJournal to.old }
        requires base { IsBase to.old base.old }

        ensures journal { OnOk result (StaysJournal self.old self.new) }
        ensures rests { Rests self.old self.new }
        ensures there { OnOk result (IsJournal to.new) }
        ensures base { OnOk result (IsBase to.new base.new) }
        ensures rests_there { Rests to.old to.new }
        ensures copied { OnOk result (IsTrue (D.is_honest (journal_device self.new)) → base_records to.new base.new ≡ base_records to.old base.old ++ journal_records self.old) }
        ensures full { IsErrOf result OpenFault.Full → StaysJournal self.old self.new }
        ensures full_there { IsErrOf result OpenFault.Full → IsJournal to.new }
        ensures failed { IsErrOf result OpenFault.Failed → (D.faults (journal_device self.old) < D.faults (journal_device self.new)) ⊎ (E.faults (journal_device to.old) < E.faults (journal_device to.new)) }
    {
        self.copy_closed(alloc, to, base)?;
        let (place, behind) = (self.growing, behind_of(self.torn));
        self.copy_region(alloc, place, behind, to, base)
    }

    /// Adds the records of the regions that don't grow.
    fn copy_closed<E: Device>(
        &mut self,
        alloc: Global,
        to: &mut Journal<E>,
        base: &mut Base,
    ) -> Result<(), OpenFault>
        requires has_regions { HasRegions self.old }
        requires there { IsJournal to.old }
        requires base { IsBase to.old base.old }

        ensures read { OnOk result (IsRead self.old self.new) }
        ensures journal { OnOk result (StaysJournal self.old self.new) }
        ensures rests { Rests self.old self.new }
        ensures there { OnOk result (IsJournal to.new) }
        ensures base { OnOk result (IsBase to.new base.new) }
        ensures rests_there { Rests to.old to.new }
        ensures copied { OnOk result (IsTrue (D.is_honest (journal_device self.new)) → base_records to.new base.new ≡ base_records to.old base.old ++ records_at (region_len self.old) (closed_places self.old) (D.seen (journal_device self.old))) }
        ensures full { IsErrOf result OpenFault.Full → StaysJournal self.old self.new }
        ensures full_there { IsErrOf result OpenFault.Full → IsJournal to.new }
        ensures failed { IsErrOf result OpenFault.Failed → (D.faults (journal_device self.old) < D.faults (journal_device self.new)) ⊎ (E.faults (journal_device to.old) < E.faults (journal_device to.new)) }
    {
        let mut at = 0;
        while at < self.closed.len() {
            let place = self.closed[at] as usize;
            self.copy_region(alloc, place, Behind::Zeros, to, base)?;
            to.widen_base(alloc, base)?;
            at += 1;
        }
        Ok(())
    }

    /// Adds the records of the region at this place, the last one as a batch of its own.
    fn copy_region<E: Device>(
        &mut self,
        alloc: Global,
        place: usize,
        behind: Behind,
        to: &mut Journal<E>,
        base: &mut Base,
    ) -> Result<(), OpenFault>
        requires has_regions { HasRegions self.old }
        requires within { place + region_len self.old ≤ length (D.seen (journal_device self.old)) }
        requires there { IsJournal to.old }
        requires base { IsBase to.old base.old }

        ensures read { IsRead self.old self.new }
        ensures journal { OnOk result (StaysJournal self.old self.new) }
        ensures rests { Rests self.old self.new }
        ensures there { OnOk result (IsJournal to.new) }
        ensures base { OnOk result (IsBase to.new base.new) }
        ensures rests_there { Rests to.old to.new }
        ensures copied { OnOk result (IsTrue (D.is_honest (journal_device self.new)) → base_records to.new base.new ≡ base_records to.old base.old ++ records (part place (region_len self.old) (D.seen (journal_device self.old)))) }
        ensures full { IsErrOf result OpenFault.Full → StaysJournal self.old self.new }
        ensures full_there { IsErrOf result OpenFault.Full → IsJournal to.new }
        ensures failed { IsErrOf result OpenFault.Failed → (D.faults (journal_device self.old) < D.faults (journal_device self.new)) ⊎ (E.faults (journal_device to.old) < E.faults (journal_device to.new)) }
    {
        let mut batch = Batch::new(alloc);
        self.root
            .read_at(alloc, place, self.len, behind, &mut batch)?;
        let last = batch.split_last(alloc)?;
        to.add_to_base(base, &batch)?;
        to.add_to_base(base, &last)?;
        Ok(())
    }
}

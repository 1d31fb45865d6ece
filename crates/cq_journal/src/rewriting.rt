//! How a journal gets a new base: other records in the place of all that it has.
ghost use Rattle.std.specs.Prelude.{◌≡◌, ◌++◌, ◌+◌, ◌<◌, ◌≤◌, [], true, IsTrue, IfOk, IfSome, OnOk, IsErrOf};
ghost use Rattle.cq_disk.specs.Device.{LeavesOnly};
ghost use Rattle.cq_records.specs.Batch.{batch_bytes};
ghost use Rattle.cq_records.specs.Frames.{records};
ghost use Rattle.cq_journal.specs.Base.{HasEitherRecords};
ghost use Rattle.cq_journal.specs.Regions.{Each, HasRecords};

use crate::places::{are_apart, is_apart, text_of, with_growing};
use crate::{Base, Journal, REGION_LIMIT};
use cq_disk::Device;
use cq_records::{Batch, LogFault};
use std::alloc::Global;

impl<D: Device> Journal<D> {
    ghost use Rattle.cq_journal.specs.Base.{IsBase, base_records};
    ghost use Rattle.cq_journal.specs.Intact.{LeavesIntact, StaysIntact};
    ghost use Rattle.cq_journal.specs.Journal.{HasRegions, IsJournal, IsFree, journal_device, journal_half, journal_places, journal_records, region_len};
    ghost use Rattle.cq_journal.specs.within.FreeBeside.{IsFreeBeside};

    /// Begins a base without records, in a free region. The journal is the same, at each moment. `Full`: no region is free,
    /// or the device has no space for one; the journal goes on. After another fault it is to be opened anew. It takes time in
    /// proportion to the length of a region.
    pub fn begin_base(&mut self, alloc: Global) -> Result<Base, LogFault>
        requires { IsJournal self.old }

        ensures journal { OnOk result (IsJournal self.new) }
        ensures lengths { (journal_half self.new ≡ journal_half self.old) × (region_len self.new ≡ region_len self.old) }
        ensures records { journal_records self.new ≡ journal_records self.old }
        ensures base { IfOk result (λ base. IsBase self.new base) }
        ensures empty { IfOk result (λ base. base_records self.new base ≡ []) }
        ensures any_moment { IsTrue (D.is_honest (journal_device self.new)) → LeavesOnly D.moment D.left_since (journal_device self.old) (journal_device self.new)
            (HasRecords (journal_half self.old) (region_len self.old) (journal_records self.old)) }
        ensures intact { LeavesIntact self.old self.new }
        ensures stays { StaysIntact self.old self.new }
        ensures honest { IsTrue (D.is_honest (journal_device self.new)) → IsTrue (D.is_honest (journal_device self.old)) }
        ensures full { IsErrOf result LogFault.Full → IsJournal self.new }
        ensures failed { IsErrOf result LogFault.Failed → D.faults (journal_device self.old) < D.faults (journal_device self.new) }
        ensures later { D.faults (journal_device self.old) ≤ D.faults (journal_device self.new) }
    {
        let Some(place) = self.free_region() else {
            return Err(LogFault::Full);
        };
        self.clear_outside(place)?;
        Ok(Base {
            closed: Vec::new(alloc),
            growing: place,
            end: 0,
        })
    }

    /// Adds the records of a batch to a base, behind those that it has. The journal is the same, at each moment. `Full`: the base's
    /// region that grows has no room for them, and the base is the same too. After another fault the journal is to be opened
    /// anew.
    pub fn add_to_base(&mut self, base: &mut Base, batch: &Batch) -> Result<(), LogFault>
        requires journal { IsJournal self.old }
        requires base { IsBase self.old base.old }

        ensures journal { OnOk result (IsJournal self.new) }
        ensures lengths { (journal_half self.new ≡ journal_half self.old) × (region_len self.new ≡ region_len self.old) }
        ensures records { journal_records self.new ≡ journal_records self.old }
        ensures base { OnOk result (IsBase self.new base.new) }
        ensures added { OnOk result (base_records self.new base.new ≡ base_records self.old base.old ++ records (batch_bytes batch.now)) }
        ensures any_moment { IsTrue (D.is_honest (journal_device self.new)) → LeavesOnly D.moment D.left_since (journal_device self.old) (journal_device self.new)
            (HasRecords (journal_half self.old) (region_len self.old) (journal_records self.old)) }
        ensures intact { LeavesIntact self.old self.new }
        ensures stays { StaysIntact self.old self.new }
        ensures honest { IsTrue (D.is_honest (journal_device self.new)) → IsTrue (D.is_honest (journal_device self.old)) }
        ensures full { IsErrOf result LogFault.Full → IsJournal self.new × IsBase self.new base.new × (base_records self.new base.new ≡ base_records self.old base.old) }
        ensures failed { IsErrOf result LogFault.Failed → D.faults (journal_device self.old) < D.faults (journal_device self.new) }
        ensures later { D.faults (journal_device self.old) ≤ D.faults (journal_device self.new) }
    {
        let done = self.commit_outside(base.growing, base.end, batch);
        base.end = self.root.log.end;
        done
    }

    /// Whether a region at this place is free, and is apart from a base's regions too: O(regions).
    fn is_free_beside(&self, base: &Base, place: usize) -> bool
        requires { HasRegions self.now }
        ensures { result ≡ true → IsFreeBeside self.now base.now place }
    {
        if base.closed.len() + 2 >= REGION_LIMIT {
            return false;
        }
        if !self.is_free(place) {
            return false;
        }
        is_apart(self.len, base.growing, place) && are_apart(self.len, &base.closed, place)
    }

    /// The first free region behind the root that is apart from a base's regions too, in steps of a region's length. `None`: there
    /// is none.
    fn free_beside(&self, base: &Base) -> Option<usize>
        requires { HasRegions self.now }
        ensures { IfSome result (λ place. IsFreeBeside self.now base.now place) }
    {
        let half = self.root.log.device.len;
        let whole = self.root.log.device.device.len();
        let mut place = half + half;
        while self.len > 0 && place <= whole && whole - place >= self.len {
            if self.is_free_beside(base, place) {
                return Some(place);
            }
            place += self.len;
        }
        None
    }

    /// Has a base go on in one more region, which is free: records are added there from then on. The journal is the same, at each
    /// moment, and the base has the same records. `Full`: no region is free, or the device has no space for one; the journal
    /// and the base go on as they are. After another fault the journal is to be opened anew. It takes time in proportion to the length of a region.
    pub fn widen_base(&mut self, alloc: Global, base: &mut Base) -> Result<(), LogFault>
        requires journal { IsJournal self.old }
        requires base { IsBase self.old base.old }

        ensures journal { OnOk result (IsJournal self.new) }
        ensures lengths { (journal_half self.new ≡ journal_half self.old) × (region_len self.new ≡ region_len self.old) }
        ensures records { journal_records self.new ≡ journal_records self.old }
        ensures base { OnOk result (IsBase self.new base.new) }
        ensures same { OnOk result (base_records self.new base.new ≡ base_records self.old base.old) }
        ensures any_moment { IsTrue (D.is_honest (journal_device self.new)) → LeavesOnly D.moment D.left_since (journal_device self.old) (journal_device self.new)
            (HasRecords (journal_half self.old) (region_len self.old) (journal_records self.old)) }
        ensures intact { LeavesIntact self.old self.new }
        ensures stays { StaysIntact self.old self.new }
        ensures honest { IsTrue (D.is_honest (journal_device self.new)) → IsTrue (D.is_honest (journal_device self.old)) }
        ensures full { IsErrOf result LogFault.Full → IsJournal self.new × IsBase self.new base.new × (base_records self.new base.new ≡ base_records self.old base.old) }
        ensures failed { IsErrOf result LogFault.Failed → D.faults (journal_device self.old) < D.faults (journal_device self.new) }
        ensures later { D.faults (journal_device self.old) ≤ D.faults (journal_device self.new) }
    {
        let Some(place) = self.free_beside(base) else {
            return Err(LogFault::Full);
        };
        let closed = with_growing(alloc, &base.closed, base.growing as u64)?;
        self.clear_outside(place)?;
        base.closed = closed;
        base.growing = place;
        base.end = 0;
        Ok(())
    }

    /// Puts a base in the place of all records: the root names its regions, and those from before are free. Records are added
    /// behind it from then on. A crash at any moment leaves the records from before, or those of the base. `Full`: the
    /// root has no room for so many regions; the journal is the same, and the base's regions are free. After another
    /// fault the journal is to be opened anew.
    pub fn rewrite(&mut self, alloc: Global, base: Base) -> Result<(), LogFault>
        requires journal { IsJournal self.old }
        requires base { IsBase self.old base }

        ensures journal { OnOk result (IsJournal self.new) }
        ensures lengths { OnOk result ((journal_half self.new ≡ journal_half self.old) × (region_len self.new ≡ region_len self.old)) }
        ensures rewritten { OnOk result (journal_records self.new ≡ base_records self.old base) }
        ensures freed { OnOk result (Each (λ place. IsFree self.new place) (journal_places self.old)) }
        ensures any_moment { IsTrue (D.is_honest (journal_device self.new)) → LeavesOnly D.moment D.left_since (journal_device self.old) (journal_device self.new)
            (HasEitherRecords (journal_half self.old) (region_len self.old) (journal_records self.old) (base_records self.old base)) }
        ensures intact { LeavesIntact self.old self.new }
        ensures stays { OnOk result (StaysIntact self.old self.new) }
        ensures honest { IsTrue (D.is_honest (journal_device self.new)) → IsTrue (D.is_honest (journal_device self.old)) }
        ensures full { IsErrOf result LogFault.Full → self.new ≡ self.old }
        ensures failed { IsErrOf result LogFault.Failed → D.faults (journal_device self.old) < D.faults (journal_device self.new) }
        ensures later { D.faults (journal_device self.old) ≤ D.faults (journal_device self.new) }
    {
        let Base {
            closed,
            growing,
            end,
        } = base;
        let torn = self.root.log.device.device.torn_writes();
        let text = text_of(alloc, torn, &closed, growing as u64)?;
        if !self.root.has_room(&text) {
            return Err(LogFault::Full);
        }
        self.root.put_in_both(alloc, &text)?;
        self.closed = closed;
        self.growing = growing;
        self.torn = torn;
        self.end = end;
        Ok(())
    }
}

//! How a journal is opened after any crash.
ghost use Rattle.std.specs.Prelude.{◌≡◌, ◌+◌, ◌*◌, ◌<◌, ◌≤◌, ℕ, ⊤, length, Some, false, IsTrue, IfOk, IfSome, MatchOption, OnOk, IsErrOf};
ghost use Rattle.cq_disk.specs.Device.{LeavesOnly};
ghost use Rattle.cq_disk.specs.Region.{part, Beside};
ghost use Rattle.cq_records.specs.Frames.{records};
ghost use Rattle.cq_records.specs.Layout.{IsLog};
ghost use Rattle.cq_journal.specs.Histories.{OpensTo};
ghost use Rattle.cq_journal.specs.Intact.{HasRoomBehind, IsIntact};
ghost use Rattle.cq_journal.specs.declared.number.TheConstants.{NUMBER_LIMIT};
ghost use Rattle.cq_journal.specs.Refusals.{OpensIntact};
ghost use Rattle.cq_journal.specs.Regions.{kept, HasRecords};
ghost use Rattle.cq_journal.specs.Root.{root_half, root_device, root_number, IsRoot};
ghost use Rattle.cq_journal.specs.Roots.{root_of};

use crate::places::{
    are_apart, are_within, behind_of, is_record_of, read_places, text_of, torn_in,
};
use crate::{Found, Journal, NUMBER_LIMIT, OpenFault, Root, read_root};
use cq_disk::{Device, Region};
use cq_records::Batch;
use std::alloc::Global;

impl<D: Device> Journal<D> {
    ghost use Rattle.cq_journal.specs.Intact.{LeavesIntact, StaysIntact};
    ghost use Rattle.cq_journal.specs.Journal.{HasRegions, HasRoomAgain, IsJournal, IsFree, grows_soundly, journal_device, journal_half, journal_places, journal_records, region_len};

    /// Opens the journal of a device, with halves of the root and regions of these lengths, and makes it ready for records:
    /// its records are those that the device had. `NoJournal`: there is no root. `Full`: no region is free, or the root has no room to name
    /// it. The calls that it makes one by one, `read_root`,
    /// `Root::at`, `at` and `recover`, say what a crash in them leaves.
    pub fn open(alloc: Global, device: D, half: usize, len: usize) -> Result<Journal<D>, OpenFault>
        requires { half + half ≤ length (D.seen device) }

        ensures journal { IfOk result IsJournal }
        ensures kept { IfOk result (λ journal. IsTrue (D.is_honest (journal_device journal)) → kept half len (D.seen device) ≡ Some (journal_records journal)) }
        ensures lengths { IfOk result (λ journal. (journal_half journal ≡ half) × (region_len journal ≡ len)) }
        ensures any_moment { IfOk result (λ journal. IsTrue (D.is_honest (journal_device journal)) → OpensTo D.moment D.left_since D.may_leave D.seen half len device (journal_device journal)) }
        ensures intact { IfOk result (λ journal. IsTrue (D.is_honest (journal_device journal)) → OpensIntact D.moment D.left_since D.may_leave D.seen half len device (journal_device journal)) }
        ensures stays { IfOk result (λ journal. IsTrue (D.is_honest (journal_device journal)) → IsIntact half len (D.seen device) → IsIntact half len (D.seen (journal_device journal))) }

        // It refuses intact bytes only where a read has given others: `last` is the device as the calls on it have left it.
        ensures damaged { IsErrOf result OpenFault.Damaged → (last : D) × (IsTrue (D.is_honest last) → IsIntact half len (D.seen device) → ⊥) }
        ensures nothing { IsErrOf result OpenFault.NoJournal → (last : D) × (IsTrue (D.is_honest last) → IsIntact half len (D.seen device) → ⊥) }
        ensures full { IsErrOf result OpenFault.Full → (last : D) × (IsTrue (D.is_honest last) → HasRoomBehind half len (D.seen device) → ⊥) }
    {
        let _len = device.len();
        let mut region = Region {
            device,
            start: 0,
            len: half,
        };
        let Some(found) = read_root(alloc, &mut region)? else {
            return Err(OpenFault::NoJournal);
        };
        let root = Root::at(region, &found);
        let mut journal = Journal::at(alloc, root, &found, len)?;
        journal.recover(alloc)?;
        Ok(journal)
    }

    /// The journal whose root was found, with regions of this length. Its last records are as a crash left them: `recover`
    /// makes it ready for more. `Damaged`: what the root names aren't regions of a journal on this device. It takes time in
    /// proportion to the regions.
    pub fn at(
        alloc: Global,
        root: Root<D>,
        found: &Found,
        len: usize,
    ) -> Result<Journal<D>, OpenFault>
        requires root { IsRoot root }
        requires number { root_number root ≡ found.now.number }
        requires found { IsTrue (D.is_honest (root_device root)) → root_of (root_half root) (D.seen (root_device root)) ≡ Some found.now.bytes.items }

        ensures regions { IfOk result HasRegions }
        ensures kept { IfOk result (λ journal. IsTrue (D.is_honest (journal_device journal)) → kept (journal_half journal) (region_len journal) (D.seen (journal_device journal)) ≡ Some (journal_records journal)) }
        ensures damaged { IsErrOf result OpenFault.Damaged → IsTrue (D.is_honest (root_device root)) → IsIntact (root_half root) len (D.seen (root_device root)) → ⊥ }
        ensures nothing { IsErrOf result OpenFault.NoJournal → ⊥ }
        ensures full { IsErrOf result OpenFault.Full → ⊥ }
        ensures device { IfOk result (λ journal. (journal_device journal ≡ root_device root) × (journal_half journal ≡ root_half root) × (region_len journal ≡ len)) }
    {
        let torn = torn_in(&found.bytes);
        let mut closed = read_places(alloc, &found.bytes)?;
        let Some(growing) = closed.pop() else {
            return Err(OpenFault::Damaged);
        };
        if root.number >= NUMBER_LIMIT
            || !is_record_of(alloc, &found.bytes, root.number, torn, &closed, growing)?
        {
            return Err(OpenFault::Damaged);
        }
        let (half, whole) = (root.log.device.len, root.log.device.device.len());
        let low = half + half;
        if !are_within(len, low, whole, &closed)
            || !are_within(len, low, whole, &[growing])
            || !are_apart(len, &closed, growing as usize)
        {
            return Err(OpenFault::Damaged);
        }
        Ok(Journal {
            root,
            len,
            closed,
            growing: growing as usize,
            torn,
            end: 0,
        })
    }

    /// The first free region behind the root, in steps of a region's length. `None`: there is none, or as many regions count
    /// as a root can name. O(regions that count), for each region of the device up to that one.
    pub fn free_region(&self) -> Option<usize>
        requires { HasRegions self.now }
        ensures free { IfSome result (λ place. IsFree self.now place) }
        ensures none { MatchOption result (0 < region_len self.now → (k : ℕ) → IsFree self.now ((journal_half self.now + journal_half self.now) + k * region_len self.now) → ⊥) (λ _. ⊤) }
    {
        let half = self.root.log.device.len;
        let whole = self.root.log.device.device.len();
        let mut place = half + half;
        while self.len > 0 && place <= whole && whole - place >= self.len {
            if self.is_free(place) {
                return Some(place);
            }
            place += self.len;
        }
        None
    }

    /// Makes a journal ready for records after any crash: those of the region that grows are written into a free one, which
    /// the root then names in its place. So what a sync that failed had left behind counts for nothing. The records are the
    /// same, also after a crash at any moment of the call. `Full`: there is no free region, or the root has no number left;
    /// nothing was changed. After another fault it is to be opened anew. It takes memory and time in proportion to the length
    /// of a region.
    pub fn recover(&mut self, alloc: Global) -> Result<(), OpenFault>
        requires { HasRegions self.old }

        ensures journal { OnOk result (IsJournal self.new) }
        ensures lengths { OnOk result ((journal_half self.new ≡ journal_half self.old) × (region_len self.new ≡ region_len self.old)) }
        ensures records { OnOk result (IsTrue (D.is_honest (journal_device self.new)) → journal_records self.new ≡ journal_records self.old) }
        ensures any_moment { IsTrue (D.is_honest (journal_device self.new)) → LeavesOnly D.moment D.left_since (journal_device self.old) (journal_device self.new)
            (HasRecords (journal_half self.old) (region_len self.old) (journal_records self.old)) }
        ensures intact { LeavesIntact self.old self.new }
        ensures stays { OnOk result (StaysIntact self.old self.new) }
        ensures honest { IsTrue (D.is_honest (journal_device self.new)) → IsTrue (D.is_honest (journal_device self.old)) }
        ensures full { IsErrOf result OpenFault.Full → self.new ≡ self.old }
        ensures crowded { IsErrOf result OpenFault.Full → HasRoomAgain self.old → ⊥ }
        ensures damaged { IsErrOf result OpenFault.Damaged → IsTrue (D.is_honest (journal_device self.new)) → grows_soundly self.old ≡ false }
        ensures refused { IsErrOf result OpenFault.Damaged → IsTrue (D.is_honest (journal_device self.new)) → IsIntact (journal_half self.old) (region_len self.old) (D.seen (journal_device self.old)) → ⊥ }
        ensures nothing { IsErrOf result OpenFault.NoJournal → ⊥ }
        ensures failed { IsErrOf result OpenFault.Failed → D.faults (journal_device self.old) < D.faults (journal_device self.new) }
    {
        let Some(place) = self.free_region() else {
            return Err(OpenFault::Full);
        };
        self.move_to(alloc, place)
    }

    /// Writes the records of the region that grows into a free one, and goes on there.
    fn move_to(&mut self, alloc: Global, place: usize) -> Result<(), OpenFault>
        requires regions { HasRegions self.old }
        requires free { IsFree self.old place }

        ensures journal { OnOk result (IsJournal self.new) }
        ensures lengths { OnOk result ((journal_half self.new ≡ journal_half self.old) × (region_len self.new ≡ region_len self.old)) }
        ensures records { OnOk result (IsTrue (D.is_honest (journal_device self.new)) → journal_records self.new ≡ journal_records self.old) }
        ensures any_moment { IsTrue (D.is_honest (journal_device self.new)) → LeavesOnly D.moment D.left_since (journal_device self.old) (journal_device self.new)
            (HasRecords (journal_half self.old) (region_len self.old) (journal_records self.old)) }
        ensures intact { LeavesIntact self.old self.new }
        ensures stays { OnOk result (StaysIntact self.old self.new) }
        ensures honest { IsTrue (D.is_honest (journal_device self.new)) → IsTrue (D.is_honest (journal_device self.old)) }
        ensures full { IsErrOf result OpenFault.Full → self.new ≡ self.old }
        ensures crowded { IsErrOf result OpenFault.Full → (root_number self.old.root + 1 < NUMBER_LIMIT) × (5 * length (journal_places self.old) + 15 ≤ journal_half self.old) → ⊥ }
        ensures damaged { IsErrOf result OpenFault.Damaged → IsTrue (D.is_honest (journal_device self.new)) → grows_soundly self.old ≡ false }
        ensures nothing { IsErrOf result OpenFault.NoJournal → ⊥ }
        ensures failed { IsErrOf result OpenFault.Failed → D.faults (journal_device self.old) < D.faults (journal_device self.new) }
    {
        let torn = self.root.log.device.device.torn_writes();
        let text = text_of(alloc, torn, &self.closed, place as u64)?;
        if !self.root.has_room(&text) {
            return Err(OpenFault::Full);
        }
        let end = self.copy_to(alloc, place)?;
        self.root.put_in_both(alloc, &text)?;
        self.growing = place;
        self.torn = torn;
        self.end = end;
        Ok(())
    }

    /// Writes the records of the region that grows into a free one, the last one as a batch of its own, and gives the end of the log there.
    fn copy_to(&mut self, alloc: Global, place: usize) -> Result<usize, OpenFault>
        requires regions { HasRegions self.old }
        requires free { IsFree self.old place }

        ensures regions { OnOk result (HasRegions self.new) }
        ensures same { (self.new.closed ≡ self.old.closed) × (self.new.growing ≡ self.old.growing) × (region_len self.new ≡ region_len self.old) }
        ensures half { journal_half self.new ≡ journal_half self.old }
        ensures number { root_number self.new.root ≡ root_number self.old.root }
        ensures log { IfOk result (λ end. IsLog (part place (region_len self.old) (D.seen (journal_device self.new))) end) }
        ensures copied { OnOk result (IsTrue (D.is_honest (journal_device self.new)) → records (part place (region_len self.old) (D.seen (journal_device self.new))) ≡ records (part self.old.growing (region_len self.old) (D.seen (journal_device self.old)))) }
        ensures length { length (D.seen (journal_device self.new)) ≡ length (D.seen (journal_device self.old)) }
        ensures beside { OnOk result (Beside place (region_len self.old) (D.seen (journal_device self.old)) (D.seen (journal_device self.new))) }
        ensures any_moment { IsTrue (D.is_honest (journal_device self.new)) → LeavesOnly D.moment D.left_since (journal_device self.old) (journal_device self.new)
            (HasRecords (journal_half self.old) (region_len self.old) (journal_records self.old)) }
        ensures left { LeavesOnly D.moment D.left_since (journal_device self.old) (journal_device self.new) (Beside place (region_len self.old) (D.seen (journal_device self.old))) }
        ensures honest { IsTrue (D.is_honest (journal_device self.new)) → IsTrue (D.is_honest (journal_device self.old)) }
        ensures full { IsErrOf result OpenFault.Full → ⊥ }
        ensures damaged { IsErrOf result OpenFault.Damaged → IsTrue (D.is_honest (journal_device self.new)) → grows_soundly self.old ≡ false }
        ensures nothing { IsErrOf result OpenFault.NoJournal → ⊥ }
        ensures failed { IsErrOf result OpenFault.Failed → D.faults (journal_device self.old) < D.faults (journal_device self.new) }
        ensures later { D.faults (journal_device self.old) ≤ D.faults (journal_device self.new) }
    {
        let mut batch = Batch::new(alloc);
        let behind = behind_of(self.torn);
        self.root
            .read_at(alloc, self.growing, self.len, behind, &mut batch)?;
        self.root.blank_at(place, self.len)?;
        self.root.copy_at(alloc, place, self.len, 0, batch)?;
        Ok(self.root.log.end)
    }
}

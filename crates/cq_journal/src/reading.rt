//! What the regions of a journal have, read one by one.
ghost use Rattle.std.specs.Prelude.{◌≡◌, ◌⊎◌, ◌++◌, ◌+◌, ◌<◌, ◌≤◌, ℕ, [], true, false, length, drop, get_or, Err, IsTrue, IfOk, OnOk, IsErrOf};
ghost use Rattle.cq_disk.specs.Region.{part};
ghost use Rattle.cq_records.specs.Frames.{ends_with, frames, records, joined, all_sound, HasMore, IsDamaged};
ghost use Rattle.cq_journal.specs.Intact.{IsIntact};
ghost use Rattle.cq_journal.specs.Regions.{Each, IsInSteps};

use crate::places::{are_in_steps, behind_of};
use crate::{Journal, RegionFault};
use cq_disk::Device;
use cq_records::{Behind, ReadFault};
use std::alloc::Global;

impl<D: Device> Journal<D> {
    ghost use Rattle.cq_journal.specs.Journal.{HasRegions, StaysJournal, journal_device, journal_half, journal_places, journal_regions, region_len, behind_in, IsDamagedAt};
    ghost use Rattle.cq_journal.specs.Rests.{Rests};

    /// How many regions count.
    pub fn region_count(&self) -> usize
        ensures { result ≡ length (journal_regions self.now) }
    {
        self.closed.len() + 1
    }

    /// Whether each region lies so many whole ones behind the root, as those do that a journal with regions and halves of these lengths goes
    /// on in: O(regions that count).
    pub fn is_in_steps(&self) -> bool
        requires has_regions { HasRegions self.now }
        ensures in_steps { result ≡ true → Each (IsInSteps (region_len self.now) (journal_half self.now + journal_half self.now)) (journal_places self.now) }
        ensures not { result ≡ false → 0 < region_len self.now → Each (IsInSteps (region_len self.now) (journal_half self.now + journal_half self.now)) (journal_places self.now) → ⊥ }
    {
        let _whole = self.root.log.device.device.len();
        let half = self.root.log.device.len;
        let low = half + half;
        if self.len == 0 {
            return false;
        }
        if !are_in_steps(self.len, low, &self.closed) {
            return false;
        }
        are_in_steps(self.len, low, &[self.growing as u64])
    }

    /// Adds the records of a region to a text, one behind the other, and gives their number: the first region is at 0. The journal is the
    /// same, at each moment, also where a record is damaged; it needn't be ready for records. A region is damaged, too, where something
    /// comes behind its records that may not. It takes memory for the region's bytes. After a fault the text may have some of the
    /// records.
    pub fn read_region(
        &mut self,
        alloc: Global,
        index: usize,
        text: &mut Vec<u8>,
    ) -> Result<usize, RegionFault>
        requires has_regions { HasRegions self.old }
        requires index { index < length (journal_regions self.old) }

        ensures journal { StaysJournal self.old self.new }
        ensures rests { Rests self.old self.new }
        ensures regions { journal_regions self.new ≡ journal_regions self.old }
        ensures count { IfOk result (λ count. IsTrue (D.is_honest (journal_device self.new)) → count ≡ length (get_or (journal_regions self.old) index [])) }
        ensures read { OnOk result (IsTrue (D.is_honest (journal_device self.new)) → text.new.items ≡ text.old.items ++ joined (get_or (journal_regions self.old) index [])) }
        ensures ends { OnOk result (IsTrue (D.is_honest (journal_device self.new)) → ends_with (behind_in self.old index) (part (get_or (journal_places self.old) index 0) (region_len self.old) (D.seen (journal_device self.old))) ≡ true) }
        ensures damaged { (place : ℕ) → result ≡ Err (RegionFault.Damaged place) → IsTrue (D.is_honest (journal_device self.new)) → IsDamagedAt self.old index place }
        ensures refused { (place : ℕ) → result ≡ Err (RegionFault.Damaged place) → IsTrue (D.is_honest (journal_device self.new)) → IsIntact (journal_half self.old) (region_len self.old) (D.seen (journal_device self.old)) → ⊥ }
        ensures failed { result ≡ Err RegionFault.Failed → D.faults (journal_device self.old) < D.faults (journal_device self.new) }
    {
        let _whole = self.root.log.device.device.len();
        let place = self.place_of(index);
        let mut at = 0;
        let behind = self.behind_in(index);
        match self.read_place(alloc, place, behind, &mut at, text) {
            Ok(count) => Ok(count),
            Err(ReadFault::Damaged) => Err(RegionFault::Damaged(place + at)),
            Err(ReadFault::NoMemory) => Err(RegionFault::NoMemory),
            Err(ReadFault::Failed) => Err(RegionFault::Failed),
        }
    }

    /// Adds the records of the region at this place, and gives their number. After `Damaged` the damaged one begins so many bytes behind it,
    /// or the records end there, and something comes behind them that may not.
    fn read_place(
        &mut self,
        alloc: Global,
        place: usize,
        behind: Behind,
        at: &mut usize,
        text: &mut Vec<u8>,
    ) -> Result<usize, ReadFault>
        requires has_regions { HasRegions self.old }
        requires within { place + region_len self.old ≤ length (D.seen (journal_device self.old)) }
        requires start { at.old ≡ 0 }

        ensures journal { StaysJournal self.old self.new }
        ensures rests { Rests self.old self.new }
        ensures regions { journal_regions self.new ≡ journal_regions self.old }
        ensures count { IfOk result (λ count. IsTrue (D.is_honest (journal_device self.new)) → count ≡ length (records (part place (region_len self.old) (D.seen (journal_device self.old))))) }
        ensures read { OnOk result (IsTrue (D.is_honest (journal_device self.new)) → text.new.items ≡ text.old.items ++ joined (records (part place (region_len self.old) (D.seen (journal_device self.old))))) }
        ensures at { at.new ≤ region_len self.old }
        ensures ends { OnOk result (IsTrue (D.is_honest (journal_device self.new)) → ends_with behind (part place (region_len self.old) (D.seen (journal_device self.old))) ≡ true) }
        ensures damaged { IsErrOf result ReadFault.Damaged → IsTrue (D.is_honest (journal_device self.new))
            → IsDamaged (drop at.new (part place (region_len self.old) (D.seen (journal_device self.old)))) ⊎ HasMore behind at.new (part place (region_len self.old) (D.seen (journal_device self.old))) }
        ensures unsound { IsErrOf result ReadFault.Damaged → IsTrue (D.is_honest (journal_device self.new))
            → (all_sound (frames (part place (region_len self.old) (D.seen (journal_device self.old)))) ≡ false)
            ⊎ (ends_with behind (part place (region_len self.old) (D.seen (journal_device self.old))) ≡ false) }
        ensures failed { IsErrOf result ReadFault.Failed → D.faults (journal_device self.old) < D.faults (journal_device self.new) }
    {
        self.root
            .read_log_at(alloc, place, self.len, behind, at, text)
    }

    /// What may come behind the records of a region.
    fn behind_in(&self, index: usize) -> Behind
        ensures { result ≡ behind_in self.now index }
    {
        if index < self.closed.len() {
            Behind::Zeros
        } else {
            behind_of(self.torn)
        }
    }

    /// Where a region lies.
    fn place_of(&self, index: usize) -> usize
        requires regions { HasRegions self.now }
        requires index { index < length (journal_places self.now) }
        ensures place { result ≡ get_or (journal_places self.now) index 0 }
        ensures within { result + region_len self.now ≤ length (D.seen (journal_device self.now)) }
    {
        if index < self.closed.len() {
            self.closed[index] as usize
        } else {
            self.growing
        }
    }
}

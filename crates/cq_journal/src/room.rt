//! What room a journal has left.
ghost use Rattle.std.specs.Prelude.{◌≡◌, ◌+◌, ◌≤◌, true, IfSome};

use crate::Journal;
use cq_disk::Device;

impl<D: Device> Journal<D> {
    ghost use Rattle.cq_journal.specs.Journal.{HasRegions, HasSpare, IsJournal, IsFree, journal_end, region_len};

    /// The length of each region.
    pub fn region_size(&self) -> usize
        ensures { result ≡ region_len self.now }
    {
        self.len
    }

    /// How many bytes are left of the region that grows. A batch that is longer goes to the next region.
    pub fn bytes_left(&self) -> usize
        requires { IsJournal self.now }
        ensures { result + journal_end self.now ≡ region_len self.now }
    {
        let _whole = self.root.log.device.device.len();
        self.len - self.end
    }

    /// Whether two regions are free, which share no byte: where the journal goes on in one of them, the other one is left for an
    /// opening or a rewrite. O(regions that count), for each region of the device up to the second one.
    pub fn has_spare(&self) -> bool
        requires { HasRegions self.now }
        ensures { result ≡ true → HasSpare self.now }
    {
        let _whole = self.root.log.device.device.len();
        match self.free_region() {
            Some(first) => self.free_from(first + self.len).is_some(),
            None => false,
        }
    }

    /// The first free region from this place on, in steps of a region's length.
    fn free_from(&self, start: usize) -> Option<usize>
        requires { HasRegions self.now }
        ensures { IfSome result (λ place. IsFree self.now place × start ≤ place) }
    {
        let whole = self.root.log.device.device.len();
        let mut place = start;
        while self.len > 0 && place <= whole && whole - place >= self.len {
            if self.is_free(place) {
                return Some(place);
            }
            place += self.len;
        }
        None
    }
}

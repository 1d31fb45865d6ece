//! Whether there is room for entries, and whether they leave space for a base.
ghost use Rattle.std.specs.Prelude.{◌≡◌, ◌⊎◌, ◌≤◌, length, true, false};
ghost use Rattle.cq_journal.specs.Journal.{HasSpare, IsJournal};
ghost use Rattle.cq_records.specs.declared.frame.TheConstants.{TEXT_LIMIT};
ghost use Rattle.cq_kept_entries.specs.declared.class.EntryClass.TheVariants.{Adds};

use crate::KeptEntries;
use crate::class::{EntryClass, reserve_of};
use cq_disk::Device;
use cq_records::HEAD_LENGTH;

impl<D: Device> KeptEntries<D> {
    ghost use Rattle.cq_kept_entries.specs.Kept.{added_text, entries_journal};
    ghost use Rattle.cq_kept_entries.specs.within.Room.{FitsHere};

    /// Whether there is room for an entry of this class whose piece has at most so many bytes, behind those that were added: in the
    /// region that grows, with what is kept there for entries of the other classes, or in the next region, where one more is left for
    /// an opening or a rewrite and the device didn't lack the space. One that adds something has to leave space for a base, too.
    pub fn has_room(&self, class: EntryClass, len: usize) -> bool
        requires journal { IsJournal (entries_journal self.now) }
        requires short { len ≤ TEXT_LIMIT }
        ensures room { result ≡ true → FitsHere self.now class len ⊎ HasSpare (entries_journal self.now) }
        ensures no_room { result ≡ false → ¬ FitsHere self.now class len ⊎ (class ≡ Adds) }
    {
        if !self.leaves_space(class, len) {
            return false;
        }
        let left = self.journal.bytes_left();
        let reserve = reserve_of(class, self.journal.region_size());
        if reserve <= left && self.text.len() + len + HEAD_LENGTH <= left - reserve {
            return true;
        }
        if self.lacks_space {
            return false;
        }
        self.journal.has_spare()
    }

    /// Notes that an entry of this class whose piece has at most so many bytes found no room: where that is for want of a region, the
    /// next rewrite is due earlier.
    pub fn note_no_room(&mut self, class: EntryClass, len: usize)
        requires { IsJournal (entries_journal self.old) }
        ensures journal { entries_journal self.new ≡ entries_journal self.old }
        ensures text { added_text self.new ≡ added_text self.old }
    {
        if self.leaves_space(class, len) {
            self.schedule.tighten();
        }
    }

    /// How many bytes behind the root are used: all of each region that counts, but of the last one what it has.
    pub(crate) fn used(&self) -> usize
        requires { IsJournal (entries_journal self.now) }
    {
        let left = self.journal.bytes_left();
        let regions = self.journal.region_count();
        regions
            .saturating_mul(self.journal.region_size())
            .saturating_sub(left)
    }

    /// Whether so many bytes of an entry of this class leave space for a base, as those have to that add something.
    fn leaves_space(&self, class: EntryClass, len: usize) -> bool
        requires { IsJournal (entries_journal self.now) }
        ensures { result ≡ false → class ≡ Adds }
    {
        match class {
            EntryClass::Adds => {
                let more = self.text.len().saturating_add(len);
                self.schedule
                    .has_space(self.used(), more.saturating_add(HEAD_LENGTH))
            }
            EntryClass::Changes | EntryClass::Frees => true,
        }
    }
}

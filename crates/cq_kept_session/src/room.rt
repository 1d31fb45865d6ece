//! Whether there is room for lines, and whether they leave space for a base.
ghost use Rattle.std.specs.Prelude.{◌≡◌, ◌⊎◌, ◌≤◌, length, true, false};
ghost use Rattle.cq_journal.specs.Journal.{HasSpare, IsJournal};
ghost use Rattle.cq_records.specs.declared.frame.TheConstants.{TEXT_LIMIT};
ghost use Rattle.cq_kept_session.specs.Classes.{reserve_of};
ghost use Rattle.cq_kept_session.specs.declared.class.LineClass.TheVariants.{Adds};

use crate::KeptSession;
use crate::class::LineClass;
use cq_disk::Device;
use cq_records::HEAD_LENGTH;

/// How much of a region of this length is kept from lines of this class.
fn reserve_of(class: LineClass, len: usize) -> usize
    ensures { result ≡ reserve_of class len }
{
    match class {
        LineClass::Adds => len / 2,
        LineClass::Changes => len / 4,
        LineClass::Frees => len / 64,
        LineClass::Moves => 0,
    }
}

impl<D: Device> KeptSession<D> {
    ghost use Rattle.cq_kept_session.specs.Kept.{session_journal};
    ghost use Rattle.cq_kept_session.specs.within.Room.{FitsHere};

    /// Whether there is room for so many bytes of lines of this class: behind what the region that grows has, with what is kept there
    /// for lines of the other classes, or in the next region, where one more is left for an opening or a rewrite.
    pub(crate) fn has_room(&self, class: LineClass, len: usize) -> bool
        requires journal { IsJournal (session_journal self.now) }
        requires short { len ≤ TEXT_LIMIT }
        ensures room { result ≡ true → FitsHere self.now class len ⊎ HasSpare (session_journal self.now) }
        ensures no_room { result ≡ false → ¬ FitsHere self.now class len }
    {
        let left = self.journal.bytes_left();
        let reserve = reserve_of(class, self.journal.region_size());
        if reserve <= left && len + HEAD_LENGTH <= left - reserve {
            return true;
        }
        self.journal.has_spare()
    }

    /// How many bytes behind the root are used: all of each region that counts, but of the last one what it has.
    pub(crate) fn used(&self) -> usize
        requires { IsJournal (session_journal self.now) }
    {
        let left = self.journal.bytes_left();
        let regions = self.journal.region_count();
        regions
            .saturating_mul(self.journal.region_size())
            .saturating_sub(left)
    }

    /// Whether so many bytes of lines of this class leave space for a base, as those have to that add something.
    pub(crate) fn leaves_space(&self, class: LineClass, len: usize) -> bool
        requires { IsJournal (session_journal self.now) }
        ensures { result ≡ false → class ≡ Adds }
    {
        match class {
            LineClass::Adds => self
                .schedule
                .has_space(self.used(), len.saturating_add(HEAD_LENGTH)),
            LineClass::Changes | LineClass::Frees | LineClass::Moves => true,
        }
    }
}

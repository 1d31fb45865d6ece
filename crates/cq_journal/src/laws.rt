//! What follows of journals from the contracts of their calls.
ghost use Rattle.std.specs.Prelude.{◌≡◌, ℕ, List, Some, IsTrue};
ghost use Rattle.cq_journal.specs.Changes.{Change, ChangeExamples};
ghost use Rattle.cq_journal.specs.Histories.{Acknowledges, Rewrites, RewritesAtAnyMoment, Survives};
ghost use Rattle.cq_journal.specs.Intact.{IntactExamples};
ghost use Rattle.cq_journal.specs.Journal.{HasRegions, journal_device, journal_half, journal_records, journal_regions, region_len};
ghost use Rattle.cq_journal.specs.Refusals.{NoneRefused, StaysUnrefused};
ghost use Rattle.cq_journal.specs.Regions.{all_records, kept};

use crate::Journal;
use cq_disk::Device;

/// While reads give what was seen, the bytes of a journal's device stand for its records.
pub fn a_journal_keeps_its_records<D: Device>(_journal: &Journal<D>)
    requires { HasRegions _journal.now }
    ensures { IsTrue (D.is_honest (journal_device _journal.now)) → kept (journal_half _journal.now) (region_len _journal.now) (D.seen (journal_device _journal.now)) ≡ Some (journal_records _journal.now) }
{}

/// Its regions together have all of its records, in order.
pub fn the_regions_of_a_journal_have_its_records<D: Device>(_journal: &Journal<D>)
    ensures { all_records (journal_regions _journal.now) ≡ journal_records _journal.now }
{}

/// What changes make of records.
pub fn changes_stand_for()
    ensures { ChangeExamples }
{}

/// After any calls that ended well, a crash at any moment of the next one leaves what they have made, all of it in order
/// and once, but for what this one does: a prefix of its batch behind that, or its new records in the place of all.
pub fn what_is_acknowledged_stays<D: Device>(
    _old: &Journal<D>,
    _mid: &Journal<D>,
    _new: &Journal<D>,
)
    ensures { (changes : List Change) (change : Change) → Acknowledges changes change _old.now _mid.now _new.now }
{}

/// Where each rewrite has new records that tell the same as all before it, the journal tells what the records tell that were
/// added, as if none had been rewritten: after all calls, and after a crash at any moment.
pub fn rewrites_tell_the_same()
    ensures done { Rewrites }
    ensures any_moment { RewritesAtAnyMoment }
{}

/// What a crash in a call leaves outlives any number of crashes in openings.
pub fn what_is_left_outlives_openings<D: Device>(_old: &D, _last: &D, _first: &D, _new: &D)
    ensures { (half : ℕ) (len : ℕ) (rs : List (List ℕ)) (change : Change) → Survives D.moment D.left_since D.may_leave D.seen half len rs change _old.now _last.now _first.now _new.now }
{}

/// After any calls that ended well or found no room, a crash at any moment of the next one leaves bytes that no opening calls
/// damaged, and none that it takes for no journal.
pub fn no_outcome_is_refused<D: Device>(_old: &Journal<D>, _mid: &Journal<D>, _new: &Journal<D>)
    ensures { (times : ℕ) → NoneRefused times _old.now _mid.now _new.now }
{}

/// Nor do any number of crashes in openings, after such a one.
pub fn openings_leave_nothing_refused<D: Device>(_old: &D, _last: &D, _first: &D, _new: &D)
    ensures { (half : ℕ) (len : ℕ) → StaysUnrefused D.moment D.left_since D.may_leave D.seen half len _old.now _last.now _first.now _new.now }
{}

/// Which bytes are intact, in examples.
pub fn bytes_are_intact()
    ensures { IntactExamples }
{}

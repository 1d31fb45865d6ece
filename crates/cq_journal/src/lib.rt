//! A journal on a device: regions of records, and before them a root that names those which count. The root is a text that
//! is replaced as a whole: a crash at any moment leaves the old one or the new one, and all that lies behind the root.
//! `specs/` holds the rules.
#![tactic(auto)]

mod base;
mod blanks;
mod calls;
mod commits;
mod copying;
mod fault;
mod growing;
mod journal;
mod laws;
mod making;
mod number;
mod opening;
mod outside;
mod places;
mod reading;
mod reads;
mod recovery;
mod refresh;
mod rewriting;
mod room;
mod root;

pub use base::Base;
pub use calls::{
    add_to_base_rests, append_adds, begin_base_rests, commit_adds, next_region_rests,
    read_region_rests, read_root_opens, recover_rests, rewrite_replaces, widen_base_rests,
};
pub use fault::{OpenFault, RegionFault};
pub use journal::{Journal, REGION_LIMIT};
pub use laws::{
    a_journal_keeps_its_records, bytes_are_intact, changes_stand_for, no_outcome_is_refused,
    openings_leave_nothing_refused, rewrites_tell_the_same,
    the_regions_of_a_journal_have_its_records, what_is_acknowledged_stays,
    what_is_left_outlives_openings,
};
pub use making::create;
pub use number::NUMBER_LIMIT;
pub use opening::{Found, find_root, has_grown, read_half, read_root};
pub use root::{ROOT_TEXT_LIMIT, Root};

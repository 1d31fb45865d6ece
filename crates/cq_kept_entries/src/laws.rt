//! Rows that compute.
ghost use Rattle.cq_kept_entries.specs.Examples.{EntryExamples};

/// Rows of kept entries.
pub fn entries_are_read_so()
    ensures { EntryExamples }
{}

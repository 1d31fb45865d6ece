//! Rows that compute.
ghost use Rattle.cq_kept_base.specs.Examples.{StuffedExamples};

/// Rows of stuffed texts.
pub fn texts_are_stuffed_so()
    ensures { StuffedExamples }
{}

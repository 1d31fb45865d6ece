//! A law of what is written.
ghost use Rattle.std.specs.Prelude.{◌≡◌, ℕ, List};
ghost use Rattle.cq_watching.specs.Coming.{after_bytes, by_bytes, nothing_yet};
ghost use Rattle.cq_watching.specs.Watching.{ended_text, plain_text};

/// Without what the world holds where lines ask, the text is what a session writes of the lines that it was given: those of the
/// input, of which each that asks is blank.
pub fn other_lines_are_a_sessions()
    ensures { (size : ℕ) (bytes : List ℕ) → by_bytes (plain_text size) nothing_yet bytes ≡ ended_text size (after_bytes nothing_yet bytes).given }
{}

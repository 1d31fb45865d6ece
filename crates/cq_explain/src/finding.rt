//! What is said of a line.

/// What is said of a line, behind its number: `: ` or `, ` and a sentence.
#[derive(Debug, PartialEq, Eq, Drop)]
pub enum Finding {
    /// It says an event that happens, or it is blank.
    Nothing,
    /// It is none of a script.
    Bad(String),
    /// What it says is refused, and the script goes on.
    Refused(String),
}

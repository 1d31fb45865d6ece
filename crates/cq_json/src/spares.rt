//! The strings that texts with escapes are written to.

use crate::flat::MOST;
use std::slice::IterMut;

/// How many strings there are: as many as an object and the one in it can have members.
pub(crate) const SPARES: usize = 2 * MOST;

/// Strings that aren't used yet.
#[derive(Drop)]
pub(crate) struct Spares<'a> {
    strings: IterMut<'a, String>,
}

impl<'a> Spares<'a> {
    /// These.
    pub(crate) fn of(strings: &'a mut [String; SPARES]) -> Spares<'a> {
        Spares {
            strings: strings.iter_mut(),
        }
    }

    /// One that isn't used yet, if there is one.
    pub(crate) fn take(&mut self) -> Option<&'a mut String> {
        self.strings.next()
    }
}

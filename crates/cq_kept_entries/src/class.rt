//! Which entries find room when little is left.
ghost use Rattle.std.specs.Prelude.{◌≡◌};
ghost use Rattle.cq_kept_entries.specs.Classes.{class_of, reserve_of};

use cq_base::Ask;

/// What an entry does to what a store holds.
#[derive(Clone, Copy, Debug, PartialEq, Eq)]
pub enum EntryClass {
    /// It may add a queue or a message. It is the first to be refused.
    Adds,
    /// It changes what is there.
    Changes,
    /// It deletes or removes. It is the last to be refused.
    Frees,
}

/// The class of an entry with this ask.
pub fn class_of(ask: &Ask) -> EntryClass
    ensures { result ≡ class_of ask.now }
{
    match ask {
        Ask::Create { .. } | Ask::Send { .. } => EntryClass::Adds,
        Ask::Receive { .. } | Ask::Change { .. } => EntryClass::Changes,
        Ask::Remove { .. } | Ask::Delete { .. } => EntryClass::Frees,
    }
}

/// How much of a region of this length is kept from entries of this class.
pub(crate) fn reserve_of(class: EntryClass, len: usize) -> usize
    ensures { result ≡ reserve_of class len }
{
    match class {
        EntryClass::Adds => len / 2,
        EntryClass::Changes => len / 4,
        EntryClass::Frees => len / 64,
    }
}

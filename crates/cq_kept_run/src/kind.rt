//! Journals of a server's entries, which sessions and what reads their journals tell apart from those of lines.
use crate::fault::{JournalFault, KeptFault};
use crate::looking::{find, open_found};
use crate::source::{Opens, Source};
use cq_disk::Device;
use std::alloc::Global;

/// With what a journal of entries begins: alone, or behind a store.
const ENTRIES: &[u8] = &[2, b'E', b'\n'];

const STORE: &[u8] = &[2, b'S', b'\n'];

/// The bytes of the records of the first region of a device's journal.
fn first_region<D: Device>(alloc: Global, device: D) -> Result<Vec<u8>, KeptFault> {
    let (region, found) = find(alloc, device)?;
    let mut journal = open_found(alloc, region, &found)?;
    let mut text = Vec::new(alloc);
    if journal.region_count() > 0 {
        journal.read_region(alloc, 0, &mut text)?;
    }
    Ok(text)
}

/// Whether a journal is one of entries.
fn has_entries<D: Device, S: Opens<D>>(alloc: Global, source: &S) -> Result<bool, KeptFault> {
    let text = first_region(alloc, source.open()?)?;
    Ok(text.as_slice().starts_with(ENTRIES) || text.as_slice().starts_with(STORE))
}

/// Whether lines can't be read from a journal, by that fault, only as it has entries.
pub(crate) fn is_of_entries<D: Device, S: Opens<D>>(
    alloc: Global,
    source: &S,
    fault: &KeptFault,
) -> bool {
    match fault {
        KeptFault::Journal(JournalFault::Damaged(None)) => {
            matches!(has_entries(alloc, source), Ok(true))
        }
        _ => false,
    }
}

/// The fault of reading lines from the journal in a file; where that is damaged only as it has entries, that is told.
pub(crate) fn tell_apart(rt: &HostRuntime, path: &str, fault: KeptFault) -> KeptFault {
    if is_of_entries(rt.alloc(), &Source { rt, path }, &fault) {
        return KeptFault::Journal(JournalFault::OtherJournal);
    }
    fault
}

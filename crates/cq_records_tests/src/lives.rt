//! Lives of a journal's machine: each opens the journal, adds records to it, and ends when the power is lost.
use crate::{Simulated, write};
use cq_disk::{Device, Modelled, Region, TornWrites, Unknown};
use cq_journal::{Journal, OpenFault, Root, read_root};
use cq_records::ReadFault;
use rand_xoshiro::Xoshiro256PlusPlus;
use std::alloc::{AllocError, Global};

/// What a life left.
#[derive(Drop)]
pub struct Life {
    pub device: Modelled<Simulated, Unknown>,
    /// So many records were acknowledged in all lives up to this one.
    pub acknowledged: usize,
    /// So many more were in the batch whose commit failed.
    pub under_way: usize,
    /// Whether the journal was made ready for records.
    pub is_recovered: bool,
}

fn cut_short(device: Modelled<Simulated, Unknown>, first: usize) -> Life {
    Life {
        device,
        acknowledged: first,
        under_way: 0,
        is_recovered: false,
    }
}

/// Opens the journal of a file, which has so many records, and adds more until a call fails. `None`: it isn't opened, though
/// no call failed.
pub fn live(
    alloc: Global,
    device: Modelled<Simulated, Unknown>,
    half: usize,
    len: usize,
    first: usize,
    random: &mut Xoshiro256PlusPlus,
) -> Result<Option<Life>, AllocError> {
    if half > device.len() / 2 {
        return Ok(None);
    }
    let mut region = Region {
        device,
        start: 0,
        len: half,
    };
    let found = match read_root(alloc, &mut region) {
        Ok(Some(found)) => found,
        Ok(None) | Err(ReadFault::Damaged) => return Ok(None),
        Err(_) => return Ok(Some(cut_short(region.into_device(), first))),
    };
    let root = Root::at(region, &found);
    let Ok(journal) = Journal::at(alloc, root, &found, len) else {
        return Ok(None);
    };
    let mut journal = journal;
    match journal.recover(alloc) {
        Ok(()) => {}
        Err(OpenFault::Failed) => return Ok(Some(cut_short(journal.into_device(), first))),
        Err(_) => return Ok(None),
    }
    let written = write(alloc, journal, first, random)?;
    Ok(Some(Life {
        device: written.journal.into_device(),
        acknowledged: written.acknowledged,
        under_way: written.under_way,
        is_recovered: true,
    }))
}

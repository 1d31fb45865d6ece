//! Journals whose records say their numbers.
ghost use Rattle.std.specs.Prelude.{OnOk};
ghost use Rattle.cq_journal.specs.Journal.{IsJournal};

use crate::count_records;
use crate::filling::add_records;
use cq_disk::{Device, Memory, Region, TornWrites};
use cq_journal::{Journal, read_root};
use cq_records::{Batch, Behind, LogFault, ReadFault, read_log};
use rand_xoshiro::Xoshiro256PlusPlus;
use rand_xoshiro::rand_core::Rng;
use std::alloc::{AllocError, Global};

/// A journal, and what became of its records.
#[derive(Drop)]
pub struct Written<D: Device> {
    pub journal: Journal<D>,
    /// So many records were acknowledged.
    pub acknowledged: usize,
    /// So many more were in the batch whose commit failed.
    pub under_way: usize,
    /// So many regions were begun.
    pub begun: usize,
}

/// Goes on in a free region. An error: there is none, or a call failed.
pub(crate) fn go_on<D: Device>(alloc: Global, journal: &mut Journal<D>) -> Result<(), ()>
    requires { IsJournal journal.old }
    ensures { OnOk result (IsJournal journal.new) }
{
    let Some(place) = journal.free_region() else {
        return Err(());
    };
    journal.next_region(alloc, place).map_err(|_| ())
}

/// Commits a batch, and answers true. Where the region is full, it has the journal go on in a free one instead, and answers
/// false. An error is true where the batch may be there all the same.
fn step<D: Device>(alloc: Global, journal: &mut Journal<D>, batch: &Batch) -> Result<bool, bool>
    requires { IsJournal journal.old }
    ensures { OnOk result (IsJournal journal.new) }
{
    match journal.commit(batch) {
        Ok(()) => Ok(true),
        Err(LogFault::Full) => match go_on(alloc, journal) {
            Ok(()) => Ok(false),
            Err(()) => Err(false),
        },
        Err(_) => Err(true),
    }
}

/// Commits batches of up to three records, from this number on, until one fails or no region is free.
pub fn write<D: Device>(
    alloc: Global,
    journal: Journal<D>,
    first: usize,
    random: &mut Xoshiro256PlusPlus,
) -> Result<Written<D>, AllocError>
    requires { IsJournal journal }
{
    let mut journal = journal;
    let mut begun: usize = 0;
    let mut acknowledged = first;
    for _ in 0..1_000 {
        let mut batch = Batch::new(alloc);
        let many = (random.next_u64() % 4) as usize;
        let added = add_records(alloc, &mut batch, acknowledged, many)?;
        match step(alloc, &mut journal, &batch) {
            Ok(true) => acknowledged = acknowledged.saturating_add(added),
            Ok(false) => begun = begun.saturating_add(1),
            Err(is_under_way) => {
                return Ok(Written {
                    journal,
                    acknowledged,
                    under_way: if is_under_way { added } else { 0 },
                    begun,
                });
            }
        }
    }
    Ok(Written {
        journal,
        acknowledged,
        under_way: 0,
        begun,
    })
}

fn digit(byte: u8) -> usize {
    byte.saturating_sub(2) as usize
}

/// The places that a root's record names, behind its number and its kind.
fn places_in(alloc: Global, record: &[u8]) -> Result<Vec<usize>, AllocError> {
    let mut places = Vec::new(alloc);
    for digits in record.get(6..).unwrap_or(&[]).chunks(5) {
        let mut place: usize = 0;
        for byte in digits.iter().rev() {
            place = place.saturating_mul(254).saturating_add(digit(*byte));
        }
        places.push(place)?;
    }
    Ok(places)
}

/// What may come behind the records of the last region that a root's record names.
fn behind_last(record: &[u8]) -> Behind {
    if record.get(5) == Some(&3) {
        Behind::Anything
    } else {
        Behind::TornBatch
    }
}

/// Reads a region as those are read that look for damage.
fn look(alloc: Global, region: &[u8], behind: Behind, torn: TornWrites) -> Result<(), ReadFault> {
    let mut device = Memory::new(alloc, region.to_vec(alloc)?, torn);
    let mut text = Vec::new(alloc);
    read_log(alloc, &mut device, behind, &mut 0, &mut text)?;
    Ok(())
}

/// How many records the journal has that these bytes stand for, if they are those of the numbers from 0 on. `Damaged`: some of them were
/// lost otherwise than a crash does.
pub fn count_journal(
    alloc: Global,
    bytes: &[u8],
    half: usize,
    len: usize,
    torn: TornWrites,
) -> Result<Option<usize>, ReadFault> {
    if half > bytes.len() / 2 {
        return Ok(None);
    }
    let mut region = Region {
        device: Memory::new(alloc, bytes.to_vec(alloc)?, torn),
        start: 0,
        len: half,
    };
    let Some(found) = read_root(alloc, &mut region)? else {
        return Ok(None);
    };
    let mut number = 0;
    let places = places_in(alloc, &found.bytes)?;
    for place in &places {
        let Some(part) = bytes.get(*place..place.saturating_add(len)) else {
            return Ok(None);
        };
        let behind = if Some(place) == places.last() {
            behind_last(&found.bytes)
        } else {
            Behind::Zeros
        };
        look(alloc, part, behind, torn)?;
        let device = Memory::new(alloc, part.to_vec(alloc)?, torn);
        let Some(next) = count_records(alloc, device, number)? else {
            return Ok(None);
        };
        number = next;
    }
    Ok(Some(number))
}

//! Records that say their numbers.
ghost use Rattle.std.specs.Prelude.{◌≤◌};
ghost use Rattle.cq_records.specs.Logs.{IsSettled};

use cq_disk::Device;
use cq_records::{Batch, Log, LogFault, ReadFault, is_text, read_record};
use rand_xoshiro::Xoshiro256PlusPlus;
use rand_xoshiro::rand_core::Rng;
use std::alloc::{AllocError, Global};

/// A log, and what became of its records.
#[derive(Drop)]
pub struct Filled<D: Device> {
    pub log: Log<D>,
    /// So many records were acknowledged.
    pub acknowledged: usize,
    /// So many more were in the batch whose commit failed.
    pub under_way: usize,
}

/// The text of the record of this number.
pub fn text_of(alloc: Global, number: usize) -> Result<Vec<u8>, AllocError> {
    vec![in alloc; (number % 200 + 2) as u8; number % 13]
}

// Adds so many records from this number on, and tells how many there are.
pub(crate) fn add_records(
    alloc: Global,
    batch: &mut Batch,
    number: usize,
    many: usize,
) -> Result<usize, AllocError> {
    let mut added = 0;
    for _ in 0..many {
        let text = text_of(alloc, number.saturating_add(added))?;
        if is_text(&text) {
            batch.add(&text)?;
            added = added.saturating_add(1);
        }
    }
    Ok(added)
}

/// Commits batches of up to three records until one fails, or the log is full.
pub fn fill<D: Device>(
    alloc: Global,
    log: Log<D>,
    random: &mut Xoshiro256PlusPlus,
) -> Result<Filled<D>, AllocError>
    requires { IsSettled D.seen D.may_leave log }
{
    let mut log = log;
    let mut acknowledged: usize = 0;
    for _ in 0..1_000 {
        let mut batch = Batch::new(alloc);
        let many = (random.next_u64() % 4) as usize;
        let added = add_records(alloc, &mut batch, acknowledged, many)?;
        match log.commit(&batch) {
            Ok(()) => acknowledged = acknowledged.saturating_add(added),
            Err(LogFault::Full) => break,
            Err(_) => {
                return Ok(Filled {
                    log,
                    acknowledged,
                    under_way: added,
                });
            }
        }
    }
    Ok(Filled {
        log,
        acknowledged,
        under_way: 0,
    })
}

/// The number behind the last record of a device, if its records are those of the numbers from this one on.
pub fn count_records<D: Device>(
    alloc: Global,
    device: D,
    first: usize,
) -> Result<Option<usize>, ReadFault> {
    let mut device = device;
    let mut at = 0;
    for number in first..10_000 {
        let Some(found) = read_record(alloc, &mut device, at)? else {
            return Ok(Some(number));
        };
        if found.text.as_slice() != text_of(alloc, number)?.as_slice() {
            return Ok(None);
        }
        at = found.behind;
    }
    Ok(None)
}

//! Journals that are copied onto a device whose machine loses its power in the middle of a call that a seed chooses.
use crate::{Simulated, count_journal, write};
use cq_disk::{Device, Memory, Modelled, TornWrites, Unknown};
use cq_journal::{Journal, OpenFault};
use cq_records::{Batch, ReadFault};
use rand_xoshiro::Xoshiro256PlusPlus;
use rand_xoshiro::rand_core::{Rng, SeedableRng};
use std::alloc::Global;
use std::test::Fail;

const SEEDS: u64 = 200;

/// The length of a half of the root.
const HALF: usize = 80;

/// The length of a region.
const LEN: usize = 64;

/// The length of a device with room for five regions.
const WHOLE: usize = 2 * HALF + 5 * LEN;

/// The length of the device that is copied to, with room for twelve regions.
const WHOLE_THERE: usize = 2 * HALF + 12 * LEN;

const TORN: TornWrites = TornWrites::OldOrNew;

/// What became of a copy.
#[derive(Clone, Copy)]
struct Copied {
    is_done: bool,
    /// So many records the journal has.
    records: usize,
    /// So many records the copy's medium has after a crash.
    kept: usize,
}

/// A journal of many records, and how many these are.
fn filled(alloc: Global, seed: u64) -> Result<(Vec<u8>, usize), ReadFault> {
    let mut random = Xoshiro256PlusPlus::seed_from_u64(seed);
    let device = Memory::new(alloc, vec![in alloc; 9u8; WHOLE]?, TORN);
    let Ok(journal) = Journal::create(alloc, device, HALF, LEN) else {
        return Err(ReadFault::Failed);
    };
    let written = write(alloc, journal, 0, &mut random)?;
    let bytes = written.journal.into_device().bytes().to_vec(alloc)?;
    // Free space for the opening: the region behind the last one.
    let mut bytes = bytes;
    bytes.extend_from_slice(&[0; LEN])?;
    Ok((bytes, written.acknowledged))
}

/// Copies a journal onto a device that has another one, of one record. `None`: the other one wasn't made.
fn copy(alloc: Global, seed: u64, calls: u64) -> Result<Option<Copied>, OpenFault> {
    let mut random = Xoshiro256PlusPlus::seed_from_u64(seed);
    let (bytes, records) = filled(alloc, seed)?;
    let device = Memory::new(alloc, bytes, TORN);
    if device.len() < 2 * HALF {
        return Ok(None);
    }
    let mut journal = Journal::open(alloc, device, HALF, LEN)?;
    let file = Simulated::new(alloc, &[7; WHOLE_THERE], calls)?;
    let device: Modelled<Simulated, Unknown> = Modelled::new(file, WHOLE_THERE, TORN);
    let Ok(there) = Journal::create(alloc, device, HALF, LEN) else {
        return Ok(None);
    };
    let mut there = there;
    let mut batch = Batch::new(alloc);
    batch.add(b"")?;
    let Ok(()) = there.commit(&batch) else {
        return Ok(None);
    };
    let is_done = journal.copy_into(alloc, &mut there).is_ok();
    let here = journal.into_device();
    let same = count_journal(alloc, here.bytes(), HALF, LEN, TORN)?;
    let medium = there
        .into_device()
        .into_calls()
        .into_medium(&mut random, TORN);
    let kept = count_journal(alloc, &medium, HALF, LEN, TORN)?;
    if same != Some(records) {
        return Err(OpenFault::Damaged);
    }
    let Some(kept) = kept else {
        return Err(OpenFault::NoJournal);
    };
    Ok(Some(Copied {
        is_done,
        records,
        kept,
    }))
}

#[test]
fn a_crash_leaves_all_records_of_a_copy_or_none(rt: HostRuntime) -> Result<(), Fail> {
    let (mut begun, mut done): (usize, usize) = (0, 0);
    for seed in 0..SEEDS {
        let calls = 30 + seed;
        if let Some(made) = copy(rt.alloc(), seed, calls)? {
            assert!(rt; made.records > 10);
            assert!(rt; made.kept == made.records || !made.is_done && made.kept == 1);
            begun = begun.saturating_add(1);
            done = done.saturating_add(made.is_done as usize);
        }
    }
    // Some copies are cut short, and some are whole.
    assert!(rt; done > 20 && begun > done.saturating_add(20));
    Ok(())
}

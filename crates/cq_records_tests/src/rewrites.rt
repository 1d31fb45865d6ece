//! Journals that are rewritten, whose machine loses its power in the middle of a call that a seed chooses.
use crate::{LEFT, Simulated, count_journal, write_and_rewrite};
use cq_disk::{Memory, Modelled, TornWrites, Unknown};
use cq_journal::Journal;
use cq_records::ReadFault;
use rand_xoshiro::Xoshiro256PlusPlus;
use rand_xoshiro::rand_core::{Rng, SeedableRng};
use std::alloc::Global;
use std::test::Fail;

const SEEDS: u64 = 500;

/// The length of a half of the root.
const HALF: usize = 80;

/// The length of a region.
const LEN: usize = 120;

/// The length of a device with room for six regions.
const WHOLE: usize = 2 * HALF + 6 * LEN;

/// How a journal ended: in the middle of a rewrite, and with so many rewrites behind it.
#[derive(Clone, Copy)]
struct End {
    is_rewriting: bool,
    rewrites: usize,
}

/// How a journal ended. `None`: what the crash leaves isn't the records that were acknowledged, with so many of the batch
/// under way, from the first on, nor, where a rewrite was under way, those that it leaves.
fn end_of(alloc: Global, seed: u64, torn: TornWrites) -> Result<Option<End>, ReadFault> {
    let mut random = Xoshiro256PlusPlus::seed_from_u64(seed);
    let bytes = vec![in alloc; (seed % 3) as u8; WHOLE]?;
    let file = Simulated::new(alloc, &bytes, 60 + random.next_u64() % 400)?;
    let device: Modelled<Simulated, Unknown> = Modelled::new(file, WHOLE, torn);
    let Ok(journal) = Journal::create(alloc, device, HALF, LEN) else {
        return Ok(None);
    };
    let written = write_and_rewrite(alloc, journal, &mut random)?;
    let file = written.journal.into_device().into_calls();
    let medium = file.into_medium(&mut random, torn);
    let Some(kept) = count_journal(alloc, &medium, HALF, LEN, torn)? else {
        return Ok(None);
    };
    let least = written.acknowledged;
    let is_old = least <= kept && kept - least <= written.under_way;
    let is_new = written.is_rewriting && kept == LEFT;
    Ok(
        (is_old || is_new).then_some(End {
            is_rewriting: written.is_rewriting,
            rewrites: written.rewrites,
        }),
    )
}

fn all_end_well(alloc: Global, torn: TornWrites) -> Result<bool, ReadFault> {
    let (mut in_rewrites, mut rewrites): (usize, usize) = (0, 0);
    for seed in 0..SEEDS {
        let Some(end) = end_of(alloc, seed, torn)? else {
            return Ok(false);
        };
        in_rewrites = in_rewrites.saturating_add(end.is_rewriting as usize);
        rewrites = rewrites.saturating_add(end.rewrites);
    }
    // Some crashes come in rewrites, and some behind them.
    Ok(in_rewrites > 50 && rewrites > 200)
}

#[test]
fn a_crash_leaves_the_records_from_before_or_the_base(rt: HostRuntime) -> Result<(), Fail> {
    assert!(rt; all_end_well(rt.alloc(), TornWrites::OldOrNew)?);
    Ok(())
}

#[test]
fn also_where_torn_writes_leave_any_bytes(rt: HostRuntime) -> Result<(), Fail> {
    assert!(rt; all_end_well(rt.alloc(), TornWrites::Any)?);
    Ok(())
}

#[test]
fn a_journal_that_is_rewritten_never_gets_full(rt: HostRuntime) -> Result<(), Fail> {
    let alloc = rt.alloc();
    let mut random = Xoshiro256PlusPlus::seed_from_u64(1);
    let device = Memory::new(alloc, vec![in alloc; 9u8; WHOLE]?, TornWrites::OldOrNew);
    let journal = Journal::create(alloc, device, HALF, LEN)?;
    let written = write_and_rewrite(alloc, journal, &mut random)?;
    assert!(rt; written.rewrites > 30);
    let device = written.journal.into_device();
    let kept = count_journal(alloc, device.bytes(), HALF, LEN, TornWrites::OldOrNew)?;
    assert_eq!(rt; kept, Some(written.acknowledged));
    Ok(())
}

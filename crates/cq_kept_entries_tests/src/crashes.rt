//! Entries on a file whose machine loses its power.
ghost use Rattle.std.specs.Prelude.{OnOk};
ghost use Rattle.cq_kept_entries.specs.Kept.{IsKept};

use crate::keeping::{Broken, HALF, LEN, WHOLE, goes_on, keep, open, store_of};
use cq_disk::{Device, Modelled, TornWrites, Unknown};
use cq_kept_entries::KeptEntries;
use cq_records_tests::Simulated;
use rand_xoshiro::Xoshiro256PlusPlus;
use rand_xoshiro::rand_core::{Rng, SeedableRng};
use std::alloc::Global;
use std::test::Fail;

const SEEDS: u64 = 300;

const TORN: TornWrites = TornWrites::OldOrNew;

/// Rewrites what is kept, or leaves it.
fn rewrite_or_leave<D: Device>(
    alloc: Global,
    kept: &mut KeptEntries<D>,
    random: &mut Xoshiro256PlusPlus,
    count: u64,
) -> Result<(), Broken>
    requires { IsKept kept.old }
    ensures { OnOk result (IsKept kept.new) }
{
    if random.next_u32() % 2 == 1 {
        return Ok(());
    }
    kept.rewrite(&store_of(alloc, count)?)?;
    Ok(())
}

/// Keeps two entries at a time, and rewrites what is kept behind some of them, up to the first fault. `told` has how many were kept.
fn keep_and_rewrite<D: Device>(
    alloc: Global,
    kept: &mut KeptEntries<D>,
    random: &mut Xoshiro256PlusPlus,
    told: &mut u64,
) -> Result<(), Broken>
    requires { IsKept kept.old }
    ensures { OnOk result (IsKept kept.new) }
{
    for pair in 0..6u64 {
        let first = pair * 2 + 1;
        keep(alloc, kept, first, first + 1)?;
        *told = first + 1;
        rewrite_or_leave(alloc, kept, random, *told)?;
    }
    Ok(())
}

/// Whether what a crash leaves are all entries that were told, or these and the two that were being kept.
fn is_kept(alloc: Global, seed: u64) -> Result<bool, Fail> {
    let mut random = Xoshiro256PlusPlus::seed_from_u64(seed);
    let file = Simulated::new(
        alloc,
        &vec![in alloc; 7u8; WHOLE]?,
        1 + random.next_u64() % 250,
    )?;
    let device: Modelled<Simulated, Unknown> = Modelled::new(file, WHOLE, TORN);
    let Ok(mut first) = KeptEntries::create(alloc, device, HALF, LEN) else {
        return Ok(true);
    };
    let mut told = 0;
    let _ = keep_and_rewrite(alloc, &mut first, &mut random, &mut told);
    let file = first.into_journal().into_device().into_calls();
    let medium = file.into_medium(&mut random, TORN);
    let (_, mut store) = open(alloc, medium)?;
    let count = store.count();
    let is_told = count == told || count == told.saturating_add(2);
    Ok(goes_on(alloc, &mut store, count)? && is_told)
}

#[test]
fn a_crash_leaves_all_entries_of_a_batch_or_none(rt: HostRuntime) -> Result<(), Fail> {
    for seed in 0..SEEDS {
        assert!(rt; is_kept(rt.alloc(), seed)?, "seed {seed}");
    }
    Ok(())
}

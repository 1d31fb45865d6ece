//! Logs whose machine loses its power in the middle of a call that a seed chooses.
use crate::{Simulated, count_records, fill};
use cq_disk::{Memory, Modelled, TornWrites, Unknown};
use cq_records::{Log, ReadFault};
use rand_xoshiro::Xoshiro256PlusPlus;
use rand_xoshiro::rand_core::{Rng, SeedableRng};
use std::alloc::Global;
use std::test::Fail;

const SEEDS: u64 = 1_000;

/// Whether what the crash leaves has each record that was acknowledged, and of the others only so many of the batch
/// under way, from the first on.
fn is_kept(alloc: Global, seed: u64, torn: TornWrites) -> Result<bool, ReadFault> {
    let mut random = Xoshiro256PlusPlus::seed_from_u64(seed);
    let stale = (random.next_u64() % 3) as u8;
    let bytes = vec![in alloc; stale; 300]?;
    let file = Simulated::new(alloc, &bytes, 1 + random.next_u64() % 60)?;
    let device: Modelled<Simulated, Unknown> = Modelled::new(file, bytes.len(), torn);
    let Ok(log) = Log::blank(device) else {
        return Ok(true);
    };
    let filled = fill(alloc, log, &mut random)?;
    let file = filled.log.device.into_calls();
    let medium = file.into_medium(&mut random, torn);
    let kept = count_records(alloc, Memory::new(alloc, medium, torn), 0)?;
    let least = filled.acknowledged;
    Ok(kept.is_some_and(|kept| least <= kept && kept - least <= filled.under_way))
}

#[test]
fn acknowledged_records_outlive_torn_writes(rt: HostRuntime) -> Result<(), Fail> {
    for seed in 0..SEEDS {
        assert!(rt; is_kept(rt.alloc(), seed, TornWrites::OldOrNew)?);
    }
    Ok(())
}

#[test]
fn with_two_syncs_they_outlive_any_bytes(rt: HostRuntime) -> Result<(), Fail> {
    for seed in 0..SEEDS {
        assert!(rt; is_kept(rt.alloc(), seed, TornWrites::Any)?);
    }
    Ok(())
}

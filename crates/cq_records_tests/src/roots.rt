//! Roots whose machine loses its power in the middle of a call that a seed chooses.
use crate::{Simulated, change, count_changes};
use cq_disk::{Memory, Modelled, TornWrites, Unknown};
use cq_journal::create;
use cq_records::ReadFault;
use rand_xoshiro::Xoshiro256PlusPlus;
use rand_xoshiro::rand_core::{Rng, SeedableRng};
use std::alloc::Global;
use std::test::Fail;

const SEEDS: u64 = 1_000;

/// The length of a half.
const HALF: usize = 40;

/// Whether what the crash leaves has the last text that was acknowledged or the next one, and all that lies behind
/// the root.
fn is_kept(alloc: Global, seed: u64, torn: TornWrites) -> Result<bool, ReadFault> {
    let mut random = Xoshiro256PlusPlus::seed_from_u64(seed);
    let bytes = vec![in alloc; 7u8; 100]?;
    let file = Simulated::new(alloc, &bytes, 1 + random.next_u64() % 200)?;
    let device: Modelled<Simulated, Unknown> = Modelled::new(file, 100, torn);
    let Ok(root) = create(alloc, device, HALF, b"") else {
        return Ok(true);
    };
    let changed = change(alloc, root)?;
    let file = changed.root.log.device.into_device().into_calls();
    let medium = file.into_medium(&mut random, torn);
    let has_all_behind = medium.iter().skip(2 * HALF).all(|byte| *byte == 7);
    let kept = count_changes(alloc, Memory::new(alloc, medium, torn), HALF)?;
    let least = changed.changes;
    Ok(has_all_behind && kept.is_some_and(|kept| least <= kept && kept - least <= 1))
}

#[test]
fn a_root_is_the_old_one_or_the_new_one(rt: HostRuntime) -> Result<(), Fail> {
    for seed in 0..SEEDS {
        assert!(rt; is_kept(rt.alloc(), seed, TornWrites::OldOrNew)?);
    }
    Ok(())
}

#[test]
fn whatever_torn_writes_leave(rt: HostRuntime) -> Result<(), Fail> {
    for seed in 0..SEEDS {
        assert!(rt; is_kept(rt.alloc(), seed, TornWrites::Any)?);
    }
    Ok(())
}

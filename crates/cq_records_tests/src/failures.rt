//! Journals whose calls fail, whose system takes for written what isn't on the medium, and whose power is lost later.
use crate::{Left, Simulated, count_journal, live};
use cq_disk::{Device, Modelled, TornWrites, Unknown};
use cq_journal::Journal;
use cq_records::ReadFault;
use rand_xoshiro::Xoshiro256PlusPlus;
use rand_xoshiro::rand_core::{Rng, SeedableRng};
use std::alloc::Global;
use std::test::Fail;

const SEEDS: u64 = 100;

/// The programs that open a journal one after another.
const LIVES: usize = 12;

/// The length of a half of the root.
const HALF: usize = 400;

/// The length of a region.
const LEN: usize = 64;

/// The length of a device with room for forty regions.
const WHOLE: usize = 2 * HALF + 40 * LEN;

const TORN: TornWrites = TornWrites::OldOrNew;

/// What a new journal leaves.
fn made(alloc: Global, random: &mut Xoshiro256PlusPlus) -> Result<Option<Left>, ReadFault> {
    let bytes = vec![in alloc; 1u8; WHOLE]?;
    let file = Simulated::new(alloc, &bytes, u64::MAX)?;
    let device: Modelled<Simulated, Unknown> = Modelled::new(file, WHOLE, TORN);
    let Ok(journal) = Journal::create(alloc, device, HALF, LEN) else {
        return Ok(None);
    };
    let file = journal.into_device().into_calls();
    Ok(Some(file.into_left(random, TORN)))
}

/// How many lives had their journal made ready for records. `None`: a journal wasn't opened, or its medium didn't have each
/// record that was acknowledged, once and in order, and of the others only such as were written.
fn recovered_lives(alloc: Global, seed: u64) -> Result<Option<usize>, ReadFault> {
    let mut random = Xoshiro256PlusPlus::seed_from_u64(seed);
    let Some(left) = made(alloc, &mut random)? else {
        return Ok(None);
    };
    let mut left = left;
    let mut acknowledged = 0;
    let mut recovered: usize = 0;
    for _ in 0..LIVES {
        let Some(first) = count_journal(alloc, &left.seen, HALF, LEN, TORN)? else {
            return Ok(None);
        };
        let calls = 1 + random.next_u64() % 100;
        let file = Simulated::over(alloc, &left.seen, &left.medium, calls)?;
        let device: Modelled<Simulated, Unknown> = Modelled::new(file, WHOLE, TORN);
        let Some(life) = live(alloc, device, HALF, LEN, first, &mut random)? else {
            return Ok(None);
        };
        if life.is_recovered {
            acknowledged = life.acknowledged;
            recovered = recovered.saturating_add(1);
        }
        let most = life.acknowledged.saturating_add(life.under_way);
        left = life.device.into_calls().into_left(&mut random, TORN);
        let Some(kept) = count_journal(alloc, &left.medium, HALF, LEN, TORN)? else {
            return Ok(None);
        };
        if kept < acknowledged || kept > most {
            return Ok(None);
        }
        if random.next_u64() % 3 == 0 {
            left.seen = left.medium.to_vec(alloc)?;
        }
    }
    Ok(Some(recovered))
}

#[test]
fn records_outlive_syncs_that_failed(rt: HostRuntime) -> Result<(), Fail> {
    let mut all: usize = 0;
    for seed in 0..SEEDS {
        let recovered = recovered_lives(rt.alloc(), seed)?;
        assert!(rt; recovered.is_some());
        all = all.saturating_add(recovered.unwrap_or(0));
    }
    // Some lives end before their journal is ready, and some go on behind it.
    assert!(rt; 100 < all && all < 1_100);
    Ok(())
}

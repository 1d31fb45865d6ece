//! Journals that are opened after crashes, and after crashes of that.
use crate::{Life, Simulated, count_journal, live};
use cq_disk::{Device, Modelled, TornWrites, Unknown};
use cq_journal::Journal;
use cq_records::ReadFault;
use rand_xoshiro::Xoshiro256PlusPlus;
use rand_xoshiro::rand_core::{Rng, SeedableRng};
use std::alloc::Global;
use std::test::Fail;

const SEEDS: u64 = 50;

/// The lives of each journal.
const LIVES: usize = 6;

/// The length of a half of the root.
const HALF: usize = 400;

/// The length of a region.
const LEN: usize = 64;

/// The length of a device with room for forty regions.
const WHOLE: usize = 2 * HALF + 40 * LEN;

/// What a new journal leaves on its medium.
fn made(
    alloc: Global,
    random: &mut Xoshiro256PlusPlus,
    torn: TornWrites,
) -> Result<Option<Vec<u8>>, ReadFault> {
    let stale = (random.next_u64() % 3) as u8;
    let bytes = vec![in alloc; stale; WHOLE]?;
    let file = Simulated::new(alloc, &bytes, u64::MAX)?;
    let device: Modelled<Simulated, Unknown> = Modelled::new(file, WHOLE, torn);
    let Ok(journal) = Journal::create(alloc, device, HALF, LEN) else {
        return Ok(None);
    };
    let file = journal.into_device().into_calls();
    Ok(Some(file.into_medium(random, torn)))
}

/// What is supposed of torn writes in a life.
fn kind_of(kinds: &[TornWrites], random: &mut Xoshiro256PlusPlus) -> TornWrites {
    let choice = (random.next_u64() % 2) as usize;
    match kinds.get(choice).or(kinds.first()) {
        Some(kind) => *kind,
        None => TornWrites::OldOrNew,
    }
}

/// How many lives had their journal made ready for records. `None`: a journal wasn't opened, or didn't have each record that
/// was acknowledged, once and in order, and of the others only so many of the batch under way, from the first on.
fn recovered_lives(
    alloc: Global,
    seed: u64,
    kinds: &[TornWrites],
) -> Result<Option<usize>, ReadFault> {
    let mut random = Xoshiro256PlusPlus::seed_from_u64(seed);
    let first_kind = kind_of(kinds, &mut random);
    let Some(medium) = made(alloc, &mut random, first_kind)? else {
        return Ok(None);
    };
    let mut medium = medium;
    let mut first = 0;
    let mut recovered: usize = 0;
    for _ in 0..LIVES {
        let torn = kind_of(kinds, &mut random);
        let file = Simulated::new(alloc, &medium, 1 + random.next_u64() % 150)?;
        let device: Modelled<Simulated, Unknown> = Modelled::new(file, WHOLE, torn);
        let Some(life) = live(alloc, device, HALF, LEN, first, &mut random)? else {
            return Ok(None);
        };
        let Life {
            device,
            acknowledged,
            under_way,
            is_recovered,
        } = life;
        medium = device.into_calls().into_medium(&mut random, torn);
        let Some(kept) = count_journal(alloc, &medium, HALF, LEN, torn)? else {
            return Ok(None);
        };
        if kept < acknowledged || kept - acknowledged > under_way {
            return Ok(None);
        }
        first = kept;
        recovered = recovered.saturating_add(is_recovered as usize);
    }
    Ok(Some(recovered))
}

fn all_recovered(alloc: Global, kinds: &[TornWrites]) -> Result<Option<usize>, ReadFault> {
    let mut all: usize = 0;
    for seed in 0..SEEDS {
        let Some(recovered) = recovered_lives(alloc, seed, kinds)? else {
            return Ok(None);
        };
        all = all.saturating_add(recovered);
    }
    Ok(Some(all))
}

#[test]
fn records_outlive_crashes_of_recoveries(rt: HostRuntime) -> Result<(), Fail> {
    let recovered = all_recovered(rt.alloc(), &[TornWrites::OldOrNew])?;
    // Some lives end in the recovery, and some go on behind it.
    assert!(rt; recovered.is_some_and(|lives| 50 < lives && lives < 280));
    Ok(())
}

#[test]
fn also_where_torn_writes_leave_anything(rt: HostRuntime) -> Result<(), Fail> {
    let recovered = all_recovered(rt.alloc(), &[TornWrites::Any])?;
    assert!(rt; recovered.is_some_and(|lives| 50 < lives && lives < 280));
    Ok(())
}

#[test]
fn also_where_one_life_syncs_once_and_another_twice(rt: HostRuntime) -> Result<(), Fail> {
    let kinds = [TornWrites::OldOrNew, TornWrites::Any];
    let recovered = all_recovered(rt.alloc(), &kinds)?;
    assert!(rt; recovered.is_some_and(|lives| 50 < lives && lives < 280));
    Ok(())
}

//! Kept sessions on a file whose machine loses its power in the middle of a call that a seed chooses.
use crate::taking::{HALF, LEN, LINES, WHOLE, kept_lines, open, session_text, take_pieces};
use cq_base::ChainSize;
use cq_disk::{Modelled, TornWrites, Unknown};
use cq_kept_session::KeptSession;
use cq_records_tests::Simulated;
use rand_xoshiro::Xoshiro256PlusPlus;
use rand_xoshiro::rand_core::{Rng, SeedableRng};
use std::alloc::Global;
use std::test::Fail;

const SEEDS: u64 = 300;

const TORN: TornWrites = TornWrites::OldOrNew;

/// Whether lines begin with those that are kept, of which the last may have been ended.
fn begins_with(lines: &[u8], kept: &[u8]) -> bool {
    match kept.strip_suffix(b"\n") {
        Some(cut) => lines.starts_with(cut),
        None => lines.starts_with(kept),
    }
}

/// Whether what the crash leaves is a session that was asked some of the lines, from the first on, and would have
/// written all that was told.
fn is_kept(alloc: Global, seed: u64) -> Result<bool, Fail> {
    let mut random = Xoshiro256PlusPlus::seed_from_u64(seed);
    let file = Simulated::new(
        alloc,
        &vec![in alloc; 7u8; WHOLE]?,
        1 + random.next_u64() % 80,
    )?;
    let device: Modelled<Simulated, Unknown> = Modelled::new(file, WHOLE, TORN);
    let Ok(mut first) = KeptSession::create(alloc, ChainSize::one(), device, HALF, LEN) else {
        return Ok(true);
    };
    let mut told = Vec::new(alloc);
    let _ = take_pieces(&mut first, LINES, 40, &mut told);
    let file = first.into_journal().into_device().into_calls();
    let medium = file.into_medium(&mut random, TORN);
    let kept = kept_lines(alloc, open(alloc, medium)?)?;
    let text = session_text(alloc, &kept);
    Ok(begins_with(LINES, &kept) && text.starts_with(&told))
}

#[test]
fn nobody_is_told_what_a_crash_takes(rt: HostRuntime) -> Result<(), Fail> {
    for seed in 0..SEEDS {
        assert!(rt; is_kept(rt.alloc(), seed)?, "seed {seed}");
    }
    Ok(())
}

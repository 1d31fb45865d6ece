//! Journals whose machine loses its power in the middle of a call that a seed chooses.
ghost use Rattle.std.specs.Prelude.{OnOk};
ghost use Rattle.cq_journal.specs.Journal.{IsJournal};

use crate::{Simulated, count_journal, write};
use cq_disk::{Device, Memory, Modelled, TornWrites, Unknown};
use cq_journal::Journal;
use cq_records::{Batch, LogFault, ReadFault, is_text};
use rand_xoshiro::Xoshiro256PlusPlus;
use rand_xoshiro::rand_core::{Rng, SeedableRng};
use std::alloc::Global;
use std::test::Fail;

const SEEDS: u64 = 1_000;

/// The length of a half of the root.
const HALF: usize = 60;

/// The length of a region.
const LEN: usize = 64;

/// The length of a device with room for five regions.
const WHOLE: usize = 2 * HALF + 5 * LEN;

/// The file that stands in docs/JOURNAL.md.
const EXAMPLE: [u8; 128] = [
    0x02, 0x12, 0x02, 0x02, 0x1a, 0xa0, 0xc7, 0xb7, 0x01, 0x05, 0x02, 0x02, 0x02, 0x02, 0x02, 0x42,
    0x02, 0x02, 0x02, 0x02, 0x62, 0x02, 0x02, 0x02, 0x02, 0x00, 0x00, 0x00, 0x00, 0x00, 0x00, 0x00,
    0x02, 0x12, 0x02, 0x02, 0x99, 0xad, 0xa8, 0x22, 0x01, 0x04, 0x02, 0x02, 0x02, 0x02, 0x02, 0x42,
    0x02, 0x02, 0x02, 0x02, 0x62, 0x02, 0x02, 0x02, 0x02, 0x00, 0x00, 0x00, 0x00, 0x00, 0x00, 0x00,
    0x02, 0x04, 0x02, 0x02, 0x22, 0xba, 0xbb, 0xdf, 0x01, 0x68, 0x69, 0x02, 0x05, 0x02, 0x02, 0xee,
    0xff, 0xdb, 0x6a, 0x01, 0x79, 0x6f, 0x75, 0x00, 0x00, 0x00, 0x00, 0x00, 0x00, 0x00, 0x00, 0x00,
    0x02, 0x03, 0x02, 0x02, 0x81, 0x32, 0x33, 0xa4, 0x01, 0x21, 0x00, 0x00, 0x00, 0x00, 0x00, 0x00,
    0x00, 0x00, 0x00, 0x00, 0x00, 0x00, 0x00, 0x00, 0x00, 0x00, 0x00, 0x00, 0x00, 0x00, 0x00, 0x00,
];

/// Whether what the crash leaves has each record that was acknowledged, once and in order, and of the others only so many
/// of the batch under way, from the first on.
fn is_kept(alloc: Global, seed: u64, torn: TornWrites) -> Result<bool, ReadFault> {
    let mut random = Xoshiro256PlusPlus::seed_from_u64(seed);
    let stale = (random.next_u64() % 3) as u8;
    let bytes = vec![in alloc; stale; WHOLE]?;
    let file = Simulated::new(alloc, &bytes, 1 + random.next_u64() % 200)?;
    let device: Modelled<Simulated, Unknown> = Modelled::new(file, WHOLE, torn);
    let Ok(journal) = Journal::create(alloc, device, HALF, LEN) else {
        return Ok(true);
    };
    let written = write(alloc, journal, 0, &mut random)?;
    let file = written.journal.into_device().into_calls();
    let medium = file.into_medium(&mut random, torn);
    let kept = count_journal(alloc, &medium, HALF, LEN, torn)?;
    let least = written.acknowledged;
    Ok(kept.is_some_and(|kept| least <= kept && kept - least <= written.under_way))
}

#[test]
fn acknowledged_records_outlive_changes_of_regions(rt: HostRuntime) -> Result<(), Fail> {
    for seed in 0..SEEDS {
        assert!(rt; is_kept(rt.alloc(), seed, TornWrites::OldOrNew)?);
    }
    Ok(())
}

#[test]
fn also_where_torn_writes_leave_any_bytes(rt: HostRuntime) -> Result<(), Fail> {
    for seed in 0..SEEDS {
        assert!(rt; is_kept(rt.alloc(), seed, TornWrites::Any)?);
    }
    Ok(())
}

#[test]
fn a_journal_fills_all_regions(rt: HostRuntime) -> Result<(), Fail> {
    let alloc = rt.alloc();
    let mut random = Xoshiro256PlusPlus::seed_from_u64(1);
    let device = Memory::new(alloc, vec![in alloc; 9u8; WHOLE]?, TornWrites::OldOrNew);
    let journal = Journal::create(alloc, device, HALF, LEN)?;
    let written = write(alloc, journal, 0, &mut random)?;
    assert_eq!(rt; written.begun, 4);
    let bytes = written.journal.into_device();
    let kept = count_journal(alloc, bytes.bytes(), HALF, LEN, TornWrites::OldOrNew)?;
    assert_eq!(rt; kept, Some(written.acknowledged));
    assert!(rt; written.acknowledged > 10);
    Ok(())
}

fn add<D: Device>(alloc: Global, journal: &mut Journal<D>, record: &[u8]) -> Result<(), LogFault>
    requires { IsJournal journal.old }
    ensures { OnOk result (IsJournal journal.new) }
{
    let mut batch = Batch::new(alloc);
    if is_text(record) {
        batch.add(record)?;
    }
    journal.commit(&batch)
}

#[test]
fn a_journal_has_the_bytes_of_the_page(rt: HostRuntime) -> Result<(), Fail> {
    let alloc = rt.alloc();
    let device = Memory::new(alloc, vec![in alloc; 9u8; 128]?, TornWrites::OldOrNew);
    let mut journal = Journal::create(alloc, device, 32, 32)?;
    add(alloc, &mut journal, b"hi")?;
    add(alloc, &mut journal, b"you")?;
    journal.next_region(alloc, 96)?;
    add(alloc, &mut journal, b"!")?;
    let device = journal.into_device();
    assert_eq!(rt; device.bytes(), EXAMPLE.as_slice());
    Ok(())
}

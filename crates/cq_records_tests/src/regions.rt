//! The regions of a journal, read one by one.
ghost use Rattle.std.specs.Prelude.{OnOk, IfOk};
ghost use Rattle.cq_journal.specs.Journal.{IsJournal};

use cq_disk::{Device, Memory, TornWrites};
use cq_journal::{Journal, OpenFault, RegionFault};
use cq_records::{Batch, LogFault, is_text};
use std::alloc::Global;
use std::test::Fail;

/// The length of a half of the root, and of a region.
const LEN: usize = 32;

/// The length of a device with room for three regions.
const WHOLE: usize = 5 * LEN;

fn append<D: Device>(alloc: Global, journal: &mut Journal<D>, record: &[u8]) -> Result<(), LogFault>
    requires { IsJournal journal.old }
    ensures { OnOk result (IsJournal journal.new) }
{
    let mut batch = Batch::new(alloc);
    if is_text(record) {
        batch.add(record)?;
    }
    journal.append(alloc, &batch)
}

/// A journal with two records in its first region, and one in the next.
fn journal_of_two_regions(alloc: Global) -> Result<Journal<Memory>, LogFault>
    ensures { IfOk result IsJournal }
{
    let bytes = vec![in alloc; 9u8; WHOLE]?;
    let device = Memory::new(alloc, bytes, TornWrites::OldOrNew);
    let mut journal = Journal::create(alloc, device, LEN, LEN)?;
    append(alloc, &mut journal, b"hi")?;
    append(alloc, &mut journal, b"you")?;
    append(alloc, &mut journal, b"!")?;
    Ok(journal)
}

/// Opens the journal that bytes have.
fn open(alloc: Global, bytes: Vec<u8>) -> Result<Journal<Memory>, OpenFault>
    ensures { IfOk result IsJournal }
{
    if bytes.len() < 2 * LEN {
        return Err(OpenFault::NoJournal);
    }
    let device = Memory::new(alloc, bytes, TornWrites::OldOrNew);
    Journal::open(alloc, device, LEN, LEN)
}

/// The records of a region, one behind the other. `None`: there is no such region.
fn read<D: Device>(
    alloc: Global,
    journal: &mut Journal<D>,
    index: usize,
) -> Result<Option<Vec<u8>>, RegionFault>
    requires { IsJournal journal.old }
    ensures { IsJournal journal.new }
{
    if index >= journal.region_count() {
        return Ok(None);
    }
    let mut text = Vec::new(alloc);
    journal.read_region(alloc, index, &mut text)?;
    Ok(Some(text))
}

#[test]
fn a_record_without_room_goes_to_the_next_region(rt: HostRuntime) -> Result<(), Fail> {
    let alloc = rt.alloc();
    let mut journal = journal_of_two_regions(alloc)?;
    assert_eq!(rt; journal.region_count(), 2);
    assert_eq!(rt;
        read(alloc, &mut journal, 0)?.as_deref(),
        Some(b"hiyou".as_slice())
    );
    assert_eq!(rt;
        read(alloc, &mut journal, 1)?.as_deref(),
        Some(b"!".as_slice())
    );
    assert_eq!(rt; read(alloc, &mut journal, 2)?.as_deref(), None);
    Ok(())
}

#[test]
fn a_record_longer_than_a_region_takes_none(rt: HostRuntime) -> Result<(), Fail> {
    let alloc = rt.alloc();
    let mut journal = journal_of_two_regions(alloc)?;
    let refused = append(alloc, &mut journal, &[b'x'; LEN - 8]);
    assert_eq!(rt; refused, Err(LogFault::Full));
    assert_eq!(rt; journal.region_count(), 2);
    Ok(())
}

#[test]
fn damage_is_told_with_its_place(rt: HostRuntime) -> Result<(), Fail> {
    let alloc = rt.alloc();
    let journal = journal_of_two_regions(alloc)?;
    let device = journal.into_device();
    let mut bytes = device.bytes().to_vec(alloc)?;
    // The first letter of "you", whose frame begins behind that of "hi", which has 11 bytes.
    if let Some(byte) = bytes.get_mut(2 * LEN + 20) {
        *byte = b'Y';
    }
    let mut journal = open(alloc, bytes)?;
    let damaged = RegionFault::Damaged(2 * LEN + 11);
    assert_eq!(rt; read(alloc, &mut journal, 0), Err(damaged));
    assert_eq!(rt;
        read(alloc, &mut journal, 1)?.as_deref(),
        Some(b"!".as_slice())
    );
    Ok(())
}

/// The journal whose root has lost one of its halves: a disk gives zeros there.
fn without_half(alloc: Global, half: usize) -> Result<Journal<Memory>, OpenFault>
    ensures { IfOk result IsJournal }
{
    let journal = journal_of_two_regions(alloc)?;
    let device = journal.into_device();
    let mut bytes = device.bytes().to_vec(alloc)?;
    for place in 0..LEN {
        if let Some(byte) = bytes.get_mut(half.saturating_mul(LEN).saturating_add(place)) {
            *byte = 0;
        }
    }
    open(alloc, bytes)
}

#[test]
fn a_root_that_lost_a_half_names_all_regions(rt: HostRuntime) -> Result<(), Fail> {
    let alloc = rt.alloc();
    for half in 0..2 {
        let mut journal = without_half(alloc, half)?;
        assert_eq!(rt; journal.region_count(), 2);
        assert_eq!(rt;
            read(alloc, &mut journal, 0)?.as_deref(),
            Some(b"hiyou".as_slice())
        );
        assert_eq!(rt;
            read(alloc, &mut journal, 1)?.as_deref(),
            Some(b"!".as_slice())
        );
    }
    Ok(())
}

/// What is read of the first of two regions, once the byte at this place of it has become zero.
fn read_without(
    alloc: Global,
    place: usize,
) -> Result<Result<Option<Vec<u8>>, RegionFault>, OpenFault> {
    let journal = journal_of_two_regions(alloc)?;
    let device = journal.into_device();
    let mut bytes = device.bytes().to_vec(alloc)?;
    if let Some(byte) = bytes.get_mut((2 * LEN).saturating_add(place)) {
        *byte = 0;
    }
    let mut journal = open(alloc, bytes)?;
    Ok(read(alloc, &mut journal, 0))
}

#[test]
fn a_region_that_does_not_grow_loses_no_record_in_silence(rt: HostRuntime) -> Result<(), Fail> {
    let alloc = rt.alloc();
    // A byte of the frame of "hi", which has 11 bytes, and one of that of "you", which has 12.
    for place in 0..23 {
        let begin = if place < 11 { 2 * LEN } else { 2 * LEN + 11 };
        assert_eq!(rt;
            read_without(alloc, place)?,
            Err(RegionFault::Damaged(begin))
        );
    }
    Ok(())
}

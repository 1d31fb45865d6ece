//! Journals of which bytes change on their medium.
ghost use Rattle.std.specs.Prelude.{IfOk, OnOk};
ghost use Rattle.cq_journal.specs.Journal.{IsJournal};

use crate::text_of;
use cq_disk::{Device, Memory, TornWrites};
use cq_journal::{Journal, OpenFault};
use cq_records::{Batch, LogFault, is_text};
use std::alloc::{AllocError, Global};
use std::test::Fail;

/// The length of a half of the root.
const HALF: usize = 60;

/// The length of a region.
const LEN: usize = 500;

/// The length of a device with room for two regions.
const WHOLE: usize = 2 * HALF + 2 * LEN;

/// The bytes of a journal with one region that counts.
#[derive(Drop)]
struct Written {
    bytes: Vec<u8>,
    /// Where its region begins.
    region: usize,
    /// Where its last batch begins in the region, and where it ends.
    last: usize,
    end: usize,
}

impl Written {
    /// The byte at a place in the region.
    fn byte_at(&self, place: usize) -> u8 {
        match self.bytes.get(self.region.saturating_add(place)) {
            Some(byte) => *byte,
            None => 0,
        }
    }
}

/// A batch of up to three records.
fn batch_of(alloc: Global, number: usize) -> Result<Batch, AllocError> {
    let mut batch = Batch::new(alloc);
    for more in 0..number % 3 + 1 {
        let text = text_of(alloc, number.saturating_mul(7).saturating_add(more))?;
        if is_text(&text) {
            batch.add(&text)?;
        }
    }
    Ok(batch)
}

/// Commits such a batch, and gives its length.
fn commit<D: Device>(
    alloc: Global,
    journal: &mut Journal<D>,
    number: usize,
) -> Result<usize, LogFault>
    requires { IsJournal journal.old }
    ensures { OnOk result (IsJournal journal.new) }
{
    let batch = batch_of(alloc, number)?;
    journal.commit(&batch)?;
    Ok(batch.as_slice().len())
}

/// A journal of eight commits.
fn make_journal(alloc: Global, torn: TornWrites) -> Result<Written, LogFault> {
    let device = Memory::new(alloc, vec![in alloc; 9u8; WHOLE]?, torn);
    let mut journal = Journal::create(alloc, device, HALF, LEN)?;
    let lengths = [
        commit(alloc, &mut journal, 1)?,
        commit(alloc, &mut journal, 2)?,
        commit(alloc, &mut journal, 3)?,
        commit(alloc, &mut journal, 4)?,
        commit(alloc, &mut journal, 5)?,
        commit(alloc, &mut journal, 6)?,
        commit(alloc, &mut journal, 7)?,
    ];
    let mut last: usize = 0;
    for length in lengths {
        last = last.saturating_add(length);
    }
    let more = commit(alloc, &mut journal, 8)?;
    let device = journal.into_device();
    Ok(Written {
        bytes: device.bytes().to_vec(alloc)?,
        region: 2 * HALF,
        last,
        end: last.saturating_add(more),
    })
}

/// The journal that such bytes have.
fn open(alloc: Global, bytes: Vec<u8>) -> Result<Journal<Memory>, OpenFault>
    ensures { IfOk result IsJournal }
{
    if bytes.len() < 2 * HALF {
        return Err(OpenFault::NoJournal);
    }
    Journal::open(
        alloc,
        Memory::new(alloc, bytes, TornWrites::OldOrNew),
        HALF,
        LEN,
    )
}

/// Such a journal whose records were written into the second region at once.
fn in_second(alloc: Global, journal: &Written, device: &Memory) -> Result<Written, OpenFault> {
    // The last record of the eighth commit.
    let last = text_of(alloc, 58)?;
    let frame = last.len().saturating_add(9);
    Ok(Written {
        bytes: device.bytes().to_vec(alloc)?,
        region: 2 * HALF + LEN,
        last: journal.end.saturating_sub(frame),
        end: journal.end,
    })
}

/// Such a journal behind an opening.
fn opened(alloc: Global, journal: &Written) -> Result<Written, OpenFault> {
    let again = open(alloc, journal.bytes.to_vec(alloc)?)?;
    in_second(alloc, journal, &again.into_device())
}

/// A copy of such a journal.
fn copied(alloc: Global, journal: &Written) -> Result<Written, OpenFault> {
    let mut from = open(alloc, journal.bytes.to_vec(alloc)?)?;
    let device = Memory::new(alloc, vec![in alloc; 9u8; WHOLE]?, TornWrites::OldOrNew);
    let mut to = Journal::create(alloc, device, HALF, LEN)?;
    from.copy_into(alloc, &mut to)?;
    in_second(alloc, journal, &to.into_device())
}

/// Why a journal isn't opened of which the byte at a place in the region has become that one. `None`: it is.
fn refused_with(
    alloc: Global,
    journal: &Written,
    place: usize,
    byte: u8,
) -> Result<Option<OpenFault>, AllocError> {
    let mut bytes = journal.bytes.to_vec(alloc)?;
    if let Some(there) = bytes.get_mut(journal.region.saturating_add(place)) {
        *there = byte;
    }
    Ok(open(alloc, bytes).err())
}

/// Whether a journal is told to be damaged wherever one bit before its last batch has changed.
fn tells_each_bit(alloc: Global, journal: &Written) -> Result<bool, AllocError> {
    for place in 0..journal.last.min(LEN) {
        let byte = journal.byte_at(place);
        for bit in [1u8, 2, 4, 8, 16, 32, 64, 128] {
            if refused_with(alloc, journal, place, byte ^ bit)? != Some(OpenFault::Damaged) {
                return Ok(false);
            }
        }
    }
    Ok(true)
}

#[test]
fn no_bit_before_the_last_commit_is_lost_in_silence(rt: HostRuntime) -> Result<(), Fail> {
    let alloc = rt.alloc();
    let journal = make_journal(alloc, TornWrites::OldOrNew)?;
    assert!(rt; 150 < journal.last && journal.last < LEN);
    assert!(rt; tells_each_bit(alloc, &journal)?);
    Ok(())
}

#[test]
fn nor_behind_an_opening_but_in_the_last_record(rt: HostRuntime) -> Result<(), Fail> {
    let alloc = rt.alloc();
    let journal = opened(alloc, &make_journal(alloc, TornWrites::OldOrNew)?)?;
    assert!(rt; 150 < journal.last && journal.last < LEN);
    assert!(rt; tells_each_bit(alloc, &journal)?);
    // The last record may be a torn one.
    assert_eq!(rt; refused_with(alloc, &journal, journal.last, 0)?, None);
    Ok(())
}

#[test]
fn nor_in_a_copy_but_in_the_last_record(rt: HostRuntime) -> Result<(), Fail> {
    let alloc = rt.alloc();
    let journal = copied(alloc, &make_journal(alloc, TornWrites::OldOrNew)?)?;
    assert!(rt; 150 < journal.last && journal.last < LEN);
    assert!(rt; tells_each_bit(alloc, &journal)?);
    assert_eq!(rt; refused_with(alloc, &journal, journal.last, 0)?, None);
    Ok(())
}

#[test]
fn no_byte_before_it_becomes_zero_in_silence(rt: HostRuntime) -> Result<(), Fail> {
    let alloc = rt.alloc();
    let journal = make_journal(alloc, TornWrites::OldOrNew)?;
    for place in 0..journal.last.min(LEN) {
        let refused = refused_with(alloc, &journal, place, 0)?;
        assert_eq!(rt; refused, Some(OpenFault::Damaged));
    }
    Ok(())
}

#[test]
fn a_last_commit_that_lost_a_byte_is_a_torn_one(rt: HostRuntime) -> Result<(), Fail> {
    let alloc = rt.alloc();
    let journal = make_journal(alloc, TornWrites::OldOrNew)?;
    for place in journal.last.min(LEN)..journal.end.min(LEN) {
        assert_eq!(rt; refused_with(alloc, &journal, place, 0)?, None);
    }
    Ok(())
}

#[test]
fn with_two_syncs_whatever_is_behind_the_records_is_let_be(rt: HostRuntime) -> Result<(), Fail> {
    let alloc = rt.alloc();
    let journal = make_journal(alloc, TornWrites::Any)?;
    // The gate of the first frame.
    assert_eq!(rt; refused_with(alloc, &journal, 0, 0)?, None);
    Ok(())
}

#[test]
fn a_sector_of_zeros_is_told(rt: HostRuntime) -> Result<(), Fail> {
    let alloc = rt.alloc();
    let journal = make_journal(alloc, TornWrites::OldOrNew)?;
    for sector in 0..journal.last.min(LEN) / 16 {
        let mut bytes = journal.bytes.to_vec(alloc)?;
        for more in 0..16 {
            let place = sector.saturating_mul(16).saturating_add(more);
            if let Some(byte) = bytes.get_mut(journal.region.saturating_add(place)) {
                *byte = 0;
            }
        }
        assert_eq!(rt; open(alloc, bytes).err(), Some(OpenFault::Damaged));
    }
    Ok(())
}

//! Journals on a disk that gets full.
ghost use Rattle.cq_journal.specs.Journal.{IsJournal};

use crate::filling::add_records;
use crate::{Sparse, count_journal};
use cq_disk::{Device, Modelled, TornWrites, Unknown};
use cq_journal::Journal;
use cq_records::{Batch, LogFault, ReadFault};
use std::alloc::{AllocError, Global};
use std::test::Fail;

/// The length of a half of the root.
const HALF: usize = 60;

/// The length of a region.
const LEN: usize = 64;

/// The place of the second region.
const SECOND: usize = 2 * HALF + LEN;

/// The length of a file with room for five regions.
const WHOLE: usize = 2 * HALF + 5 * LEN;

const TORN: TornWrites = TornWrites::OldOrNew;

fn batch_of(alloc: Global, first: usize, many: usize) -> Result<Batch, AllocError> {
    let mut batch = Batch::new(alloc);
    add_records(alloc, &mut batch, first, many)?;
    Ok(batch)
}

/// Commits four records, finds neither room for two more nor space for another region, and commits one. `None`: a call
/// answered otherwise.
fn go_on_without_space<D: Device>(
    alloc: Global,
    journal: Journal<D>,
) -> Result<Option<Journal<D>>, AllocError>
    requires { IsJournal journal }
{
    let mut journal = journal;
    let four = batch_of(alloc, 0, 4)?;
    let Ok(()) = journal.commit(&four) else {
        return Ok(None);
    };
    let two = batch_of(alloc, 4, 2)?;
    let Err(LogFault::Full) = journal.commit(&two) else {
        return Ok(None);
    };
    let Err(LogFault::Full) = journal.next_region(alloc, SECOND) else {
        return Ok(None);
    };
    let Err(LogFault::Full) = journal.begin_base(alloc) else {
        return Ok(None);
    };
    let one = batch_of(alloc, 4, 1)?;
    let Ok(()) = journal.commit(&one) else {
        return Ok(None);
    };
    Ok(Some(journal))
}

/// How many records a journal has that went on without space, on a disk with space for its root and so many bytes more.
fn kept(alloc: Global, space: usize) -> Result<Option<usize>, ReadFault> {
    let file = Sparse::new(alloc, WHOLE, space.saturating_add(2 * HALF))?;
    let device: Modelled<Sparse, Unknown> = Modelled::new(file, WHOLE, TORN);
    let Ok(journal) = Journal::create(alloc, device, HALF, LEN) else {
        return Ok(None);
    };
    let Some(journal) = go_on_without_space(alloc, journal)? else {
        return Ok(None);
    };
    let file = journal.into_device().into_calls();
    count_journal(alloc, file.bytes(), HALF, LEN, TORN)
}

#[test]
fn a_journal_goes_on_where_there_is_no_space_for_a_region(rt: HostRuntime) -> Result<(), Fail> {
    for space in LEN..2 * LEN {
        assert_eq!(rt; kept(rt.alloc(), space)?, Some(5));
    }
    // There is space for a second region.
    assert_eq!(rt; kept(rt.alloc(), 2 * LEN)?, None);
    // There is none for the first one.
    assert_eq!(rt; kept(rt.alloc(), LEN - 1)?, None);
    Ok(())
}

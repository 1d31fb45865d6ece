//! Journals that are rewritten to few records whenever they have many regions.
ghost use Rattle.std.specs.Prelude.{OnOk};
ghost use Rattle.cq_journal.specs.Base.{IsBase};
ghost use Rattle.cq_journal.specs.Journal.{IsJournal};

use crate::filling::add_records;
use crate::text_of;
use crate::writing::go_on;
use cq_disk::Device;
use cq_journal::{Base, Journal};
use cq_records::{Batch, LogFault, is_text};
use rand_xoshiro::Xoshiro256PlusPlus;
use rand_xoshiro::rand_core::Rng;
use std::alloc::{AllocError, Global};

/// A rewrite leaves so many records.
pub const LEFT: usize = 9;

/// A journal that has no more regions than this isn't rewritten.
const FEW: usize = 3;

/// A journal, and what became of its records.
#[derive(Drop)]
pub struct Rewritten<D: Device> {
    pub journal: Journal<D>,
    /// So many records were acknowledged since the last rewrite, with those that it left.
    pub acknowledged: usize,
    /// So many more were in the batch whose commit failed.
    pub under_way: usize,
    /// Whether the call that failed was one of a rewrite.
    pub is_rewriting: bool,
    /// So many times it was rewritten.
    pub rewrites: usize,
}

/// What was done for a batch.
#[derive(Clone, Copy)]
enum Step {
    Committed,
    GoneOn,
    Rewritten,
}

/// Which call failed.
#[derive(Clone, Copy)]
enum Failure {
    Commit,
    GoOn,
    Rewrite,
}

fn add<D: Device>(
    alloc: Global,
    journal: &mut Journal<D>,
    base: &mut Base,
    batch: &Batch,
) -> Result<(), LogFault>
    requires journal { IsJournal journal.old }
    requires base { IsBase journal.old base.old }
    ensures journal { OnOk result (IsJournal journal.new) }
    ensures base { OnOk result (IsBase journal.new base.new) }
{
    match journal.add_to_base(base, batch) {
        Ok(()) => Ok(()),
        Err(LogFault::Full) => {
            journal.widen_base(alloc, base)?;
            journal.add_to_base(base, batch)
        }
        Err(fault) => Err(fault),
    }
}

fn batch_of(alloc: Global, number: usize) -> Result<Batch, AllocError> {
    let text = text_of(alloc, number)?;
    let mut batch = Batch::new(alloc);
    if is_text(&text) {
        batch.add(&text)?;
    }
    Ok(batch)
}

fn fill_base<D: Device>(
    alloc: Global,
    journal: &mut Journal<D>,
    base: &mut Base,
) -> Result<(), LogFault>
    requires journal { IsJournal journal.old }
    requires base { IsBase journal.old base.old }
    ensures journal { OnOk result (IsJournal journal.new) }
    ensures base { OnOk result (IsBase journal.new base.new) }
{
    for number in 0..LEFT {
        let batch = batch_of(alloc, number)?;
        add(alloc, journal, base, &batch)?;
    }
    Ok(())
}

fn rewrite<D: Device>(alloc: Global, journal: &mut Journal<D>) -> Result<(), LogFault>
    requires { IsJournal journal.old }
    ensures { OnOk result (IsJournal journal.new) }
{
    let mut base = journal.begin_base(alloc)?;
    fill_base(alloc, journal, &mut base)?;
    journal.rewrite(alloc, base)
}

fn advance<D: Device>(
    alloc: Global,
    journal: &mut Journal<D>,
    regions: usize,
    batch: &Batch,
) -> Result<Step, Failure>
    requires { IsJournal journal.old }
    ensures { OnOk result (IsJournal journal.new) }
{
    match journal.commit(batch) {
        Ok(()) => Ok(Step::Committed),
        Err(LogFault::Full) if regions < FEW => match go_on(alloc, journal) {
            Ok(()) => Ok(Step::GoneOn),
            Err(()) => Err(Failure::GoOn),
        },
        Err(LogFault::Full) => match rewrite(alloc, journal) {
            Ok(()) => Ok(Step::Rewritten),
            Err(_) => Err(Failure::Rewrite),
        },
        Err(_) => Err(Failure::Commit),
    }
}

/// Commits batches of up to three records, and rewrites the journal whenever it has many regions, until a call fails.
pub fn write_and_rewrite<D: Device>(
    alloc: Global,
    journal: Journal<D>,
    random: &mut Xoshiro256PlusPlus,
) -> Result<Rewritten<D>, AllocError>
    requires { IsJournal journal }
{
    let mut journal = journal;
    let (mut acknowledged, mut regions, mut rewrites): (usize, usize, usize) = (0, 1, 0);
    for _ in 0..1_000 {
        let mut batch = Batch::new(alloc);
        let many = (random.next_u64() % 4) as usize;
        let added = add_records(alloc, &mut batch, acknowledged, many)?;
        match advance(alloc, &mut journal, regions, &batch) {
            Ok(Step::Committed) => acknowledged = acknowledged.saturating_add(added),
            Ok(Step::GoneOn) => regions = regions.saturating_add(1),
            Ok(Step::Rewritten) => {
                acknowledged = LEFT;
                regions = 2;
                rewrites = rewrites.saturating_add(1);
            }
            Err(failure) => {
                return Ok(Rewritten {
                    journal,
                    acknowledged,
                    under_way: if matches!(failure, Failure::Commit) {
                        added
                    } else {
                        0
                    },
                    is_rewriting: matches!(failure, Failure::Rewrite),
                    rewrites,
                });
            }
        }
    }
    Ok(Rewritten {
        journal,
        acknowledged,
        under_way: 0,
        is_rewriting: false,
        rewrites,
    })
}

//! What a journal of entries has, as it is read and not gone on with.
ghost use Rattle.std.specs.Prelude.{◌≡◌, ◌+◌, ◌++◌, List, ℕ, [], length, IfOk, IsTrue};
ghost use Rattle.cq_journal.specs.Journal.{HasRegions, StaysJournal, journal_device, journal_records, journal_regions};
ghost use Rattle.cq_journal.specs.Rests.{Rests};
ghost use Rattle.cq_records.specs.Frames.{joined};
ghost use Rattle.cq_kept_entries.specs.Contents.{Holds};
ghost use Rattle.cq_kept_entries.specs.within.Readers.{IsSoFar};

use crate::StartFault;
use crate::reader::EntriesReader;
use cq_disk::Device;
use cq_journal::{Journal, OpenFault};
use cq_store::Store;
use std::alloc::Global;

/// What a journal of entries has.
#[derive(Drop)]
pub struct EntriesContents {
    /// How many regions count.
    pub regions: usize,
    /// How many records they have.
    pub records: usize,
    /// How many bytes these records have.
    pub bytes: usize,
    /// The store of all entries. None: no record has come.
    pub store: Option<Store>,
}

/// Contents that are being read.
#[derive(Drop)]
pub(crate) struct ContentsReader {
    pub(crate) reader: EntriesReader,
    pub(crate) records: usize,
    pub(crate) bytes: usize,
}

/// The sum of two numbers. A fault: no bytes of so many regions can be told apart.
fn sum(first: usize, second: usize) -> Result<usize, StartFault>
    ensures { IfOk result (λ sum. sum ≡ first + second) }
{
    match first.checked_add(second) {
        Some(sum) => Ok(sum),
        None => Err(StartFault::Open(OpenFault::Damaged)),
    }
}

impl ContentsReader {
    /// Nothing was read.
    fn new(alloc: Global) -> ContentsReader
        ensures { IsSoFar [] result }
    {
        ContentsReader {
            reader: EntriesReader::new(alloc),
            records: 0,
            bytes: 0,
        }
    }

    /// Adds so many records, whose texts these bytes are.
    fn add(self, count: usize, text: &[u8]) -> Result<ContentsReader, StartFault>
        ensures { (before more : List (List ℕ)) → IsSoFar before self → count ≡ length more → text.now ≡ joined more
            → IfOk result (IsSoFar (before ++ more)) }
    {
        let ContentsReader {
            reader,
            records,
            bytes,
        } = self;
        let reader = reader.feed(text)?;
        let records = sum(records, count)?;
        let bytes = sum(bytes, text.len())?;
        Ok(ContentsReader {
            reader,
            records,
            bytes,
        })
    }

    /// What was read, of so many regions. A fault: an entry or a base isn't whole.
    fn finish(self, regions: usize) -> Result<EntriesContents, StartFault>
        ensures { (all : List (List ℕ)) → IsSoFar all self → IfOk result (Holds all regions) }
    {
        let ContentsReader {
            reader,
            records,
            bytes,
        } = self;
        let store = reader.into_store()?;
        Ok(EntriesContents {
            regions,
            records,
            bytes,
            store,
        })
    }
}

/// Reads what a journal of entries has, region by region, and makes the store of it. Nothing is written. The journal needn't be ready for
/// records. A fault is one with which `KeptEntries::open` doesn't go on. It takes memory for the records of a region, beside the store.
pub fn read_entries<D: Device>(
    alloc: Global,
    journal: &mut Journal<D>,
) -> Result<EntriesContents, StartFault>
    requires { HasRegions journal.old }

    ensures journal { StaysJournal journal.old journal.new }
    ensures rests { Rests journal.old journal.new }
    ensures holds { IfOk result (λ contents. IsTrue (D.is_honest (journal_device journal.new)) → Holds (journal_records journal.old) (length (journal_regions journal.old)) contents) }
{
    let mut reader = ContentsReader::new(alloc);
    let mut text = Vec::new(alloc);
    let mut index = 0;
    while index < journal.region_count() {
        text.clear();
        let count = journal.read_region(alloc, index, &mut text)?;
        reader = reader.add(count, &text)?;
        index += 1;
    }
    reader.finish(journal.region_count())
}

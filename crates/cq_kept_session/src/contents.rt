//! What a journal has, as it is read and not run.
ghost use Rattle.std.specs.Prelude.{◌≡◌, ◌≤◌, ◌<◌, ◌+◌, ◌++◌, ◌==◌, ℕ, List, Bool, [], None, length, IfOk, IsTrue, if◌then◌else◌};
ghost use Rattle.cq_disk.specs.declared.device.Device.{Ghosts};
ghost use Rattle.cq_journal.specs.Journal.{HasRegions, StaysJournal, journal_device, journal_records, journal_regions};
ghost use Rattle.cq_journal.specs.Rests.{Rests};
ghost use Rattle.cq_records.specs.Frames.{joined};
ghost use Rattle.cq_kept_session.specs.Bases.{fresh, marked, read};
ghost use Rattle.cq_kept_session.specs.Contents.{Holds, IsOf, lines_in};
ghost use Rattle.cq_kept_session.specs.within.Contents.{HasLines, IsSoFar, progress_stage};
ghost use Rattle.cq_kept_session.specs.within.Readers.{reader_stage};

use crate::StartFault;
use crate::base::{BaseReader, Header};
use crate::text::{MARK, SIZE_MARK, size_in};
use cq_base::NoMemory;
use cq_disk::Device;
use cq_journal::{Journal, OpenFault};
use cq_lines::BYTES_LIMIT;
use cq_store::Store;
use std::alloc::Global;

/// What a session's journal has.
#[derive(Drop)]
pub struct Contents {
    /// How many regions count.
    pub regions: usize,
    /// How many records they have.
    pub records: usize,
    /// How many bytes these records have.
    pub bytes: usize,
    /// The base with which they begin, if they do.
    pub base: Option<(Header, Store)>,
    /// How many lines have ended behind the base.
    pub line_count: usize,
    /// The lines behind the base, where they were asked for.
    pub lines: Vec<u8>,
}

/// How far what a journal has was read.
#[derive(Drop)]
pub(crate) enum Progress {
    /// No byte has come.
    Fresh,
    /// In a base.
    InBase(BaseReader),
    /// Behind the base, if there is one.
    Behind(Option<(Header, Store)>),
    /// In the lines of a session on so many servers.
    OfSeveral(u8),
}

/// The sum of two numbers. A fault: no bytes of so many regions can be told apart.
fn sum(first: usize, second: usize) -> Result<usize, StartFault>
    ensures { IfOk result (λ sum. sum ≡ first + second) }
{
    match first.checked_add(second) {
        Some(sum) => Ok(sum),
        None => Err(StartFault::Open(OpenFault::Damaged)),
    }
}

/// How many lines end in these bytes.
fn lines_in(bytes: &[u8]) -> usize
    ensures { result ≡ lines_in bytes.now }
{
    bytes.iter().filter(|byte| **byte == b'\n').count()
}

impl Progress {
    /// Reads on, and gives the bytes of lines that have come.
    fn read_on(self, alloc: Global, text: &[u8]) -> Result<(Progress, &[u8]), StartFault>
        ensures { IfOk result (λ next. (lines : List ℕ) → HasLines self lines
            → HasLines next.0 (lines ++ next.1.now) × (read (progress_stage self lines) text.now ≡ progress_stage next.0 (lines ++ next.1.now))) }
    {
        match self {
            Progress::Fresh => begin(alloc, text),
            Progress::InBase(reader) => read_base(reader, text),
            Progress::Behind(base) => Ok((Progress::Behind(base), text)),
            Progress::OfSeveral(servers) => Ok((Progress::OfSeveral(servers), text)),
        }
    }

    /// The base that was read, if there is one. A fault: it isn't whole.
    fn base(self) -> Result<Option<(Header, Store)>, StartFault>
        ensures { (lines : List ℕ) → HasLines self lines → IfOk result (λ base. IsOf (progress_stage self lines) base lines) }
    {
        match self {
            Progress::Fresh => Ok(None),
            Progress::InBase(_) => Err(StartFault::Open(OpenFault::Damaged)),
            Progress::Behind(base) => Ok(base),
            Progress::OfSeveral(_) => Ok(None),
        }
    }
}

/// Reads the first bytes.
fn begin(alloc: Global, text: &[u8]) -> Result<(Progress, &[u8]), StartFault>
    ensures { IfOk result (λ next. HasLines next.0 next.1.now × (read fresh text.now ≡ progress_stage next.0 next.1.now)) }
{
    let Some((first, rest)) = text.split_first() else {
        return Ok((Progress::Fresh, text));
    };
    if *first == MARK {
        return read_base(BaseReader::new(alloc), rest);
    }
    if *first == SIZE_MARK {
        return read_size(rest);
    }
    Ok((Progress::Behind(None), text))
}

/// Reads of how many servers a session is, and the lines behind that.
fn read_size(bytes: &[u8]) -> Result<(Progress, &[u8]), StartFault>
    ensures { IfOk result (λ next. HasLines next.0 next.1.now × (read marked bytes.now ≡ progress_stage next.0 next.1.now)) }
{
    match size_in(bytes) {
        Some((servers, lines)) => Ok((Progress::OfSeveral(servers), lines)),
        None => Err(StartFault::Open(OpenFault::Damaged)),
    }
}

/// Reads on in a base, and behind it where it has ended.
fn read_base(reader: BaseReader, bytes: &[u8]) -> Result<(Progress, &[u8]), StartFault>
    ensures { IfOk result (λ next. HasLines next.0 next.1.now × (read (reader_stage reader) bytes.now ≡ progress_stage next.0 next.1.now)) }
{
    let (reader, behind) = reader.feed(bytes)?;
    match behind {
        None => Ok((Progress::InBase(reader), &[])),
        Some(lines) => {
            let (header, store) = reader.whole()?;
            if header.lines > BYTES_LIMIT {
                return Err(StartFault::Open(OpenFault::Damaged));
            }
            Ok((Progress::Behind(Some((header, store))), lines))
        }
    }
}

/// Contents that are being read.
#[derive(Drop)]
pub(crate) struct ContentsReader {
    pub(crate) alloc: Global,
    /// Whether the lines are kept.
    pub(crate) keeps_lines: bool,
    pub(crate) progress: Progress,
    pub(crate) records: usize,
    pub(crate) bytes: usize,
    pub(crate) line_count: usize,
    pub(crate) lines: Vec<u8>,
}

impl ContentsReader {
    /// Nothing was read.
    fn new(alloc: Global, keeps_lines: bool) -> ContentsReader
        ensures { IsSoFar [] keeps_lines result }
    {
        ContentsReader {
            alloc,
            keeps_lines,
            progress: Progress::Fresh,
            records: 0,
            bytes: 0,
            line_count: 0,
            lines: Vec::new(alloc),
        }
    }

    /// Adds so many records, whose texts these bytes are.
    fn add(self, count: usize, text: &[u8]) -> Result<ContentsReader, StartFault>
        ensures { (before more : List (List ℕ)) (keeps : Bool) → IsSoFar before keeps self → count ≡ length more → text.now ≡ joined more
            → IfOk result (IsSoFar (before ++ more) keeps) }
    {
        let ContentsReader {
            alloc,
            keeps_lines,
            progress,
            records,
            bytes,
            line_count,
            lines,
        } = self;
        let (progress, more) = progress.read_on(alloc, text)?;
        let records = sum(records, count)?;
        let bytes = sum(bytes, text.len())?;
        let line_count = sum(line_count, lines_in(more))?;
        let lines = with_lines(keeps_lines, lines, more)?;
        Ok(ContentsReader {
            alloc,
            keeps_lines,
            progress,
            records,
            bytes,
            line_count,
            lines,
        })
    }

    /// What was read, of so many regions. A fault: a base isn't whole.
    fn finish(self, regions: usize) -> Result<Contents, StartFault>
        ensures { (all : List (List ℕ)) (keeps : Bool) → IsSoFar all keeps self → IfOk result (Holds all regions keeps) }
    {
        let ContentsReader {
            progress,
            records,
            bytes,
            line_count,
            lines,
            ..
        } = self;
        let base = progress.base()?;
        Ok(Contents {
            regions,
            records,
            bytes,
            base,
            line_count,
            lines,
        })
    }
}

/// Adds bytes to the lines, where they are kept.
fn with_lines(keeps: bool, lines: Vec<u8>, more: &[u8]) -> Result<Vec<u8>, NoMemory>
    ensures { (all : List ℕ) → lines.items ≡ (if keeps then all else []) → IfOk result (λ next. next.items ≡ (if keeps then all ++ more.now else [])) }
{
    let mut lines = lines;
    if keeps {
        lines.extend_from_slice(more)?;
    }
    Ok(lines)
}

/// Reads what a journal has, region by region: its base, and how many lines are behind it, whose bytes are kept where that is asked for.
/// Nothing is run, and nothing is written. The journal needn't be ready for records. A fault is one with which a session isn't begun. It
/// takes memory for the store of a base, for the records of a region, and for the lines that are kept.
pub fn read_contents<D: Device>(
    alloc: Global,
    journal: &mut Journal<D>,
    keeps_lines: bool,
) -> Result<Contents, StartFault>
    requires { HasRegions journal.old }

    ensures journal { StaysJournal journal.old journal.new }
    ensures rests { Rests journal.old journal.new }
    ensures holds { IfOk result (λ contents. IsTrue (D.is_honest (journal_device journal.new)) → Holds (journal_records journal.old) (length (journal_regions journal.old)) keeps_lines contents) }
{
    let mut reader = ContentsReader::new(alloc, keeps_lines);
    let mut text = Vec::new(alloc);
    let mut index = 0;
    while index < journal.region_count() {
        text.clear();
        let count = journal.read_region(alloc, index, &mut text)?;
        reader = reader.add(count, &text)?;
        index += 1;
    }
    reader.finish(journal.region_count())
}

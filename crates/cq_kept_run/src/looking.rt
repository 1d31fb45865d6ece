//! How a journal is read that another program may write to meanwhile: it is taken as its file had it at one moment.
ghost use Rattle.std.specs.Prelude.{◌≡◌, ◌⊎◌, ◌+◌, ◌≤◌, length, IfOk, IsTrue};
ghost use Rattle.cq_disk.specs.Device.{Only};
ghost use Rattle.cq_journal.specs.Found.{IsRootAt};
ghost use Rattle.cq_journal.specs.Journal.{HasRegions, journal_device, journal_half, region_len};
ghost use Rattle.cq_kept_run.specs.within.Contents.{IsContentsOf};
ghost use Rattle.cq_kept_run.specs.declared.sizes.TheConstants.{HALF, REGION};
ghost use Rattle.cq_kept_run.specs.within.Looks.{IsFoundIn};

use crate::fault::{JournalFault, KeptFault};
use crate::sizes::{HALF, REGION};
use crate::source::Opens;
use cq_disk::{Device, Region};
use cq_journal::{Found, Journal, OpenFault, Root, find_root, has_grown};
use cq_kept_session::{Contents, read_contents};
use std::alloc::Global;

/// How often a journal is read anew whose root has changed meanwhile.
pub(crate) const TRIES: usize = 100;

const NO_JOURNAL: KeptFault = KeptFault::Journal(JournalFault::NotAJournal);

/// Where the root has changed each time.
pub(crate) const ALWAYS_CHANGED: KeptFault = KeptFault::Journal(JournalFault::Failed);

/// The root of the journal that a device has.
pub(crate) fn find<D: Device>(alloc: Global, device: D) -> Result<(Region<D>, Found), KeptFault>
    ensures { IfOk result (λ it. IsFoundIn device it.0 it.1) }
{
    if device.len() < HALF + HALF {
        return Err(NO_JOURNAL);
    }
    let mut region = Region {
        device,
        start: 0,
        len: HALF,
    };
    let Some(found) = find_root(alloc, &mut region)? else {
        return Err(NO_JOURNAL);
    };
    Ok((region, found))
}

/// The journal of a root, which is read and not written to. A fault: the regions that it names aren't those of a session's journal.
pub(crate) fn open_found<D: Device>(
    alloc: Global,
    region: Region<D>,
    found: &Found,
) -> Result<Journal<D>, KeptFault>
    requires half { region.len ≡ HALF }
    requires start { (found.now.start ≡ 0) ⊎ (found.now.start ≡ region.len) }
    requires room { region.len + region.len ≤ length (D.seen region.device) }
    requires durable { Only (D.seen region.device) (D.may_leave region.device) }
    requires found { IsTrue (D.is_honest region.device) → IsRootAt region.len (D.seen region.device) found.now }
    ensures regions { IfOk result HasRegions }
    ensures device { IfOk result (λ journal. (journal_device journal ≡ region.device) × (journal_half journal ≡ HALF) × (region_len journal ≡ REGION)) }
{
    let root = Root::at(region, found);
    match Journal::at(alloc, root, found, REGION) {
        Ok(journal) if journal.is_in_steps() => Ok(journal),
        Ok(_) | Err(OpenFault::Damaged) => Err(NO_JOURNAL),
        Err(fault) => Err(KeptFault::from(fault)),
    }
}

/// What the journal of a root has.
fn contents_of<D: Device>(
    alloc: Global,
    region: Region<D>,
    found: &Found,
    keeps_lines: bool,
) -> Result<Contents, KeptFault>
    requires half { region.len ≡ HALF }
    requires start { (found.now.start ≡ 0) ⊎ (found.now.start ≡ region.len) }
    requires room { region.len + region.len ≤ length (D.seen region.device) }
    requires durable { Only (D.seen region.device) (D.may_leave region.device) }
    requires found { IsTrue (D.is_honest region.device) → IsRootAt region.len (D.seen region.device) found.now }
    ensures { IfOk result (λ contents. (last : D) × (IsTrue (D.is_honest last) → IsContentsOf (D.seen region.device) keeps_lines contents)) }
{
    let mut journal = open_found(alloc, region, found)?;
    Ok(read_contents(alloc, &mut journal, keeps_lines)?)
}

/// What the journal of a device has, and its root, if there is one.
fn look<D: Device>(
    alloc: Global,
    device: D,
    keeps_lines: bool,
) -> (Option<Found>, Result<Contents, KeptFault>)
    ensures { IfOk result.1 (λ contents. (last : D) × (IsTrue (D.is_honest last) → IsContentsOf (D.seen device) keeps_lines contents)) }
{
    match find(alloc, device) {
        Ok((region, found)) => {
            let contents = contents_of(alloc, region, &found, keeps_lines);
            (Some(found), contents)
        }
        Err(fault) => (None, Err(fault)),
    }
}

/// Whether the regions that a root names have stayed where they were, by the root that is there now. Where there was none, there is
/// none now.
pub(crate) fn has_stayed<D: Device, S: Opens<D>>(
    alloc: Global,
    source: &S,
    found: &Option<Found>,
) -> Result<bool, KeptFault> {
    let now = root_now(alloc, source)?;
    Ok(are_same(found, &now))
}

/// The root that is there now, if there is one that isn't damaged.
fn root_now<D: Device, S: Opens<D>>(alloc: Global, source: &S) -> Result<Option<Found>, KeptFault> {
    let device = source.open()?;
    match find(alloc, device) {
        Ok(it) => Ok(Some(without_region(it))),
        Err(fault) => none_at(fault),
    }
}

fn without_region<D: Device>(it: (Region<D>, Found)) -> Found {
    let (_region, found) = it;
    found
}

fn none_at(fault: KeptFault) -> Result<Option<Found>, KeptFault> {
    match fault {
        KeptFault::Journal(JournalFault::Damaged(_) | JournalFault::NotAJournal) => Ok(None),
        _ => Err(fault),
    }
}

/// Whether the regions of a root are still named by a later one, or there is none, as before.
fn are_same(first: &Option<Found>, now: &Option<Found>) -> bool {
    match first {
        Some(first) => match now {
            Some(now) => has_grown(first, now),
            None => false,
        },
        None => now.is_none(),
    }
}

/// What a journal has, as its file had it at one moment: the root is read, then the regions that it names, and then the root again. Where
/// that doesn't name them any more, all is read anew. What was acknowledged before is there, and of the batch that is written meanwhile its
/// first records, up to one that isn't whole yet.
pub(crate) fn read_at_once<D: Device, S: Opens<D>>(
    alloc: Global,
    source: &S,
    keeps_lines: bool,
) -> Result<Contents, KeptFault>
    ensures { IfOk result (λ contents. (device : D) × (last : D) × (IsTrue (D.is_honest last) → IsContentsOf (D.seen device) keeps_lines contents)) }
{
    for _ in 0..TRIES {
        let (found, contents) = look(alloc, source.open()?, keeps_lines);
        if has_stayed(alloc, source, &found)? {
            return contents;
        }
    }
    Err(ALWAYS_CHANGED)
}

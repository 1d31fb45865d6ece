//! A journal in another file.
ghost use Rattle.std.specs.Prelude.{◌≡◌, ◌⊎◌, ◌+◌, ◌≤◌, length, Some, IfOk, IsTrue};
ghost use Rattle.cq_disk.specs.Device.{Only};
ghost use Rattle.cq_journal.specs.Base.{IsBase, base_records};
ghost use Rattle.cq_journal.specs.Found.{IsRootAt};
ghost use Rattle.cq_journal.specs.Journal.{IsJournal, journal_records};
ghost use Rattle.cq_journal.specs.Regions.{kept};
ghost use Rattle.cq_kept_run.specs.declared.sizes.TheConstants.{HALF, REGION};

use crate::fault::{JournalFault, KeptFault};
use crate::looking::{ALWAYS_CHANGED, TRIES, find, has_stayed, open_found};
use crate::sizes::{HALF, REGION};
use crate::source::{Opens, Source};
use cq_base::NoMemory;
use cq_disk::{
    Device, Host, Modelled, Region, TornWrites, Unknown, create, open, put_in_place, remove,
};
use cq_journal::{Base, Found, Journal};
use std::alloc::Global;

/// A file that is made, opened to be written.
#[derive(Drop)]
struct Target<'a> {
    rt: &'a HostRuntime,
    path: &'a str,
}

impl Opens<Modelled<Host, Unknown>> for Target<'_> {
    fn open(&self) -> Result<Modelled<Host, Unknown>, KeptFault> {
        Ok(open(self.rt, self.path, TornWrites::OldOrNew, Unknown)?)
    }
}

/// A journal, and what is to take the place of all that it has.
#[derive(Drop)]
struct Copied<E: Device> {
    journal: Journal<E>,
    base: Base,
}

/// Makes a file `to` that has what the journal in another one has, as that had it at one moment. Nothing is written to that one, and a
/// session may run on it. `to` mustn't be there. Until all is on the medium it is empty, and the copy is beside it, under its name with
/// `.part` behind; where this ends with a fault, neither is left. It has the length of the other file, or of one region more than count
/// there, if that is more, and takes the space of the regions that count.
pub fn copy(rt: &HostRuntime, path: &str, to: &str) -> Result<(), KeptFault> {
    let alloc = rt.alloc();
    let source = Source { rt, path };
    let len = length_of(alloc, &source)?;
    let Ok(part) = format!(in alloc; "{to}.part") else {
        return Err(KeptFault::from(NoMemory));
    };
    create(rt, to, 0)?;
    // It is in use until the copy has its name: else a start would take it for a file whose making was cut short.
    let _named = open(rt, to, TornWrites::OldOrNew, Unknown)?;
    if let Err(fault) = make(rt, &source, part.as_str(), len) {
        let _ = remove(rt, to);
        return Err(fault);
    }
    if let Err(fault) = put_in_place(rt, part.as_str(), to) {
        if remove(rt, part.as_str()).is_ok() {
            let _ = remove(rt, to);
        }
        return Err(KeptFault::from(fault));
    }
    Ok(())
}

/// Makes the copy of a journal in a file of this length.
fn make(rt: &HostRuntime, source: &Source<'_>, part: &str, len: usize) -> Result<(), KeptFault> {
    create(rt, part, len)?;
    match copy_source(rt.alloc(), source, &Target { rt, path: part }) {
        Ok(_) => Ok(()),
        Err(fault) => {
            let _ = remove(rt, part);
            Err(fault)
        }
    }
}

/// The length of a file that has room for what a journal has.
fn length_of<D: Device, S: Opens<D>>(alloc: Global, source: &S) -> Result<usize, KeptFault> {
    let device = source.open()?;
    let len = device.len();
    let (region, found) = find(alloc, device)?;
    let journal = open_found(alloc, region, &found)?;
    let regions = journal.region_count().saturating_add(1);
    Ok(len.max(regions.saturating_mul(REGION).saturating_add(HALF + HALF)))
}

/// Puts what a journal has into another one, which is made.
fn copy_source<D: Device, S: Opens<D>, E: Device, T: Opens<E>>(
    alloc: Global,
    source: &S,
    target: &T,
) -> Result<Journal<E>, KeptFault>
    ensures { IfOk result (λ journal. IsJournal journal
        × ((device : D) × (last : D) × (IsTrue (D.is_honest last) → kept HALF REGION (D.seen device) ≡ Some (journal_records journal)))) }
{
    for _ in 0..TRIES {
        let (found, copy) = copy_once(alloc, source.open()?, target.open()?);
        if has_stayed(alloc, source, &found)? {
            return finish(alloc, copy?);
        }
    }
    Err(ALWAYS_CHANGED)
}

/// Puts the copy in the place of all that its journal has.
fn finish<E: Device>(alloc: Global, copy: Copied<E>) -> Result<Journal<E>, KeptFault>
    requires journal { IsJournal copy.journal }
    requires base { IsBase copy.journal copy.base }
    ensures journal { IfOk result IsJournal }
    ensures records { IfOk result (λ journal. journal_records journal ≡ base_records copy.journal copy.base) }
{
    let Copied { mut journal, base } = copy;
    journal.rewrite(alloc, base)?;
    Ok(journal)
}

/// Copies the journal of a device onto another one, and gives its root, if there is one.
fn copy_once<D: Device, E: Device>(
    alloc: Global,
    device: D,
    to: E,
) -> (Option<Found>, Result<Copied<E>, KeptFault>)
    ensures journal { IfOk result.1 (λ copy. IsJournal copy.journal) }
    ensures base { IfOk result.1 (λ copy. IsBase copy.journal copy.base) }
    ensures copied { IfOk result.1 (λ copy. (last : D) × (IsTrue (D.is_honest last) → kept HALF REGION (D.seen device) ≡ Some (base_records copy.journal copy.base))) }
{
    match find(alloc, device) {
        Ok((region, found)) => {
            let copy = copy_of(alloc, region, &found, to);
            (Some(found), copy)
        }
        Err(fault) => (None, Err(fault)),
    }
}

/// Copies the journal of a root onto a device, whose bytes are lost.
fn copy_of<D: Device, E: Device>(
    alloc: Global,
    region: Region<D>,
    found: &Found,
    to: E,
) -> Result<Copied<E>, KeptFault>
    requires half { region.len ≡ HALF }
    requires start { (found.now.start ≡ 0) ⊎ (found.now.start ≡ region.len) }
    requires room { region.len + region.len ≤ length (D.seen region.device) }
    requires durable { Only (D.seen region.device) (D.may_leave region.device) }
    requires found { IsTrue (D.is_honest region.device) → IsRootAt region.len (D.seen region.device) found.now }
    ensures journal { IfOk result (λ copy. IsJournal copy.journal) }
    ensures base { IfOk result (λ copy. IsBase copy.journal copy.base) }
    ensures copied { IfOk result (λ copy. (last : D) × (IsTrue (D.is_honest last) → kept HALF REGION (D.seen region.device) ≡ Some (base_records copy.journal copy.base))) }
{
    let mut from = open_found(alloc, region, found)?;
    if to.len() < HALF + HALF {
        return Err(KeptFault::Journal(JournalFault::Failed));
    }
    let mut journal = Journal::create(alloc, to, HALF, REGION)?;
    let mut base = journal.begin_base(alloc)?;
    from.copy_to_base(alloc, &mut journal, &mut base)?;
    Ok(Copied { journal, base })
}

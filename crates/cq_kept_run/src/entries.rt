//! What a journal of entries has, read while another program may write to it, and told in lines.
ghost use Rattle.std.specs.Prelude.{◌≡◌, ◌⊎◌, ◌+◌, ◌≤◌, false, length, IfOk, IsTrue, OnOk};
ghost use Rattle.std.specs.Io.KnownBytes.{Appends};
ghost use Rattle.cq_disk.specs.Device.{Only};
ghost use Rattle.cq_journal.specs.Found.{IsRootAt};
ghost use Rattle.cq_kept_entries.specs.declared.contents.EntriesContents.{EntriesContents as Told};
ghost use Rattle.cq_lines.specs.Checks.{inner_of, is_failed};
ghost use Rattle.cq_kept_run.specs.declared.sizes.TheConstants.{HALF};
ghost use Rattle.cq_kept_run.specs.within.Entries.{DumpsEntries, IsEntriesOf, TellsStoreOf, count_text, entries_line, entries_text, entry_count};

use crate::KeptFault;
use crate::looking::{ALWAYS_CHANGED, TRIES, find, has_stayed, open_found};
use crate::source::Opens;
use crate::store::tell_store;
use cq_disk::{Device, Region};
use cq_journal::Found;
use cq_kept_entries::{EntriesContents, read_entries};
use cq_lines::{Checked, ScriptFault, Sink};
use cq_script::finish_writing;
use cq_store::Store;
use std::alloc::Global;
use std::io::Write;

/// What the journal of a root has.
fn entries_of<D: Device>(
    alloc: Global,
    region: Region<D>,
    found: &Found,
) -> Result<EntriesContents, KeptFault>
    requires half { region.len ≡ HALF }
    requires start { (found.now.start ≡ 0) ⊎ (found.now.start ≡ region.len) }
    requires room { region.len + region.len ≤ length (D.seen region.device) }
    requires durable { Only (D.seen region.device) (D.may_leave region.device) }
    requires found { IsTrue (D.is_honest region.device) → IsRootAt region.len (D.seen region.device) found.now }
    ensures { IfOk result (λ contents. (last : D) × (IsTrue (D.is_honest last) → IsEntriesOf (D.seen region.device) contents)) }
{
    let mut journal = open_found(alloc, region, found)?;
    Ok(read_entries(alloc, &mut journal)?)
}

/// What the journal of a device has, and its root, if there is one.
fn look<D: Device>(alloc: Global, device: D) -> (Option<Found>, Result<EntriesContents, KeptFault>)
    ensures { IfOk result.1 (λ contents. (last : D) × (IsTrue (D.is_honest last) → IsEntriesOf (D.seen device) contents)) }
{
    match find(alloc, device) {
        Ok((region, found)) => {
            let contents = entries_of(alloc, region, &found);
            (Some(found), contents)
        }
        Err(fault) => (None, Err(fault)),
    }
}

/// What a journal of entries has, as its file had it at one moment (`read_at_once`).
pub(crate) fn read_entries_at_once<D: Device, S: Opens<D>>(
    alloc: Global,
    source: &S,
) -> Result<EntriesContents, KeptFault>
    ensures { IfOk result (λ contents. (device : D) × (last : D) × (IsTrue (D.is_honest last) → IsEntriesOf (D.seen device) contents)) }
{
    for _ in 0..TRIES {
        let (found, contents) = look(alloc, source.open()?);
        if has_stayed(alloc, source, &found)? {
            return contents;
        }
    }
    Err(ALWAYS_CHANGED)
}

/// How many entries a store has, if there is one.
fn entry_count(store: &Option<Store>) -> u64
    ensures { result ≡ entry_count store.now }
{
    match store {
        Some(store) => store.count(),
        None => 0,
    }
}

/// Writes the line of these numbers of a journal.
fn print_entries<W: Write>(
    bytes: usize,
    entries: u64,
    records: usize,
    regions: usize,
    output: &mut Checked<W>,
) -> Result<(), ScriptFault>
    requires { is_failed output.old ≡ false }
    ensures { OnOk result (Appends (W.contents (inner_of output.old)) (W.contents (inner_of output.new)) (entries_text bytes entries records regions)) }
{
    output.print(format_args!(
        "{{\"bytes\":{bytes},\"entries\":{entries},\"kind\":\"entries\",\"records\":{records},\"regions\":{regions}}}\n"
    ));
    if output.failed() {
        return Err(ScriptFault::WriteFailed);
    }
    Ok(())
}

/// Writes the line that tells what a journal of entries has, such as
/// `{"bytes":4096,"entries":7,"kind":"entries","records":3,"regions":1}`, and flushes it.
pub(crate) fn tell_entries<W: Write>(
    contents: &EntriesContents,
    output: &mut Checked<W>,
) -> Result<(), ScriptFault>
    requires { is_failed output.old ≡ false }
    ensures { OnOk result (Appends (W.contents (inner_of output.old)) (W.contents (inner_of output.new)) (entries_line contents.now)) }
{
    let entries = entry_count(&contents.store);
    let (bytes, records, regions) = (contents.bytes, contents.records, contents.regions);
    print_entries(bytes, entries, records, regions, output)?;
    finish_writing(output)
}

/// Writes the lines of the chunks of a store, if there is one.
fn tell_store_of<W: Write>(
    alloc: Global,
    store: &Option<Store>,
    output: &mut Checked<W>,
) -> Result<(), ScriptFault>
    requires { is_failed output.old ≡ false }
    ensures ok { OnOk result (is_failed output.new ≡ false) }
    ensures told { OnOk result (TellsStoreOf store.now (W.contents (inner_of output.old)) (W.contents (inner_of output.new))) }
{
    match store {
        Some(store) => tell_store(alloc, store, output),
        None => Ok(()),
    }
}

/// Writes the line of so many entries.
fn print_count<W: Write>(entries: u64, output: &mut Checked<W>) -> Result<(), ScriptFault>
    requires { is_failed output.old ≡ false }
    ensures { OnOk result (Appends (W.contents (inner_of output.old)) (W.contents (inner_of output.new)) (count_text entries)) }
{
    output.print(format_args!("{{\"entries\":{entries},\"kind\":\"entries\"}}\n"));
    if output.failed() {
        return Err(ScriptFault::WriteFailed);
    }
    Ok(())
}

/// Writes the lines of the chunks of the store that all entries make, and then how many these are, by a line such as
/// `{"entries":7,"kind":"entries"}`, and flushes them.
pub(crate) fn dump_entries<W: Write>(
    alloc: Global,
    contents: &EntriesContents,
    output: &mut Checked<W>,
) -> Result<(), ScriptFault>
    requires { is_failed output.old ≡ false }
    ensures { OnOk result (DumpsEntries contents.now (W.contents (inner_of output.old)) (W.contents (inner_of output.new))) }
{
    tell_store_of(alloc, &contents.store, output)?;
    let entries = entry_count(&contents.store);
    print_count(entries, output)?;
    finish_writing(output)
}

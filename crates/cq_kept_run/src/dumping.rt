//! The lines of a journal, and the store before them.
ghost use Rattle.std.specs.Prelude.{◌≡◌, ◌⊎◌, false, true, IsTrue, OnOk};
ghost use Rattle.std.specs.Io.KnownBytes.{Appends};
ghost use Rattle.cq_lines.specs.Checks.{inner_of, is_failed};
ghost use Rattle.cq_kept_session.specs.declared.contents.Contents.{Contents as Told};
ghost use Rattle.cq_kept_run.specs.within.Contents.{IsContentsOf, base_line};
ghost use Rattle.cq_kept_run.specs.within.Dumps.{Dumps, DumpsBase, DumpsBaseOf};
ghost use Rattle.cq_kept_entries.specs.declared.contents.EntriesContents.{EntriesContents as ToldEntries};
ghost use Rattle.cq_kept_run.specs.within.Entries.{DumpsEntries, IsEntriesOf};

use crate::KeptFault;
use crate::entries::{dump_entries, read_entries_at_once};
use crate::kind::is_of_entries;
use crate::looking::read_at_once;
use crate::source::{Opens, Source};
use crate::store::tell_store;
use cq_disk::Device;
use cq_kept_session::{Contents, Header, Highest};
use cq_lines::{Checked, ScriptFault, Sink};
use cq_script::{finish_writing, write_text};
use cq_store::Store;
use std::alloc::Global;
use std::io::Write;

/// Writes the lines of the journal in a file. Where it begins with a base, the lines of the chunks of its store come first, as a session
/// tells them, and then a line such as `{"clients":2,"kind":"base","lines":5,"queriers":0}`. Of a journal of a server's entries the lines
/// of the chunks of the store come that all of them make, and then a line such as `{"entries":7,"kind":"entries"}`. Nothing is written to
/// the file, and a session or a server may run on it. All lines are in memory at a time, or the store.
pub fn dump<W: Write>(
    rt: &HostRuntime,
    path: &str,
    output: &mut Checked<W>,
) -> Result<(), KeptFault>
    requires { is_failed output.old ≡ false }
{
    dump_source(rt.alloc(), &Source { rt, path }, output)
}

/// Writes the lines of a journal.
fn dump_source<D: Device, S: Opens<D>, W: Write>(
    alloc: Global,
    source: &S,
    output: &mut Checked<W>,
) -> Result<(), KeptFault>
    requires { is_failed output.old ≡ false }
    ensures { OnOk result (((told : Told) × (device : D) × (last : D) × (IsTrue (D.is_honest last) → IsContentsOf (D.seen device) true told)
        × Dumps told (W.contents (inner_of output.old)) (W.contents (inner_of output.new)))
        ⊎ ((told : ToldEntries) × (device : D) × (last : D) × (IsTrue (D.is_honest last) → IsEntriesOf (D.seen device) told)
        × DumpsEntries told (W.contents (inner_of output.old)) (W.contents (inner_of output.new)))) }
{
    match read_at_once(alloc, source, true) {
        Ok(contents) => Ok(tell_lines(alloc, &contents, output)?),
        Err(fault) => dump_other(alloc, source, fault, output),
    }
}

/// Writes the store of a journal from which lines couldn't be read, where it is one of entries.
fn dump_other<D: Device, S: Opens<D>, W: Write>(
    alloc: Global,
    source: &S,
    fault: KeptFault,
    output: &mut Checked<W>,
) -> Result<(), KeptFault>
    requires { is_failed output.old ≡ false }
    ensures { OnOk result ((told : ToldEntries) × (device : D) × (last : D) × (IsTrue (D.is_honest last) → IsEntriesOf (D.seen device) told)
        × DumpsEntries told (W.contents (inner_of output.old)) (W.contents (inner_of output.new))) }
{
    if !is_of_entries(alloc, source, &fault) {
        return Err(fault);
    }
    let contents = read_entries_at_once(alloc, source)?;
    Ok(dump_entries(alloc, &contents, output)?)
}

/// Writes the lines that were read, behind their base if there is one.
fn tell_lines<W: Write>(
    alloc: Global,
    contents: &Contents,
    output: &mut Checked<W>,
) -> Result<(), ScriptFault>
    requires { is_failed output.old ≡ false }
    ensures { OnOk result (Dumps contents.now (W.contents (inner_of output.old)) (W.contents (inner_of output.new))) }
{
    tell_base_of(alloc, &contents.base, output)?;
    write_text(output, &contents.lines)?;
    finish_writing(output)
}

/// Writes a base, if there is one.
fn tell_base_of<W: Write>(
    alloc: Global,
    base: &Option<(Header, Store)>,
    output: &mut Checked<W>,
) -> Result<(), ScriptFault>
    requires { is_failed output.old ≡ false }
    ensures ok { OnOk result (is_failed output.new ≡ false) }
    ensures dumps { OnOk result (DumpsBaseOf base.now (W.contents (inner_of output.old)) (W.contents (inner_of output.new))) }
{
    match base {
        Some((header, store)) => tell_base(alloc, header, store, output),
        None => Ok(()),
    }
}

/// Writes the chunks of a base's store, and the line of its header.
fn tell_base<W: Write>(
    alloc: Global,
    header: &Header,
    store: &Store,
    output: &mut Checked<W>,
) -> Result<(), ScriptFault>
    requires { is_failed output.old ≡ false }
    ensures ok { OnOk result (is_failed output.new ≡ false) }
    ensures dumps { OnOk result (DumpsBase header.now store.now (W.contents (inner_of output.old)) (W.contents (inner_of output.new))) }
{
    tell_store(alloc, store, output)?;
    let Header {
        lines,
        highest: Highest { clients, queriers },
    } = *header;
    output.print(format_args!(
        "{{\"clients\":{clients},\"kind\":\"base\",\"lines\":{lines},\"queriers\":{queriers}}}\n"
    ));
    if output.failed() {
        return Err(ScriptFault::WriteFailed);
    }
    Ok(())
}

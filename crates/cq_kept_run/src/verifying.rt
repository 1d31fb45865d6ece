//! What a journal has, told in a line.
ghost use Rattle.std.specs.Prelude.{◌≡◌, ◌⊎◌, [], ◌∷◌, false, IsTrue, OnOk};
ghost use Rattle.std.specs.Io.KnownBytes.{Appends};
ghost use Rattle.cq_lines.specs.Checks.{inner_of, is_failed};
ghost use Rattle.cq_kept_session.specs.declared.contents.Contents.{Contents as Told};
ghost use Rattle.cq_kept_entries.specs.declared.contents.EntriesContents.{EntriesContents as ToldEntries};
ghost use Rattle.cq_kept_run.specs.within.Contents.{IsContentsOf, TellsContents, front_text, header_text, numbers_text};
ghost use Rattle.cq_kept_run.specs.within.Entries.{IsEntriesOf, entries_line};

use crate::KeptFault;
use crate::entries::{read_entries_at_once, tell_entries};
use crate::kind::is_of_entries;
use crate::looking::read_at_once;
use crate::source::{Opens, Source};
use cq_disk::Device;
use cq_kept_session::{Contents, Header, Highest};
use cq_lines::{Checked, ScriptFault, Sink};
use cq_script::finish_writing;
use cq_store::Store;
use std::alloc::Global;
use std::io::Write;

/// Tells what the journal in a file has, by a line such as `{"bytes":4096,"kind":"journal","lines":7,"records":3,"regions":1}`. Where it
/// begins with a base, that line begins with `"base":{"clients":2,"lines":5,"queriers":0}`. All records are read, and a base is whole,
/// as a session's start wants it. Of a journal of a server's entries it tells
/// `{"bytes":4096,"entries":7,"kind":"entries","records":3,"regions":1}`, and all entries are read, as a server's start wants them. Nothing
/// is written to the file, and a session or a server may run on it.
pub fn verify<W: Write>(
    rt: &HostRuntime,
    path: &str,
    output: &mut Checked<W>,
) -> Result<(), KeptFault>
    requires { is_failed output.old ≡ false }
{
    verify_source(rt.alloc(), &Source { rt, path }, output)
}

/// Tells what a journal has.
fn verify_source<D: Device, S: Opens<D>, W: Write>(
    alloc: Global,
    source: &S,
    output: &mut Checked<W>,
) -> Result<(), KeptFault>
    requires { is_failed output.old ≡ false }
    ensures { OnOk result (((told : Told) × (device : D) × (last : D) × (IsTrue (D.is_honest last) → IsContentsOf (D.seen device) false told)
        × TellsContents told (W.contents (inner_of output.old)) (W.contents (inner_of output.new)))
        ⊎ ((told : ToldEntries) × (device : D) × (last : D) × (IsTrue (D.is_honest last) → IsEntriesOf (D.seen device) told)
        × Appends (W.contents (inner_of output.old)) (W.contents (inner_of output.new)) (entries_line told))) }
{
    match read_at_once(alloc, source, false) {
        Ok(contents) => Ok(tell_contents(&contents, output)?),
        Err(fault) => verify_entries(alloc, source, fault, output),
    }
}

/// Tells what a journal has from which lines couldn't be read, where it is one of entries.
fn verify_entries<D: Device, S: Opens<D>, W: Write>(
    alloc: Global,
    source: &S,
    fault: KeptFault,
    output: &mut Checked<W>,
) -> Result<(), KeptFault>
    requires { is_failed output.old ≡ false }
    ensures { OnOk result ((told : ToldEntries) × (device : D) × (last : D) × (IsTrue (D.is_honest last) → IsEntriesOf (D.seen device) told)
        × Appends (W.contents (inner_of output.old)) (W.contents (inner_of output.new)) (entries_line told)) }
{
    if !is_of_entries(alloc, source, &fault) {
        return Err(fault);
    }
    let contents = read_entries_at_once(alloc, source)?;
    Ok(tell_entries(&contents, output)?)
}

/// Writes the line that tells what a journal has, and flushes it.
fn tell_contents<W: Write>(contents: &Contents, output: &mut Checked<W>) -> Result<(), ScriptFault>
    requires { is_failed output.old ≡ false }
    ensures { OnOk result (TellsContents contents.now (W.contents (inner_of output.old)) (W.contents (inner_of output.new))) }
{
    tell_front(&contents.base, output)?;
    tell_numbers(contents, output)?;
    finish_writing(output)
}

/// Writes what that line begins with: the header of the base, if there is one.
fn tell_front<W: Write>(
    base: &Option<(Header, Store)>,
    output: &mut Checked<W>,
) -> Result<(), ScriptFault>
    requires { is_failed output.old ≡ false }
    ensures ok { OnOk result (is_failed output.new ≡ false) }
    ensures front { OnOk result (Appends (W.contents (inner_of output.old)) (W.contents (inner_of output.new)) (front_text base.now)) }
{
    match base {
        Some((header, _)) => tell_header(header, output),
        None => tell_brace(output),
    }
}

fn tell_header<W: Write>(header: &Header, output: &mut Checked<W>) -> Result<(), ScriptFault>
    requires { is_failed output.old ≡ false }
    ensures ok { OnOk result (is_failed output.new ≡ false) }
    ensures header { OnOk result (Appends (W.contents (inner_of output.old)) (W.contents (inner_of output.new)) (header_text header.now)) }
{
    let Header {
        lines,
        highest: Highest { clients, queriers },
    } = *header;
    output.print(format_args!(
        "{{\"base\":{{\"clients\":{clients},\"lines\":{lines},\"queriers\":{queriers}}},"
    ));
    if output.failed() {
        return Err(ScriptFault::WriteFailed);
    }
    Ok(())
}

fn tell_brace<W: Write>(output: &mut Checked<W>) -> Result<(), ScriptFault>
    requires { is_failed output.old ≡ false }
    ensures ok { OnOk result (is_failed output.new ≡ false) }
    ensures brace { OnOk result (Appends (W.contents (inner_of output.old)) (W.contents (inner_of output.new)) (123 ∷ [])) }
{
    output.print(format_args!("{{"));
    if output.failed() {
        return Err(ScriptFault::WriteFailed);
    }
    Ok(())
}

/// Writes the numbers with which that line ends.
fn tell_numbers<W: Write>(contents: &Contents, output: &mut Checked<W>) -> Result<(), ScriptFault>
    requires { is_failed output.old ≡ false }
    ensures { OnOk result (Appends (W.contents (inner_of output.old)) (W.contents (inner_of output.new)) (numbers_text contents.now)) }
{
    let (bytes, lines) = (contents.bytes, contents.line_count);
    let (records, regions) = (contents.records, contents.regions);
    output.print(format_args!(
        "\"bytes\":{bytes},\"kind\":\"journal\",\"lines\":{lines},\"records\":{records},\"regions\":{regions}}}\n"
    ));
    if output.failed() {
        return Err(ScriptFault::WriteFailed);
    }
    Ok(())
}

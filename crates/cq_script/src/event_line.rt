//! A line of a script, and the event that it says.
ghost use Rattle.std.specs.Prelude.{◌≡◌, IfSome, Ok, Err, true};
ghost use Rattle.std.specs.List.{list_all};
ghost use Rattle.cq_lines.specs.Lines.{is_blank_byte};
ghost use Rattle.cq_script.specs.Line.{event_from, line_of, Reads};
ghost use Rattle.cq_json.specs.Readers.{Gives, same};
ghost use Rattle.cq_script.specs.declared.event_line.Line.TheVariants as lines;

use crate::event::read_tree_event;
use crate::flat_event::read_flat_event;
use cq_base::BaseFault;
use cq_json::{FlatObject, LineScratch, ReadFault, parse};
use cq_lines::{LineFault, is_blank};
use cq_world::Event;
use simdutf8::basic::from_utf8;
use std::alloc::Global;

/// The most bytes of a line after which the scratch is kept.
const KEPT_LEN: usize = 65_536;

/// What a line of a script is.
#[derive(Debug, PartialEq, Eq, Drop)]
pub enum Line {
    /// Nothing but spaces, tabs and carriage returns.
    Blank,
    /// It says this event.
    Event(Event),
    /// It would say an event, but a text in it breaks that text's rule.
    Refused(BaseFault),
}

/// What the bytes say, if their object is a flat one: read without a map, and with no memory but that of the scratch and of
/// the event. None also where there is no memory for the scratch. O(bytes).
fn read_flat(
    alloc: Global,
    scratch: &mut LineScratch,
    bytes: &[u8],
) -> Option<Result<Event, ReadFault>>
    ensures { IfSome result (λ read. Gives same read (event_from bytes.now)) }
{
    let text = from_utf8(bytes).ok()?;
    let mut object = FlatObject::new();
    if !object.read(text, scratch) {
        return None;
    }
    Some(read_flat_event(alloc, object.fields()))
}

fn read_tree(alloc: Global, bytes: &[u8]) -> Result<Event, ReadFault>
    ensures { Gives same result (event_from bytes.now) }
{
    let value = parse(alloc, bytes)?;
    read_tree_event(alloc, &value)
}

/// The event that the bytes say, from a flat object, or else from any other. The memory of the scratch is let go before the
/// bytes are read anew.
fn read_event(alloc: Global, scratch: &mut LineScratch, bytes: &[u8]) -> Result<Event, ReadFault>
    ensures { Gives same result (event_from bytes.now) }
{
    match read_flat(alloc, scratch, bytes) {
        Some(read) => read,
        None => {
            *scratch = LineScratch::new(alloc);
            read_tree(alloc, bytes)
        }
    }
}

/// What the line with these bytes, its line feed left out, says, as `event_of` tells it. The scratch is kept from line to
/// line, unless the line is a long one. O(bytes).
#[tactic(auto, unfolding(crate::specs::Line::line_of))]
pub(crate) fn parse_line(
    alloc: Global,
    scratch: &mut LineScratch,
    bytes: &[u8],
) -> Result<Line, LineFault>
    ensures says { Reads result (line_of bytes.now) }
    ensures blank { list_all is_blank_byte bytes.now ≡ true → result ≡ Ok lines.Blank }
{
    if is_blank(bytes) {
        return Ok(Line::Blank);
    }
    let read = read_event(alloc, scratch, bytes);
    if bytes.len() > KEPT_LEN {
        *scratch = LineScratch::new(alloc);
    }
    match read {
        Ok(event) => Ok(Line::Event(event)),
        Err(ReadFault::Bad) => Err(LineFault::Bad),
        Err(ReadFault::Text(fault)) => Ok(Line::Refused(fault)),
        Err(ReadFault::Memory) => Err(LineFault::NoMemory),
    }
}

/// What the line with these bytes, its line feed left out, says. A line that says nothing that a script can have is
/// Bad; one that is good but for a text that breaks its rule is read as Refused with that fault. A blank line takes no
/// memory. O(bytes).
pub fn event_of(alloc: Global, bytes: &[u8]) -> Result<Line, LineFault>
    ensures says { Reads result (line_of bytes.now) }
    ensures blank { list_all is_blank_byte bytes.now ≡ true → result ≡ Ok lines.Blank }
{
    let mut scratch = LineScratch::new(alloc);
    parse_line(alloc, &mut scratch, bytes)
}

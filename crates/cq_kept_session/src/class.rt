//! Which lines find room when little is left.
ghost use Rattle.std.specs.Prelude.{◌≡◌, ◌⊎◌, IfOk};
ghost use Rattle.cq_kept_session.specs.Classes.{class_of_event, class_of_line};
ghost use Rattle.cq_script.specs.Line.{line_of};
ghost use Rattle.cq_kept_session.specs.declared.class.LineClass.TheVariants.{Adds};

use cq_base::{Ask, NoMemory};
use cq_events::Event;
use cq_script::{Line, LineFault, cut_line, event_of};
use std::alloc::Global;

/// What a line does to what a session holds.
#[derive(Clone, Copy, Debug, PartialEq, Eq)]
pub enum LineClass {
    /// It may add a queue or a message, or says no event. It is the first to be refused.
    Adds,
    /// It changes what is there.
    Changes,
    /// It deletes or removes.
    Frees,
    /// It moves messages between parties, as a put of an answer to a client. It is the last to be refused: what was taken can be answered.
    Moves,
}

/// The class of a line, its line feed left out.
pub fn class_of_line(alloc: Global, line: &[u8]) -> Result<LineClass, NoMemory>
    ensures { IfOk result (λ class. class ≡ class_of_line (line_of line.now)) }
{
    match event_of(alloc, line) {
        Ok(Line::Event(event)) => Ok(class_of_event(&event)),
        Ok(_) | Err(LineFault::Bad) => Ok(LineClass::Adds),
        Err(LineFault::NoMemory) => Err(NoMemory),
    }
}

/// The one of two classes that is refused first.
fn first_refused(one: LineClass, other: LineClass) -> LineClass
    ensures one { one ≡ Adds → result ≡ Adds }
    ensures other { other ≡ Adds → result ≡ Adds }
    ensures either { (result ≡ one) ⊎ (result ≡ other) }
{
    match (one, other) {
        (LineClass::Adds, _) | (_, LineClass::Adds) => LineClass::Adds,
        (LineClass::Changes, _) | (_, LineClass::Changes) => LineClass::Changes,
        (LineClass::Frees, _) | (_, LineClass::Frees) => LineClass::Frees,
        (LineClass::Moves, LineClass::Moves) => LineClass::Moves,
    }
}

/// The class of these lines that is refused first. A line that hasn't ended may add something.
pub(crate) fn class_of_lines(alloc: Global, lines: &[u8]) -> Result<LineClass, NoMemory> {
    let mut class = LineClass::Moves;
    let mut rest = lines;
    while let Some((line, later)) = cut_line(rest) {
        class = first_refused(class, class_of_line(alloc, line)?);
        rest = later;
    }
    if rest.is_empty() {
        Ok(class)
    } else {
        Ok(LineClass::Adds)
    }
}

fn class_of_event(event: &Event) -> LineClass
    ensures { result ≡ class_of_event event.now }
{
    match event {
        Event::Arrive { request, .. } => match &request.ask {
            Ask::Create { .. } | Ask::Send { .. } => LineClass::Adds,
            Ask::Receive { .. } | Ask::Change { .. } => LineClass::Changes,
            Ask::Remove { .. } | Ask::Delete { .. } => LineClass::Frees,
        },
        Event::Ask { .. } | Event::Crash { .. } | Event::Detect { .. } | Event::Join { .. } => {
            LineClass::Changes
        }
        Event::Put { .. } | Event::Take { .. } => LineClass::Moves,
    }
}

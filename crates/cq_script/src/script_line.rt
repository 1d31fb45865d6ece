//! The lines of scripts and of sessions, and their parsers.
ghost use Rattle.std.specs.Prelude.{◌≡◌};
ghost use Rattle.cq_script.specs.Lines.{numbered};

use crate::event_line::{Line, parse_line};
use crate::fault::LineRefusal;
use cq_json::LineScratch;
use cq_lines::{LineFault, LineParser};
use cq_world::Event;
use std::alloc::Global;

/// A line that is not blank, and its number, counted from 1.
#[derive(Debug, Drop)]
pub struct ScriptLine {
    pub number: u64,
    /// The event that the line says, or why it says none.
    pub event: Result<Event, LineRefusal>,
}

/// What line `number` is, unless it is blank.
fn numbered(number: u64, line: Line) -> Option<ScriptLine>
    ensures { result ≡ numbered number line }
{
    let event = match line {
        Line::Blank => return None,
        Line::Event(event) => Ok(event),
        Line::Refused(fault) => Err(LineRefusal::Text(fault)),
    };
    Some(ScriptLine { number, event })
}

/// Parses the lines of a script, of which one that is bad or overlong is a fault.
#[derive(Drop)]
pub(crate) struct ScriptParser {
    alloc: Global,
    /// Kept from line to line.
    scratch: LineScratch,
}

impl ScriptParser {
    pub(crate) fn new(alloc: Global) -> ScriptParser {
        ScriptParser {
            alloc,
            scratch: LineScratch::new(alloc),
        }
    }
}

impl LineParser<ScriptLine> for ScriptParser {
    ghost use Rattle.cq_script.specs.Lines.{script_grammar};

    ghost grammar = { script_grammar };

    fn parse(&mut self, number: u64, bytes: &[u8]) -> Result<Option<ScriptLine>, LineFault> {
        match parse_line(self.alloc, &mut self.scratch, bytes) {
            Ok(line) => Ok(numbered(number, line)),
            Err(fault) => Err(fault),
        }
    }

    fn parse_overlong(&mut self, _number: u64) -> Result<Option<ScriptLine>, LineFault> {
        Err(LineFault::Bad)
    }
}

/// Parses the lines of a session, where such a line is refused and no fault.
#[derive(Drop)]
pub(crate) struct SessionParser {
    script: ScriptParser,
}

impl SessionParser {
    pub(crate) fn new(alloc: Global) -> SessionParser {
        SessionParser {
            script: ScriptParser::new(alloc),
        }
    }
}

impl LineParser<ScriptLine> for SessionParser {
    ghost use Rattle.cq_script.specs.Lines.{session_grammar};

    ghost grammar = { session_grammar };

    fn parse(&mut self, number: u64, bytes: &[u8]) -> Result<Option<ScriptLine>, LineFault> {
        match self.script.parse(number, bytes) {
            Ok(line) => Ok(line),
            Err(LineFault::Bad) => Ok(Some(ScriptLine {
                number,
                event: Err(LineRefusal::Bad),
            })),
            Err(LineFault::NoMemory) => Err(LineFault::NoMemory),
        }
    }

    fn parse_overlong(&mut self, number: u64) -> Result<Option<ScriptLine>, LineFault> {
        Ok(Some(ScriptLine {
            number,
            event: Err(LineRefusal::TooLong),
        }))
    }
}

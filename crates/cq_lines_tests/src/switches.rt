//! Lines that turn a switch on or off.
use cq_lines::{Limits, LineFault, LineParser, LineReader, ScriptFault, is_blank};
use std::alloc::Global;

/// What a line says.
#[derive(Debug, PartialEq, Eq, Drop)]
pub enum Switch {
    On,
    Off,
    /// The line with this number is overlong.
    Overlong(u64),
}

/// Parses `on` and `off`. All other lines are bad, but blank ones.
#[derive(Drop)]
pub struct SwitchParser;

impl LineParser<Switch> for SwitchParser {
    ghost use Rattle.cq_lines_tests.specs.Switches.{switch_grammar};

    ghost grammar = { switch_grammar };

    fn parse(&mut self, _number: u64, bytes: &[u8]) -> Result<Option<Switch>, LineFault> {
        if is_blank(bytes) {
            Ok(None)
        } else if bytes == b"on".as_slice() {
            Ok(Some(Switch::On))
        } else if bytes == b"off".as_slice() {
            Ok(Some(Switch::Off))
        } else {
            Err(LineFault::Bad)
        }
    }

    fn parse_overlong(&mut self, number: u64) -> Result<Option<Switch>, LineFault> {
        Ok(Some(Switch::Overlong(number)))
    }
}

/// The switches of a text that comes in these chunks.
pub fn read_chunks(
    alloc: Global,
    limits: Limits,
    chunks: &[&[u8]],
) -> Result<Vec<Switch>, ScriptFault> {
    let mut parser = SwitchParser;
    let mut lines = LineReader::new(alloc, limits);
    for chunk in chunks {
        lines.feed(&mut parser, chunk)?;
    }
    lines.finish(&mut parser)?;
    Ok(lines.into_values())
}

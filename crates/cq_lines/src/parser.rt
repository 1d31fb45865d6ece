//! Parsers of lines.

use thiserror::Error;

/// Why a line could not be read.
#[derive(Clone, Copy, Debug, PartialEq, Eq, Error)]
pub enum LineFault {
    /// The line is none of the script's.
    #[error("bad line")]
    Bad,
    /// There was no memory to read it.
    #[error("no memory")]
    NoMemory,
}

/// A parser of the lines of a text. Lines are counted from 1, blank ones too.
pub trait LineParser<T: Drop> {
    ghost use Rattle.cq_lines.specs.Grammars.{Grammar, IsParsedAs};

    // The value of each line.
    ghost grammar: { Grammar T };

    /// The value of the line with that number and these bytes, its line feed left out. None: the line says nothing.
    fn parse(&mut self, number: u64, bytes: &[u8]) -> Result<Option<T>, LineFault>
        ensures { IsParsedAs result (grammar.line_value number bytes.now) };

    /// The value of the line with that number, which has more bytes than a line may have.
    fn parse_overlong(&mut self, number: u64) -> Result<Option<T>, LineFault>
        ensures { IsParsedAs result (grammar.overlong_value number) };
}

//! A text that comes chunk by chunk, and the values of its lines.
ghost use Rattle.std.specs.Prelude.{◌≡◌, ◌+◌, ◌<◌, ◌≤◌, ◌++◌, nat_lt, Option, false, [], length, OnOk, OnErr};
ghost use Rattle.cq_lines.specs.Grammars.{IsLineFault, IsParsedAs, Yields, value_or_fault, values_of};
ghost use Rattle.cq_lines.specs.Progress.{FeedsChunk, lines_read, nothing_read, parse_after, without_values};
ghost use Rattle.cq_lines.specs.within.Steps.{Follows, line_completed, line_end, overlong_outcome, part_of, partial_overlong};

use crate::fault::ScriptFault;
use crate::limits::Limits;
use crate::line::cut_line;
use crate::parser::{LineFault, LineParser};
use std::alloc::{AllocError, Global};
use std::marker::Model;

/// What has been read of a text: the values of the lines that have ended, until they are cleared, and the partial line
/// behind them.
#[derive(Drop)]
pub struct LineReader<T: Drop> {
    limits: Limits,
    values: Vec<T>,
    /// How many lines have ended.
    lines: u64,
    partial: Vec<u8>,
    /// Whether the partial line has more bytes than a line may have. None of them is kept then.
    is_overlong: bool,
}

impl<T: Drop> Model for LineReader<T> {
    ghost use Rattle.std.specs.Prelude.{◌≡◌, ◌≤◌, ◌<◌, ◌+◌, true, min, vec_len};
    ghost use Rattle.cq_lines.specs.Progress.{Progress, partial_of};

    ghost Value = { Progress T };

    ghost view = { λ r. record { limits = r.limits; values = r.values.items; lines = r.lines; partial = partial_of r.limits.line_len r.is_overlong r.partial.items } };

    // No more lines have ended or begun than there may be, and no partial line that is kept is overlong.
    ghost invariant = { λ r. (r.lines + min 1 (vec_len r.partial) ≤ r.limits.line_count) × (vec_len r.partial ≤ r.limits.line_len)
        × (r.is_overlong ≡ true → r.lines < r.limits.line_count) };
}

impl<T: Drop> LineReader<T> {
    /// Before the first byte.
    pub fn new(alloc: Global, limits: Limits) -> LineReader<T>
        ensures { result ≡ nothing_read limits }
    {
        LineReader {
            limits,
            values: Vec::new(alloc),
            lines: 0,
            partial: Vec::new(alloc),
            is_overlong: false,
        }
    }

    /// Behind so many lines that were read before, which have all ended.
    pub fn behind(alloc: Global, limits: Limits, lines: u64) -> LineReader<T>
        requires { lines ≤ limits.line_count }
        ensures { result ≡ lines_read limits lines }
    {
        LineReader {
            limits,
            values: Vec::new(alloc),
            lines,
            partial: Vec::new(alloc),
            is_overlong: false,
        }
    }

    /// The limits that it keeps: O(1).
    pub fn limits(&self) -> Limits
        ensures { result ≡ self.now.limits }
    {
        self.limits
    }

    /// How many lines have ended: O(1).
    pub fn line_count(&self) -> u64
        ensures { result ≡ self.now.lines }
    {
        self.lines
    }

    /// Whether a line has begun and hasn't ended yet: O(1).
    pub fn is_in_line(&self) -> bool
        ensures { result ≡ false → self.now.partial ≡ [] }
    {
        self.is_overlong || !self.partial.is_empty()
    }

    /// The values of the lines that have ended since values were last cleared.
    pub fn values(&self) -> &[T]
        ensures { result.now ≡ self.now.values }
    {
        self.values.as_slice()
    }

    /// Drops these values.
    pub fn clear_values(&mut self)
        ensures { self.new ≡ without_values self.old }
    {
        self.values.clear();
    }

    /// These values, by themselves.
    pub fn into_values(self) -> Vec<T>
        ensures { result.items ≡ self.values }
    {
        self.values
    }

    /// Reads the next chunk, to its end or to the first fault in it: O(bytes), and what the parser takes for each line.
    pub fn feed<P: LineParser<T>>(
        &mut self,
        parser: &mut P,
        chunk: &[u8],
    ) -> Result<(), ScriptFault>
        ensures { FeedsChunk P.grammar result self.old chunk.now self.new }
    {
        let mut rest = chunk;
        while let Some((line, later)) = cut_line(rest) {
            self.end_line(parser, line)?;
            rest = later;
        }
        self.extend_partial(parser, rest)
    }

    /// Reads the end of the text. A partial line is its last line.
    pub fn finish<P: LineParser<T>>(&mut self, parser: &mut P) -> Result<(), ScriptFault>
        ensures { Yields result self.new.values (parse_after P.grammar self.old []) }
    {
        if self.is_overlong {
            let number = self.lines + 1;
            let parsed = parser.parse_overlong(number);
            return self.complete_line(ScriptFault::LineTooLong(number), parsed);
        }
        if self.partial.is_empty() {
            return Ok(());
        }
        let number = self.lines + 1;
        let parsed = parser.parse(number, self.partial.as_slice());
        self.complete_line(ScriptFault::BadLine(number), parsed)
    }

    /// Whether the partial line is overlong with these bytes.
    fn exceeds_line(&self, part: &[u8]) -> bool
        ensures { result ≡ nat_lt self.now.limits.line_len (length self.now.partial + length part.now) }
    {
        self.is_overlong || part.len() > self.limits.line_len - self.partial.len()
    }

    /// Adds bytes to the partial line, or begins one with them.
    #[tactic(auto, unfolding(crate::specs::within::Steps::part_of))]
    fn extend_partial<P: LineParser<T>>(
        &mut self,
        parser: &mut P,
        part: &[u8],
    ) -> Result<(), ScriptFault>
        ensures { Follows result self.new (part_of P.grammar self.old part.now) }
    {
        if part.is_empty() {
            return Ok(());
        }
        if self.lines >= self.limits.line_count {
            return Err(ScriptFault::TooManyLines);
        }
        if self.exceeds_line(part) {
            return self.drop_partial(parser);
        }
        self.partial.extend_from_slice(part)?;
        Ok(())
    }

    /// The partial line is overlong. It is a fault, or its bytes are dropped.
    fn drop_partial<P: LineParser<T>>(&mut self, parser: &mut P) -> Result<(), ScriptFault>
        requires { self.old.lines < self.old.limits.line_count }
        ensures { Follows result self.new (partial_overlong self.old (overlong_outcome P.grammar self.old)) }
    {
        let number = self.lines + 1;
        match parser.parse_overlong(number) {
            Ok(_) => {
                self.partial.clear();
                self.is_overlong = true;
                Ok(())
            }
            Err(LineFault::Bad) => Err(ScriptFault::LineTooLong(number)),
            Err(LineFault::NoMemory) => Err(ScriptFault::NoMemory),
        }
    }

    /// A line ends behind these bytes, which are its last ones or all of it. A line that is whole in them isn't copied.
    #[tactic(auto, unfolding(crate::specs::within::Steps::line_end))]
    fn end_line<P: LineParser<T>>(&mut self, parser: &mut P, part: &[u8]) -> Result<(), ScriptFault>
        ensures { Follows result self.new (line_end P.grammar self.old part.now) }
    {
        if self.lines >= self.limits.line_count {
            return Err(ScriptFault::TooManyLines);
        }
        let number = self.lines + 1;
        if self.exceeds_line(part) {
            let parsed = parser.parse_overlong(number);
            return self.complete_line(ScriptFault::LineTooLong(number), parsed);
        }
        if self.partial.is_empty() {
            let parsed = parser.parse(number, part);
            return self.complete_line(ScriptFault::BadLine(number), parsed);
        }
        self.partial.extend_from_slice(part)?;
        let parsed = parser.parse(number, self.partial.as_slice());
        self.complete_line(ScriptFault::BadLine(number), parsed)
    }

    /// Counts the line that was parsed, and keeps its value. A bad one is this fault.
    fn complete_line(
        &mut self,
        fault: ScriptFault,
        parsed: Result<Option<T>, LineFault>,
    ) -> Result<(), ScriptFault>
        requires few { self.old.lines < self.old.limits.line_count }
        requires of_line { IsLineFault fault }
        ensures { (value : Option (Option T)) → IsParsedAs parsed value
            → Follows result self.new (line_completed self.old (value_or_fault fault value)) }
    {
        let value = match parsed {
            Ok(value) => value,
            Err(LineFault::Bad) => return Err(fault),
            Err(LineFault::NoMemory) => return Err(ScriptFault::NoMemory),
        };
        push_value(&mut self.values, value)?;
        self.partial.clear();
        self.is_overlong = false;
        self.lines += 1;
        Ok(())
    }
}

/// Adds the value of a line, if it has one.
fn push_value<T: Drop>(values: &mut Vec<T>, value: Option<T>) -> Result<(), AllocError>
    ensures ok { OnOk result (values.new.items ≡ values.old.items ++ values_of value) }
    ensures err { OnErr result (values.new.items ≡ values.old.items) }
{
    if let Some(value) = value {
        values.push(value)?;
    }
    Ok(())
}

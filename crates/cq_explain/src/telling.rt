//! Lines that are looked at as they are read, and what is told of them.
ghost use Rattle.std.specs.Prelude.{◌≡◌, false};
ghost use Rattle.cq_lines.specs.Checks.{is_failed};

use crate::finding::Finding;
use cq_base::NoMemory;
use cq_lines::{
    BYTES_LIMIT, CHUNK_SIZE, Checked, LINE_LIMIT, LINES_LIMIT, Limits, LineFault, LineParser,
    LineReader, ScriptFault, Sink, Source, read_fault,
};
use std::alloc::Global;
use std::io::{Read, Write};

/// Looks at lines.
pub(crate) trait Looker {
    /// What is wrong with a line.
    fn look(&mut self, bytes: &[u8]) -> Result<Finding, NoMemory>;
}

/// Looks at each line, and keeps what is to be told.
#[derive(Drop)]
struct Teller<L: Looker + Drop> {
    alloc: Global,
    looker: L,
    /// What wasn't written yet.
    text: String,
    has_told: bool,
}

impl<L: Looker + Drop> Teller<L> {
    /// Keeps a sentence on a line.
    fn tell(&mut self, number: u64, why: &str) -> Result<(), NoMemory> {
        let line = format!(in self.alloc; "line {number}{why}\n")?;
        self.text.push_str(line.as_str())?;
        self.has_told = true;
        Ok(())
    }

    /// Writes what is to be told, and flushes it.
    fn write<W: Write>(&mut self, output: &mut Checked<W>) -> Result<(), ScriptFault> {
        output.print(self.text.as_str());
        self.text.clear();
        if output.flush().is_err() || output.failed() {
            return Err(ScriptFault::WriteFailed);
        }
        Ok(())
    }
}

impl<L: Looker + Drop> LineParser<()> for Teller<L> {
    ghost use Rattle.cq_explain.specs.Findings.{silent_grammar};

    ghost grammar = { silent_grammar };

    fn parse(&mut self, number: u64, bytes: &[u8]) -> Result<Option<()>, LineFault> {
        let told = match self.looker.look(bytes) {
            Ok(Finding::Nothing) => Ok(()),
            Ok(Finding::Bad(why)) => self.tell(number, why.as_str()),
            Ok(Finding::Refused(why)) => self.tell(number, why.as_str()),
            Err(fault) => Err(fault),
        };
        match told {
            Ok(()) => Ok(None),
            Err(_) => Err(LineFault::NoMemory),
        }
    }

    fn parse_overlong(&mut self, number: u64) -> Result<Option<()>, LineFault> {
        let Ok(why) = format!(in self.alloc; ": it has more than {LINE_LIMIT} bytes") else {
            return Err(LineFault::NoMemory);
        };
        match self.tell(number, why.as_str()) {
            Ok(()) => Ok(None),
            Err(_) => Err(LineFault::NoMemory),
        }
    }
}

/// Looks at all lines of the reader, and tells what is wrong with each behind the chunk in which it ends. The answer says whether
/// something was told.
pub(crate) fn tell_lines<L: Looker + Drop, R: Read, W: Write>(
    alloc: Global,
    looker: L,
    reader: &mut Checked<R>,
    output: &mut Checked<W>,
) -> Result<bool, ScriptFault>
    requires reader { is_failed reader.old ≡ false }
{
    let limits = Limits {
        line_len: LINE_LIMIT,
        line_count: LINES_LIMIT,
    };
    let mut teller = Teller {
        alloc,
        looker,
        text: String::new(alloc),
        has_told: false,
    };
    let mut lines = LineReader::new(alloc, limits);
    let mut chunk = [0; CHUNK_SIZE];
    for _ in 0..BYTES_LIMIT {
        match reader.read(&mut chunk) {
            Ok(0) => {
                if reader.failed() {
                    return Err(ScriptFault::ReadFailed);
                }
                let read = lines.finish(&mut teller);
                teller.write(output)?;
                read?;
                return Ok(teller.has_told);
            }
            Ok(count) => {
                let read = lines.feed(&mut teller, &chunk[..count]);
                teller.write(output)?;
                read?;
            }
            Err(_) => return Err(read_fault(reader)),
        }
    }
    Err(ScriptFault::TooManyLines)
}

//! Scripts that are made as they are read.
ghost use Rattle.std.specs.Prelude.{◌≤◌, length};

use crate::lines::Lines;
use std::alloc::Global;
use std::io;
use std::io::Read;

/// What makes the lines of a script.
pub trait Maker {
    /// Writes the next lines, or none at the end of the script.
    fn write_next(&mut self, lines: &mut Lines) -> io::Result<()>;
}

/// A reader of the lines that are made.
#[derive(Drop)]
pub struct Script<M> {
    maker: M,
    lines: Lines,
    /// How many bytes of these lines were read.
    read: usize,
}

impl<M: Maker> Script<M> {
    pub fn new(alloc: Global, maker: M) -> Script<M> {
        Script {
            maker,
            lines: Lines::new(alloc),
            read: 0,
        }
    }

    /// Has the next lines made, once those before were read.
    fn refill(&mut self) -> io::Result<()> {
        if self.read >= self.lines.as_slice().len() {
            self.lines.clear();
            self.read = 0;
            self.maker.write_next(&mut self.lines)?;
        }
        Ok(())
    }

    /// Copies what was made into the buffer, as much as there is room for, and tells how much that was.
    fn copy_out(&mut self, buf: &mut [u8]) -> usize
        ensures { result ≤ length buf.new }
    {
        let lines = self.lines.as_slice();
        let begun = self.read.min(lines.len());
        let count = buf.len().min(lines.len() - begun);
        buf[..count].copy_from_slice(&lines[begun..begun + count]);
        self.read = begun.saturating_add(count);
        count
    }
}

impl<M: Maker> Read for Script<M> {
    fn read(&mut self, buf: &mut [u8]) -> io::Result<usize> {
        self.refill()?;
        Ok(self.copy_out(buf))
    }
}

//! A reader or a writer that remembers whether a call of it has failed.
ghost use Rattle.std.specs.Prelude.{◌≡◌, ◌≢◌, ◌||◌, false, true, IfErr, IfSome};
ghost use Rattle.std.specs.Result.{is_err, is_ok};
ghost use Rattle.std.specs.Io.{ReadsAtMost, WritesAtMost};
ghost use Rattle.std.specs.Io.KnownBytes.{ReadConsumes, WriteAppends, Appends, Keeps};
ghost use Rattle.std.specs.IoError.{error_kind};
ghost use Rattle.cq_lines.specs.Checks.{inner_of, is_failed, is_flushed, is_failed_write};

use super::sink::Sink;
use super::source::Source;
use std::fmt::Display;
use std::io;
use std::io::{ErrorKind, Read, Write};

/// Any reader or writer, with a note of whether a call of it has failed. An interrupted call is
/// made again, and is no failure. Of a writer it also knows whether it was flushed since the last write.
#[derive(Drop)]
pub struct Checked<T> {
    inner: T,
    failed: bool,
    flushed: bool,
}

impl<T> Checked<T> {
    /// Wraps `inner`, of which no call has failed yet.
    pub fn new(inner: T) -> Checked<T>
        ensures inner { inner_of result ≡ inner }
        ensures unfailed { is_failed result ≡ false }
        ensures unflushed { is_flushed result ≡ false }
    {
        Checked {
            inner,
            failed: false,
            flushed: false,
        }
    }
}

/// What is left to say after so many interrupted calls.
fn interrupted_throughout() -> io::Error
    ensures { error_kind result ≢ ErrorKind.Interrupted }
{
    io::Error::other("interrupted too many times")
}

impl<R: Read> Read for Checked<R> {
    ghost remaining = { λ checked. R.remaining (inner_of checked) };

    fn read(&mut self, buf: &mut [u8]) -> io::Result<usize>
        ensures bound { ReadsAtMost result buf.new }
        ensures bytes { ReadConsumes (R.remaining (inner_of self.old)) (R.remaining (inner_of self.new))
            result buf.new }
        ensures failed { is_failed self.new ≡ (is_failed self.old || is_err result) }
        ensures again { IfErr result (λ error. error_kind error ≢ ErrorKind.Interrupted) }
    {
        for _ in 0..u64::MAX {
            match self.inner.read(buf) {
                Ok(count) => return Ok(count),
                Err(error) => {
                    if error.kind() != ErrorKind::Interrupted {
                        self.failed = true;
                        return Err(error);
                    }
                }
            }
        }
        self.failed = true;
        Err(interrupted_throughout())
    }
}

impl<R: Read> Source for Checked<R> {
    ghost has_failed = { is_failed };

    fn failed(&self) -> bool {
        self.failed
    }
}

impl<W: Write> Write for Checked<W> {
    ghost contents = { λ checked. W.contents (inner_of checked) };

    fn write(&mut self, buf: &[u8]) -> io::Result<usize>
        ensures bound { WritesAtMost result buf.now }
        ensures bytes { WriteAppends (W.contents (inner_of self.old)) (W.contents (inner_of self.new))
            result buf.now }
        ensures failed { is_failed self.new ≡ (is_failed self.old || is_failed_write result buf.now) }
        ensures flushed { is_flushed self.new ≡ false }
        ensures again { IfErr result (λ error. error_kind error ≢ ErrorKind.Interrupted) }
    {
        self.flushed = false;
        for _ in 0..u64::MAX {
            match self.inner.write(buf) {
                Ok(count) => {
                    self.failed |= count == 0 && !buf.is_empty();
                    return Ok(count);
                }
                Err(error) => {
                    if error.kind() != ErrorKind::Interrupted {
                        self.failed = true;
                        return Err(error);
                    }
                }
            }
        }
        self.failed = true;
        Err(interrupted_throughout())
    }

    fn flush(&mut self) -> io::Result<()>
        ensures bytes { Keeps (W.contents (inner_of self.old)) (W.contents (inner_of self.new)) }
        ensures failed { is_failed self.new ≡ (is_failed self.old || is_err result) }
        ensures flushed { is_flushed self.new ≡ (is_flushed self.old || is_ok result) }
        ensures again { IfErr result (λ error. error_kind error ≢ ErrorKind.Interrupted) }
    {
        for _ in 0..u64::MAX {
            match self.inner.flush() {
                Ok(()) => {
                    self.flushed = true;
                    return Ok(());
                }
                Err(error) => {
                    if error.kind() != ErrorKind::Interrupted {
                        self.failed = true;
                        return Err(error);
                    }
                }
            }
        }
        self.failed = true;
        Err(interrupted_throughout())
    }
}

impl<W: Write> Checked<W> {
    /// Writes this text. Where it can't all be written, that is a failure.
    pub fn print<D: Display + Drop>(&mut self, text: D)
        ensures bytes { IfSome (D.output text) (λ bytes. is_failed self.new ≡ false
            → Appends (W.contents (inner_of self.old)) (W.contents (inner_of self.new)) bytes) }
        ensures failed { is_failed self.old ≡ true → is_failed self.new ≡ true }
    {
        let had_failed = self.failed;
        let printed = self.write_fmt(text);
        self.failed |= had_failed || printed.is_err();
    }
}

impl<W: Write> Sink for Checked<W> {
    ghost has_failed = { is_failed };

    ghost has_flushed = { is_flushed };

    fn failed(&self) -> bool {
        self.failed
    }

    fn flush_written(&mut self) -> io::Result<()> {
        self.flush()
    }
}

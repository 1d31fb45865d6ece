//! How a session takes the lines of a reader.
ghost use Rattle.std.specs.Prelude.{◌≡◌, ◌⊎◌, ◌≤◌, ◌+◌, ◌++◌, [], ◌∷◌, ℕ, List, length, true, false, Err, IsTrue, OnErr, OnOk};
ghost use Rattle.std.specs.Io.KnownBytes.{Consumes, IsAtEnd};
ghost use Rattle.cq_lines.specs.declared.fault.ScriptFault.TheVariants.{ReadFailed};
ghost use Rattle.cq_lines.specs.declared.limits.TheConstants.{LINE_LIMIT};
ghost use Rattle.cq_lines.specs.declared.text.TheConstants.{CHUNK_SIZE};
ghost use Rattle.cq_kept_session.specs.Served.{IsEnd, Serves, StopsServing};
ghost use Rattle.cq_kept_session.specs.Texts.{as_kept};

use crate::{KeptSession, KeptSink, ServeFault, TakeFault};
use cq_disk::Device;
use cq_lines::{BYTES_LIMIT, CHUNK_SIZE, LINE_LIMIT};
use cq_script::{ScriptFault, Source, read_fault};
use memchr::memrchr;

/// These bytes in two parts: what ends with their last line feed, and the rest.
fn cut_behind_lines(bytes: &[u8]) -> (&[u8], &[u8])
    ensures { result.0.now ++ result.1.now ≡ bytes.now }
{
    match memrchr(b'\n', bytes) {
        Some(place) => bytes.split_at(place + 1),
        None => bytes.split_at(0),
    }
}

impl<D: Device> KeptSession<D> {
    ghost use Rattle.cq_kept_session.specs.Kept.{IsKept, session_device, session_size};

    /// Takes the lines of a reader as they come, up to its end or to a fault. What one read brings is kept by one sync, up to its last
    /// line feed, and answered before more is read; so the lines that come meanwhile are the next to be kept. The last line is ended
    /// where it has no line feed. Beside what the lines take it holds the line that has begun, and one read. Where so many lines have come
    /// that it is worth its time, a base takes the place of all that is kept, before more is read: `rewrite`.
    pub fn serve<R: Source, W: KeptSink<D>>(
        &mut self,
        reader: &mut R,
        writer: &mut W,
    ) -> Result<(), ServeFault>
        requires { IsKept self.old }

        ensures kept { OnOk result (IsKept self.new) }
        ensures size { session_size self.new ≡ session_size self.old }
        ensures serves { OnOk result ((input : List ℕ) × (end : List ℕ) × Consumes (R.remaining reader.old) (R.remaining reader.new) input × IsAtEnd (R.remaining reader.new) × IsEnd end
            × Serves self.old self.new (W.taken writer.old) (W.taken writer.new) (as_kept (input ++ end))) }

        // Whatever fault ends it, what was written of lines rests on lines that are kept.
        ensures stops { OnErr result ((input : List ℕ) × (end : List ℕ) × Consumes (R.remaining reader.old) (R.remaining reader.new) input × IsEnd end
            × StopsServing self.old self.new (W.taken writer.old) (W.taken writer.new) (as_kept (input ++ end))) }
        ensures reader_sound { OnOk result (R.has_failed reader.new ≡ false) }
    {
        let mut partial = Vec::new(self.alloc);
        let mut chunk = [0; CHUNK_SIZE];
        for _ in 0..BYTES_LIMIT {
            match reader.read(&mut chunk) {
                Ok(0) => {
                    if reader.failed() {
                        return Err(ServeFault::Read(ScriptFault::ReadFailed));
                    }
                    return Ok(self.take_end(&mut partial, writer)?);
                }
                Ok(count) => {
                    self.take_chunk(&mut partial, &chunk[..count], writer)?;
                    self.rewrite_if_due(0)?;
                }
                Err(_) => return Err(ServeFault::Read(read_fault(reader))),
            }
        }
        Err(ServeFault::Read(ScriptFault::TooManyLines))
    }

    /// Takes the lines that end in a chunk, of which the first begins with the partial one, and leaves what is behind them. A line
    /// that is too long is taken before its end.
    fn take_chunk<W: KeptSink<D>>(
        &mut self,
        partial: &mut Vec<u8>,
        chunk: &[u8],
        writer: &mut W,
    ) -> Result<(), TakeFault>
        requires kept { IsKept self.old }
        requires partial { length partial.old.items ≤ LINE_LIMIT }
        requires short { length chunk.now ≤ CHUNK_SIZE }

        ensures kept { OnOk result (IsKept self.new) }
        ensures size { session_size self.new ≡ session_size self.old }
        ensures partial { OnOk result (length partial.new.items ≤ LINE_LIMIT) }
        ensures serves { OnOk result ((done : List ℕ) × (done ++ partial.new.items ≡ partial.old.items ++ chunk.now)
            × Serves self.old self.new (W.taken writer.old) (W.taken writer.new) (as_kept done)) }
        ensures stops { OnErr result (StopsServing self.old self.new (W.taken writer.old) (W.taken writer.new) (as_kept (partial.old.items ++ chunk.now))) }
    {
        let (ended, rest) = cut_behind_lines(chunk);
        self.take_more(partial, ended, 0, writer)?;
        self.take_more(partial, rest, LINE_LIMIT, writer)
    }

    /// Adds bytes to the partial line, and takes both where they are more than so many.
    fn take_more<W: KeptSink<D>>(
        &mut self,
        partial: &mut Vec<u8>,
        bytes: &[u8],
        limit: usize,
        writer: &mut W,
    ) -> Result<(), TakeFault>
        requires kept { IsKept self.old }
        requires partial { length partial.old.items ≤ LINE_LIMIT }
        requires short { length bytes.now ≤ CHUNK_SIZE }
        requires limit { limit ≤ LINE_LIMIT }

        ensures kept { OnOk result (IsKept self.new) }
        ensures size { session_size self.new ≡ session_size self.old }
        ensures partial { OnOk result (length partial.new.items ≤ LINE_LIMIT) }
        ensures serves { OnOk result ((done : List ℕ) × (done ++ partial.new.items ≡ partial.old.items ++ bytes.now)
            × Serves self.old self.new (W.taken writer.old) (W.taken writer.new) (as_kept done)) }
        ensures stops { OnErr result (StopsServing self.old self.new (W.taken writer.old) (W.taken writer.new) (as_kept (partial.old.items ++ bytes.now))) }
    {
        if bytes.is_empty() {
            return Ok(());
        }
        partial.extend_from_slice(bytes)?;
        if partial.len() <= limit {
            return Ok(());
        }
        self.take_behind_base(partial, writer)?;
        partial.clear();
        Ok(())
    }

    /// Takes the partial line as one that has ended, at the end of the reader.
    fn take_end<W: KeptSink<D>>(
        &mut self,
        partial: &mut Vec<u8>,
        writer: &mut W,
    ) -> Result<(), TakeFault>
        requires kept { IsKept self.old }
        requires partial { length partial.old.items ≤ LINE_LIMIT }

        ensures kept { OnOk result (IsKept self.new) }
        ensures size { session_size self.new ≡ session_size self.old }
        ensures serves { OnOk result ((end : List ℕ) × IsEnd end × Serves self.old self.new (W.taken writer.old) (W.taken writer.new) (as_kept (partial.old.items ++ end))) }
        ensures stops { OnErr result (StopsServing self.old self.new (W.taken writer.old) (W.taken writer.new) (as_kept (partial.old.items ++ 10 ∷ []))) }
    {
        if partial.as_slice().is_empty() && self.ended {
            return Ok(());
        }
        partial.push(b'\n')?;
        self.take_lines(partial, writer)
    }
}

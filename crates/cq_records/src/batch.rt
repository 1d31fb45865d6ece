//! Records that are to be written together.
ghost use Rattle.std.specs.Prelude.{◌≡◌, ◌++◌, ◌+◌, [], ◌∷◌, true, length, IfOk, OnOk, OnErr};
ghost use Rattle.cq_records.specs.within.Batches.{HasLast, IsBatch};
ghost use Rattle.cq_records.specs.Frames.{is_text, framed, frames, next_mark, records};

use crate::frame::{HEAD_LENGTH, next_mark, push_frame};
use std::alloc::{AllocError, Global};

/// Records in their order. One call of `Log::commit` writes them, and a crash in it leaves so many of them, from
/// the first on.
#[derive(Drop)]
pub struct Batch {
    bytes: Vec<u8>,
    /// Where the frame of the last record begins.
    last: usize,
    ghost batch: { IsBatch bytes.items },
    ghost last_one: { HasLast bytes.items last },
}

impl Batch {
    ghost use Rattle.cq_records.specs.Batch.{batch_bytes};

    /// An empty batch.
    pub fn new(alloc: Global) -> Batch
        ensures { batch_bytes result ≡ [] }
    {
        Batch {
            bytes: Vec::new(alloc),
            last: 0,
        }
    }

    /// Adds a record. Where there is no memory for it, the batch is as it was.
    pub fn add(&mut self, text: &[u8]) -> Result<(), AllocError>
        requires { is_text text.now ≡ true }
        ensures bytes { OnOk result (batch_bytes self.new ≡ batch_bytes self.old ++ framed (next_mark (batch_bytes self.old)) text.now) }
        ensures records { OnOk result (records (batch_bytes self.new) ≡ records (batch_bytes self.old) ++ text.now ∷ []) }
        ensures err { OnErr result (batch_bytes self.new ≡ batch_bytes self.old) }
    {
        let mark = next_mark(&self.bytes);
        self.last = self.as_slice().len();
        push_frame(&mut self.bytes, mark, text)
    }

    /// Takes the last record out, if there is one, as a batch of its own, which takes memory for it. Where there is none, this batch is
    /// as it was.
    pub fn split_last(&mut self, alloc: Global) -> Result<Batch, AllocError>
        ensures records { IfOk result (λ last. records (batch_bytes self.new) ++ records (batch_bytes last) ≡ records (batch_bytes self.old)) }
        ensures length { IfOk result (λ last. length (batch_bytes self.new) + length (batch_bytes last) ≡ length (batch_bytes self.old)) }
        ensures err { OnErr result (batch_bytes self.new ≡ batch_bytes self.old) }
    {
        let mut last = Batch::new(alloc);
        if self.last < self.bytes.len() {
            last.add(&self.bytes[self.last + HEAD_LENGTH..])?;
            self.bytes.truncate(self.last);
        }
        Ok(last)
    }

    /// Leaves no record in it, and keeps its memory.
    pub fn clear(&mut self)
        ensures { batch_bytes self.new ≡ [] }
    {
        self.bytes.clear();
    }

    /// The frames of its records.
    pub fn as_slice(&self) -> &[u8]
        ensures { result.now ≡ batch_bytes self.now }
    {
        &self.bytes
    }
}

//! The records of a base: its pieces.
ghost use Rattle.std.specs.Prelude.{◌≡◌, ◌<◌, ◌++◌, [], ◌∷◌, ℕ, List, length, IfOk, OnOk};
ghost use Rattle.cq_records.specs.Batch.{batch_bytes};
ghost use Rattle.cq_records.specs.Frames.{records};
ghost use Rattle.cq_store_wire.specs.Chunks.{IsChunk};
ghost use Rattle.cq_store_wire.specs.Order.{parts_from};
ghost use Rattle.cq_store_wire.specs.declared.writer.Place.TheVariants as places;
ghost use Rattle.cq_kept_base.specs.Stuffing.{Stuffs};

use crate::stuffing::stuff;
use cq_base::NoMemory;
use cq_records::{Batch, LogFault, is_text};
use cq_store::Store;
use cq_store_wire::StoreWriter;
use std::alloc::Global;

/// How many bytes of a store a piece of a base has at least, if there are so many.
const PIECE: usize = 1_048_576;

/// A piece is at least so many times shorter than a region, but for a single part of a store.
const PIECES: usize = 8;

/// How many bytes of a store a piece of a base has at least, if there are so many, in regions of this length.
pub fn piece_size(region: usize) -> usize {
    (region / PIECES).min(PIECE)
}

/// A batch with just this record. `Full`: no record can be so long.
pub fn batch_of(alloc: Global, text: &[u8]) -> Result<Batch, LogFault>
    ensures { IfOk result (λ batch. records (batch_bytes batch) ≡ text.now ∷ []) }
{
    if !is_text(text) {
        return Err(LogFault::Full);
    }
    let mut batch = Batch::new(alloc);
    batch.add(text)?;
    Ok(batch)
}

/// The text of a piece that stands for these bytes, behind what its record begins with.
pub fn piece_text(alloc: Global, front: &[u8], payload: &[u8]) -> Result<Vec<u8>, LogFault>
    ensures { IfOk result (λ text. (stuffed : List ℕ) × Stuffs front.now stuffed payload.now × (text.items ≡ stuffed ++ 10 ∷ [])) }
{
    let mut text = Vec::new(alloc);
    text.extend_from_slice(front)?;
    stuff(&mut text, payload)?;
    text.push(b'\n')?;
    Ok(text)
}

/// The next chunk of a store.
pub fn next_chunk(
    alloc: Global,
    writer: &mut StoreWriter,
    store: &Store,
    enough: usize,
) -> Result<Vec<u8>, LogFault>
    ensures chunk { IfOk result (λ chunk. IsChunk (parts_from store.now writer.old.bodies writer.old.place) (parts_from store.now writer.new.bodies writer.new.place) chunk.items) }
    ensures moves { OnOk result ((writer.old.place ≡ places.End → ⊥)
        → length (parts_from store.now writer.new.bodies writer.new.place) < length (parts_from store.now writer.old.bodies writer.old.place)) }
{
    let mut chunk = Vec::new(alloc);
    match writer.next(store, &mut chunk, enough) {
        Ok(()) => Ok(chunk),
        Err(NoMemory) => Err(LogFault::NoMemory),
    }
}

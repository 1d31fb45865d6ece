//! What is kept, as it is read.
ghost use Rattle.std.specs.Prelude.{◌≡◌, ◌⊎◌, ◌≤◌, ◌<◌, ◌++◌, [], ◌∷◌, ℕ, List, None, length, IfErr, IfOk, MatchOption};
ghost use Rattle.cq_base.specs.declared.ask.Entry as base;
ghost use Rattle.cq_base.specs.declared.limits.TheConstants.{HISTORY_LIMIT};
ghost use Rattle.cq_store.specs.Stands.{StandsFor, count_of, last_of};
ghost use Rattle.cq_kept_entries.specs.Pieces.{At, MeansAt, Stage, at, bad, ended, fresh, head_of, listing, read, start, storing};
ghost use Rattle.cq_kept_entries.specs.within.Readers.{IfBad, IsListed, IsMade, IsReader, IsRefused};

use cq_base::{Entry, HISTORY_LIMIT, NoMemory};
use cq_kept_base::unstuffed;
use cq_lines::cut_line;
use cq_store::Store;
use cq_store_wire::StoreReader;
use cq_wire::{ReadFault, WireFault, read_entry};
use std::alloc::Global;

/// The byte with which what is kept begins, as a base of lines does, of which no header is so short.
const MARK: u8 = 2;

/// The letter of entries that have no base.
const ENTRIES: u8 = b'E';

/// The letter of a store.
const STORE: u8 = b'S';

/// The record with which entries begin that have no base.
pub(crate) const HEAD: [u8; 3] = [MARK, ENTRIES, b'\n'];

/// The record with which a base begins.
pub(crate) const STORE_HEAD: [u8; 3] = [MARK, STORE, b'\n'];

/// What the pieces that were read have made.
#[derive(Drop)]
pub(crate) enum Progress {
    /// None has come.
    Fresh,
    /// In a base.
    Storing(StoreReader),
    /// The store of the base, if there is one, with the entries behind it.
    Listing(Store),
}

/// No pieces of this form have come.
fn bad() -> ReadFault {
    ReadFault::Bad(WireFault::BadTag)
}

/// An empty store, to which entries come.
fn list_none(alloc: Global) -> Result<Progress, ReadFault>
    ensures made { IfOk result (λ progress. IsMade (listing None []) progress) }
    ensures refused { IfErr result (λ fault. IfBad fault ⊥) }
{
    match Store::new(alloc) {
        Ok(store) => Ok(Progress::Listing(store)),
        Err(NoMemory) => Err(ReadFault::NoMemory),
    }
}

/// The first piece has ended.
fn begin(alloc: Global, piece: &[u8]) -> Result<Progress, ReadFault>
    ensures made { IfOk result (λ progress. IsMade (head_of piece.now) progress) }
    ensures refused { IfErr result (λ fault. IfBad fault (head_of piece.now ≡ bad)) }
{
    match piece {
        [mark, letter] => {
            if *mark != MARK {
                return Err(bad());
            }
            if *letter == ENTRIES {
                return list_none(alloc);
            }
            if *letter == STORE {
                return Ok(Progress::Storing(StoreReader::new(alloc)));
            }
            Err(bad())
        }
        _ => Err(bad()),
    }
}

/// A piece of a base has ended: a chunk of its store, or the empty one behind them.
fn store_piece(alloc: Global, reader: StoreReader, piece: &[u8]) -> Result<Progress, ReadFault>
    ensures made { IfOk result (λ progress. IsMade (ended piece.now (storing reader)) progress) }
    ensures refused { IfErr result (λ fault. IfBad fault (ended piece.now (storing reader) ≡ bad)) }
{
    if piece.is_empty() {
        return Ok(Progress::Listing(reader.store()?));
    }
    let chunk = unstuffed(alloc, piece)?;
    Ok(Progress::Storing(reader.feed(&chunk)?))
}

/// The store with one more entry. A fault: it comes too early, or there is no room for one in a store.
fn with_entry(store: Store, entry: &Entry) -> Result<Store, ReadFault>
    ensures next { (entries : List base.Entry) → StandsFor store entries → IfOk result (λ next. StandsFor next (entries ++ entry.now ∷ [])) }
    ensures refused { IfErr result (λ fault. IfBad fault ((HISTORY_LIMIT ≤ count_of store) ⊎ (entry.now.moment < last_of store))) }
{
    if store.count() >= HISTORY_LIMIT || entry.moment < store.last() {
        return Err(ReadFault::Bad(WireFault::BadNumber));
    }
    let mut store = store;
    match store.apply(entry) {
        Ok(_) => Ok(store),
        Err(NoMemory) => Err(ReadFault::NoMemory),
    }
}

/// A piece of an entry has ended.
fn list_piece(alloc: Global, store: Store, piece: &[u8]) -> Result<Progress, ReadFault>
    ensures made { (stage : Stage) → IsListed stage store → IfOk result (λ progress. IsMade (ended piece.now stage) progress) }
    ensures refused { (stage : Stage) → IsListed stage store → IfErr result (λ fault. IfBad fault (IsRefused (at [] (ended piece.now stage)))) }
{
    let bytes = unstuffed(alloc, piece)?;
    let entry = read_entry(alloc, &bytes)?;
    Ok(Progress::Listing(with_entry(store, &entry)?))
}

impl Progress {
    /// With one piece more.
    fn with_piece(self, alloc: Global, piece: &[u8]) -> Result<Progress, ReadFault>
        ensures made { (stage : Stage) → IsMade stage self → IfOk result (λ progress. IsMade (ended piece.now stage) progress) }
        ensures refused { (stage : Stage) → IsMade stage self → IfErr result (λ fault. IfBad fault (IsRefused (at [] (ended piece.now stage)))) }
    {
        match self {
            Progress::Fresh => begin(alloc, piece),
            Progress::Storing(reader) => store_piece(alloc, reader, piece),
            Progress::Listing(store) => list_piece(alloc, store, piece),
        }
    }
}

/// So many bytes of entries, and those of a piece of this length behind what the pieces before it have made, with its line feed.
fn bytes_with(behind: usize, progress: &Progress, piece: usize) -> usize {
    match progress {
        Progress::Listing(_) => behind.saturating_add(piece).saturating_add(1),
        Progress::Fresh | Progress::Storing(_) => 0,
    }
}

/// What is kept, as far as it was read.
#[derive(Drop)]
pub(crate) struct EntriesReader {
    pub(crate) alloc: Global,
    /// The piece that has begun.
    pub(crate) piece: Vec<u8>,
    /// What the pieces before it have made.
    pub(crate) progress: Progress,
    /// How many bytes of entries they have, behind the base.
    pub(crate) behind: usize,
}

impl EntriesReader {
    /// Nothing was read.
    pub(crate) fn new(alloc: Global) -> EntriesReader
        ensures { IsReader start result }
    {
        EntriesReader {
            alloc,
            piece: Vec::new(alloc),
            progress: Progress::Fresh,
            behind: 0,
        }
    }

    /// The piece that has begun ends.
    fn end_piece(self) -> Result<EntriesReader, ReadFault>
        ensures made { (a : At) → IsReader a self → IfOk result (λ reader. IsReader (at [] (ended a.piece a.stage)) reader) }
        ensures refused { (a : At) → IsReader a self → IfErr result (λ fault. IfBad fault (IsRefused (at [] (ended a.piece a.stage)))) }
    {
        let EntriesReader {
            alloc,
            piece,
            progress,
            behind,
        } = self;
        let behind = bytes_with(behind, &progress, piece.len());
        let progress = progress.with_piece(alloc, &piece)?;
        Ok(EntriesReader {
            alloc,
            piece: Vec::new(alloc),
            progress,
            behind,
        })
    }

    /// The piece goes on with these bytes.
    fn with_front(self, front: &[u8]) -> Result<EntriesReader, ReadFault>
        ensures on { IfOk result (λ reader. (reader.piece.items ≡ self.piece.items ++ front.now) × (reader.progress ≡ self.progress)) }
        ensures refused { IfErr result (λ fault. IfBad fault ⊥) }
    {
        let mut reader = self;
        reader.piece.extend_from_slice(front)?;
        Ok(reader)
    }

    /// Reads bytes more. What they make is in memory: a store, and one piece of it twice.
    pub(crate) fn feed(self, bytes: &[u8]) -> Result<EntriesReader, ReadFault>
        ensures made { (a : At) → IsReader a self → IfOk result (λ reader. IsReader (read a bytes.now) reader) }
        ensures refused { (a : At) → IsReader a self → IfErr result (λ fault. IfBad fault (IsRefused (read a bytes.now))) }
    {
        let mut reader = self;
        let mut rest = bytes;
        while let Some((front, behind)) = cut_line(rest) {
            reader = reader.with_front(front)?.end_piece()?;
            rest = behind;
        }
        reader.with_front(rest)
    }

    /// The store of all that was read. `None`: nothing was. A fault: a piece has begun, or a base hasn't ended.
    pub(crate) fn into_store(self) -> Result<Option<Store>, ReadFault>
        ensures made { (a : At) → IsReader a self → IfOk result (λ store. (a.piece ≡ []) × MatchOption store (a.stage ≡ fresh) (λ s. IsListed a.stage s)) }
        ensures refused { (a : At) → IsReader a self → IfErr result (λ fault. IfBad fault ((all : List base.Entry) → MeansAt a all → ⊥)) }
    {
        let EntriesReader {
            piece,
            progress,
            ..
        } = self;
        if !piece.as_slice().is_empty() {
            return Err(bad());
        }
        match progress {
            Progress::Fresh => Ok(None),
            Progress::Storing(_) => Err(bad()),
            Progress::Listing(store) => Ok(Some(store)),
        }
    }
}

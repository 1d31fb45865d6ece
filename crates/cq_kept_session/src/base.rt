//! The base of what is kept, as it is read.
ghost use Rattle.std.specs.Prelude.{◌≡◌, [], None, Some, IfOk, MatchOption};
ghost use Rattle.std.specs.Option.{option_map};
ghost use Rattle.cq_store_wire.specs.declared.build.State.TheVariants as states;
ghost use Rattle.cq_wire.specs.Reading.{Gives};
ghost use Rattle.cq_kept_session.specs.Bases.{based, ended, header_of, lined, read, resumed, whole};
ghost use Rattle.cq_kept_session.specs.within.Readers.{is_base, is_fresh, reader_stage};

use crate::Highest;
use cq_kept_base::unstuffed;
use cq_lines::cut_line;
use cq_store::Store;
use cq_store_wire::StoreReader;
use cq_wire::{ReadFault, WireFault, u32_of, u64_of};
use std::alloc::Global;

/// What a base stands for, beside its store.
#[derive(Clone, Copy, Debug, PartialEq, Eq)]
pub struct Header {
    /// How many lines.
    pub lines: u64,
    /// The highest numbers of clients in them.
    pub highest: Highest,
}

/// The header that these bytes are.
#[tactic(auto, unfolding(crate::specs::Bases::header_of))]
fn header_of(bytes: &[u8]) -> Result<Header, ReadFault>
    ensures { Gives (λ header. header) result (header_of bytes.now) }
{
    let (lines, rest) = u64_of(bytes)?;
    let (clients, rest) = u32_of(rest)?;
    let (queriers, rest) = u32_of(rest)?;
    if !rest.is_empty() {
        return Err(ReadFault::Bad(WireFault::BytesLeft));
    }
    Ok(Header {
        lines,
        highest: Highest { clients, queriers },
    })
}

/// A base that is being read, behind its first byte.
#[derive(Drop)]
pub(crate) struct BaseReader {
    pub(crate) alloc: Global,
    /// The piece that has begun.
    pub(crate) piece: Vec<u8>,
    /// What the pieces before it make.
    pub(crate) header: Option<Header>,
    pub(crate) store: StoreReader,
}

impl BaseReader {
    /// Nothing of a base was read.
    pub(crate) fn new(alloc: Global) -> BaseReader
        ensures { reader_stage result ≡ based [] None states.Empty }
    {
        BaseReader {
            alloc,
            piece: Vec::new(alloc),
            header: None,
            store: StoreReader::new(alloc),
        }
    }

    /// Reads bytes up to the end of the base. `Some`: those behind it, if it has ended. What the store takes is in memory, and one
    /// piece of it twice.
    pub(crate) fn feed(self, bytes: &[u8]) -> Result<(BaseReader, Option<&[u8]>), ReadFault>
        ensures { IfOk result (λ fed. MatchOption (option_map (λ behind. behind.now) fed.1) (read (reader_stage self) bytes.now ≡ reader_stage fed.0)
            (λ behind. read (reader_stage self) bytes.now ≡ read (whole fed.0.header fed.0.store) behind)) }
    {
        let mut reader = self;
        let mut rest = bytes;
        while let Some((front, behind)) = cut_line(rest) {
            reader.piece.extend_from_slice(front)?;
            if reader.piece.as_slice().is_empty() {
                return Ok((reader, Some(behind)));
            }
            reader = reader.end_piece()?;
            rest = behind;
        }
        reader.piece.extend_from_slice(rest)?;
        Ok((reader, None))
    }

    /// Ends the piece that has begun.
    fn end_piece(self) -> Result<BaseReader, ReadFault>
        requires { self.piece.items ≡ [] → ⊥ }
        ensures { IfOk result (λ reader. ended self.piece.items self.header self.store ≡ reader_stage reader) }
    {
        let BaseReader {
            alloc,
            piece,
            header,
            store,
        } = self;
        let payload = unstuffed(alloc, &piece)?;
        match header {
            None => {
                let header = header_of(&payload)?;
                Ok(BaseReader {
                    alloc,
                    piece: Vec::new(alloc),
                    header: Some(header),
                    store,
                })
            }
            Some(header) => {
                let store = store.feed(&payload)?;
                Ok(BaseReader {
                    alloc,
                    piece: Vec::new(alloc),
                    header: Some(header),
                    store,
                })
            }
        }
    }

    /// What a base that has ended stands for.
    pub(crate) fn whole(self) -> Result<(Header, Store), ReadFault>
        ensures { IfOk result (λ base. whole self.header self.store ≡ lined (resumed base.0 base.1) []) }
    {
        let BaseReader { header, store, .. } = self;
        match header {
            None => Err(ReadFault::Bad(WireFault::Truncated)),
            Some(header) => {
                let store = store.store()?;
                Ok((header, store))
            }
        }
    }
}

/// How far what is kept has been read.
#[derive(Drop)]
pub(crate) enum Reading {
    /// No byte has come.
    Fresh,
    /// In a base.
    Base(BaseReader),
    /// In the lines, behind a base or not.
    Lines,
}

impl Reading {
    /// Whether it is in a base.
    pub(crate) fn is_base(&self) -> bool
        ensures { result ≡ is_base self.now }
    {
        match self {
            Reading::Base(_) => true,
            Reading::Fresh | Reading::Lines => false,
        }
    }

    /// Whether no byte has come.
    pub(crate) fn is_fresh(&self) -> bool
        ensures { result ≡ is_fresh self.now }
    {
        match self {
            Reading::Fresh => true,
            Reading::Base(_) | Reading::Lines => false,
        }
    }
}

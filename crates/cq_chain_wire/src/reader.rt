//! A message is read from its pieces.
ghost use Rattle.std.specs.Prelude.{◌≡◌, None};
ghost use Rattle.cq_wire.specs.Reading.{Gives};
ghost use Rattle.cq_chain_wire.specs.Feeding.{chunk_fed, end_fed, kind_fed, piece_fed, plain_fed};

use crate::read::all_of_message;
use cq_chain::{Message, Snapshot};
use cq_store_wire::StoreReader;
use cq_wire::{ReadFault, VERSION, WireFault};
use std::alloc::Global;
use std::marker::Model;

/// Reads a message from its pieces, one at a time, in their order.
#[derive(Drop)]
pub struct MessageReader {
    alloc: Global,
    /// Of a snapshot, its store.
    store: Option<StoreReader>,
}

impl Model for MessageReader {
    ghost use Rattle.std.specs.Prelude.{Option};
    ghost use Rattle.cq_store_wire.specs.declared.build.State.{State};

    ghost Value = { Option State };

    ghost view = { λ r. r.store };
}

/// What the pieces so far are.
#[derive(Drop)]
pub enum Progress {
    /// Some pieces of a message.
    More(MessageReader),
    /// All of them.
    Whole(Message),
}

#[tactic(auto, unfolding(crate::specs::Feeding::chunk_fed))]
fn with_chunk(
    alloc: Global,
    bytes: &[u8],
    so_far: Option<StoreReader>,
) -> Result<Progress, ReadFault>
    ensures { Gives (λ p. p) result (chunk_fed bytes.now so_far) }
{
    let reader = match so_far {
        Some(reader) => reader,
        None => StoreReader::new(alloc),
    };
    match reader.feed(bytes) {
        Ok(next) => Ok(Progress::More(MessageReader {
            alloc,
            store: Some(next),
        })),
        Err(fault) => Err(fault),
    }
}

#[tactic(auto, unfolding(crate::specs::Feeding::end_fed))]
fn with_end(bytes: &[u8], so_far: Option<StoreReader>) -> Result<Progress, ReadFault>
    ensures { Gives (λ p. p) result (end_fed bytes.now so_far) }
{
    let reader = match so_far {
        Some(reader) => reader,
        None => return Err(ReadFault::Bad(WireFault::BadTag)),
    };
    let store = match reader.store() {
        Ok(store) => store,
        Err(fault) => return Err(fault),
    };
    if !bytes.is_empty() {
        return Err(ReadFault::Bad(WireFault::BytesLeft));
    }
    Ok(Progress::Whole(Message::Snap {
        state: Snapshot::from_store(store),
    }))
}

#[tactic(auto, unfolding(crate::specs::Feeding::plain_fed))]
fn with_plain(
    alloc: Global,
    bytes: &[u8],
    so_far: Option<StoreReader>,
) -> Result<Progress, ReadFault>
    ensures { Gives (λ p. p) result (plain_fed bytes.now so_far) }
{
    match so_far {
        Some(_) => Err(ReadFault::Bad(WireFault::BadTag)),
        None => match all_of_message(alloc, bytes) {
            Ok(message) => Ok(Progress::Whole(message)),
            Err(fault) => Err(fault),
        },
    }
}

/// What the bytes are behind the version.
#[tactic(auto, unfolding(crate::specs::Feeding::kind_fed))]
fn with_kind(
    alloc: Global,
    bytes: &[u8],
    so_far: Option<StoreReader>,
) -> Result<Progress, ReadFault>
    ensures { Gives (λ p. p) result (kind_fed bytes.now so_far) }
{
    match bytes {
        [] => Err(ReadFault::Bad(WireFault::Truncated)),
        [1, rest @ ..] => with_chunk(alloc, rest, so_far),
        [13, rest @ ..] => with_end(rest, so_far),
        [_, ..] => with_plain(alloc, bytes, so_far),
    }
}

impl MessageReader {
    /// Nothing of a message is read. A message keeps the allocator.
    pub fn new(alloc: Global) -> MessageReader
        ensures { result ≡ None }
    {
        MessageReader { alloc, store: None }
    }

    /// Reads the next piece, and tells whether the message is whole. A fault ends the reading: what was read is let go, and the
    /// message has to be read anew from its first piece. O(bytes), expected. It takes no more memory than a multiple of the bytes:
    /// no length in them is believed.
    #[tactic(auto, unfolding(crate::specs::Feeding::piece_fed))]
    pub fn feed(self, bytes: &[u8]) -> Result<Progress, ReadFault>
        ensures { Gives (λ p. p) result (piece_fed bytes.now self) }
    {
        let MessageReader { alloc, store } = self;
        match bytes {
            [] => Err(ReadFault::Bad(WireFault::Truncated)),
            [version, rest @ ..] => {
                if *version != VERSION {
                    return Err(ReadFault::Bad(WireFault::OtherVersion));
                }
                with_kind(alloc, rest, store)
            }
        }
    }
}

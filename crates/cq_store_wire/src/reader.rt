//! A store is read from chunks, each of some parts.
ghost use Rattle.std.specs.Prelude.{◌≡◌, length, Some, None, Ok};
ghost use Rattle.cq_wire.specs.Reading.{Gives};
ghost use Rattle.cq_store_wire.specs.Building.{fed, read_into, store_of};
ghost use Rattle.cq_store_wire.specs.declared.build.State.TheVariants as states;

use crate::build::State;
use crate::parts::part_of;
use cq_store::Store;
use cq_wire::{ReadFault, VERSION, WireFault};
use std::alloc::Global;
use std::marker::Model;

/// What the parts that the bytes are make of it.
fn read_into(alloc: Global, bytes: &[u8], state: State) -> Result<State, ReadFault>
    ensures { Gives (λ s. s) result (read_into (length bytes.now) bytes.now state) }
{
    let mut rest = bytes;
    let mut state = state;
    while !rest.is_empty() {
        let (part, behind) = match part_of(alloc, rest) {
            Ok(read) => read,
            Err(fault) => return Err(fault),
        };
        state = match part.put_into(alloc, state) {
            Ok(next) => next,
            Err(fault) => return Err(fault),
        };
        rest = behind;
    }
    Ok(state)
}

/// Reads a store from its chunks, one at a time, in their order.
#[derive(Drop)]
pub struct StoreReader {
    alloc: Global,
    state: State,
}

impl Model for StoreReader {
    ghost use Rattle.cq_store_wire.specs.declared.build.State.{State};

    ghost Value = { State };

    ghost view = { λ r. r.state };
}

impl StoreReader {
    /// Nothing of a store is read. The store keeps the allocator.
    pub fn new(alloc: Global) -> StoreReader
        ensures { result ≡ states.Empty }
    {
        StoreReader {
            alloc,
            state: State::Empty,
        }
    }

    /// Reads the next chunk. A fault ends the reading: what was read is let go, and has to be read anew from the first chunk.
    /// O(bytes), expected. It takes no more memory than a multiple of the bytes: no length in them is believed.
    #[tactic(auto, unfolding(crate::specs::Building::fed))]
    pub fn feed(self, bytes: &[u8]) -> Result<StoreReader, ReadFault>
        ensures { Gives (λ r. r) result (fed bytes.now self) }
    {
        let StoreReader { alloc, state } = self;
        match bytes {
            [] => Err(ReadFault::Bad(WireFault::Truncated)),
            [version, rest @ ..] => {
                if *version != VERSION {
                    return Err(ReadFault::Bad(WireFault::OtherVersion));
                }
                Ok(StoreReader {
                    alloc,
                    state: read_into(alloc, rest, state)?,
                })
            }
        }
    }

    /// The store, if its last chunk was read; `Truncated` if not.
    pub fn store(self) -> Result<Store, ReadFault>
        ensures { Gives (λ s. s) result (store_of self) }
    {
        let StoreReader { state, .. } = self;
        match state.store() {
            Some(store) => Ok(store),
            None => Err(ReadFault::Bad(WireFault::Truncated)),
        }
    }
}

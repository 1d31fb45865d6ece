//! A copy of a store, as far as it is told.
ghost use Rattle.std.specs.Prelude.{◌≡◌, List, IfOk, OnErr};
ghost use Rattle.cq_base.specs.declared.party.Party as rust_party;
ghost use Rattle.cq_chain.specs.Messages as sent;
ghost use Rattle.cq_chain.specs.Servers as states;
ghost use Rattle.cq_chain.specs.Stands.{StandsFor};
ghost use Rattle.cq_server_copies.specs.Saving.{IsCopyOf, IsNextChunk, IsUntold};

use cq_base::NoMemory;
use cq_chain::Server;
use cq_store::Store;
use cq_store_wire::{StoreWriter, store_fits};
use std::alloc::Global;

/// How many bytes of a chunk are enough.
const ENOUGH: usize = 262_144;

/// A copy of a store at so many entries, and how far it is told. It goes on as it is, whatever comes to the server meanwhile.
#[derive(Drop)]
pub struct StoreCopy {
    count: u64,
    store: Store,
    writer: StoreWriter,
}

impl StoreCopy {
    /// A copy of the server's store, of which nothing is told. It shares the texts: O(clients, names, and what is kept of each).
    pub fn of(alloc: Global, core: &Server) -> Result<StoreCopy, NoMemory>
        ensures untold { IfOk result IsUntold }
        ensures stands { (s : states.Server) (outbox : rust_party.Party → List sent.Message) → StandsFor core.now s outbox
            → IfOk result (λ copy. IsCopyOf s.entries copy) }
    {
        let store = core.store().try_copy()?;
        store_fits(&store);
        Ok(StoreCopy {
            count: core.count(),
            store,
            writer: StoreWriter::new(alloc),
        })
    }

    /// At how many entries it was made: O(1).
    pub fn count(&self) -> u64
        ensures { result ≡ self.now.count }
    {
        self.count
    }

    /// The next chunk; an empty one where all were told. O(bytes of the chunk), and a search for each message: O(log messages).
    pub fn next_chunk(&mut self, alloc: Global) -> Result<Vec<u8>, NoMemory>
        ensures { IfOk result (λ chunk. IsNextChunk self.old self.new chunk.items) }
    {
        let mut chunk = Vec::new(alloc);
        if self.writer.is_done() {
            return Ok(chunk);
        }
        match self.writer.next(&self.store, &mut chunk, ENOUGH) {
            Ok(()) => Ok(chunk),
            Err(_) => Err(NoMemory),
        }
    }
}

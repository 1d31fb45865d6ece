//! Messages are written as pieces: a plain one is one, and a snapshot one for each chunk of its store, and one that ends it.
ghost use Rattle.std.specs.Prelude.{◌≡◌, ℕ, ◌<◌, List, [], ◌++◌, length, true, false, OnOk, OnErr};
ghost use Rattle.cq_store_wire.specs.declared.writer.Place.TheVariants as places;
ghost use Rattle.cq_chain_wire.specs.Pieces.{IsNextOfSnapshot, IsNextPiece, most_left, parts_left, snapshot_end};

use crate::write::write_message;
use cq_base::NoMemory;
use cq_chain::Message;
use cq_store::Store;
use cq_store_wire::StoreWriter;
use cq_wire::VERSION;
use std::alloc::Global;

/// Writes the next chunk of the store behind the bytes, as a piece of a snapshot.
fn put_chunk(
    writer: &mut StoreWriter,
    store: &Store,
    bytes: &mut Vec<u8>,
    enough: usize,
) -> Result<(), NoMemory>
    requires { writer.old.place ≡ places.End → ⊥ }
    ensures ok { OnOk result ((text : List ℕ) × (bytes.new.items ≡ bytes.old.items ++ text)
        × IsNextOfSnapshot (parts_left store.now writer.old) (parts_left store.now writer.new) false text) }
    ensures moves { OnOk result (length (parts_left store.now writer.new) < length (parts_left store.now writer.old)) }
    ensures err { OnErr result ((bytes.new.items ≡ bytes.old.items) × (writer.new ≡ writer.old)) }
{
    let length = bytes.len();
    bytes.extend_from_slice(&[VERSION, 1])?;
    if writer.next(store, bytes, enough).is_err() {
        bytes.truncate(length);
        return Err(NoMemory);
    }
    Ok(())
}

/// Writes the end of a snapshot behind the bytes.
#[tactic(auto, unfolding(crate::specs::Pieces::snapshot_end))]
fn put_end(bytes: &mut Vec<u8>) -> Result<(), NoMemory>
    ensures ok { OnOk result (bytes.new.items ≡ bytes.old.items ++ snapshot_end) }
    ensures err { OnErr result (bytes.new.items ≡ bytes.old.items) }
{
    bytes.extend_from_slice(&[VERSION, 13])?;
    Ok(())
}

/// Writes a message as pieces, one at a time. It keeps its place in a snapshot, and shares the texts of the bodies of its kept
/// replies.
#[derive(Drop)]
pub struct MessageWriter {
    store: StoreWriter,
    is_done: bool,
}

impl MessageWriter {
    /// Nothing of a message is written.
    pub fn new(alloc: Global) -> MessageWriter
        ensures start { result.store.place ≡ places.Start }
        ensures bodies { result.store.bodies ≡ [] }
        ensures begins { result.is_done ≡ false }
    {
        MessageWriter {
            store: StoreWriter::new(alloc),
            is_done: false,
        }
    }

    /// Whether all was written.
    pub fn is_done(&self) -> bool
        ensures { result ≡ self.now.is_done }
    {
        self.is_done
    }

    fn next_of_snapshot(
        &mut self,
        store: &Store,
        bytes: &mut Vec<u8>,
        enough: usize,
    ) -> Result<(), NoMemory>
        requires { self.old.is_done ≡ false }
        ensures ok { OnOk result ((text : List ℕ) × (bytes.new.items ≡ bytes.old.items ++ text)
            × IsNextOfSnapshot (parts_left store.now self.old.store) (parts_left store.now self.new.store) self.new.is_done text) }
        ensures moves { OnOk result (self.new.is_done ≡ false → length (parts_left store.now self.new.store) < length (parts_left store.now self.old.store)) }
        ensures err { OnErr result ((bytes.new.items ≡ bytes.old.items) × (self.new ≡ self.old)) }
    {
        if self.store.is_done() {
            put_end(bytes)?;
            self.is_done = true;
            return Ok(());
        }
        put_chunk(&mut self.store, store, bytes, enough)
    }

    /// Writes the next piece behind the bytes. A plain message is one piece; one of a snapshot has at most 2.7 MB more than
    /// `enough` bytes. The message has to be the same at each call: what another one's pieces are read as isn't said. After
    /// `NoMemory` bytes and writer are as before. O(bytes of the piece), and of a snapshot a search for each message:
    /// O(log messages).
    pub fn next(
        &mut self,
        message: &Message,
        bytes: &mut Vec<u8>,
        enough: usize,
    ) -> Result<(), NoMemory>
        requires { self.old.is_done ≡ false }
        ensures ok { OnOk result ((text : List ℕ) × (bytes.new.items ≡ bytes.old.items ++ text) × IsNextPiece message.now self.old self.new text) }
        ensures moves { OnOk result (most_left message.now self.new < most_left message.now self.old) }
        ensures err { OnErr result ((bytes.new.items ≡ bytes.old.items) × (self.new ≡ self.old)) }
    {
        match message {
            Message::Snap { state } => self.next_of_snapshot(state.store(), bytes, enough),
            _ => {
                write_message(bytes, message)?;
                self.is_done = true;
                Ok(())
            }
        }
    }
}

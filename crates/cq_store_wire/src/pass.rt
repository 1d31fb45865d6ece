//! A store that is written and read again.
ghost use Rattle.std.specs.Prelude.{◌≡◌, IfOk};

use crate::fitting::store_fits;
use crate::reader::StoreReader;
use crate::writer::StoreWriter;
use cq_base::NoMemory;
use cq_store::Store;
use std::alloc::Global;

/// The same store, read from chunks that are written one after another, each of about `enough` bytes: as it comes to another
/// process. It shares nothing with the first one. O(bytes), expected; no more than a chunk stands beside the two.
pub fn passed(alloc: Global, store: &Store, enough: usize) -> Result<Store, NoMemory>
    ensures { IfOk result (λ other. other ≡ store.now) }
{
    store_fits(store);
    let mut writer = StoreWriter::new(alloc);
    let mut reader = StoreReader::new(alloc);
    while !writer.is_done() {
        let mut bytes = Vec::new(alloc);
        writer.next(store, &mut bytes, enough)?;
        reader = match reader.feed(&bytes) {
            Ok(next) => next,
            Err(_) => return Err(NoMemory),
        };
    }
    match reader.store() {
        Ok(other) => Ok(other),
        Err(_) => Err(NoMemory),
    }
}

//! Laws of stores as bytes. A function here does nothing: its contract is a law, which is proved with it.
ghost use Rattle.cq_store_wire.specs.Laws.{IsReadBack, IsWrittenSo};

/// A store that is written in chunks is read as the same store, however it was cut.
pub fn what_is_written_is_read()
    ensures { IsReadBack }
{}

/// What is read as a store was written so: its parts in their order, each whole and in one chunk.
pub fn what_is_read_was_written()
    ensures { IsWrittenSo }
{}

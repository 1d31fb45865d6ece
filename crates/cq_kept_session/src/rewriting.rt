//! How a session's journal gets a base in the place of all that it has.
ghost use Rattle.std.specs.Prelude.{◌≡◌, ◌⊎◌, ◌≤◌, ◌<◌, ◌++◌, [], ◌∷◌, ℕ, List, Option, Ok, Some, length, true, false, Err, IfOk, OnOk, IsErrOf, IsTrue};
ghost use Rattle.cq_records.specs.Batch.{batch_bytes};
ghost use Rattle.cq_records.specs.Frames.{joined, records};
ghost use Rattle.cq_records.specs.declared.fault.LogFault.TheVariants.{Full};
ghost use Rattle.cq_journal.specs.Base.{IsBase, base_records};
ghost use Rattle.cq_journal.specs.Changes.{replaces};
ghost use Rattle.cq_journal.specs.Histories.{Tries};
ghost use Rattle.cq_journal.specs.Journal.{IsJournal, journal_device, journal_records};
ghost use Rattle.cq_journal.specs.Rests.{Rests};
ghost use Rattle.cq_store_wire.specs.Chunks.{IsChunk};
ghost use Rattle.cq_store_wire.specs.Order.{parts_from};
ghost use Rattle.cq_store_wire.specs.declared.build.State.{State};
ghost use Rattle.cq_store_wire.specs.declared.build.State.TheVariants as states;
ghost use Rattle.cq_store_wire.specs.declared.writer.Place.TheVariants as places;
ghost use Rattle.cq_kept_base.specs.Writing.{writer_records};
ghost use Rattle.cq_kept_session.specs.Bases.{AreOf, Stage, based, fresh, header_of, lined, read, resumed, with_payload};
ghost use Rattle.cq_kept_session.specs.Served.{Serves};
ghost use Rattle.cq_kept_session.specs.Texts.{is_ended};
ghost use Rattle.cq_kept_session.specs.declared.base.Header.{Header};

use crate::base::Header;
use crate::text::MARK;
use crate::{Highest, KeptSession};
use cq_base::NoMemory;
use cq_disk::Device;
use cq_journal::{Base, Journal};
use cq_kept_base::{
    BaseWriter, add_record, begin_base, end_base, message_count, next_chunk, piece_size, piece_text,
};
use cq_records::LogFault;
use cq_store::Store;
use cq_store_wire::{StoreWriter, store_fits};
use cq_wire::Writer;
use std::alloc::Global;

/// Adds a piece to a base, behind what its record begins with.
fn add_piece<D: Device>(
    journal: &mut Journal<D>,
    alloc: Global,
    base: &mut BaseWriter,
    front: &[u8],
    payload: &[u8],
) -> Result<(), LogFault>
    requires journal { IsJournal journal.old }
    requires base { IsBase journal.old base.old.base }
    requires payload { payload.now ≡ [] → ⊥ }

    ensures journal { OnOk result (IsJournal journal.new) }
    ensures rests { Rests journal.old journal.new }
    ensures base { OnOk result (IsBase journal.new base.new.base) }
    ensures added { (header : Option Header) (state : State) (stage : Stage) → read fresh (joined (writer_records journal.old base.old) ++ front.now) ≡ based [] header state
        → with_payload payload.now header state ≡ Ok stage → OnOk result (read fresh (joined (writer_records journal.new base.new)) ≡ stage) }
    ensures full { IsErrOf result Full → IsJournal journal.new }
{
    let text = piece_text(alloc, front, payload)?;
    add_record(journal, alloc, base, &text)
}

/// The bytes of the header with these numbers.
fn header_bytes(alloc: Global, lines: u64, clients: u32, queriers: u32) -> Result<Vec<u8>, NoMemory>
    ensures read { IfOk result (λ bytes. header_of bytes.items ≡ Ok (record { lines = lines; highest = record { clients = clients; queriers = queriers } })) }
    ensures some { IfOk result (λ bytes. bytes.items ≡ [] → ⊥) }
{
    let mut out = Writer::after(Vec::new(alloc));
    out.put_u64(lines)?;
    out.put_u32(clients)?;
    out.put_u32(queriers)?;
    Ok(out.whole())
}

/// Adds the chunks of a store to a base that has its header.
fn add_store<D: Device>(
    journal: &mut Journal<D>,
    alloc: Global,
    base: &mut BaseWriter,
    store: &Store,
) -> Result<(), LogFault>
    requires journal { IsJournal journal.old }
    requires base { IsBase journal.old base.old.base }

    ensures journal { OnOk result (IsJournal journal.new) }
    ensures rests { Rests journal.old journal.new }
    ensures base { OnOk result (IsBase journal.new base.new.base) }
    ensures added { (header : Header) → read fresh (joined (writer_records journal.old base.old)) ≡ based [] (Some header) states.Empty
        → OnOk result (read fresh (joined (writer_records journal.new base.new)) ≡ based [] (Some header) (states.Whole store.now)) }
    ensures full { IsErrOf result Full → IsJournal journal.new }
{
    store_fits(store);
    let enough = piece_size(journal.region_size());
    let mut writer = StoreWriter::new(alloc);
    while !writer.is_done() {
        let chunk = next_chunk(alloc, &mut writer, store, enough)?;
        add_piece(journal, alloc, base, &[], &chunk)?;
    }
    Ok(())
}

/// Adds all of a base: its header, the store, and the line feed that ends it.
fn add_all<D: Device>(
    journal: &mut Journal<D>,
    alloc: Global,
    base: &mut BaseWriter,
    header: &[u8],
    store: &Store,
) -> Result<(), LogFault>
    requires journal { IsJournal journal.old }
    requires base { IsBase journal.old base.old.base }
    requires empty { writer_records journal.old base.old ≡ [] }
    requires header { header.now ≡ [] → ⊥ }

    ensures journal { OnOk result (IsJournal journal.new) }
    ensures rests { Rests journal.old journal.new }
    ensures base { OnOk result (IsBase journal.new base.new.base) }
    ensures stands { (value : Header) → header_of header.now ≡ Ok value → OnOk result (read fresh (joined (writer_records journal.new base.new)) ≡ lined (resumed value store.now) []) }
    ensures ended { OnOk result (is_ended (joined (writer_records journal.new base.new)) ≡ true) }
    ensures flushed { OnOk result (batch_bytes base.new.batch ≡ []) }
    ensures full { IsErrOf result Full → IsJournal journal.new }
{
    add_piece(journal, alloc, base, &[MARK], header)?;
    add_store(journal, alloc, base, store)?;
    end_base(journal, alloc, base, b"\n")
}

/// Writes a base beside the regions of a journal. `Full`: there is no space for it, and the journal goes on.
fn write_base<D: Device>(
    journal: &mut Journal<D>,
    alloc: Global,
    header: &Header,
    store: &Store,
) -> Result<Base, LogFault>
    requires { IsJournal journal.old }

    ensures journal { OnOk result (IsJournal journal.new) }
    ensures rests { Rests journal.old journal.new }
    ensures base { IfOk result (λ base. IsBase journal.new base) }
    ensures stands { IfOk result (λ base. read fresh (joined (base_records journal.new base)) ≡ lined (resumed header.now store.now) []) }
    ensures ended { IfOk result (λ base. is_ended (joined (base_records journal.new base)) ≡ true) }
    ensures full { IsErrOf result Full → IsJournal journal.new }
{
    let Highest { clients, queriers } = header.highest;
    let Ok(bytes) = header_bytes(alloc, header.lines, clients, queriers) else {
        return Err(LogFault::NoMemory);
    };
    let mut base = begin_base(journal, alloc)?;
    add_all(journal, alloc, &mut base, &bytes, store)?;
    Ok(base.into_base())
}

/// Puts a base in the place of all records. `Full`: there is no space for it, and the journal goes on with the records that it had.
fn replace_records<D: Device>(
    journal: &mut Journal<D>,
    alloc: Global,
    header: &Header,
    store: &Store,
) -> Result<(), LogFault>
    requires { IsJournal journal.old }

    ensures journal { OnOk result (IsJournal journal.new) }
    ensures stands { OnOk result (read fresh (joined (journal_records journal.new)) ≡ lined (resumed header.now store.now) []) }
    ensures ended { OnOk result (is_ended (joined (journal_records journal.new)) ≡ true) }
    ensures honest { IsTrue (D.is_honest (journal_device journal.new)) → IsTrue (D.is_honest (journal_device journal.old)) }
    ensures tries { (base : List (List ℕ)) × Tries (replaces base) journal.old journal.new
        × ((base ≡ journal_records journal.old) ⊎ (read fresh (joined base) ≡ lined (resumed header.now store.now) [])) }
    ensures full { IsErrOf result Full → IsJournal journal.new × (journal_records journal.new ≡ journal_records journal.old) }
{
    let base = write_base(journal, alloc, header, store)?;
    journal.rewrite(alloc, base)
}

/// The highest number of a client that a store knows: O(clients).
fn highest_client(store: &Store) -> u32 {
    let mut highest = 0;
    for index in 0..store.client_count() {
        if let Some((client, _)) = store.client(index) {
            highest = (*client).max(highest);
        }
    }
    highest
}

impl<D: Device> KeptSession<D> {
    ghost use Rattle.cq_kept_session.specs.Kept.{IsKept, StandsFor, kept_records, session_device, session_journal, session_size};

    /// Puts a base in the place of all that is kept: the store by which the session can be begun again, and the number of its lines.
    /// `false`: nothing was done, since a line has begun, or the session isn't at rest on one server. `Full`: there is no space
    /// for a base, and the session goes on as it was. After another fault it is to be opened anew. It takes time in proportion to the
    /// store, and memory for a piece of it.
    pub fn rewrite(&mut self) -> Result<bool, LogFault>
        requires { IsKept self.old }

        ensures kept { OnOk result (IsKept self.new) }
        ensures size { session_size self.new ≡ session_size self.old }
        ensures honest { IsTrue (D.is_honest (session_device self.new)) → IsTrue (D.is_honest (session_device self.old)) }
        ensures stands { OnOk result (IsTrue (D.is_honest (session_device self.new)) → (bytes : List ℕ) → StandsFor self.old bytes → StandsFor self.new bytes) }

        // A crash at any moment leaves the records from before, or others that stand for the same.
        ensures tries { (base : List (List ℕ)) × Tries (replaces base) (session_journal self.old) (session_journal self.new)
            × (IsTrue (D.is_honest (session_device self.new)) → (bytes : List ℕ) → StandsFor self.old bytes → AreOf (session_size self.old) (joined base) bytes) }
        ensures full { IsErrOf result Full → IsKept self.new × (kept_records self.new ≡ kept_records self.old) }
    {
        if !self.ended {
            return Ok(false);
        }
        if self.size.get() != 1 {
            return Ok(false);
        }
        let Some(store) = self.session.store_at_rest() else {
            return Ok(false);
        };
        let highest = Highest {
            clients: highest_client(store),
            queriers: 0,
        };
        let header = Header {
            lines: self.session.line_count(),
            highest,
        };
        replace_records(&mut self.journal, self.alloc, &header, store)?;
        Ok(true)
    }

    /// How many messages a base would have, or 0 where the session isn't at rest: O(names).
    pub(crate) fn messages_at_rest(&self) -> u64 {
        match self.session.store_at_rest() {
            Some(store) => message_count(store),
            None => 0,
        }
    }

    /// Rewrites what is kept where that is due before lines of so many bytes come, and there is space.
    pub(crate) fn rewrite_if_due(&mut self, coming: usize) -> Result<(), LogFault>
        requires { IsKept self.old }

        ensures kept { OnOk result (IsKept self.new) }
        ensures size { session_size self.new ≡ session_size self.old }

        ensures honest { IsTrue (D.is_honest (session_device self.new)) → IsTrue (D.is_honest (session_device self.old)) }

        // It writes nothing, and what is kept stands for the same.
        ensures serves { OnOk result ((contents : Option (List ℕ)) → Serves self.old self.new contents contents []) }
    {
        let lines = self.session.line_count();
        let used = self.used();
        if !self.schedule.is_due(used, coming, lines) {
            return Ok(());
        }
        match self.rewrite() {
            Ok(true) => {
                let used = self.used();
                let messages = self.messages_at_rest();
                self.schedule.rewritten(used, messages, lines);
                Ok(())
            }
            Ok(false) => Ok(()),
            Err(LogFault::Full) => {
                let regions = self.journal.region_count();
                let messages = self.messages_at_rest();
                self.schedule.refused(regions, messages, lines);
                Ok(())
            }
            Err(fault) => Err(fault),
        }
    }
}

//! A base as it is written beside a journal's regions, over as many free ones as it takes: many of its records with one sync.
ghost use Rattle.std.specs.Prelude.{◌≡◌, ◌++◌, [], ◌∷◌, IfOk, OnOk, IsErrOf};
ghost use Rattle.cq_records.specs.Batch.{batch_bytes};
ghost use Rattle.cq_records.specs.Frames.{records};
ghost use Rattle.cq_records.specs.declared.fault.LogFault.TheVariants.{Full};
ghost use Rattle.cq_journal.specs.Base.{IsBase, base_records};
ghost use Rattle.cq_journal.specs.Journal.{IsJournal};
ghost use Rattle.cq_journal.specs.Rests.{Rests};
ghost use Rattle.cq_kept_base.specs.Writing.{writer_records};

use cq_disk::Device;
use cq_journal::{Base, Journal};
use cq_records::{Batch, HEAD_LENGTH, LogFault, is_text};
use std::alloc::Global;

/// Once so many bytes of records wait they are written, before another one is added. It bounds the memory for them.
const ENOUGH: usize = 8_388_608;

/// A base, and the records that are to be written behind it. They are written once they are long enough, or where the region that
/// grows has no room for one more. So most regions take one sync for their records.
#[derive(Drop)]
pub struct BaseWriter {
    /// What is written.
    pub base: Base,
    /// The records that wait.
    pub batch: Batch,
    /// For how many bytes of records the base's region that grows has room, of which those that wait take some.
    pub room: usize,
}

impl BaseWriter {
    /// The base without the records that wait.
    pub fn into_base(self) -> Base
        ensures { result ≡ self.base }
    {
        self.base
    }

    /// Whether the records that wait are to be written before a record of so many bytes is added.
    fn is_full(&self, len: usize) -> bool {
        let waiting = self.batch.as_slice().len();
        if waiting == 0 {
            return false;
        }
        waiting >= ENOUGH || len.saturating_add(HEAD_LENGTH) > self.room.saturating_sub(waiting)
    }
}

/// Begins a base in a free region. `Full`: there is none, and the journal goes on.
pub fn begin_base<D: Device>(
    journal: &mut Journal<D>,
    alloc: Global,
) -> Result<BaseWriter, LogFault>
    requires { IsJournal journal.old }

    ensures journal { OnOk result (IsJournal journal.new) }
    ensures rests { Rests journal.old journal.new }
    ensures base { IfOk result (λ writer. IsBase journal.new writer.base) }
    ensures empty { IfOk result (λ writer. writer_records journal.new writer ≡ []) }
    ensures full { IsErrOf result Full → IsJournal journal.new }
{
    let base = journal.begin_base(alloc)?;
    let room = journal.region_size();
    Ok(BaseWriter {
        base,
        batch: Batch::new(alloc),
        room,
    })
}

/// Adds a batch to a base. `Full`: the region that grows has no room for it, and the base is the same.
fn add_batch<D: Device>(
    journal: &mut Journal<D>,
    base: &mut Base,
    batch: &Batch,
) -> Result<(), LogFault>
    requires journal { IsJournal journal.old }
    requires base { IsBase journal.old base.old }

    ensures journal { OnOk result (IsJournal journal.new) }
    ensures rests { Rests journal.old journal.new }
    ensures base { OnOk result (IsBase journal.new base.new) }
    ensures added { OnOk result (base_records journal.new base.new ≡ base_records journal.old base.old ++ records (batch_bytes batch.now)) }
    ensures full { IsErrOf result Full → IsJournal journal.new × IsBase journal.new base.new × (base_records journal.new base.new ≡ base_records journal.old base.old) }
{
    journal.add_to_base(base, batch)
}

/// Has a base go on in one more region. `Full`: none is free, and the journal goes on.
fn widen_base<D: Device>(
    journal: &mut Journal<D>,
    alloc: Global,
    base: &mut Base,
) -> Result<(), LogFault>
    requires journal { IsJournal journal.old }
    requires base { IsBase journal.old base.old }

    ensures journal { OnOk result (IsJournal journal.new) }
    ensures rests { Rests journal.old journal.new }
    ensures base { OnOk result (IsBase journal.new base.new) }
    ensures same { OnOk result (base_records journal.new base.new ≡ base_records journal.old base.old) }
    ensures full { IsErrOf result Full → IsJournal journal.new }
{
    journal.widen_base(alloc, base)
}

/// Adds a batch to a base, in one more region where it has to. `Full`: there is no space for it, and the journal goes on.
fn commit_batch<D: Device>(
    journal: &mut Journal<D>,
    alloc: Global,
    base: &mut Base,
    batch: &Batch,
) -> Result<(), LogFault>
    requires journal { IsJournal journal.old }
    requires base { IsBase journal.old base.old }

    ensures journal { OnOk result (IsJournal journal.new) }
    ensures rests { Rests journal.old journal.new }
    ensures base { OnOk result (IsBase journal.new base.new) }
    ensures added { OnOk result (base_records journal.new base.new ≡ base_records journal.old base.old ++ records (batch_bytes batch.now)) }
    ensures full { IsErrOf result Full → IsJournal journal.new }
{
    match add_batch(journal, base, batch) {
        Ok(()) => return Ok(()),
        Err(LogFault::Full) => (),
        Err(fault) => return Err(fault),
    }
    widen_base(journal, alloc, base)?;
    add_batch(journal, base, batch)
}

/// Writes the records that wait. `Full`: there is no space for them, and the journal goes on.
fn flush<D: Device>(
    journal: &mut Journal<D>,
    alloc: Global,
    base: &mut BaseWriter,
) -> Result<(), LogFault>
    requires journal { IsJournal journal.old }
    requires base { IsBase journal.old base.old.base }

    ensures journal { OnOk result (IsJournal journal.new) }
    ensures rests { Rests journal.old journal.new }
    ensures base { OnOk result (IsBase journal.new base.new.base) }
    ensures same { OnOk result (writer_records journal.new base.new ≡ writer_records journal.old base.old) }
    ensures flushed { OnOk result (batch_bytes base.new.batch ≡ []) }
    ensures full { IsErrOf result Full → IsJournal journal.new }
{
    let used = base.batch.as_slice().len();
    let left = if used > base.room {
        journal.region_size()
    } else {
        base.room
    };
    commit_batch(journal, alloc, &mut base.base, &base.batch)?;
    base.batch.clear();
    base.room = left.saturating_sub(used);
    Ok(())
}

/// Writes the records that wait, if a record of so many bytes is not to be added before.
fn make_room<D: Device>(
    journal: &mut Journal<D>,
    alloc: Global,
    base: &mut BaseWriter,
    len: usize,
) -> Result<(), LogFault>
    requires journal { IsJournal journal.old }
    requires base { IsBase journal.old base.old.base }

    ensures journal { OnOk result (IsJournal journal.new) }
    ensures rests { Rests journal.old journal.new }
    ensures base { OnOk result (IsBase journal.new base.new.base) }
    ensures same { OnOk result (writer_records journal.new base.new ≡ writer_records journal.old base.old) }
    ensures full { IsErrOf result Full → IsJournal journal.new }
{
    if !base.is_full(len) {
        return Ok(());
    }
    flush(journal, alloc, base)
}

/// Adds a record to a base, behind those that wait. `Full`: there is no space for those, or no record can be so long; the journal goes
/// on.
pub fn add_record<D: Device>(
    journal: &mut Journal<D>,
    alloc: Global,
    base: &mut BaseWriter,
    text: &[u8],
) -> Result<(), LogFault>
    requires journal { IsJournal journal.old }
    requires base { IsBase journal.old base.old.base }

    ensures journal { OnOk result (IsJournal journal.new) }
    ensures rests { Rests journal.old journal.new }
    ensures base { OnOk result (IsBase journal.new base.new.base) }
    ensures added { OnOk result (writer_records journal.new base.new ≡ writer_records journal.old base.old ++ text.now ∷ []) }
    ensures full { IsErrOf result Full → IsJournal journal.new }
{
    if !is_text(text) {
        return Err(LogFault::Full);
    }
    make_room(journal, alloc, base, text.len())?;
    base.batch.add(text)?;
    Ok(())
}

/// Adds the last record of a base, and writes all that wait: this one as a batch of its own, whose mark tells where one of the others is
/// lost later. `Full`: there is no space for them, and the journal goes on.
pub fn end_base<D: Device>(
    journal: &mut Journal<D>,
    alloc: Global,
    base: &mut BaseWriter,
    text: &[u8],
) -> Result<(), LogFault>
    requires journal { IsJournal journal.old }
    requires base { IsBase journal.old base.old.base }

    ensures journal { OnOk result (IsJournal journal.new) }
    ensures rests { Rests journal.old journal.new }
    ensures base { OnOk result (IsBase journal.new base.new.base) }
    ensures added { OnOk result (writer_records journal.new base.new ≡ writer_records journal.old base.old ++ text.now ∷ []) }
    ensures flushed { OnOk result (batch_bytes base.new.batch ≡ []) }
    ensures full { IsErrOf result Full → IsJournal journal.new }
{
    flush(journal, alloc, base)?;
    add_record(journal, alloc, base, text)?;
    flush(journal, alloc, base)
}

//! Entries that are kept before anything rests on them.
ghost use Rattle.std.specs.Prelude.{◌≡◌, ◌⊎◌, ◌≤◌, ◌++◌, [], ◌∷◌, ℕ, List, true, Ok, IfOk, IsTrue, OnErr, OnOk, IsErrOf};
ghost use Rattle.cq_base.specs.declared.ask.Entry as base;
ghost use Rattle.cq_disk.specs.Device.{LeavesOnly};
ghost use Rattle.cq_journal.specs.Changes.{adds};
ghost use Rattle.cq_journal.specs.Histories.{Tries};
ghost use Rattle.cq_journal.specs.Journal.{IsJournal, journal_half, journal_records, region_len};
ghost use Rattle.cq_records.specs.declared.fault.LogFault.TheVariants.{Full};
ghost use Rattle.cq_kept_entries.specs.Kept.{BytesStandFor};
ghost use Rattle.cq_kept_entries.specs.Pieces.{ArePiecesOf};
ghost use Rattle.cq_wire.specs.Layout.{entry, whole};
ghost use Rattle.cq_wire.specs.Limits.{IsEntry};
ghost use Rattle.cq_wire.specs.Reading.{entry_at, whole_at};

use cq_base::{Moment, NoMemory, Request};
use cq_disk::Device;
use cq_journal::Journal;
use cq_kept_base::{Schedule, batch_of, stuff};
use cq_records::LogFault;
use cq_wire::laws::what_is_written_is_read;
use cq_wire::{VERSION, Writer, put_request, request_fits};
use std::alloc::Global;

/// A journal of entries. Those that are added wait until they are kept, all by one record and one sync. What is kept stands for a list of
/// entries: a base, which a store of them is, and the entries behind it.
#[derive(Drop)]
pub struct KeptEntries<D: Device> {
    pub(crate) alloc: Global,
    pub(crate) journal: Journal<D>,
    /// The pieces of the entries that were added and aren't kept yet.
    pub(crate) text: Vec<u8>,
    /// When the next rewrite is due.
    pub(crate) schedule: Schedule,
    /// How many regions the device has surely space for: since the first free one is always taken, these are the first ones.
    pub(crate) with_space: usize,
    /// Whether the device had no space for the next region.
    pub(crate) lacks_space: bool,
}

/// Most entries have fewer bytes than that, and so have their pieces.
const ENTRY_ROOM: usize = 1_000;

/// The entry of this moment and request has bytes.
fn entry_fits(moment: Moment, request: &Request)
    ensures { IsEntry (record { moment = moment; request = request.now }) }
{
    let _number = moment.get();
    request_fits(request);
}

/// Writes the entry of this moment and request.
#[tactic(auto, unfolding(cq_wire::specs::Layout::whole, cq_wire::specs::Layout::entry))]
fn put_entry(out: &mut Writer, moment: Moment, request: &Request) -> Result<(), NoMemory>
    ensures ok { OnOk result (out.new.value ≡ out.old.value ++ whole entry (record { moment = moment; request = request.now })) }
    ensures before { out.new.before ≡ out.old.before }
{
    out.put(&[VERSION])?;
    out.put_u64(moment.get())?;
    put_request(out, request)
}

/// The bytes of the entry of this moment and request.
fn entry_bytes(alloc: Global, moment: Moment, request: &Request) -> Result<Vec<u8>, NoMemory>
    ensures { IfOk result (λ bytes. whole_at entry_at bytes.items ≡ Ok (record { moment = moment; request = request.now })) }
{
    let mut out = Writer::after(Vec::with_capacity(alloc, ENTRY_ROOM)?);
    what_is_written_is_read();
    entry_fits(moment, request);
    put_entry(&mut out, moment, request)?;
    Ok(out.whole())
}

/// The piece of the entry of this moment and request.
fn piece_of(alloc: Global, moment: Moment, request: &Request) -> Result<Vec<u8>, NoMemory>
    ensures { IfOk result (λ piece. ArePiecesOf piece.items (record { moment = moment; request = request.now } ∷ [])) }
{
    let bytes = entry_bytes(alloc, moment, request)?;
    let mut piece = Vec::with_capacity(alloc, ENTRY_ROOM)?;
    stuff(&mut piece, &bytes)?;
    piece.push(b'\n')?;
    Ok(piece)
}

/// Puts a record behind all others, on the medium.
pub(crate) fn append_record<D: Device>(
    journal: &mut Journal<D>,
    alloc: Global,
    text: &[u8],
) -> Result<(), LogFault>
    requires { IsJournal journal.old }

    ensures journal { OnOk result (IsJournal journal.new) }
    ensures lengths { OnOk result ((journal_half journal.new ≡ journal_half journal.old) × (region_len journal.new ≡ region_len journal.old)) }
    ensures records { OnOk result (journal_records journal.new ≡ journal_records journal.old ++ text.now ∷ []) }
    ensures tries { Tries (adds (text.now ∷ [])) journal.old journal.new }
    ensures full { IsErrOf result Full → IsJournal journal.new × (journal_records journal.new ≡ journal_records journal.old) }
    ensures lengths_full { IsErrOf result Full → (journal_half journal.new ≡ journal_half journal.old) × (region_len journal.new ≡ region_len journal.old) }
{
    let batch = batch_of(alloc, text)?;
    journal.append(alloc, &batch)
}

impl<D: Device> KeptEntries<D> {
    ghost use Rattle.cq_kept_entries.specs.Kept.{HasAdded, IsKept, StandsFor, added_records, added_text, entries_device, entries_half, entries_journal, entries_len, kept_records};

    /// Adds the entry of this moment and request behind those that were added and aren't kept yet. After `NoMemory` nothing has changed.
    /// O(bytes of the entry).
    pub fn add(&mut self, moment: Moment, request: &Request) -> Result<(), NoMemory>
        ensures kept { IsKept self.old → IsKept self.new }
        ensures journal { entries_journal self.new ≡ entries_journal self.old }
        ensures added { (more : List base.Entry) → HasAdded self.old more → OnOk result (HasAdded self.new (more ++ record { moment = moment; request = request.now } ∷ [])) }
        ensures err { OnErr result (added_text self.new ≡ added_text self.old) }
    {
        let piece = piece_of(self.alloc, moment, request)?;
        self.text.extend_from_slice(&piece)?;
        Ok(())
    }

    /// Whether no entry was added that isn't kept: O(1).
    pub fn is_settled(&self) -> bool
        ensures { result ≡ true → added_records self.now ≡ [] }
    {
        self.text.as_slice().is_empty()
    }

    /// Keeps the entries that were added, as one record, by one sync; where there are none, it does nothing. `Full`: there is no space
    /// for them, or they are more than a record can have; nothing has changed. After another fault it is to be opened anew.
    pub fn commit(&mut self) -> Result<(), LogFault>
        requires { IsKept self.old }

        ensures kept { OnOk result (IsKept self.new) }
        ensures lengths { OnOk result ((entries_half self.new ≡ entries_half self.old) × (entries_len self.new ≡ entries_len self.old)) }
        ensures honest { IsTrue (D.is_honest (entries_device self.new)) → IsTrue (D.is_honest (entries_device self.old)) }

        // Whatever entries it stood for, it stands for these and those that were added.
        ensures stands { OnOk result (IsTrue (D.is_honest (entries_device self.new)) → (all more : List base.Entry) → StandsFor self.old all → HasAdded self.old more → StandsFor self.new (all ++ more)) }
        ensures settled { OnOk result (HasAdded self.new []) }
        ensures records { OnOk result (kept_records self.new ≡ kept_records self.old ++ added_records self.old) }

        // A crash at any moment leaves what stands for those from before, or for these and all that were added.
        ensures any_moment { IsTrue (D.is_honest (entries_device self.new)) → (all more : List base.Entry) → StandsFor self.old all → HasAdded self.old more
            → LeavesOnly D.moment D.left_since (entries_device self.old) (entries_device self.new) (λ c. BytesStandFor (entries_half self.old) (entries_len self.old) c all ⊎ BytesStandFor (entries_half self.old) (entries_len self.old) c (all ++ more)) }
        ensures tries { Tries (adds (added_records self.old)) (entries_journal self.old) (entries_journal self.new) }
        ensures full { IsErrOf result Full → IsKept self.new × (kept_records self.new ≡ kept_records self.old) × (added_text self.new ≡ added_text self.old) }
    {
        if self.text.as_slice().is_empty() {
            return Ok(());
        }
        append_record(&mut self.journal, self.alloc, &self.text)?;
        self.schedule.count(self.text.len());
        self.text.clear();
        Ok(())
    }

    /// The journal, to be handed on.
    pub fn into_journal(self) -> Journal<D>
        ensures { result ≡ entries_journal self }
    {
        self.journal
    }
}

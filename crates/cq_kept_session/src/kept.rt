//! A session that keeps each chunk of lines before it runs and answers it.
ghost use Rattle.std.specs.Prelude.{◌≡◌, ◌≤◌, ◌++◌, ◌<◌, [], ◌∷◌, ℕ, List, true, false, length, option_map, Err, IfSome, IsTrue, OnOk, IsErrOf};
ghost use Rattle.std.specs.Io.KnownBytes.{Appends};
ghost use Rattle.cq_base.specs.Relations.{IsPrefix};
ghost use Rattle.cq_records.specs.Frames.{is_text, joined};
ghost use Rattle.cq_journal.specs.Changes.{adds};
ghost use Rattle.cq_journal.specs.Histories.{Tries};
ghost use Rattle.cq_journal.specs.Journal.{IsJournal, journal_device, journal_half, journal_records, region_len};
ghost use Rattle.cq_lines.specs.Lines.{ended_part};
ghost use Rattle.cq_lines.specs.declared.fault.ScriptFault.TheVariants.{WriteFailed};
ghost use Rattle.cq_records.specs.declared.fault.LogFault.TheVariants.{Full};
ghost use Rattle.cq_script.specs.Resumed.{HasRun, IsBaseOf};
ghost use Rattle.cq_script.specs.Sessions.{IsSessionEndedPrefix, session_text};
ghost use Rattle.cq_kept_session.specs.Outcomes.{OnKept, OnNotKept};
ghost use Rattle.cq_kept_session.specs.Texts.{as_kept, has_mark, is_ended, mended};
ghost use Rattle.cq_kept_session.specs.declared.fault.TakeFault.TheVariants.{NotKept, NotTold};

use crate::text::{as_kept, has_ended, is_unmarked};
use crate::{Highest, KeptSink, TakeFault};
use cq_base::ChainSize;
use cq_disk::Device;
use cq_journal::Journal;
use cq_kept_base::Schedule;
use cq_records::{Batch, LogFault, TEXT_LIMIT, is_text};
use cq_script::{ResumedSession, ScriptFault, Sink};
use cq_store::Store;
use std::alloc::Global;

/// A session and the journal that has its lines: a record for each chunk that came.
#[derive(Drop)]
pub struct KeptSession<D: Device> {
    pub(crate) alloc: Global,
    pub(crate) size: ChainSize,
    pub(crate) journal: Journal<D>,
    pub(crate) session: ResumedSession,
    /// Whether the last line that is kept has ended.
    pub(crate) ended: bool,
    /// The highest numbers of clients that it had as it was opened.
    pub(crate) highest: Highest,
    /// When the next rewrite is due.
    pub(crate) schedule: Schedule,
}

impl<D: Device> KeptSession<D> {
    ghost use Rattle.cq_kept_session.specs.Kept.{IsKept, StandsFor, kept_records, missing_end, session_device, session_journal, session_lines, session_size, told_text};
    ghost use Rattle.cq_kept_session.specs.Settled.{IsSettled};

    /// Takes what one read brought: keeps it, runs the lines that end in it, writes what comes of them, and flushes it. Nothing is
    /// written before all that it rests on is on the medium. A byte of 0, 1, 2 or 3 is kept and run as a byte of 4: a line with any of
    /// them is a bad one. `NotKept(Full)`: there is no space, and the session goes on without the chunk. After any other fault it is to be
    /// opened anew. It takes memory for two copies of the chunk, and what its lines take.
    pub fn take<W: KeptSink<D>>(&mut self, chunk: &[u8], writer: &mut W) -> Result<(), TakeFault>
        requires kept { IsKept self.old }
        requires short { length chunk.now ≤ TEXT_LIMIT }

        ensures kept { OnOk result (IsKept self.new) }
        ensures size { session_size self.new ≡ session_size self.old }
        ensures records { OnKept result (kept_records self.new ≡ kept_records self.old ++ as_kept chunk.now ∷ []) }

        // Whatever bytes it stood for, it stands for these and the chunk. What was written goes on behind what one session writes on those
        // bytes: all of it after `Ok`.
        ensures stands { OnKept result (IsTrue (D.is_honest (session_device self.new)) → (bytes : List ℕ) → StandsFor self.old bytes → StandsFor self.new (bytes ++ as_kept chunk.now)) }
        ensures told { OnKept result (IsTrue (D.is_honest (session_device self.new)) → (bytes : List ℕ) → StandsFor self.old bytes → (output : List ℕ)
            × Appends (W.taken writer.old) (W.taken writer.new) output
            × IsPrefix (told_text self.old bytes ++ output) (told_text self.new (bytes ++ as_kept chunk.now))
            × OnOk result (told_text self.new (bytes ++ as_kept chunk.now) ≡ told_text self.old bytes ++ output)) }
        ensures journal { OnKept result (IsJournal (session_journal self.new)) }
        ensures not_told { OnNotKept result (writer.new ≡ writer.old) }
        ensures flushed { OnOk result (W.is_passed_on writer.new ≡ true) }
        ensures write_failed { result ≡ Err (NotTold WriteFailed) → W.is_broken writer.new ≡ true }

        // A crash at any moment leaves the records from before, or these and the chunk.
        ensures tries { Tries (adds (as_kept chunk.now ∷ [])) (session_journal self.old) (session_journal self.new) }
        ensures full { result ≡ Err (NotKept Full) → IsKept self.new × (kept_records self.new ≡ kept_records self.old) }
    {
        if is_text(chunk) && is_unmarked(chunk) {
            return self.take_text(chunk, writer);
        }
        let text = as_kept(self.alloc, chunk)?;
        self.take_text(&text, writer)
    }

    /// Ends the last line where it has no line feed, as at the end of a reader, and answers it: `take` of a line feed. Where the
    /// last line has ended, nothing is done.
    pub fn finish<W: KeptSink<D>>(&mut self, writer: &mut W) -> Result<(), TakeFault>
        requires { IsKept self.old }

        ensures kept { OnOk result (IsKept self.new) }
        ensures size { session_size self.new ≡ session_size self.old }
        ensures records { OnKept result (IsTrue (D.is_honest (session_device self.new)) → kept_records self.new ≡ mended (kept_records self.old)) }
        ensures stands { OnKept result (IsTrue (D.is_honest (session_device self.new)) → (bytes : List ℕ) → StandsFor self.old bytes → StandsFor self.new (bytes ++ missing_end self.old)) }
        ensures told { OnKept result (IsTrue (D.is_honest (session_device self.new)) → (bytes : List ℕ) → StandsFor self.old bytes → (output : List ℕ)
            × Appends (W.taken writer.old) (W.taken writer.new) output
            × IsPrefix (told_text self.old bytes ++ output) (told_text self.new (bytes ++ missing_end self.old))
            × OnOk result (told_text self.new (bytes ++ missing_end self.old) ≡ told_text self.old bytes ++ output)) }
        ensures not_told { OnNotKept result (writer.new ≡ writer.old) }
        ensures tries { Tries (adds ((10 ∷ []) ∷ [])) (session_journal self.old) (session_journal self.new) }
    {
        if self.ended {
            return Ok(());
        }
        self.take_text(b"\n", writer)
    }

    /// How many lines have ended in all that was taken.
    pub fn line_count(&self) -> u64
        ensures { result ≡ session_lines self.now }
    {
        self.session.line_count()
    }

    /// The highest numbers of clients in the lines that were kept as the session was opened.
    pub fn highest(&self) -> Highest {
        self.highest
    }

    /// The store by which the session can be begun again, behind as many lines as there are: none while a line has begun, while a
    /// message or an answer is on its way, or where there ever was another server than one. O(links).
    pub fn store_at_rest(&self) -> Option<&Store>
        requires { IsKept self.now }
        ensures { IsTrue (D.is_honest (session_device self.now)) → (bytes : List ℕ) → StandsFor self.now bytes
            → IfSome (option_map (λ s. s.now) result) (λ store. IsBaseOf (session_size self.now) store (session_lines self.now) bytes) }
    {
        self.session.store_at_rest()
    }

    /// The journal, to be handed on.
    pub fn into_journal(self) -> Journal<D>
        ensures { result ≡ session_journal self }
    {
        self.journal
    }

    /// Takes a chunk that a record can have.
    fn take_text<W: KeptSink<D>>(&mut self, chunk: &[u8], writer: &mut W) -> Result<(), TakeFault>
        requires kept { IsKept self.old }
        requires text { is_text chunk.now ≡ true }
        requires unmarked { has_mark chunk.now ≡ false }

        ensures kept { OnOk result (IsKept self.new) }
        ensures size { session_size self.new ≡ session_size self.old }
        ensures records { OnKept result (kept_records self.new ≡ kept_records self.old ++ chunk.now ∷ []) }
        ensures stands { OnKept result (IsTrue (D.is_honest (session_device self.new)) → (bytes : List ℕ) → StandsFor self.old bytes → StandsFor self.new (bytes ++ chunk.now)) }
        ensures told { OnKept result (IsTrue (D.is_honest (session_device self.new)) → (bytes : List ℕ) → StandsFor self.old bytes → (output : List ℕ)
            × Appends (W.taken writer.old) (W.taken writer.new) output
            × IsPrefix (told_text self.old bytes ++ output) (told_text self.new (bytes ++ chunk.now))
            × OnOk result (told_text self.new (bytes ++ chunk.now) ≡ told_text self.old bytes ++ output)) }
        ensures journal { OnKept result (IsJournal (session_journal self.new)) }
        ensures not_told { OnNotKept result (writer.new ≡ writer.old) }
        ensures flushed { OnOk result (W.is_passed_on writer.new ≡ true) }
        ensures write_failed { result ≡ Err (NotTold WriteFailed) → W.is_broken writer.new ≡ true }
        ensures tries { Tries (adds (chunk.now ∷ [])) (session_journal self.old) (session_journal self.new) }
        ensures full { result ≡ Err (NotKept Full) → IsKept self.new × (kept_records self.new ≡ kept_records self.old) }
    {
        self.keep(chunk)?;
        match writer.tell(self, chunk) {
            Ok(()) => Ok(()),
            Err(fault) => Err(TakeFault::NotTold(fault)),
        }
    }

    /// Puts a record behind all others of the journal, on the medium.
    pub(crate) fn keep(&mut self, text: &[u8]) -> Result<(), LogFault>
        requires journal { IsJournal (session_journal self.old) }
        requires text { is_text text.now ≡ true }

        ensures same { (self.new.session ≡ self.old.session) × (session_size self.new ≡ session_size self.old) × (self.new.ended ≡ self.old.ended) }
        ensures journal { OnOk result (IsJournal (session_journal self.new)) }
        ensures lengths { OnOk result ((journal_half (session_journal self.new) ≡ journal_half (session_journal self.old)) × (region_len (session_journal self.new) ≡ region_len (session_journal self.old))) }
        ensures records { OnOk result (kept_records self.new ≡ kept_records self.old ++ text.now ∷ []) }
        ensures tries { Tries (adds (text.now ∷ [])) (session_journal self.old) (session_journal self.new) }
        ensures full { IsErrOf result Full → IsJournal (session_journal self.new) × (kept_records self.new ≡ kept_records self.old) }
    {
        self.schedule.count(text.len());
        let mut batch = Batch::new(self.alloc);
        batch.add(text)?;
        self.journal.append(self.alloc, &batch)
    }

    /// Runs the lines that end in a chunk, and writes what comes of them. It asks that the chunk is kept: nobody is told before.
    pub(crate) fn tell<W: Sink>(&mut self, chunk: &[u8], writer: &mut W) -> Result<(), ScriptFault>
        requires settled { IsSettled self.old chunk.now }

        ensures same { (self.new.journal ≡ self.old.journal) × (session_size self.new ≡ session_size self.old) }
        ensures ended { (before : List ℕ) → self.old.ended ≡ is_ended before → self.new.ended ≡ is_ended (before ++ chunk.now) }
        ensures runs { (before : List ℕ) → HasRun (session_size self.old) before self.old.session → OnOk result (HasRun (session_size self.old) (before ++ chunk.now) self.new.session) }
        ensures writes { (before : List ℕ) → HasRun (session_size self.old) before self.old.session → (output : List ℕ)
            × Appends (W.contents writer.old) (W.contents writer.new) output
            × IsSessionEndedPrefix (session_size self.old) (before ++ chunk.now) (session_text (session_size self.old) (ended_part before) ++ output)
            × OnOk result (session_text (session_size self.old) (ended_part (before ++ chunk.now)) ≡ session_text (session_size self.old) (ended_part before) ++ output) }
        ensures flushed { OnOk result (W.has_flushed writer.new ≡ true) }
        ensures write_failed { result ≡ Err WriteFailed → W.has_failed writer.new ≡ true }
    {
        self.ended = has_ended(self.ended, chunk);
        self.session.feed(chunk, writer)
    }
}

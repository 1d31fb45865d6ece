//! How a kept session begins, and goes on behind what was kept.
ghost use Rattle.std.specs.Prelude.{◌≡◌, ◌⊎◌, ◌≤◌, ◌<◌, ◌+◌, ◌++◌, [], ◌∷◌, ℕ, List, true, length, Option, Some, IsTrue, IfOk, OnOk};
ghost use Rattle.cq_disk.specs.Device.{LeavesOnly};
ghost use Rattle.cq_journal.specs.Base.{HasEitherRecords};
ghost use Rattle.cq_journal.specs.Changes.{adds};
ghost use Rattle.cq_journal.specs.Histories.{Tries};
ghost use Rattle.cq_journal.specs.Journal.{IsJournal, journal_device, journal_half, region_len};
ghost use Rattle.cq_journal.specs.Regions.{kept};
ghost use Rattle.cq_journal.specs.Rests.{Rests};
ghost use Rattle.cq_script.specs.Resumed.{HasRun};
ghost use Rattle.cq_kept_session.specs.Bases.{AreLines, Stage, Start, fresh, lined, marked, read, starts, whole};
ghost use Rattle.cq_kept_session.specs.Texts.{opened, size_records};
ghost use Rattle.cq_kept_session.specs.within.Readers.{IsRead, IsRun, reader_stage};

use crate::base::{BaseReader, Reading};
use crate::text::{MARK, SIZE_MARK, has_ended, size_in, size_text};
use crate::{Highest, KeptSession, StartFault};
use cq_base::{ChainSize, NoMemory};
use cq_disk::Device;
use cq_journal::{Journal, NUMBER_LIMIT, OpenFault};
use cq_kept_base::Schedule;
use cq_lines::BYTES_LIMIT;
use cq_records::LogFault;
use cq_script::ResumedSession;
use std::alloc::Global;

impl<D: Device> KeptSession<D> {
    ghost use Rattle.cq_kept_session.specs.Kept.{IsKept, kept_bytes, kept_records, session_device, session_journal, session_size};
    ghost use Rattle.cq_kept_session.specs.within.Begun.{HasBegun, IsFresh};

    /// Begins a session on so many servers, and makes its journal on a device: a root of two halves of this length, and behind it
    /// one region of this length. Whatever the device has is lost. Where the servers are several, the journal begins with their number.
    /// `Write(Full)`: it is too short.
    pub fn create(
        alloc: Global,
        size: ChainSize,
        device: D,
        half: usize,
        len: usize,
    ) -> Result<KeptSession<D>, StartFault>
        requires root { half + half ≤ length (D.seen device) }
        requires small { half + half < NUMBER_LIMIT }
        ensures kept { IfOk result IsKept }
        ensures named { IfOk result (λ session. kept_records session ≡ size_records size) }
        ensures size { IfOk result (λ session. session_size session ≡ size) }
        ensures lengths { IfOk result (λ session. (journal_half (session_journal session) ≡ half) × (region_len (session_journal session) ≡ len)) }
        ensures honest { IfOk result (λ session. IsTrue (D.is_honest (session_device session)) → IsTrue (D.is_honest device)) }
    {
        let behind = device.len().saturating_sub(half).saturating_sub(half);
        let schedule = Schedule::new(size, len, behind);
        let journal = Journal::create(alloc, device, half, len)?;
        let mut session = KeptSession::begin(alloc, size, journal, schedule)?;
        session.name_size()?;
        Ok(session)
    }

    /// Goes on with the session whose journal a device has, with halves of the root and regions of these lengths: its lines are
    /// run, in order, on so many servers, and nothing is written of them. If the last one was cut off, a line feed is kept behind
    /// it first, so that what comes then is a line of its own. It takes memory for the records of a region, beside what the
    /// session takes. `Open(NoJournal)`: the device has none. `OtherSize`: its session is on another number of servers.
    pub fn open(
        alloc: Global,
        size: ChainSize,
        device: D,
        half: usize,
        len: usize,
    ) -> Result<KeptSession<D>, StartFault>
        requires { half + half ≤ length (D.seen device) }
        ensures kept { IfOk result IsKept }
        ensures records { IfOk result (λ session. IsTrue (D.is_honest (session_device session)) → (rs : List (List ℕ)) × (kept half len (D.seen device) ≡ Some rs) × (kept_records session ≡ opened size rs)) }
        ensures size { IfOk result (λ session. session_size session ≡ size) }

        // A crash at any moment leaves what it might have left before, or the records that were seen, or these with what is kept behind them.
        ensures any_moment { IfOk result (λ session. IsTrue (D.is_honest (session_device session)) → (rs : List (List ℕ)) → kept half len (D.seen device) ≡ Some rs
            → LeavesOnly D.moment D.left_since device (session_device session) (λ c. D.may_leave device c ⊎ HasEitherRecords half len rs (opened size rs) c)) }
    {
        let behind = device.len().saturating_sub(half).saturating_sub(half);
        let schedule = Schedule::new(size, len, behind);
        let journal = Journal::open(alloc, device, half, len)?;
        let mut session = KeptSession::begin(alloc, size, journal, schedule)?;
        session.restore()?;
        let used = session.used();
        let messages = session.messages_at_rest();
        session.schedule.opened(used, messages);
        Ok(session)
    }

    /// A session that has run nothing, over a journal.
    fn begin(
        alloc: Global,
        size: ChainSize,
        journal: Journal<D>,
        schedule: Schedule,
    ) -> Result<KeptSession<D>, NoMemory>
        ensures journal { IfOk result (λ begun. session_journal begun ≡ journal) }
        ensures size { IfOk result (λ begun. session_size begun ≡ size) }
        ensures run { IfOk result (λ begun. HasRun (session_size begun) [] begun.session) }
        ensures ended { IfOk result (λ begun. begun.ended ≡ true) }
    {
        let session = ResumedSession::new(alloc, size)?;
        Ok(KeptSession {
            alloc,
            size,
            journal,
            session,
            ended: true,
            highest: Highest::none(),
            schedule,
        })
    }

    /// Runs what is kept, and ends the last line if it was cut off. Where nothing is kept, the journal gets what it begins with.
    fn restore(&mut self) -> Result<(), StartFault>
        requires journal { IsJournal (session_journal self.old) }
        requires run { HasRun (session_size self.old) [] self.old.session }
        requires ended { self.old.ended ≡ true }
        ensures kept { OnOk result (IsKept self.new) }
        ensures size { session_size self.new ≡ session_size self.old }
        ensures honest { IsTrue (D.is_honest (session_device self.new)) → IsTrue (D.is_honest (session_device self.old)) }
        ensures records { OnOk result (IsTrue (D.is_honest (session_device self.new)) → kept_records self.new ≡ opened (session_size self.old) (kept_records self.old)) }
        ensures any_moment { OnOk result (IsTrue (D.is_honest (session_device self.new)) → LeavesOnly D.moment D.left_since (session_device self.old) (session_device self.new)
            (HasEitherRecords (journal_half (session_journal self.old)) (region_len (session_journal self.old)) (kept_records self.old) (opened (session_size self.old) (kept_records self.old)))) }
    {
        let is_new = self.run_kept()?;
        if is_new {
            self.name_size()?;
            return Ok(());
        }
        if self.ended { Ok(()) } else { self.end_line() }
    }

    /// Keeps of how many servers the session is, where these are several.
    fn name_size(&mut self) -> Result<(), LogFault>
        requires { IsFresh self.old }
        ensures kept { OnOk result (IsKept self.new) }
        ensures size { session_size self.new ≡ session_size self.old }
        ensures lengths { OnOk result ((journal_half (session_journal self.new) ≡ journal_half (session_journal self.old)) × (region_len (session_journal self.new) ≡ region_len (session_journal self.old))) }
        ensures records { OnOk result (kept_records self.new ≡ kept_records self.old ++ size_records (session_size self.old)) }
        ensures tries { Tries (adds (size_records (session_size self.old))) (session_journal self.old) (session_journal self.new) }
    {
        if self.size.get() == 1 {
            return Ok(());
        }
        let text = size_text(self.size);
        self.keep(&text)?;
        Ok(())
    }

    /// Runs what is kept, region by region, and says whether there is no byte. `Open(Damaged)`: it has a base that isn't whole, or is
    /// none.
    fn run_kept(&mut self) -> Result<bool, StartFault>
        requires journal { IsJournal (session_journal self.old) }
        requires run { HasRun (session_size self.old) [] self.old.session }
        requires ended { self.old.ended ≡ true }
        ensures begun { IfOk result (HasBegun self.new) }
        ensures size { session_size self.new ≡ session_size self.old }
        ensures rests { Rests (session_journal self.old) (session_journal self.new) }
    {
        let mut text = Vec::new(self.alloc);
        let mut reading = Reading::Fresh;
        let mut index = 0;
        while index < self.journal.region_count() {
            text.clear();
            self.journal.read_region(self.alloc, index, &mut text)?;
            reading = self.run_text(reading, &text)?;
            self.ended = has_ended(self.ended, &text);
            index += 1;
        }
        if reading.is_base() {
            return Err(StartFault::Open(OpenFault::Damaged));
        }
        Ok(reading.is_fresh())
    }

    /// Runs what comes behind what was read.
    fn run_text(&mut self, reading: Reading, text: &[u8]) -> Result<Reading, StartFault>
        ensures same { (self.new.journal ≡ self.old.journal) × (session_size self.new ≡ session_size self.old) × (self.new.ended ≡ self.old.ended) }
        ensures run { (stage : Stage) → IsRead (session_size self.old) stage reading self.old.session → IfOk result (λ next. IsRead (session_size self.old) (read stage text.now) next self.new.session) }
    {
        match reading {
            Reading::Fresh => self.begin_text(text),
            Reading::Base(reader) => self.run_base(reader, text),
            Reading::Lines => self.run_lines(text),
        }
    }

    /// Runs what is kept from its first byte on.
    fn begin_text(&mut self, text: &[u8]) -> Result<Reading, StartFault>
        ensures same { (self.new.journal ≡ self.old.journal) × (session_size self.new ≡ session_size self.old) × (self.new.ended ≡ self.old.ended) }
        ensures run { HasRun (session_size self.old) [] self.old.session → IfOk result (λ next. IsRead (session_size self.old) (read fresh text.now) next self.new.session) }
    {
        let Some((first, rest)) = text.split_first() else {
            return Ok(Reading::Fresh);
        };
        if *first == MARK {
            return self.run_base(BaseReader::new(self.alloc), rest);
        }
        if *first == SIZE_MARK {
            return self.run_several(rest);
        }
        if self.size.get() != 1 {
            return Err(StartFault::OtherSize);
        }
        self.run_lines(text)
    }

    /// Runs the lines of a session on several servers, behind the mark of their number.
    fn run_several(&mut self, text: &[u8]) -> Result<Reading, StartFault>
        ensures same { (self.new.journal ≡ self.old.journal) × (session_size self.new ≡ session_size self.old) × (self.new.ended ≡ self.old.ended) }
        ensures run { HasRun (session_size self.old) [] self.old.session → IfOk result (λ next. IsRead (session_size self.old) (read marked text.now) next self.new.session) }
    {
        let Some((servers, lines)) = size_in(text) else {
            return Err(StartFault::Open(OpenFault::Damaged));
        };
        if servers != self.size.get() {
            return Err(StartFault::OtherSize);
        }
        self.run_lines(lines)
    }

    /// Reads on in a base, and goes on behind it where it has ended.
    fn run_base(&mut self, reader: BaseReader, bytes: &[u8]) -> Result<Reading, StartFault>
        ensures same { (self.new.journal ≡ self.old.journal) × (session_size self.new ≡ session_size self.old) × (self.new.ended ≡ self.old.ended) }
        ensures run { IfOk result (λ next. IsRead (session_size self.old) (read (reader_stage reader) bytes.now) next self.new.session) }
    {
        let (reader, behind) = reader.feed(bytes)?;
        match behind {
            None => Ok(Reading::Base(reader)),
            Some(lines) => {
                self.begin_behind(reader)?;
                self.run_lines(lines)
            }
        }
    }

    /// Goes on behind a base that has ended.
    fn begin_behind(&mut self, reader: BaseReader) -> Result<(), StartFault>
        ensures same { (self.new.journal ≡ self.old.journal) × (session_size self.new ≡ session_size self.old) × (self.new.ended ≡ self.old.ended) }
        ensures run { OnOk result (IsRun (session_size self.old) (whole reader.header reader.store) self.new.session) }
    {
        if self.size.get() != 1 {
            return Err(StartFault::OtherSize);
        }
        let (header, store) = reader.whole()?;
        if header.lines > BYTES_LIMIT {
            return Err(StartFault::Open(OpenFault::Damaged));
        }
        self.session = ResumedSession::behind(self.alloc, store, header.lines)?;
        self.highest = header.highest;
        Ok(())
    }

    /// Runs lines.
    fn run_lines(&mut self, bytes: &[u8]) -> Result<Reading, StartFault>
        ensures same { (self.new.journal ≡ self.old.journal) × (session_size self.new ≡ session_size self.old) × (self.new.ended ≡ self.old.ended) }
        ensures run { (size : ℕ) (start : Start) (lines : List ℕ) → starts size start ≡ true → ((before : List ℕ) → AreLines size start lines before → HasRun size before self.old.session)
            → IfOk result (λ next. IsRead size (lined start (lines ++ bytes.now)) next self.new.session) }
    {
        self.session.restore(bytes)?;
        self.highest = self.highest.with_lines(self.alloc, bytes)?;
        self.schedule.count(bytes.len());
        Ok(Reading::Lines)
    }

    /// Keeps and runs a line feed.
    fn end_line(&mut self) -> Result<(), StartFault>
        requires { IsKept self.old }
        ensures kept { OnOk result (IsKept self.new) }
        ensures size { session_size self.new ≡ session_size self.old }
        ensures honest { IsTrue (D.is_honest (session_device self.new)) → IsTrue (D.is_honest (session_device self.old)) }
        ensures records { OnOk result (kept_records self.new ≡ kept_records self.old ++ (10 ∷ []) ∷ []) }
        ensures tries { Tries (adds ((10 ∷ []) ∷ [])) (session_journal self.old) (session_journal self.new) }
    {
        self.keep(b"\n")?;
        self.session.restore(b"\n")?;
        self.ended = has_ended(self.ended, b"\n");
        Ok(())
    }
}

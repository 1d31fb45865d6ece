//! How a session takes lines while there is room, and refuses them where there is none.
ghost use Rattle.std.specs.Prelude.{◌≡◌, ◌≤◌, ◌++◌, [], ◌∷◌, ℕ, List, true, length, Err, IfOk, IsTrue, OnErr, OnOk, if◌then◌else◌};
ghost use Rattle.std.specs.Io.KnownBytes.{Appends};
ghost use Rattle.cq_lines.specs.declared.fault.ScriptFault.TheVariants.{WriteFailed};
ghost use Rattle.cq_records.specs.declared.frame.TheConstants.{TEXT_LIMIT};
ghost use Rattle.cq_kept_session.specs.Served.{Refuses, Serves, StopsServing, no_room_text};
ghost use Rattle.cq_kept_session.specs.Texts.{as_kept};

use crate::class::{LineClass, class_of_line, class_of_lines};
use crate::{KeptSession, KeptSink, TakeFault};
use cq_disk::Device;
use cq_records::{HEAD_LENGTH, LogFault};
use cq_script::{ScriptFault, Sink, cut_line, finish_writing, refused_line, write_text};

/// The number of the refusal that tells that there is no room.
pub const NO_ROOM: u16 = 70;

impl<D: Device> KeptSession<D> {
    ghost use Rattle.cq_kept_session.specs.Kept.{IsKept, kept_records, session_device, session_journal, session_size};

    /// Takes whole lines, as `take` does, while there is room for them. Where there is little, each line is taken by itself, or refused
    /// by a line such as `{"line":3,"name":"NoRoom","refused":70}`: first those that may add a queue or a message, then those that change
    /// what is there, then those that delete, and last puts and takes. A refused line changes nothing, nothing of it is kept, and it isn't
    /// counted: the next line that is taken has its number. After a fault the session is to be opened anew.
    pub fn take_lines<W: KeptSink<D>>(
        &mut self,
        lines: &[u8],
        writer: &mut W,
    ) -> Result<(), TakeFault>
        requires kept { IsKept self.old }
        requires short { length lines.now ≤ TEXT_LIMIT }

        ensures kept { OnOk result (IsKept self.new) }
        ensures size { session_size self.new ≡ session_size self.old }
        ensures serves { OnOk result (Serves self.old self.new (W.taken writer.old) (W.taken writer.new) (as_kept lines.now)) }
        ensures stops { OnErr result (StopsServing self.old self.new (W.taken writer.old) (W.taken writer.new) (as_kept lines.now)) }
    {
        if self.take_if_room(LineClass::Adds, lines, writer)? {
            return Ok(());
        }
        self.take_by_class(lines, writer)
    }

    /// Takes these lines as one where there is room for those of their classes, and else takes or refuses each.
    fn take_by_class<W: KeptSink<D>>(
        &mut self,
        lines: &[u8],
        writer: &mut W,
    ) -> Result<(), TakeFault>
        requires kept { IsKept self.old }
        requires short { length lines.now ≤ TEXT_LIMIT }

        ensures kept { OnOk result (IsKept self.new) }
        ensures size { session_size self.new ≡ session_size self.old }
        ensures serves { OnOk result (Serves self.old self.new (W.taken writer.old) (W.taken writer.new) (as_kept lines.now)) }
        ensures stops { OnErr result (StopsServing self.old self.new (W.taken writer.old) (W.taken writer.new) (as_kept lines.now)) }
    {
        let class = class_of_lines(self.alloc, lines)?;
        if self.take_if_room(class, lines, writer)? {
            return Ok(());
        }
        self.take_each(lines, writer)
    }

    /// Takes whole lines so, and puts a base in the place of all before where that is due, or where lines that add something would
    /// leave no space for one.
    pub(crate) fn take_behind_base<W: KeptSink<D>>(
        &mut self,
        lines: &[u8],
        writer: &mut W,
    ) -> Result<(), TakeFault>
        requires kept { IsKept self.old }
        requires short { length lines.now ≤ TEXT_LIMIT }

        ensures kept { OnOk result (IsKept self.new) }
        ensures size { session_size self.new ≡ session_size self.old }
        ensures serves { OnOk result (Serves self.old self.new (W.taken writer.old) (W.taken writer.new) (as_kept lines.now)) }
        ensures stops { OnErr result (StopsServing self.old self.new (W.taken writer.old) (W.taken writer.new) (as_kept lines.now)) }
    {
        self.rewrite_if_due(lines.len().saturating_add(HEAD_LENGTH))?;
        self.take_lines(lines, writer)
    }

    /// Takes or refuses each of these lines.
    fn take_each<W: KeptSink<D>>(&mut self, lines: &[u8], writer: &mut W) -> Result<(), TakeFault>
        requires kept { IsKept self.old }
        requires short { length lines.now ≤ TEXT_LIMIT }

        ensures kept { OnOk result (IsKept self.new) }
        ensures size { session_size self.new ≡ session_size self.old }
        ensures serves { OnOk result (Serves self.old self.new (W.taken writer.old) (W.taken writer.new) (as_kept lines.now)) }
        ensures stops { OnErr result (StopsServing self.old self.new (W.taken writer.old) (W.taken writer.new) (as_kept lines.now)) }
    {
        let mut rest = lines;
        while let Some((line, _)) = cut_line(rest) {
            let (whole, later) = rest.split_at(line.len() + 1);
            self.take_or_refuse(line, whole, writer)?;
            rest = later;
        }
        if rest.is_empty() {
            return Ok(());
        }
        self.take_or_refuse(rest, rest, writer)
    }

    /// Takes a line where there is room for it, and else refuses it. `whole` is the line with its line feed.
    fn take_or_refuse<W: KeptSink<D>>(
        &mut self,
        line: &[u8],
        whole: &[u8],
        writer: &mut W,
    ) -> Result<(), TakeFault>
        requires kept { IsKept self.old }
        requires short { length whole.now ≤ TEXT_LIMIT }

        ensures kept { OnOk result (IsKept self.new) }
        ensures size { session_size self.new ≡ session_size self.old }
        ensures serves { OnOk result (Serves self.old self.new (W.taken writer.old) (W.taken writer.new) (as_kept whole.now)) }
        ensures stops { OnErr result (StopsServing self.old self.new (W.taken writer.old) (W.taken writer.new) (as_kept whole.now)) }
    {
        let class = class_of_line(self.alloc, line)?;
        if self.take_if_room(class, whole, writer)? {
            return Ok(());
        }
        writer.refuse(self)?;
        Ok(())
    }

    /// Takes lines of this class where there is room for them, and they leave space for a base. `false`: it isn't so, and nothing has
    /// changed but that a rewrite is due earlier.
    fn take_if_room<W: KeptSink<D>>(
        &mut self,
        class: LineClass,
        chunk: &[u8],
        writer: &mut W,
    ) -> Result<bool, TakeFault>
        requires kept { IsKept self.old }
        requires short { length chunk.now ≤ TEXT_LIMIT }

        ensures kept { OnOk result (IsKept self.new) }
        ensures size { session_size self.new ≡ session_size self.old }
        ensures serves { IfOk result (λ is_taken. Serves self.old self.new (W.taken writer.old) (W.taken writer.new) (if is_taken then as_kept chunk.now else [])) }
        ensures stops { OnErr result (StopsServing self.old self.new (W.taken writer.old) (W.taken writer.new) (as_kept chunk.now)) }
    {
        if !self.leaves_space(class, chunk.len()) {
            return Ok(false);
        }
        if !self.has_room(class, chunk.len()) {
            self.schedule.tighten();
            return Ok(false);
        }
        match self.take(chunk, writer) {
            Ok(()) => Ok(true),
            Err(TakeFault::NotKept(LogFault::Full)) => Ok(false),
            Err(fault) => Err(fault),
        }
    }

    /// Tells that there is no room for a line, and flushes that.
    pub(crate) fn refuse<W: Sink>(&self, writer: &mut W) -> Result<(), ScriptFault>
        ensures told { OnOk result ((number : ℕ) × Appends (W.contents writer.old) (W.contents writer.new) (no_room_text number)) }
        ensures stops { OnErr result (Refuses (W.contents writer.old) (W.contents writer.new)) }
        ensures flushed { OnOk result (W.has_flushed writer.new ≡ true) }
    {
        let text = refused_line(
            self.alloc,
            self.session.line_count().saturating_add(1),
            NO_ROOM,
            "NoRoom",
        )?;
        write_text(writer, &text)?;
        finish_writing(writer)
    }
}

//! What comes of a frame at a server whose entries are kept.
ghost use Rattle.std.specs.Prelude.{◌≡◌, ◌≤◌, ◌++◌, ◌∷◌, [], List, Ok, Some, option_map, vec_capacity, vec_len, OnErr, OnOk};
ghost use Rattle.cq_base.specs.declared.ask.Entry as rust_entry;
ghost use Rattle.cq_base.specs.Relations.{IsPrefix};
ghost use Rattle.cq_frames.specs.Reading.{command_at};
ghost use Rattle.cq_frames.specs.declared.response.Response.TheVariants as responses;
ghost use Rattle.cq_kept_entries.specs.Classes.{class_of};
ghost use Rattle.cq_kept_entries.specs.Kept.{HasAdded, IsKept, added_text, entries_journal};
ghost use Rattle.cq_kept_server.specs.Commands.{IsPlain, is_here, room_for};
ghost use Rattle.cq_kept_server.specs.Telling.{IsArrival};
ghost use Rattle.cq_process_frames.specs.Frames.{frame};
ghost use Rattle.cq_server_copies.specs.Saving as saving;
ghost use Rattle.cq_wire.specs.Reading.{whole_at};

use crate::KeptServer;
use cq_base::{Moment, Party, Request};
use cq_disk::Device;
use cq_frame_loop::Unanswered;
use cq_frames::{Command, NO_MEMORY, NOT_HERE, STREAM_ENDED, read_command, stream_of};
use cq_kept_entries::{EntryClass, class_of};
use cq_process_frames::tell_refused;
use cq_records::{LogFault, TEXT_LIMIT};
use cq_wire::ReadFault;

/// The number under which an arrival is refused for which the journal has no room.
pub const NO_ROOM: u32 = 70;

/// Whether a command means something to the only server of a chain: it takes nothing from others, and others have nothing from it.
fn is_here(command: &Command) -> bool
    ensures { result ≡ is_here command.now }
{
    match command {
        Command::Arrive {
            stream: _,
            clock: _,
            request: _,
        } => true,
        Command::Ask { query: _ } => true,
        Command::More { to: Party::Clients } => true,
        Command::Save => true,
        _ => false,
    }
}

/// How many bytes the piece of an entry has at most that comes with a frame of these: it has fewer bytes than that, and each takes two at
/// most.
fn room_for(bytes: &[u8]) -> usize
    ensures { result ≡ room_for bytes.now }
{
    bytes.len().saturating_mul(2).min(TEXT_LIMIT)
}

/// Tells that a command is refused, by the fault of that number.
fn refuse(end: &mut Vec<u8>, code: u32)
    requires empty { vec_len end.old ≡ 0 }
    requires room { 64 ≤ vec_capacity end.old }
    ensures told { end.new.items ≡ frame (responses.Refused code) }
    ensures capacity { vec_capacity end.old ≤ vec_capacity end.new }
{
    tell_refused(end, code);
}

impl<D: Device> KeptServer<D> {
    ghost use Rattle.cq_kept_server.specs.Keeping.{Stops, TellsAnswer};
    ghost use Rattle.cq_kept_server.specs.Servers.{HasRoom, IsReady};

    /// Answers the bytes of a frame, or a frame that was too long, as `SavingProcess::answer_frame` does, and adds the entry that comes of
    /// it to those that are to be kept. What is told rests on what isn't kept yet: it is to be settled first. An arrival for which the
    /// journal has no room is refused (70), and ends its stream. Commands of servers of a longer chain are refused (47).
    ///
    /// An error comes where a piece is too long for a frame, or where there is no memory for an entry, which `fault` tells. The process
    /// has to end then, and nothing of what it was told since all was settled is kept.
    pub fn answer_frame(
        &mut self,
        frame: Option<&[u8]>,
        out: &mut Vec<u8>,
        end: &mut Vec<u8>,
    ) -> Result<(), Unanswered>
        requires ready { IsReady self.old }
        requires empty { vec_len end.old ≡ 0 }
        requires room { 64 ≤ vec_capacity end.old }
        ensures tells { OnOk result (TellsAnswer (option_map (λ bytes. bytes.now) frame.entry) self.old self.new out.old.items out.new.items end.new.items) }
        ensures err { OnErr result (IsPrefix out.old.items out.new.items) }
        ensures stops { OnErr result (Stops self.old self.new) }
        ensures capacity { vec_capacity end.old ≤ vec_capacity end.new }
    {
        match frame {
            Some(bytes) => self.answer_bytes(bytes, out, end),
            None => self.answer_plain(None, out, end),
        }
    }

    /// Answers the bytes of a frame.
    fn answer_bytes(
        &mut self,
        bytes: &[u8],
        out: &mut Vec<u8>,
        end: &mut Vec<u8>,
    ) -> Result<(), Unanswered>
        requires ready { IsReady self.old }
        requires empty { vec_len end.old ≡ 0 }
        requires room { 64 ≤ vec_capacity end.old }
        ensures tells { OnOk result (TellsAnswer (Some bytes.now) self.old self.new out.old.items out.new.items end.new.items) }
        ensures err { OnErr result (IsPrefix out.old.items out.new.items) }
        ensures stops { OnErr result (Stops self.old self.new) }
        ensures capacity { vec_capacity end.old ≤ vec_capacity end.new }
    {
        match read_command(self.alloc, bytes) {
            Ok(command) => self.answer_command(bytes, &command, out, end),
            Err(ReadFault::NoMemory) => {
                self.streams.end(stream_of(bytes));
                refuse(end, NO_MEMORY);
                Ok(())
            }
            Err(ReadFault::Bad(_)) => self.answer_plain(Some(bytes), out, end),
        }
    }

    /// Answers a command, which these bytes are.
    fn answer_command(
        &mut self,
        bytes: &[u8],
        command: &Command,
        out: &mut Vec<u8>,
        end: &mut Vec<u8>,
    ) -> Result<(), Unanswered>
        requires ready { IsReady self.old }
        requires read { whole_at command_at bytes.now ≡ Ok command.now }
        requires empty { vec_len end.old ≡ 0 }
        requires room { 64 ≤ vec_capacity end.old }
        ensures tells { OnOk result (TellsAnswer (Some bytes.now) self.old self.new out.old.items out.new.items end.new.items) }
        ensures err { OnErr result (IsPrefix out.old.items out.new.items) }
        ensures stops { OnErr result (Stops self.old self.new) }
        ensures capacity { vec_capacity end.old ≤ vec_capacity end.new }
    {
        if !is_here(command) {
            refuse(end, NOT_HERE);
            return Ok(());
        }
        match command {
            Command::Arrive {
                stream,
                clock,
                request,
            } => self.answer_arrival(bytes, command, *stream, *clock, request, out, end),
            _ => self.answer_plain(Some(bytes), out, end),
        }
    }

    /// Answers a frame that brings no entry: the process does.
    fn answer_plain(
        &mut self,
        frame: Option<&[u8]>,
        out: &mut Vec<u8>,
        end: &mut Vec<u8>,
    ) -> Result<(), Unanswered>
        requires ready { IsReady self.old }
        requires plain { IsPlain (option_map (λ bytes. bytes.now) frame) }
        requires empty { vec_len end.old ≡ 0 }
        requires room { 64 ≤ vec_capacity end.old }
        ensures tells { OnOk result (TellsAnswer (option_map (λ bytes. bytes.now) frame.entry) self.old self.new out.old.items out.new.items end.new.items) }
        ensures err { OnErr result (IsPrefix out.old.items out.new.items) }
        ensures stops { OnErr result (Stops self.old self.new) }
        ensures capacity { vec_capacity end.old ≤ vec_capacity end.new }
    {
        self.pass_on(frame, out, end)
    }

    /// Answers a command that is an arrival of that stream, which these bytes are.
    fn answer_arrival(
        &mut self,
        bytes: &[u8],
        command: &Command,
        stream: u64,
        clock: Moment,
        request: &Request,
        out: &mut Vec<u8>,
        end: &mut Vec<u8>,
    ) -> Result<(), Unanswered>
        requires ready { IsReady self.old }
        requires read { whole_at command_at bytes.now ≡ Ok command.now }
        requires arrival { IsArrival bytes.now stream clock request.now }
        requires empty { vec_len end.old ≡ 0 }
        requires room { 64 ≤ vec_capacity end.old }
        ensures tells { OnOk result (TellsAnswer (Some bytes.now) self.old self.new out.old.items out.new.items end.new.items) }
        ensures err { OnErr result (IsPrefix out.old.items out.new.items) }
        ensures stops { OnErr result (Stops self.old self.new) }
        ensures capacity { vec_capacity end.old ≤ vec_capacity end.new }
    {
        if self.streams.has_ended(Some(stream)) {
            refuse(end, STREAM_ENDED);
            return Ok(());
        }
        let class = class_of(&request.ask);
        let len = room_for(bytes);
        if !self.kept.has_room(class, len) {
            self.note_no_room(class, len);
            self.streams.end(Some(stream));
            refuse(end, NO_ROOM);
            return Ok(());
        }
        self.take_arrival(bytes, command, stream, clock, request, out, end)
    }

    /// Notes that there was no room for an entry of this class, of at most so many bytes.
    fn note_no_room(&mut self, class: EntryClass, len: usize)
        requires { IsReady self.old }
        ensures process { self.new.process ≡ self.old.process }
        ensures streams { self.new.streams ≡ self.old.streams }
        ensures journal { entries_journal self.new.kept ≡ entries_journal self.old.kept }
        ensures text { added_text self.new.kept ≡ added_text self.old.kept }
    {
        self.kept.note_no_room(class, len);
        self.wanted = self.wanted.max(len);
    }

    /// The process answers an arrival for which there is room, and the entry that comes of it is added.
    fn take_arrival(
        &mut self,
        bytes: &[u8],
        command: &Command,
        stream: u64,
        clock: Moment,
        request: &Request,
        out: &mut Vec<u8>,
        end: &mut Vec<u8>,
    ) -> Result<(), Unanswered>
        requires ready { IsReady self.old }
        requires read { whole_at command_at bytes.now ≡ Ok command.now }
        requires arrival { IsArrival bytes.now stream clock request.now }
        requires has_room { HasRoom self.old.kept (class_of request.now.ask) (room_for bytes.now) }
        requires empty { vec_len end.old ≡ 0 }
        requires room { 64 ≤ vec_capacity end.old }
        ensures tells { OnOk result (TellsAnswer (Some bytes.now) self.old self.new out.old.items out.new.items end.new.items) }
        ensures err { OnErr result (IsPrefix out.old.items out.new.items) }
        ensures stops { OnErr result (Stops self.old self.new) }
        ensures capacity { vec_capacity end.old ≤ vec_capacity end.new }
    {
        let before = self.process.core().count();
        self.pass_command(bytes, command, out, end)?;
        let standing = self.standing();
        if standing.count <= before {
            return Ok(());
        }
        self.add(standing.last, request)
    }

    /// Adds the entry of this request and moment.
    fn add(&mut self, moment: Moment, request: &Request) -> Result<(), Unanswered>
        ensures process { self.new.process ≡ self.old.process }
        ensures streams { self.new.streams ≡ self.old.streams }
        ensures journal { entries_journal self.new.kept ≡ entries_journal self.old.kept }
        ensures kept { IsReady self.old → IsReady self.new }
        ensures added { (more : List rust_entry.Entry) → HasAdded self.old.kept more → OnOk result (HasAdded self.new.kept (more ++ record { moment = moment; request = request.now } ∷ [])) }
    {
        match self.kept.add(moment, request) {
            Ok(()) => Ok(()),
            Err(_) => {
                self.fault = Some(LogFault::NoMemory);
                Err(Unanswered)
            }
        }
    }

    /// The process answers.
    fn pass_on(
        &mut self,
        frame: Option<&[u8]>,
        out: &mut Vec<u8>,
        end: &mut Vec<u8>,
    ) -> Result<(), Unanswered>
        requires empty { vec_len end.old ≡ 0 }
        requires room { 64 ≤ vec_capacity end.old }
        ensures tells { OnOk result (saving.TellsAnswer (option_map (λ bytes. bytes.now) frame.entry) self.old.process self.new.process out.old.items out.new.items end.new.items) }
        ensures kept { self.new.kept ≡ self.old.kept }
        ensures streams { self.new.streams ≡ self.old.streams }
        ensures err { OnErr result (IsPrefix out.old.items out.new.items) }
        ensures capacity { vec_capacity end.old ≤ vec_capacity end.new }
    {
        match self.process.answer_frame(frame, out, end) {
            Ok(()) => Ok(()),
            Err(_) => Err(Unanswered),
        }
    }

    /// The process answers a command that was read of these bytes.
    fn pass_command(
        &mut self,
        bytes: &[u8],
        command: &Command,
        out: &mut Vec<u8>,
        end: &mut Vec<u8>,
    ) -> Result<(), Unanswered>
        requires read { whole_at command_at bytes.now ≡ Ok command.now }
        requires empty { vec_len end.old ≡ 0 }
        requires room { 64 ≤ vec_capacity end.old }
        ensures tells { OnOk result (saving.TellsAnswer (Some bytes.now) self.old.process self.new.process out.old.items out.new.items end.new.items) }
        ensures front { IsPrefix out.old.items out.new.items }
        ensures kept { self.new.kept ≡ self.old.kept }
        ensures streams { self.new.streams ≡ self.old.streams }
        ensures capacity { vec_capacity end.old ≤ vec_capacity end.new }
    {
        match self.process.answer_command(bytes, command, out, end) {
            Ok(()) => Ok(()),
            Err(_) => Err(Unanswered),
        }
    }
}

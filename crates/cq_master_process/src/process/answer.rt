//! What the process tells of a frame.
ghost use Rattle.std.specs.Prelude.{◌≡◌, ◌+◌, ◌≤◌, ◌++◌, List, ℕ, [], Some, option_map, vec_capacity, vec_len, OnOk};
ghost use Rattle.cq_base.specs.Relations.{IsPrefix};
ghost use Rattle.cq_master_process.specs.Answering.{Answers, told_behind};
ghost use Rattle.cq_master_process.specs.within.Behind.{AnswersBehind, AnswersCommand, TellsTurns, told_of_fault};

use super::{MasterProcess, Unanswered};
use cq_base::{Party, ServerId};
use cq_frames::{Command, NO_MEMORY, read_command};
use cq_process_frames::{tell_heard, tell_refused, tell_unread, tell_waiting};
use cq_wire::{ReadFault, WireFault};

/// The room in which the last part of an answer is told.
pub const ANSWER_ROOM: usize = 64;

/// Tells for which server something still waits, and that the command was heard, in room that is there: O(1).
fn tell_behind(end: &mut Vec<u8>, waits: Option<ServerId>)
    requires { vec_len end.old + 17 ≤ vec_capacity end.old }
    ensures items { end.new.items ≡ end.old.items ++ told_behind waits }
    ensures capacity { vec_capacity end.old ≤ vec_capacity end.new }
{
    match waits {
        Some(id) => {
            tell_waiting(end, &Party::Server(id));
            tell_heard(end);
        }
        None => tell_heard(end),
    }
}

/// Tells that the bytes of a frame weren't read, in room that is there: O(1).
fn tell_fault(end: &mut Vec<u8>, fault: &ReadFault)
    requires { vec_len end.old + 10 ≤ vec_capacity end.old }
    ensures items { end.new.items ≡ end.old.items ++ told_of_fault fault.now }
    ensures capacity { vec_capacity end.old ≤ vec_capacity end.new }
{
    match fault {
        ReadFault::Bad(fault) => tell_unread(end, u32::from(fault.code())),
        ReadFault::NoMemory => tell_refused(end, NO_MEMORY),
    }
}

impl MasterProcess {
    /// The turns behind a command that is done, and what is told behind them.
    fn answer_done(&mut self, out: &mut Vec<u8>, end: &mut Vec<u8>) -> Result<(), Unanswered>
        requires empty { end.old.items ≡ [] }
        requires room { ANSWER_ROOM ≤ vec_capacity end.old }
        ensures told { OnOk result (TellsTurns self.old self.new out.old.items (out.new.items ++ end.new.items)) }
        ensures front { IsPrefix out.old.items out.new.items }
        ensures room { ANSWER_ROOM ≤ vec_capacity end.new }
    {
        match self.turns(out) {
            Ok(waits) => {
                tell_behind(end, waits);
                Ok(())
            }
            Err(fault) => Err(fault),
        }
    }

    /// Answers a command.
    fn answer_command(
        &mut self,
        command: &Command,
        out: &mut Vec<u8>,
        end: &mut Vec<u8>,
    ) -> Result<(), Unanswered>
        requires empty { end.old.items ≡ [] }
        requires room { ANSWER_ROOM ≤ vec_capacity end.old }
        ensures told { OnOk result (AnswersCommand self.old self.new command.now out.old.items (out.new.items ++ end.new.items)) }
        ensures front { IsPrefix out.old.items out.new.items }
        ensures room { ANSWER_ROOM ≤ vec_capacity end.new }
    {
        match self.step(command) {
            Ok(()) => self.answer_done(out, end),
            Err(code) => {
                tell_refused(end, code);
                Ok(())
            }
        }
    }

    /// Answers the bytes of a frame.
    fn answer_bytes(
        &mut self,
        bytes: &[u8],
        out: &mut Vec<u8>,
        end: &mut Vec<u8>,
    ) -> Result<(), Unanswered>
        requires empty { end.old.items ≡ [] }
        requires room { ANSWER_ROOM ≤ vec_capacity end.old }
        ensures told { OnOk result (AnswersBehind self.old (Some bytes.now) self.new out.old.items (out.new.items ++ end.new.items)) }
        ensures front { IsPrefix out.old.items out.new.items }
        ensures room { ANSWER_ROOM ≤ vec_capacity end.new }
    {
        match read_command(self.alloc, bytes) {
            Ok(command) => self.answer_command(&command, out, end),
            Err(fault) => {
                tell_fault(end, &fault);
                Ok(())
            }
        }
    }

    /// Answers a frame, or one that was too long, which is none. What is told stands in `out`, behind what was there, and then in
    /// `end`: the last part of an answer is told there, so it never wants memory. After `Unanswered` the process has to end.
    ///
    /// O(bytes of the frame and of what is told), expected, and what the core's call takes.
    pub fn answer_frame(
        &mut self,
        frame: Option<&[u8]>,
        out: &mut Vec<u8>,
        end: &mut Vec<u8>,
    ) -> Result<(), Unanswered>
        requires empty { end.old.items ≡ [] }
        requires room { ANSWER_ROOM ≤ vec_capacity end.old }
        ensures answers { OnOk result ((text : List ℕ) × Answers self.old (option_map (λ bytes. bytes.now) frame.entry) text self.new
            × (out.new.items ++ end.new.items ≡ out.old.items ++ text)) }
        ensures front { IsPrefix out.old.items out.new.items }
        ensures room { ANSWER_ROOM ≤ vec_capacity end.new }
    {
        match frame {
            Some(bytes) => self.answer_bytes(bytes, out, end),
            None => {
                tell_unread(end, u32::from(WireFault::BadNumber.code()));
                Ok(())
            }
        }
    }
}

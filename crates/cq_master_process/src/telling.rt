//! A message of the master, told as a frame.
ghost use Rattle.std.specs.Prelude.{◌≡◌, ◌+◌, ◌<◌, ◌≤◌, ◌++◌, List, ℕ, length};
ghost use Rattle.cq_base.specs.declared.party.Party as rust_party;
ghost use Rattle.cq_base.specs.declared.party.Party.TheVariants as parties;
ghost use Rattle.cq_chain_wire.specs.Limits.{IsMessage, IsPlain};
ghost use Rattle.cq_frames.specs.declared.piece.TheConstants.{PIECE_LIMIT};
ghost use Rattle.cq_frames.specs.declared.response.Response.TheVariants as responses;
ghost use Rattle.cq_master_process.specs.Cores.{piece_of};
ghost use Rattle.cq_master_process.specs.Putting.{only_piece};
ghost use Rattle.cq_master_process.specs.within.Telling.{IsEmptyFor, OnIdle, OnNoMemory, OnNothing, OnPut, TellsFirst, WaitsFor};
ghost use Rattle.cq_process_frames.specs.declared.front.TheConstants.{FRONT_LIMIT};
ghost use Rattle.cq_process_frames.specs.Frames.{frame, front};
ghost use Rattle.cq_wire.specs.Limits.{IsServer};

use cq_base::{Party, ServerId};
use cq_chain::{Master, Message};
use cq_chain_wire::{is_plain, message_fits, write_message};
use cq_frames::{PIECE_LIMIT, PieceNumber};
use cq_process_frames::{put_front, seal};
use cq_wire::server_fits;

/// What became of the first message for a server.
#[derive(Clone, Copy)]
pub enum Putting {
    /// It is put.
    Put,
    /// None waits.
    Nothing,
    /// There is no memory to tell it, and it waits.
    NoMemory,
    /// It is no plain message, or too long for a frame, and can't be told at all.
    Untellable,
}

/// Makes a frame of a message that stands behind its front, or cuts both off where it is too long.
fn seal_or_cut(out: &mut Vec<u8>, start: usize, body: usize, number: PieceNumber) -> Putting
    requires order { start + 24 ≤ body }
    requires short { body ≤ start + FRONT_LIMIT }
    requires within { body ≤ length out.old.items }
    ensures told { (old piece : List ℕ) (to : rust_party.Party) → out.old.items ≡ (old ++ front to) ++ piece → length old ≡ start
        → start + length (front to) ≡ body → OnPut result (out.new.items ≡ old ++ frame (responses.Put to number piece)) }
    ensures short { OnPut result (length out.old.items ≤ body + PIECE_LIMIT) }
    ensures cut { (old behind : List ℕ) → out.old.items ≡ old ++ behind → length old ≡ start → OnIdle result (out.new.items ≡ old) }
    ensures some { OnNothing result ⊥ }
{
    if PIECE_LIMIT < out.len() - body {
        out.truncate(start);
        return Putting::Untellable;
    }
    match seal(out, start, body, number) {
        Ok(()) => Putting::Put,
        Err(_) => {
            out.truncate(start);
            Putting::Untellable
        }
    }
}

/// Writes the message behind its front, which begins at `start`, as a frame; or cuts the front off.
fn tell_behind(
    out: &mut Vec<u8>,
    to: &Party,
    start: usize,
    number: u64,
    message: &Message,
) -> Putting
    requires plain { IsPlain message.now }
    requires begins { start + length (front to.now) ≡ length out.old.items }
    ensures told { (old : List ℕ) → out.old.items ≡ old ++ front to.now
        → OnPut result (out.new.items ≡ old ++ frame (responses.Put to.now (only_piece number) (piece_of message.now))) }
    ensures short { OnPut result (length (piece_of message.now) ≤ PIECE_LIMIT) }
    ensures cut { (old : List ℕ) → out.old.items ≡ old ++ front to.now → OnIdle result (out.new.items ≡ old) }
    ensures some { OnNothing result ⊥ }
{
    let body = out.len();
    match write_message(out, message) {
        Ok(()) => {
            let number = PieceNumber {
                message: number,
                index: 0,
            };
            seal_or_cut(out, start, body, number)
        }
        Err(_) => {
            out.truncate(start);
            Putting::NoMemory
        }
    }
}

/// Writes the message for that server behind the bytes, as a frame under that number. Where it isn't told the bytes are as before.
fn tell_message(out: &mut Vec<u8>, to: ServerId, number: u64, message: &Message) -> Putting
    ensures told { OnPut result (out.new.items ≡ out.old.items ++ frame (responses.Put (parties.Server to) (only_piece number) (piece_of message.now))) }
    ensures fits { OnPut result (IsMessage message.now × (IsServer to × (length (piece_of message.now) ≤ PIECE_LIMIT))) }
    ensures same { OnIdle result (out.new.items ≡ out.old.items) }
    ensures some { OnNothing result ⊥ }
{
    if !is_plain(message) {
        return Putting::Untellable;
    }
    message_fits(message);
    server_fits(to);
    let start = out.len();
    let party = Party::Server(to);
    match put_front(out, &party) {
        Ok(()) => tell_behind(out, &party, start, number, message),
        Err(_) => Putting::NoMemory,
    }
}

/// Writes the first message that waits for that server behind the bytes, as a frame under that number. It stays in its outbox.
pub fn tell_first(core: &Master, to: ServerId, number: u64, out: &mut Vec<u8>) -> Putting
    ensures told { OnPut result (TellsFirst core.now to number out.old.items out.new.items) }
    ensures empty { OnNothing result (IsEmptyFor core.now to) }
    ensures waits { OnNoMemory result (WaitsFor core.now to) }
    ensures same { OnIdle result (out.new.items ≡ out.old.items) }
{
    match core.first_for(to) {
        Some(message) => tell_message(out, to, number, message),
        None => Putting::Nothing,
    }
}

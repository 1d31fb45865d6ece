//! Commands and responses, each put behind what is there.
ghost use Rattle.std.specs.Prelude.{◌≡◌, ◌++◌, OnOk};
ghost use Rattle.cq_frames.specs.Layout.{command, party, piece_number, response, standing};
ghost use Rattle.cq_wire.specs.Layout.{text};

use crate::command::Command;
use crate::number::PieceNumber;
use crate::piece::Piece;
use crate::response::{Response, Standing};
use cq_base::{NoMemory, Party};
use cq_wire::{Writer, put_query, put_request};

#[tactic(auto, unfolding(crate::specs::Layout::party))]
fn put_party(out: &mut Writer, value: Party) -> Result<(), NoMemory>
    ensures ok { OnOk result (out.new.value ≡ out.old.value ++ party value) }
    ensures before { out.new.before ≡ out.old.before }
{
    match value {
        Party::Master => out.put(&[0]),
        Party::Clients => out.put(&[1]),
        Party::Server(id) => {
            out.put(&[2])?;
            out.put_u32(id.get())
        }
    }
}

#[tactic(auto, unfolding(crate::specs::Layout::piece_number))]
fn put_number(out: &mut Writer, value: PieceNumber) -> Result<(), NoMemory>
    ensures ok { OnOk result (out.new.value ≡ out.old.value ++ piece_number value) }
    ensures before { out.new.before ≡ out.old.before }
{
    out.put_u64(value.message)?;
    out.put_u64(value.index)
}

fn put_piece(out: &mut Writer, value: &Piece) -> Result<(), NoMemory>
    ensures ok { OnOk result (out.new.value ≡ out.old.value ++ text value.now) }
    ensures before { out.new.before ≡ out.old.before }
{
    out.put_run(value.as_bytes())
}

#[tactic(auto, unfolding(crate::specs::Layout::command))]
pub fn put_command(out: &mut Writer, value: &Command) -> Result<(), NoMemory>
    ensures ok { OnOk result (out.new.value ≡ out.old.value ++ command value.now) }
    ensures before { out.new.before ≡ out.old.before }
{
    match value {
        Command::Arrive {
            stream,
            clock,
            request,
        } => {
            out.put(&[0])?;
            out.put_u64(*stream)?;
            out.put_u64(clock.get())?;
            put_request(out, request)
        }
        Command::Ask { query } => {
            out.put(&[1])?;
            put_query(out, query)
        }
        Command::Take {
            from,
            number,
            piece,
        } => {
            out.put(&[2])?;
            put_party(out, *from)?;
            put_number(out, *number)?;
            put_piece(out, piece)
        }
        Command::Detect { server } => {
            out.put(&[3])?;
            out.put_u32(server.get())
        }
        Command::Join { server } => {
            out.put(&[4])?;
            out.put_u32(server.get())
        }
        Command::More { to } => {
            out.put(&[5])?;
            put_party(out, *to)
        }
        Command::Gone { server } => {
            out.put(&[6])?;
            out.put_u32(server.get())
        }
        Command::Save => out.put(&[7]),
        Command::Load { chunk } => {
            out.put(&[8])?;
            put_piece(out, chunk)
        }
    }
}

#[tactic(auto, unfolding(crate::specs::Layout::standing))]
fn put_standing(out: &mut Writer, value: &Standing) -> Result<(), NoMemory>
    ensures ok { OnOk result (out.new.value ≡ out.old.value ++ standing value.now) }
    ensures before { out.new.before ≡ out.old.before }
{
    out.put_u64(value.count)?;
    out.put_u64(value.acked)?;
    out.put_u64(value.last.get())?;
    out.put_flag(value.is_head)?;
    out.put_flag(value.is_acting)?;
    out.put_flag(value.is_full)
}

#[tactic(auto, unfolding(crate::specs::Layout::response))]
pub fn put_response(out: &mut Writer, value: &Response) -> Result<(), NoMemory>
    ensures ok { OnOk result (out.new.value ≡ out.old.value ++ response value.now) }
    ensures before { out.new.before ≡ out.old.before }
{
    match value {
        Response::Put { to, number, piece } => {
            out.put(&[0])?;
            put_party(out, *to)?;
            put_number(out, *number)?;
            put_piece(out, piece)
        }
        Response::Refused { code } => {
            out.put(&[1])?;
            out.put_u32(*code)
        }
        Response::Unread { code } => {
            out.put(&[2])?;
            out.put_u32(*code)
        }
        Response::Waiting { to } => {
            out.put(&[3])?;
            put_party(out, *to)
        }
        Response::Saved { count, chunk } => {
            out.put(&[4])?;
            out.put_u64(*count)?;
            put_piece(out, chunk)
        }
        Response::Done { standing } => {
            out.put(&[5])?;
            put_standing(out, standing)
        }
        Response::Heard => out.put(&[6]),
    }
}

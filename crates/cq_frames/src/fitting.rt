//! What holds of each command and of each response, so that it has bytes that are read back.
ghost use Rattle.std.specs.Prelude.{◌≤◌, ◌<◌, ◌^◌};
ghost use Rattle.cq_frames.specs.Limits.{IsCommand, IsParty, IsPiece, IsPieceNumber, IsResponse, IsStanding};

use crate::command::Command;
use crate::number::PieceNumber;
use crate::piece::Piece;
use crate::response::{Response, Standing};
use cq_base::Party;
use cq_wire::{query_fits, request_fits, server_fits};

fn party_fits(party: Party)
    ensures { IsParty party }
{
    match party {
        Party::Master | Party::Clients => (),
        Party::Server(id) => server_fits(id),
    }
}

fn piece_fits(piece: &Piece)
    ensures { IsPiece piece.now }
{
    let _bytes = piece.as_bytes();
}

fn number_fits(number: PieceNumber)
    ensures { IsPieceNumber number }
{
    let _message = number.message;
    let _index = number.index;
}

/// Each command has bytes: O(1).
pub fn command_fits(command: &Command)
    ensures { IsCommand command.now }
{
    match command {
        Command::Arrive {
            stream,
            clock,
            request,
        } => {
            let _stream = *stream;
            let _moment = clock.get();
            request_fits(request);
        }
        Command::Ask { query } => query_fits(query),
        Command::Take {
            from,
            number,
            piece,
        } => {
            party_fits(*from);
            number_fits(*number);
            piece_fits(piece);
        }
        Command::Detect { server } | Command::Join { server } | Command::Gone { server } => {
            server_fits(*server);
        }
        Command::More { to } => party_fits(*to),
        Command::Save => (),
        Command::Load { chunk } => piece_fits(chunk),
    }
}

fn standing_fits(standing: &Standing)
    ensures { IsStanding standing.now }
{
    let _count = standing.count;
    let _acked = standing.acked;
    let _moment = standing.last.get();
}

/// Each response has bytes: O(1).
pub fn response_fits(response: &Response)
    ensures { IsResponse response.now }
{
    match response {
        Response::Put { to, number, piece } => {
            party_fits(*to);
            number_fits(*number);
            piece_fits(piece);
        }
        Response::Refused { code } | Response::Unread { code } => {
            let _code = *code;
        }
        Response::Waiting { to } => party_fits(*to),
        Response::Saved { count, chunk } => {
            let _count = *count;
            piece_fits(chunk);
        }
        Response::Done { standing } => standing_fits(standing),
        Response::Heard => (),
    }
}

//! Parties, pieces and their numbers, each from the front of bytes.
ghost use Rattle.std.specs.Prelude.{◌≡◌};
ghost use Rattle.cq_frames.specs.Reading.{a_server_at, party_at, piece_at, piece_number_at};
ghost use Rattle.cq_wire.specs.Reading.{Gives};

use crate::number::PieceNumber;
use crate::piece::Piece;
use cq_base::Party;
use cq_wire::{ReadFault, WireFault, run_of, server_of, u64_of};
use std::alloc::Global;

#[tactic(auto, unfolding(crate::specs::Reading::a_server_at))]
fn a_server_of(bytes: &[u8]) -> Result<(Party, &[u8]), ReadFault>
    ensures { Gives (λ x. (x.0, x.1.now)) result (a_server_at bytes.now) }
{
    let (id, rest) = match server_of(bytes) {
        Ok(read) => read,
        Err(fault) => return Err(fault),
    };
    Ok((Party::Server(id), rest))
}

#[tactic(auto, unfolding(crate::specs::Reading::party_at))]
pub fn party_of(bytes: &[u8]) -> Result<(Party, &[u8]), ReadFault>
    ensures { Gives (λ x. (x.0, x.1.now)) result (party_at bytes.now) }
{
    match bytes {
        [] => Err(ReadFault::Bad(WireFault::Truncated)),
        [0, rest @ ..] => Ok((Party::Master, rest)),
        [1, rest @ ..] => Ok((Party::Clients, rest)),
        [2, rest @ ..] => a_server_of(rest),
        [_, ..] => Err(ReadFault::Bad(WireFault::BadTag)),
    }
}

#[tactic(auto, unfolding(crate::specs::Reading::piece_number_at))]
pub fn piece_number_of(bytes: &[u8]) -> Result<(PieceNumber, &[u8]), ReadFault>
    ensures { Gives (λ x. (x.0, x.1.now)) result (piece_number_at bytes.now) }
{
    let (message, rest) = u64_of(bytes)?;
    let (index, rest) = u64_of(rest)?;
    Ok((PieceNumber { message, index }, rest))
}

#[tactic(auto, unfolding(crate::specs::Reading::piece_at))]
pub fn piece_of(alloc: Global, bytes: &[u8]) -> Result<(Piece, &[u8]), ReadFault>
    ensures { Gives (λ x. (x.0, x.1.now)) result (piece_at bytes.now) }
{
    let (run, rest) = run_of(bytes)?;
    let copy = match run.to_vec(alloc) {
        Ok(copy) => copy,
        Err(_) => return Err(ReadFault::NoMemory),
    };
    match Piece::new(copy) {
        Some(piece) => Ok((piece, rest)),
        None => Err(ReadFault::Bad(WireFault::BadNumber)),
    }
}

//! The next piece for a party, told as a frame.
ghost use Rattle.std.specs.Prelude.{◌≡◌, ◌+◌, ◌≤◌, ◌++◌, List, ℕ, [], length, is_some, true, Err, IfOk, OnOk, OnErr, IfSome, IfNone};
ghost use Rattle.cq_base.specs.declared.party.Party as rust_party;
ghost use Rattle.cq_base.specs.Relations.{IsPrefix};
ghost use Rattle.cq_chain.specs.Stands.{Keeps};
ghost use Rattle.cq_frames.specs.declared.response.Response.TheVariants as responses;
ghost use Rattle.cq_process.specs.Links.{ChangesOnly, end_of};
ghost use Rattle.cq_process_frames.specs.declared.front.TheConstants.{FRONT_LIMIT};
ghost use Rattle.cq_process_frames.specs.declared.put.Unput.TheVariants as unputs;
ghost use Rattle.cq_process_frames.specs.Frames.{PutsFrame, frame, front, told_of};

use crate::front::{put_front, seal};
use cq_base::Party;
use cq_chain::Server;
use cq_frames::PieceNumber;
use cq_process::{Links, PutFault, Written};
use thiserror::Error;

/// Why no piece was looked for, or none could be told.
#[derive(Clone, Copy, Debug, PartialEq, Eq, Error)]
pub enum Unput {
    /// There is no memory for a frame. Nothing is changed.
    #[error("out of memory")]
    NoMemory,
    /// A piece has more bytes than a frame may bear: the process has to end. No message of a server is so long, though the types of
    /// messages don't say so.
    #[error("a piece is too long")]
    TooLong,
}

/// The number under which a piece was written, if one was.
fn number_of(written: &Result<Written, PutFault>) -> Option<PieceNumber>
    ensures some { (to : rust_party.Party) (piece : List ℕ) → IfSome result (λ number. told_of to written.now piece ≡ frame (responses.Put to number piece)) }
    ensures none { (to : rust_party.Party) (piece : List ℕ) → IfNone result (told_of to written.now piece ≡ []) }
{
    match written {
        Ok(Written::Nothing) => None,
        Ok(Written::Piece { number }) => Some(*number),
        Ok(Written::Message { number }) => Some(*number),
        Err(_) => None,
    }
}

/// Makes a frame of what was written behind the front, or cuts the bytes back where nothing was.
fn tell(
    written: Result<Written, PutFault>,
    out: &mut Vec<u8>,
    start: usize,
    body: usize,
) -> Result<Result<Written, PutFault>, Unput>
    requires order { start + 24 ≤ body }
    requires short { body ≤ start + FRONT_LIMIT }
    requires within { body ≤ length out.old.items }
    ensures same { IfOk result (λ told. told ≡ written) }
    ensures told { (old piece : List ℕ) (to : rust_party.Party) → out.old.items ≡ (old ++ front to) ++ piece → length old ≡ start
        → start + length (front to) ≡ body → OnOk result (out.new.items ≡ old ++ told_of to written piece) }
    ensures err { OnErr result (out.new.items ≡ out.old.items) }
    ensures memory { result ≡ Err unputs.NoMemory → ⊥ }
{
    match number_of(&written) {
        Some(number) => match seal(out, start, body, number) {
            Ok(()) => Ok(written),
            Err(_) => Err(Unput::TooLong),
        },
        None => {
            out.truncate(start);
            Ok(written)
        }
    }
}

/// The next piece is written behind its front, which begins at `start`, and told.
fn put_behind(
    links: &mut Links,
    core: &mut Server,
    to: Party,
    out: &mut Vec<u8>,
    start: usize,
    enough: usize,
) -> Result<Result<Written, PutFault>, Unput>
    requires open { is_some (end_of links.old.outgoing to) ≡ true }
    requires begins { start + length (front to) ≡ length out.old.items }
    ensures puts { (old : List ℕ) → out.old.items ≡ old ++ front to
        → IfOk result (PutsFrame links.old.outgoing links.new.outgoing core.old core.new to old out.new.items) }
    ensures err { OnErr result (IsPrefix out.old.items out.new.items) }
    ensures memory { result ≡ Err unputs.NoMemory → ⊥ }
    ensures others { ChangesOnly links.old.outgoing links.new.outgoing to }
    ensures incoming { links.new.incoming ≡ links.old.incoming }
    ensures gone { links.new.gone ≡ links.old.gone }
{
    let body = out.len();
    let written = links.put_next(core, to, out, enough);
    tell(written, out, start, body)
}

/// Writes the next piece for the party, to which the link is open, as a frame behind the bytes: as `Links::put_next` does. It copies
/// nothing. Where no piece is written, the bytes are as before; where it is too long, they have no more than a front of a frame behind
/// them that has to be cut off.
pub fn put_piece(
    links: &mut Links,
    core: &mut Server,
    to: Party,
    out: &mut Vec<u8>,
    enough: usize,
) -> Result<Result<Written, PutFault>, Unput>
    requires { is_some (end_of links.old.outgoing to) ≡ true }
    ensures puts { IfOk result (PutsFrame links.old.outgoing links.new.outgoing core.old core.new to out.old.items out.new.items) }
    ensures no_memory { result ≡ Err unputs.NoMemory → Keeps core.old core.new × ((links.new.outgoing ≡ links.old.outgoing) × (out.new.items ≡ out.old.items)) }
    ensures err { OnErr result (IsPrefix out.old.items out.new.items) }
    ensures others { ChangesOnly links.old.outgoing links.new.outgoing to }
    ensures incoming { links.new.incoming ≡ links.old.incoming }
    ensures gone { links.new.gone ≡ links.old.gone }
{
    let start = out.len();
    match put_front(out, &to) {
        Ok(()) => put_behind(links, core, to, out, start, enough),
        Err(_) => Err(Unput::NoMemory),
    }
}

//! The next message for a party, put and told.
ghost use Rattle.std.specs.Prelude.{◌≡◌, is_some, true, OnErr, IfOk};
ghost use Rattle.cq_base.specs.Relations.{IsPrefix};
ghost use Rattle.cq_process.specs.Links.{ChangesOnly, end_of};
ghost use Rattle.cq_server_process.specs.Turns.{Tells, TellsAt, at, stop_of};

use crate::turn::Stop;
use cq_base::Party;
use cq_chain::Server;
use cq_process::{Links, PutFault, Written};
use cq_process_frames::{TooLong, Unput, put_piece};

/// How many bytes are enough of a snapshot's piece.
const ENOUGH: usize = 262_144;

/// More bytes than any piece has with what stands before it in its frame: a plain message has at most ten deliveries of 262,144 bytes,
/// and a snapshot's piece `ENOUGH` and one part of its store.
const PIECE_ROOM: usize = 3_000_000;

/// How a turn stops by what was written; a whole message stops none.
fn stop_of(written: &Result<Written, PutFault>) -> Option<Stop>
    ensures { result ≡ stop_of written.now }
{
    match written {
        Ok(Written::Nothing) => Some(Stop::Empty),
        Ok(Written::Piece { number: _ }) => Some(Stop::Begun),
        Ok(Written::Message { number: _ }) => None,
        Err(PutFault::NumbersSpent) => Some(Stop::Spent),
        Err(PutFault::NoMemory) => Some(Stop::NoMemory),
    }
}

/// The next piece for the party is written at an open link.
fn send_at(
    links: &mut Links,
    core: &mut Server,
    to: Party,
    out: &mut Vec<u8>,
) -> Result<Option<Stop>, TooLong>
    requires open { is_some (end_of links.old.outgoing to) ≡ true }
    ensures tells { IfOk result (λ stop. TellsAt to (at links.old core.old) (at links.new core.new) stop out.old.items out.new.items) }
    ensures err { OnErr result (IsPrefix out.old.items out.new.items) }
    ensures others { ChangesOnly links.old.outgoing links.new.outgoing to }
    ensures incoming { links.new.incoming ≡ links.old.incoming }
    ensures gone { links.new.gone ≡ links.old.gone }
{
    match put_piece(links, core, to, out, ENOUGH) {
        Ok(written) => Ok(stop_of(&written)),
        Err(Unput::NoMemory) => Ok(Some(Stop::NoMemory)),
        Err(Unput::TooLong) => Err(TooLong),
    }
}

/// Makes room for any piece, and answers whether it is there.
fn make_room(out: &mut Vec<u8>) -> bool
    ensures { out.new.items ≡ out.old.items }
{
    out.reserve(PIECE_ROOM).is_ok()
}

/// The next piece for the party is written and told, at a link that is opened for it.
fn send_in_room(
    links: &mut Links,
    core: &mut Server,
    to: &Party,
    out: &mut Vec<u8>,
) -> Result<Option<Stop>, TooLong>
    ensures tells { IfOk result (λ stop. Tells to.now (at links.old core.old) (at links.new core.new) stop out.old.items out.new.items) }
    ensures err { OnErr result (IsPrefix out.old.items out.new.items) }
    ensures incoming { links.new.incoming ≡ links.old.incoming }
    ensures gone { links.new.gone ≡ links.old.gone }
{
    let party = *to;
    match links.open(party) {
        Ok(()) => {
            let party = *to;
            send_at(links, core, party, out)
        }
        Err(_) => Ok(Some(Stop::NoMemory)),
    }
}

/// The next piece for the party is written and told, at a link that is opened for it. None where that put a whole message; else
/// why no other one is put. Room for a piece is made first: where there is none, the message waits on in the server's outbox, so that
/// each later turn tries it again.
pub fn send(
    links: &mut Links,
    core: &mut Server,
    to: &Party,
    out: &mut Vec<u8>,
) -> Result<Option<Stop>, TooLong>
    ensures tells { IfOk result (λ stop. Tells to.now (at links.old core.old) (at links.new core.new) stop out.old.items out.new.items) }
    ensures err { OnErr result (IsPrefix out.old.items out.new.items) }
    ensures incoming { links.new.incoming ≡ links.old.incoming }
    ensures gone { links.new.gone ≡ links.old.gone }
{
    if make_room(out) {
        send_in_room(links, core, to, out)
    } else {
        Ok(Some(Stop::NoMemory))
    }
}

//! The turn of a party: what waits for it is put and told.
ghost use Rattle.std.specs.Prelude.{◌≡◌, true, false, OnErr, IfOk};
ghost use Rattle.cq_base.specs.Relations.{IsPrefix};
ghost use Rattle.cq_process.specs.Links.{is_gone};
ghost use Rattle.cq_server_process.specs.Turns.{IsSeen, TellsOf, TellsStep, TellsTurn, ThrowsFor, at};

use crate::send::send;
use cq_base::Party;
use cq_chain::Server;
use cq_chain_wire::is_plain;
use cq_process::{LINK_LIMIT, Links};
use cq_process_frames::TooLong;

/// Why no more is put for a party in its turn.
#[derive(Clone, Copy, Debug, PartialEq, Eq)]
pub enum Stop {
    /// Nothing waits for it.
    Empty,
    /// A snapshot is next, or begun: each of its pieces is put when it is asked for.
    Long,
    /// A piece was put of which more are left.
    Begun,
    /// There is no memory for the next piece.
    NoMemory,
    /// Its link has no number left.
    Spent,
    /// It is gone: what waited was thrown away.
    Gone,
}

/// Whether the turn stops before the next message: nothing waits, or a snapshot does.
fn look(links: &Links, core: &Server, to: &Party) -> Option<Stop>
    ensures { IsSeen to.now (at links.now core.now) result }
{
    if links.is_held(to) {
        return Some(Stop::Long);
    }
    let party = *to;
    match core.first_for(party) {
        None => Some(Stop::Empty),
        Some(message) => {
            if is_plain(message) {
                None
            } else {
                Some(Stop::Long)
            }
        }
    }
}

/// The turn stops, or the next message is put and told.
fn step(
    links: &mut Links,
    core: &mut Server,
    to: &Party,
    out: &mut Vec<u8>,
) -> Result<Option<Stop>, TooLong>
    ensures tells { IfOk result (λ stop. TellsStep to.now (at links.old core.old) (at links.new core.new) stop out.old.items out.new.items) }
    ensures err { OnErr result (IsPrefix out.old.items out.new.items) }
    ensures incoming { links.new.incoming ≡ links.old.incoming }
    ensures gone { links.new.gone ≡ links.old.gone }
{
    match look(links, core, to) {
        Some(stop) => Ok(Some(stop)),
        None => send(links, core, to, out),
    }
}

/// The turn of a party that isn't gone.
fn put_all(
    links: &mut Links,
    core: &mut Server,
    to: &Party,
    out: &mut Vec<u8>,
) -> Result<Stop, TooLong>
    ensures tells { IfOk result (λ stop. TellsTurn to.now (at links.old core.old) (at links.new core.new) stop out.old.items out.new.items) }
    ensures err { OnErr result (IsPrefix out.old.items out.new.items) }
    ensures incoming { links.new.incoming ≡ links.old.incoming }
    ensures gone { links.new.gone ≡ links.old.gone }
{
    for _ in 0..LINK_LIMIT {
        match step(links, core, to, out) {
            Ok(None) => (),
            Ok(Some(stop)) => return Ok(stop),
            Err(fault) => return Err(fault),
        }
    }
    Err(TooLong)
}

/// What waits for a party that is gone is put and thrown away.
fn throw(links: &mut Links, core: &mut Server, to: &Party) -> Stop
    ensures throws { ThrowsFor to.now (at links.old core.old) (at links.new core.new) result }
    ensures incoming { links.new.incoming ≡ links.old.incoming }
    ensures gone { links.new.gone ≡ links.old.gone }
{
    let party = *to;
    if links.open(party).is_err() {
        return Stop::NoMemory;
    }
    let party = *to;
    match links.throw_all(core, party) {
        Ok(()) => Stop::Gone,
        Err(_) => Stop::Spent,
    }
}

/// The turn of a party: what waits for it is put and told, a message at a time, until nothing waits, a snapshot is next, or there is
/// no memory. What waits for one that is gone is thrown away. O(messages), and what writing them takes.
///
/// `TooLong` comes where a piece is too long for a frame, and the process has to end.
pub fn turn(
    links: &mut Links,
    core: &mut Server,
    to: &Party,
    out: &mut Vec<u8>,
) -> Result<Stop, TooLong>
    ensures tells { IfOk result (λ stop. TellsOf links.old.gone.keys to.now (at links.old core.old) (at links.new core.new) stop out.old.items out.new.items) }
    ensures err { OnErr result (IsPrefix out.old.items out.new.items) }
    ensures incoming { links.new.incoming ≡ links.old.incoming }
    ensures gone { links.new.gone ≡ links.old.gone }
{
    if links.is_gone(to) {
        return Ok(throw(links, core, to));
    }
    put_all(links, core, to, out)
}

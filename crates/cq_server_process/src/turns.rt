//! The turns of all parties: clients first, then the master, then servers in the order of their numbers.
ghost use Rattle.std.specs.Prelude.{◌≡◌, OnErr, IfOk};
ghost use Rattle.cq_base.specs.Relations.{IsPrefix};
ghost use Rattle.cq_server_process.specs.Rounds.{TellsRounds, TellsServers, first_waiting};
ghost use Rattle.cq_server_process.specs.Turns.{at};

use crate::turn::{Stop, turn};
use cq_base::Party;
use cq_chain::Server;
use cq_process::Links;
use cq_process_frames::TooLong;

/// More servers than there are numbers.
const TURN_LIMIT: u64 = 4_294_967_296;

/// The first party for which something waits, behind one turn more.
fn first_waiting(first: Option<Party>, to: Party, stop: Stop) -> Option<Party>
    ensures { result ≡ first_waiting first to stop }
{
    match first {
        Some(first) => Some(first),
        None => match stop {
            Stop::Empty => None,
            Stop::Gone => None,
            _ => Some(to),
        },
    }
}

/// The turns of all servers for which something waits.
fn turns_of_servers(
    links: &mut Links,
    core: &mut Server,
    before: Option<Party>,
    out: &mut Vec<u8>,
) -> Result<Option<Party>, TooLong>
    ensures tells { IfOk result (λ first. TellsServers links.old.gone.keys before (at links.old core.old) (at links.new core.new) first out.old.items out.new.items) }
    ensures err { OnErr result (IsPrefix out.old.items out.new.items) }
    ensures incoming { links.new.incoming ≡ links.old.incoming }
    ensures gone { links.new.gone ≡ links.old.gone }
{
    let mut first = before;
    let mut last = None;
    for _ in 0..TURN_LIMIT {
        let id = match core.next_waiting(last) {
            Some(id) => id,
            None => return Ok(first),
        };
        match turn(links, core, &Party::Server(id), out) {
            Ok(stop) => first = first_waiting(first, Party::Server(id), stop),
            Err(fault) => return Err(fault),
        }
        last = Some(id);
    }
    Err(TooLong)
}

/// All parties have their turns: clients first, then the master, then each server for which something waits, in the order of their
/// numbers. It answers the first party for which something still waits: the one that was given, if one was. O(messages, and servers
/// twice), and what writing the messages takes.
///
/// `TooLong` comes where a piece is too long for a frame, and the process has to end.
pub fn turns(
    links: &mut Links,
    core: &mut Server,
    before: Option<Party>,
    out: &mut Vec<u8>,
) -> Result<Option<Party>, TooLong>
    ensures tells { IfOk result (λ first. TellsRounds links.old.gone.keys before (at links.old core.old) (at links.new core.new) first out.old.items out.new.items) }
    ensures err { OnErr result (IsPrefix out.old.items out.new.items) }
    ensures incoming { links.new.incoming ≡ links.old.incoming }
    ensures gone { links.new.gone ≡ links.old.gone }
{
    let first = match turn(links, core, &Party::Clients, out) {
        Ok(stop) => first_waiting(before, Party::Clients, stop),
        Err(fault) => return Err(fault),
    };
    let first = match turn(links, core, &Party::Master, out) {
        Ok(stop) => first_waiting(first, Party::Master, stop),
        Err(fault) => return Err(fault),
    };
    turns_of_servers(links, core, first, out)
}

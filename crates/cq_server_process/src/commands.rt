//! What comes of a command before the turns.
ghost use Rattle.std.specs.Prelude.{◌≡◌, None, OnOk, IfErr, IfOk, OnErr, Ok, Err};
ghost use Rattle.cq_base.specs.Relations.{IsPrefix};
ghost use Rattle.cq_chain.specs.Refusals.{refusal_of_arrival, refusal_of_query};
ghost use Rattle.cq_events.specs.Actions.{Arrived, Asked};
ghost use Rattle.cq_server_process.specs.Answers.{Beside, GoesAway, IsRefused, Leaves, Stays, Takes, TellsMore, TellsOrRefuses, state, waiting_of};

use crate::send::send;
use crate::turn::Stop;
use cq_base::{Moment, Party, Query, Request, ServerId};
use cq_chain::Server;
use cq_frames::{Command, NO_MEMORY, NOT_HERE, PieceNumber};
use cq_process::{Links, PutFault, arrive, ask};
use cq_process_frames::TooLong;

/// What comes of a command: nothing but the fault of that number, or the party for which something waits, if there is one.
pub type Happened = Result<Option<Party>, u32>;

/// A request arrives.
fn arrive_at(links: &Links, core: &mut Server, clock: Moment, request: &Request) -> Result<(), u32>
    ensures ok { OnOk result (Beside (Arrived clock request.now) (state links.now core.old) (state links.now core.new)) }
    ensures err { IfErr result (λ code. IsRefused refusal_of_arrival code (state links.now core.old) (state links.now core.new)) }
{
    let _links = links;
    match arrive(core, request, clock) {
        Ok(()) => Ok(()),
        Err(fault) => Err(u32::from(fault.code())),
    }
}

/// A query is asked.
fn ask_at(links: &Links, core: &mut Server, query: &Query) -> Result<(), u32>
    ensures ok { OnOk result (Beside (Asked query.now) (state links.now core.old) (state links.now core.new)) }
    ensures err { IfErr result (λ code. IsRefused refusal_of_query code (state links.now core.old) (state links.now core.new)) }
{
    let _links = links;
    match ask(core, query) {
        Ok(()) => Ok(()),
        Err(fault) => Err(u32::from(fault.code())),
    }
}

/// A piece comes from a party.
fn take_at(
    links: &mut Links,
    core: &mut Server,
    from: Party,
    number: PieceNumber,
    piece: &[u8],
) -> Result<(), u32>
    ensures ok { OnOk result (Takes from number piece.now (state links.old core.old) (state links.new core.new)) }
    ensures err { IfErr result (λ code. Leaves from number piece.now code (state links.old core.old) (state links.new core.new)) }
{
    match links.take(core, from, number, piece) {
        Ok(_) => Ok(()),
        Err(fault) => Err(u32::from(fault.code())),
    }
}

/// A server is gone.
fn gone_at(links: &mut Links, core: &mut Server, server: ServerId) -> Result<(), u32>
    ensures ok { OnOk result (GoesAway server (state links.old core.old) (state links.new core.new)) }
    ensures err { IfErr result (λ code. Stays code (state links.old core.old) (state links.new core.new)) }
{
    match links.gone(core, server) {
        Ok(()) => Ok(()),
        Err(PutFault::NumbersSpent) => Ok(()),
        Err(PutFault::NoMemory) => Err(NO_MEMORY),
    }
}

/// The party, where something still waits for it.
fn waiting_of(to: &Party, stop: Option<Stop>) -> Option<Party>
    ensures { result ≡ waiting_of to.now stop }
{
    match stop {
        None => None,
        Some(Stop::Empty) => None,
        Some(Stop::Gone) => None,
        Some(_) => Some(*to),
    }
}

/// The next piece for a party is sent, a snapshot's too.
fn more_at(
    links: &mut Links,
    core: &mut Server,
    to: &Party,
    out: &mut Vec<u8>,
) -> Result<Option<Party>, TooLong>
    ensures tells { IfOk result (λ before. TellsMore to.now (state links.old core.old) (state links.new core.new) before out.old.items out.new.items) }
    ensures err { OnErr result (IsPrefix out.old.items out.new.items) }
{
    if links.is_gone(to) {
        return Ok(None);
    }
    match send(links, core, to, out) {
        Ok(stop) => Ok(waiting_of(to, stop)),
        Err(fault) => Err(fault),
    }
}

/// What happened quietly, as an answer.
fn quietly(happened: Result<(), u32>) -> Result<Option<Party>, u32>
    ensures ok { IfOk happened (λ _. result ≡ Ok None) }
    ensures err { IfErr happened (λ code. result ≡ Err code) }
{
    match happened {
        Ok(()) => Ok(None),
        Err(code) => Err(code),
    }
}

/// What comes of a command before the turns.
///
/// `TooLong` comes where a piece is too long for a frame, and the process has to end.
pub fn happen(
    links: &mut Links,
    core: &mut Server,
    command: &Command,
    out: &mut Vec<u8>,
) -> Result<Happened, TooLong>
    ensures tells { IfOk result (λ happened. TellsOrRefuses command.now (state links.old core.old) (state links.new core.new) happened out.old.items out.new.items) }
    ensures err { OnErr result (IsPrefix out.old.items out.new.items) }
{
    match command {
        Command::Arrive {
            stream: _,
            clock,
            request,
        } => Ok(quietly(arrive_at(links, core, *clock, request))),
        Command::Ask { query } => Ok(quietly(ask_at(links, core, query))),
        Command::Take {
            from,
            number,
            piece,
        } => Ok(quietly(take_at(links, core, *from, *number, piece.as_bytes()))),
        Command::Gone { server } => Ok(quietly(gone_at(links, core, *server))),
        Command::More { to } => match more_at(links, core, to, out) {
            Ok(before) => Ok(Ok(before)),
            Err(fault) => Err(fault),
        },
        _ => Ok(Err(NOT_HERE)),
    }
}

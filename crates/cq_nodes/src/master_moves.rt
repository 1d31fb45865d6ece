//! What the master's node does at one end of a link, or by its core alone, in one step.
ghost use Rattle.std.specs.Prelude.{◌≡◌, ◌≤◌, ℕ, ◌+◌, length, ◌++◌, map, None, true, false, Ok, Option, List, OnOk, OnErr};
ghost use Rattle.cq_base.specs.declared.party.Party as rust_party;
ghost use Rattle.cq_base.specs.declared.party.Party.TheVariants as parties;
ghost use Rattle.cq_chain.specs.declared.message.Message as rust_message;
ghost use Rattle.cq_chain.specs.Masters as masters;
ghost use Rattle.cq_chain.specs.Messages as sent;
ghost use Rattle.cq_chain.specs.Stands.{KeepsMaster, MasterStandsFor};
ghost use Rattle.cq_events.specs.Acts.{ActsMaster};
ghost use Rattle.cq_nodes.specs.Ends.{listed, unread_in};
ghost use Rattle.cq_nodes.specs.Turns.{faults_of};
ghost use Rattle.cq_nodes.specs.Moves.{waits, ArePut, AreTaken};
ghost use Rattle.cq_nodes.specs.MasterMoves.{PassesFor, PutsOneFor, TakesOneOf, ReadsOf, back_of_servers, PutsFor, TakesOf};
ghost use Rattle.cq_events.specs.Actions.{IsMasterAs, Keeps, Detected, Joined};

use crate::ends::{In, Out};
use crate::moves::{is_there, next_message};
use cq_base::{NoMemory, ServerId};
use cq_chain::{Master, Message, WorldFault};
use cq_link::{PutEnd, TakeEnd};
use std::sync::Wait;

/// The message that was handed back, which then isn't kept any more, or else the first that waits in the core's outbox.
fn first_message(core: &mut Master, to: ServerId, kept: &mut Option<Message>) -> Option<Message>
    ensures passes { (back : rust_party.Party → Option rust_message.Message) → back (parties.Server to) ≡ kept.old
        → PassesFor core.old core.new back to result }
    ensures kept { kept.new ≡ None }
{
    if kept.is_some() {
        kept.take()
    } else {
        core.put(to)
    }
}

/// Whether something waits for a server: a message that was handed back, or one in the core's outbox. Nothing is moved.
fn has_for(core: &Master, to: ServerId, kept: &Option<Message>) -> bool
    ensures { (m : masters.Master) (outbox : rust_party.Party → List sent.Message) → MasterStandsFor core.now m outbox
        → result ≡ waits kept.now (outbox (parties.Server to)) }
{
    kept.is_some() || core.waiting(to) > 0
}

/// Puts the first message for a server on its link: false where there is none or the link is full.
fn put_first<R: Wait, P: PutEnd<Message> + Drop>(
    rt: &R,
    core: &mut Master,
    to: ServerId,
    out: &mut Out<P>,
) -> bool
    ensures link { P.link out.new.end ≡ P.link out.old.end }
    ensures put { (back : rust_party.Party → Option rust_message.Message) → back (parties.Server to) ≡ out.old.kept → result ≡ true
        → PutsOneFor core.old core.new back to out.new.kept (P.list out.old.end) (P.list out.new.end) }
    ensures unchanged { result ≡ false → P.list out.new.end ≡ P.list out.old.end }
    ensures idle { (back : rust_party.Party → Option rust_message.Message) → back (parties.Server to) ≡ out.old.kept → result ≡ false
        → PassesFor core.old core.new back to out.new.kept }
{
    match first_message(core, to, &mut out.kept) {
        Some(message) => match out.end.put(rt, message) {
            Ok(()) => true,
            Err(full) => {
                out.kept = Some(full.0);
                false
            }
        },
        None => false,
    }
}

/// The same, after a look at whether something waits.
fn put_one<R: Wait, P: PutEnd<Message> + Drop>(
    rt: &R,
    core: &mut Master,
    to: ServerId,
    out: &mut Out<P>,
) -> bool
    ensures link { P.link out.new.end ≡ P.link out.old.end }
    ensures put { (back : rust_party.Party → Option rust_message.Message) → back (parties.Server to) ≡ out.old.kept → result ≡ true
        → PutsOneFor core.old core.new back to out.new.kept (P.list out.old.end) (P.list out.new.end) }
    ensures unchanged { result ≡ false → P.list out.new.end ≡ P.list out.old.end }
    ensures idle { (back : rust_party.Party → Option rust_message.Message) → back (parties.Server to) ≡ out.old.kept → result ≡ false
        → PassesFor core.old core.new back to out.new.kept }
{
    if !has_for(core, to, &out.kept) {
        return false;
    }
    put_first(rt, core, to, out)
}

/// Gives the core a message.
fn read(core: &mut Master, from: ServerId, message: &Message) -> Result<(), NoMemory>
    ensures ok { (back : rust_party.Party → Option rust_message.Message)
        → OnOk result (TakesOneOf core.old core.new back from message.now) }
    ensures err { OnErr result (KeepsMaster core.old core.new) }
{
    core.take(from, message)
}

/// Gives the core the next message of a link: false where there is none. One for which there is no memory stays unread.
fn take_first<R: Wait, T: TakeEnd<Message> + Drop>(
    rt: &R,
    core: &mut Master,
    from: ServerId,
    end: &mut In<T>,
) -> Result<bool, NoMemory>
    ensures link { T.link end.new.end ≡ T.link end.old.end }
    ensures taken { (back : rust_party.Party → Option rust_message.Message) (seen : List rust_message.Message)
        → T.list end.old.end ≡ seen ++ listed end.old.unread
        → result ≡ Ok true → ReadsOf core.old core.new back from seen end.new.unread (T.list end.new.end) }
    ensures list { (seen : List rust_message.Message) → T.list end.old.end ≡ seen ++ listed end.old.unread
        → (result ≡ Ok true → ⊥) → T.list end.new.end ≡ seen ++ listed end.new.unread }
    ensures idle { (result ≡ Ok true → ⊥) → KeepsMaster core.old core.new }
    ensures unread { length (listed end.new.unread) ≤ faults_of result }
{
    match next_message(rt, end) {
        Some(message) => match read(core, from, &message) {
            Ok(()) => Ok(true),
            Err(fault) => {
                end.unread = Some(message);
                Err(fault)
            }
        },
        None => Ok(false),
    }
}

/// The same, after a look at whether something is there.
fn take_one<R: Wait, T: TakeEnd<Message> + Drop>(
    rt: &R,
    core: &mut Master,
    from: ServerId,
    end: &mut In<T>,
) -> Result<bool, NoMemory>
    ensures link { T.link end.new.end ≡ T.link end.old.end }
    ensures taken { (back : rust_party.Party → Option rust_message.Message) (seen : List rust_message.Message)
        → T.list end.old.end ≡ seen ++ listed end.old.unread
        → result ≡ Ok true → ReadsOf core.old core.new back from seen end.new.unread (T.list end.new.end) }
    ensures list { (seen : List rust_message.Message) → T.list end.old.end ≡ seen ++ listed end.old.unread
        → (result ≡ Ok true → ⊥) → T.list end.new.end ≡ seen ++ listed end.new.unread }
    ensures idle { (result ≡ Ok true → ⊥) → KeepsMaster core.old core.new }
    ensures unread { length (listed end.new.unread) ≤ length (listed end.old.unread) + faults_of result }
{
    if !is_there(end) {
        return Ok(false);
    }
    take_first(rt, core, from, end)
}

/// The place of the ends to and from a server.
fn place_of(id: ServerId) -> usize
    ensures { result + 1 ≡ id }
{
    (id.get() - 1) as usize
}

/// Puts the first message for a server on its link: false where there is none, or no link to that server, or the link is
/// full.
pub fn put_at<R: Wait, P: PutEnd<Message> + Drop>(
    rt: &R,
    core: &mut Master,
    outs: &mut Vec<Out<P>>,
    to: ServerId,
) -> bool
    ensures links { map P.link (map (λ out. out.end) outs.new.items) ≡ map P.link (map (λ out. out.end) outs.old.items) }
    ensures put { (sent : ℕ → List rust_message.Message)
        → ArePut P.list outs.old.items sent → result ≡ true
        → PutsFor P.list core.old core.new outs.old.items outs.new.items sent to }
    ensures idle { result ≡ false
        → Keeps IsMasterAs (record { core = core.old; back = back_of_servers outs.old.items }) (record { core = core.new; back = back_of_servers outs.new.items }) }
    ensures lists { (sent : ℕ → List rust_message.Message)
        → ArePut P.list outs.old.items sent → result ≡ false → ArePut P.list outs.new.items sent }
{
    match outs.get_mut(place_of(to)) {
        Some(out) => put_one(rt, core, to, out),
        None => false,
    }
}

/// Gives the core the next message of a server: false where there is none, or no link from that server. One for which
/// there is no memory stays unread.
pub fn take_at<R: Wait, T: TakeEnd<Message> + Drop>(
    rt: &R,
    core: &mut Master,
    ins: &mut Vec<In<T>>,
    from: ServerId,
) -> Result<bool, NoMemory>
    ensures links { map T.link (map (λ end. end.end) ins.new.items) ≡ map T.link (map (λ end. end.end) ins.old.items) }
    ensures taken { (back : rust_party.Party → Option rust_message.Message) (seen : ℕ → List rust_message.Message)
        → AreTaken T.list ins.old.items seen → result ≡ Ok true
        → TakesOf T.list core.old core.new back ins.new.items seen from }
    ensures lists { (seen : ℕ → List rust_message.Message)
        → AreTaken T.list ins.old.items seen → (result ≡ Ok true → ⊥) → AreTaken T.list ins.new.items seen }
    ensures idle { (result ≡ Ok true → ⊥) → KeepsMaster core.old core.new }
    ensures unread { unread_in ins.new.items ≤ unread_in ins.old.items + faults_of result }
{
    match ins.get_mut(place_of(from)) {
        Some(end) => take_one(rt, core, from, end),
        None => Ok(false),
    }
}

/// The core learns that a member has crashed: false where it refuses, as it isn't one or is the only one.
pub fn detect_one(core: &mut Master, id: ServerId) -> Result<bool, NoMemory>
    ensures detected { (back : rust_party.Party → Option rust_message.Message) → result ≡ Ok true
        → ActsMaster (Detected id) (record { core = core.old; back = back }) (record { core = core.new; back = back }) }
    ensures idle { (result ≡ Ok true → ⊥) → KeepsMaster core.old core.new }
{
    match core.detect(id) {
        Ok(()) => Ok(true),
        Err(WorldFault::NoMemory) => Err(NoMemory),
        Err(_) => Ok(false),
    }
}

/// A server joins the core's chain: false where the core refuses.
pub fn join_one(core: &mut Master, id: ServerId) -> Result<bool, NoMemory>
    ensures joined { (back : rust_party.Party → Option rust_message.Message) → result ≡ Ok true
        → ActsMaster (Joined id) (record { core = core.old; back = back }) (record { core = core.new; back = back }) }
    ensures idle { (result ≡ Ok true → ⊥) → KeepsMaster core.old core.new }
{
    match core.join(id) {
        Ok(()) => Ok(true),
        Err(WorldFault::NoMemory) => Err(NoMemory),
        Err(_) => Ok(false),
    }
}

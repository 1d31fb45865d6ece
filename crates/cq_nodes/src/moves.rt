//! What a server's node does at one end of a link, in one step.
ghost use Rattle.std.specs.Prelude.{◌≡◌, ◌≤◌, ◌+◌, ℕ, length, ◌++◌, map, None, true, false, Ok, Option, List, IfErr, OnOk, OnErr};
ghost use Rattle.cq_base.specs.declared.party.Party as rust_party;
ghost use Rattle.cq_chain.specs.declared.message.Message as rust_message;
ghost use Rattle.cq_chain.specs.Messages as sent;
ghost use Rattle.cq_chain.specs.Servers as states;
ghost use Rattle.cq_chain.specs.Stands.{Keeps, StandsFor};
ghost use Rattle.cq_nodes.specs.Ends.{listed, back_of, ends_of, in_ends_of, unread_in};
ghost use Rattle.cq_nodes.specs.Turns.{faults_of};
ghost use Rattle.cq_events.specs.Actions.{StandsAs, Keeps as RemainingKept};
ghost use Rattle.cq_nodes.specs.Moves.{waits, Passes, PutsOne, TakesOne, Reads, ArePut, PutsAt, AreTaken, TakesAt};

use crate::ends::{In, Out, party_at};
use cq_base::Party;
use cq_chain::{Message, Server, Untaken, WorldFault};
use cq_link::{PutEnd, TakeEnd};
use std::sync::Wait;

/// The message that was handed back, which then isn't kept any more, or else the first that waits in the core's outbox.
pub fn first_message(core: &mut Server, to: Party, kept: &mut Option<Message>) -> Option<Message>
    ensures passes { (back : rust_party.Party → Option rust_message.Message) → back to ≡ kept.old
        → Passes core.old core.new back to result }
    ensures kept { kept.new ≡ None }
{
    if kept.is_some() {
        kept.take()
    } else {
        core.put(to)
    }
}

/// Whether something waits for a party: a message that was handed back, or one in the core's outbox. Nothing is moved.
pub fn has_for(core: &Server, to: Party, kept: &Option<Message>) -> bool
    ensures { (s : states.Server) (outbox : rust_party.Party → List sent.Message) → StandsFor core.now s outbox
        → result ≡ waits kept.now (outbox to) }
{
    kept.is_some() || core.waiting(to) > 0
}

/// Puts the first message for a party on its link: false where there is none or the link is full.
fn put_first<R: Wait, P: PutEnd<Message> + Drop>(
    rt: &R,
    core: &mut Server,
    to: Party,
    out: &mut Out<P>,
) -> bool
    ensures link { P.link out.new.end ≡ P.link out.old.end }
    ensures put { (back : rust_party.Party → Option rust_message.Message) → back to ≡ out.old.kept → result ≡ true
        → PutsOne core.old core.new back to out.new.kept (P.list out.old.end) (P.list out.new.end) }
    ensures unchanged { result ≡ false → P.list out.new.end ≡ P.list out.old.end }
    ensures idle { (back : rust_party.Party → Option rust_message.Message) → back to ≡ out.old.kept → result ≡ false
        → Passes core.old core.new back to out.new.kept }
{
    match first_message(core, to, &mut out.kept) {
        Some(message) => match out.end.put(rt, message) {
            Ok(()) => true,
            Err(full) => {
                out.kept = Some(full.0);
                false
            }
        },
        None => false,
    }
}

/// The same, after a look at whether something waits.
pub fn put_one<R: Wait, P: PutEnd<Message> + Drop>(
    rt: &R,
    core: &mut Server,
    to: Party,
    out: &mut Out<P>,
) -> bool
    ensures link { P.link out.new.end ≡ P.link out.old.end }
    ensures put { (back : rust_party.Party → Option rust_message.Message) → back to ≡ out.old.kept → result ≡ true
        → PutsOne core.old core.new back to out.new.kept (P.list out.old.end) (P.list out.new.end) }
    ensures unchanged { result ≡ false → P.list out.new.end ≡ P.list out.old.end }
    ensures idle { (back : rust_party.Party → Option rust_message.Message) → back to ≡ out.old.kept → result ≡ false
        → Passes core.old core.new back to out.new.kept }
{
    let party = to;
    if !has_for(core, party, &out.kept) {
        return false;
    }
    put_first(rt, core, to, out)
}

/// Whether a message has a store, which would be copied where it is lent.
fn has_store(message: &Message) -> bool {
    matches!(message, Message::Snap { .. })
}

/// Hands the core a message over, which comes back where it isn't taken.
fn hand_over(core: &mut Server, from: Party, message: Message) -> Result<(), Untaken>
    ensures ok { (back : rust_party.Party → Option rust_message.Message)
        → OnOk result (TakesOne core.old core.new back from message) }
    ensures err { OnErr result (Keeps core.old core.new) }
    ensures back { IfErr result (λ untaken. untaken.message ≡ message) }
{
    core.take_owned(from, message)
}

/// Lends the core a message, which comes back where it isn't taken.
fn lend(core: &mut Server, from: Party, message: Message) -> Result<(), Untaken>
    ensures ok { (back : rust_party.Party → Option rust_message.Message)
        → OnOk result (TakesOne core.old core.new back from message) }
    ensures err { OnErr result (Keeps core.old core.new) }
    ensures back { IfErr result (λ untaken. untaken.message ≡ message) }
{
    match core.take(from, &message) {
        Ok(()) => Ok(()),
        Err(fault) => Err(Untaken { message, fault }),
    }
}

/// Gives the core a message, which comes back where it isn't taken. To lend it moves fewer bytes than to hand it over.
fn read(core: &mut Server, from: Party, message: Message) -> Result<(), Untaken>
    ensures ok { (back : rust_party.Party → Option rust_message.Message)
        → OnOk result (TakesOne core.old core.new back from message) }
    ensures err { OnErr result (Keeps core.old core.new) }
    ensures back { IfErr result (λ untaken. untaken.message ≡ message) }
{
    if has_store(&message) {
        hand_over(core, from, message)
    } else {
        lend(core, from, message)
    }
}

/// The message that was taken but not read, or else the next one of the link.
pub fn next_message<R: Wait, T: TakeEnd<Message> + Drop>(rt: &R, end: &mut In<T>) -> Option<Message>
    ensures link { T.link end.new.end ≡ T.link end.old.end }
    ensures unread { end.new.unread ≡ None }
    ensures list { (seen : List rust_message.Message) → T.list end.old.end ≡ seen ++ listed end.old.unread
        → T.list end.new.end ≡ seen ++ listed result }
{
    if end.unread.is_some() {
        end.unread.take()
    } else {
        end.end.take(rt)
    }
}

/// Whether there is something to take: a message that is unread, or one of the link.
pub fn is_there<T: TakeEnd<Message> + Drop>(end: &mut In<T>) -> bool
    ensures link { T.link end.new.end ≡ T.link end.old.end }
    ensures list { T.list end.new.end ≡ T.list end.old.end }
    ensures unread { end.new.unread ≡ end.old.unread }
{
    end.unread.is_some() || !end.end.is_empty()
}

/// Gives the core the next message of a link: false where there is none. One for which the core has no room stays
/// unread.
fn take_first<R: Wait, T: TakeEnd<Message> + Drop>(
    rt: &R,
    core: &mut Server,
    from: Party,
    end: &mut In<T>,
) -> Result<bool, WorldFault>
    ensures link { T.link end.new.end ≡ T.link end.old.end }
    ensures taken { (back : rust_party.Party → Option rust_message.Message) (seen : List rust_message.Message)
        → T.list end.old.end ≡ seen ++ listed end.old.unread
        → result ≡ Ok true → Reads core.old core.new back from seen end.new.unread (T.list end.new.end) }
    ensures list { (seen : List rust_message.Message) → T.list end.old.end ≡ seen ++ listed end.old.unread
        → (result ≡ Ok true → ⊥) → T.list end.new.end ≡ seen ++ listed end.new.unread }
    ensures idle { (result ≡ Ok true → ⊥) → Keeps core.old core.new }
    ensures unread { length (listed end.new.unread) ≤ faults_of result }
{
    match next_message(rt, end) {
        Some(message) => match read(core, from, message) {
            Ok(()) => Ok(true),
            Err(untaken) => {
                end.unread = Some(untaken.message);
                Err(untaken.fault)
            }
        },
        None => Ok(false),
    }
}

/// The same, after a look at whether something is there.
pub fn take_one<R: Wait, T: TakeEnd<Message> + Drop>(
    rt: &R,
    core: &mut Server,
    from: Party,
    end: &mut In<T>,
) -> Result<bool, WorldFault>
    ensures link { T.link end.new.end ≡ T.link end.old.end }
    ensures taken { (back : rust_party.Party → Option rust_message.Message) (seen : List rust_message.Message)
        → T.list end.old.end ≡ seen ++ listed end.old.unread
        → result ≡ Ok true → Reads core.old core.new back from seen end.new.unread (T.list end.new.end) }
    ensures list { (seen : List rust_message.Message) → T.list end.old.end ≡ seen ++ listed end.old.unread
        → (result ≡ Ok true → ⊥) → T.list end.new.end ≡ seen ++ listed end.new.unread }
    ensures idle { (result ≡ Ok true → ⊥) → Keeps core.old core.new }
    ensures unread { length (listed end.new.unread) ≤ length (listed end.old.unread) + faults_of result }
{
    if !is_there(end) {
        return Ok(false);
    }
    take_first(rt, core, from, end)
}

/// Puts the first message for the party at that place on its link: false where there is none, or no such place, or the
/// link is full.
pub fn put_at<R: Wait, P: PutEnd<Message> + Drop>(
    rt: &R,
    core: &mut Server,
    outs: &mut Vec<Out<P>>,
    place: u32,
) -> bool
    ensures links { map P.link (ends_of outs.new.items) ≡ map P.link (ends_of outs.old.items) }
    ensures put { (kept : Option rust_message.Message) (sent : ℕ → List rust_message.Message)
        → ArePut P.list outs.old.items sent → result ≡ true
        → PutsAt P.list core.old core.new outs.old.items outs.new.items kept sent place }
    ensures idle { (kept : Option rust_message.Message) → result ≡ false
        → RemainingKept StandsAs (record { core = core.old; back = back_of outs.old.items kept }) (record { core = core.new; back = back_of outs.new.items kept }) }
    ensures lists { (sent : ℕ → List rust_message.Message)
        → ArePut P.list outs.old.items sent → result ≡ false → ArePut P.list outs.new.items sent }
{
    match outs.get_mut(place as usize) {
        Some(out) => put_one(rt, core, party_at(place), out),
        None => false,
    }
}

/// Gives the core the next message of the party at that place: false where there is none, or no such place. One for which
/// the core has no room stays unread.
pub fn take_at<R: Wait, T: TakeEnd<Message> + Drop>(
    rt: &R,
    core: &mut Server,
    ins: &mut Vec<In<T>>,
    place: u32,
) -> Result<bool, WorldFault>
    ensures links { map T.link (in_ends_of ins.new.items) ≡ map T.link (in_ends_of ins.old.items) }
    ensures taken { (back : rust_party.Party → Option rust_message.Message) (seen : ℕ → List rust_message.Message)
        → AreTaken T.list ins.old.items seen → result ≡ Ok true
        → TakesAt T.list core.old core.new back ins.new.items seen place }
    ensures lists { (seen : ℕ → List rust_message.Message)
        → AreTaken T.list ins.old.items seen → (result ≡ Ok true → ⊥) → AreTaken T.list ins.new.items seen }
    ensures idle { (result ≡ Ok true → ⊥) → Keeps core.old core.new }
    ensures unread { unread_in ins.new.items ≤ unread_in ins.old.items + faults_of result }
{
    match ins.get_mut(place as usize) {
        Some(end) => take_one(rt, core, party_at(place), end),
        None => Ok(false),
    }
}

//! What a server's node does with the answers for the two clients.
ghost use Rattle.std.specs.Prelude.{◌≡◌, ◌++◌, true, false, List, OnOk, IfErr};
ghost use Rattle.cq_chain.specs.declared.message.Message as rust_message;
ghost use Rattle.cq_nodes.specs.declared.ends.Out.{Out};
ghost use Rattle.cq_nodes.specs.Ends.{is_for_second, if_for, back_of};
ghost use Rattle.cq_nodes.specs.Moves.{PutsToOne};
ghost use Rattle.cq_events.specs.Actions.{StandsAs, Keeps as RemainingKept};

use crate::ends::ToClients;
use crate::flags::Flags;
use crate::moves::{first_message, has_for};
use cq_base::Party;
use cq_chain::{Message, Server};
use cq_link::{Full, PutEnd};
use std::sync::Wait;

/// Whether a message goes to the second client. All others go to the first.
fn is_for_second(message: &Message) -> bool
    ensures { result ≡ is_for_second message.now }
{
    match message {
        Message::Answer(answer) => answer.client == 2,
        _ => false,
    }
}

/// Puts a message on the link to the client that it is for.
fn put_for_one<R: Wait, P: PutEnd<Message> + Drop>(
    rt: &R,
    clients: &mut ToClients<P>,
    message: Message,
) -> Result<(), Full<Message>>
    ensures links { (P.link clients.new.first ≡ P.link clients.old.first) × (P.link clients.new.second ≡ P.link clients.old.second) }
    ensures kept { clients.new.kept ≡ clients.old.kept }
    ensures firsts { OnOk result (P.list clients.new.first ≡ P.list clients.old.first ++ if_for false message) }
    ensures seconds { OnOk result (P.list clients.new.second ≡ P.list clients.old.second ++ if_for true message) }
    ensures full { IfErr result (λ full. (full.0 ≡ message) × (P.list clients.new.first ≡ P.list clients.old.first) × (P.list clients.new.second ≡ P.list clients.old.second)) }
{
    if is_for_second(&message) {
        clients.second.put(rt, message)
    } else {
        clients.first.put(rt, message)
    }
}

/// Puts the first message for the clients on the link to the one that it is for, and rings that one's bell: false where
/// there is none or the link is full.
fn put_first<R: Wait, P: PutEnd<Message> + Drop>(
    rt: &R,
    core: &mut Server,
    clients: &mut ToClients<P>,
    flags: &Flags,
) -> bool
    ensures links { (P.link clients.new.first ≡ P.link clients.old.first) × (P.link clients.new.second ≡ P.link clients.old.second) }
    ensures put { (outs : List (Out P)) → result ≡ true → PutsToOne P.list core.old core.new outs clients.old clients.new }
    ensures idle { (outs : List (Out P)) → result ≡ false
        → RemainingKept StandsAs (record { core = core.old; back = back_of outs clients.old.kept }) (record { core = core.new; back = back_of outs clients.new.kept }) }
    ensures lists { result ≡ false → (P.list clients.new.first ≡ P.list clients.old.first) × (P.list clients.new.second ≡ P.list clients.old.second) }
{
    match first_message(core, Party::Clients, &mut clients.kept) {
        Some(message) => {
            let second = is_for_second(&message);
            match put_for_one(rt, clients, message) {
                Ok(()) => {
                    flags.ring_client(second);
                    true
                }
                Err(full) => {
                    clients.kept = Some(full.0);
                    false
                }
            }
        }
        None => false,
    }
}

/// The same, after a look at whether something waits.
pub fn put_to_one<R: Wait, P: PutEnd<Message> + Drop>(
    rt: &R,
    core: &mut Server,
    clients: &mut ToClients<P>,
    flags: &Flags,
) -> bool
    ensures links { (P.link clients.new.first ≡ P.link clients.old.first) × (P.link clients.new.second ≡ P.link clients.old.second) }
    ensures put { (outs : List (Out P)) → result ≡ true → PutsToOne P.list core.old core.new outs clients.old clients.new }
    ensures idle { (outs : List (Out P)) → result ≡ false
        → RemainingKept StandsAs (record { core = core.old; back = back_of outs clients.old.kept }) (record { core = core.new; back = back_of outs clients.new.kept }) }
    ensures lists { result ≡ false → (P.list clients.new.first ≡ P.list clients.old.first) × (P.list clients.new.second ≡ P.list clients.old.second) }
{
    if !has_for(core, Party::Clients, &clients.kept) {
        return false;
    }
    put_first(rt, core, clients, flags)
}

//! What holds of each message, so that it has bytes.
ghost use Rattle.std.specs.Prelude.{◌≡◌, ◌<◌, ◌^◌, true, false};
ghost use Rattle.cq_wire.specs.Limits.{IfThere, IsServer};
ghost use Rattle.cq_chain_wire.specs.Laws.{IsSound};
ghost use Rattle.cq_chain_wire.specs.Limits.{IsAnswer, IsPlain, IsMessage};

use cq_base::ServerId;
use cq_chain::{Answer, Message};
use cq_store_wire::store_fits;
use cq_wire::{entry_fits, reply_fits, server_fits};

/// Whether the message isn't a snapshot: O(1).
pub fn is_plain(message: &Message) -> bool
    ensures plain { result ≡ true → IsPlain message.now }
    ensures snapshot { result ≡ false → IsPlain message.now → ⊥ }
{
    match message {
        Message::Snap { state: _ } => false,
        _ => true,
    }
}

fn server_if_fits(id: Option<ServerId>)
    ensures { IfThere IsServer id }
{
    match id {
        Some(id) => server_fits(id),
        None => (),
    }
}

fn answer_fits(answer: &Answer)
    ensures { IsAnswer answer.now }
{
    let _client = answer.client;
    let _number = answer.number;
    let _length = answer.length;
    reply_fits(&answer.reply);
}

/// Each message but a snapshot has bytes.
pub fn message_fits(message: &Message)
    requires { IsPlain message.now }
    ensures { IsMessage message.now }
{
    match message {
        Message::Fwd { place, entry } => {
            let _place = *place;
            entry_fits(entry);
        }
        Message::Snap { state: _ } => (),
        Message::Ack { place } => {
            let _place = *place;
        }
        Message::BeHead => (),
        Message::Report { pred } => server_fits(*pred),
        Message::Adopt { succ, have } => {
            server_fits(*succ);
            let _have = *have;
        }
        Message::BeTail { at_least } => {
            let _least = *at_least;
        }
        Message::Feed { succ } => server_if_fits(*succ),
        Message::Have { pred, count } => {
            server_fits(*pred);
            let _count = *count;
        }
        Message::Adopted { succ, count } => {
            server_fits(*succ);
            let _count = *count;
        }
        Message::Caught { pred, count } => {
            server_fits(*pred);
            let _count = *count;
        }
        Message::Ready => (),
        Message::Answer(answer) => answer_fits(answer),
    }
}

/// What holds of each message, so that it is read back: O(1), and of a snapshot O(names).
pub fn message_holds(message: &Message)
    ensures { IsSound message.now }
{
    match message {
        Message::Snap { state } => store_fits(state.store()),
        _ => message_fits(message),
    }
}

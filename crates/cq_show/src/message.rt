//! Messages as they are shown.
ghost use Rattle.std.specs.Prelude.{◌≡◌};
ghost use Rattle.cq_chain.specs.Messages as sent;
ghost use Rattle.cq_chain.specs.Stands.{Means};
ghost use Rattle.cq_show.specs.Worlds.{id_or_zero, message_of};

use cq_base::ServerId;
use cq_chain::Message;
use cq_show_line::{MessageKind, NextMessage};

/// The number of that server; 0 for none.
fn id_or_zero(id: Option<ServerId>) -> u64
    ensures { result ≡ id_or_zero id }
{
    match id {
        Some(id) => u64::from(id.get()),
        None => 0,
    }
}

/// A message of that kind, which bears that number first.
fn bearing(kind: MessageKind, number: u64) -> NextMessage
    ensures { result ≡ record { kind = kind; number = number } }
{
    NextMessage { kind, number }
}

/// A message as it is shown: O(1).
pub fn shown_message(message: &Message) -> NextMessage
    ensures { (m : sent.Message) → Means message.now m → result ≡ message_of m }
{
    match message {
        Message::Fwd { place, .. } => bearing(MessageKind::Fwd, *place),
        Message::Snap { state } => bearing(MessageKind::Snap, state.count()),
        Message::Ack { place } => bearing(MessageKind::Ack, *place),
        Message::BeHead => bearing(MessageKind::BeHead, 0),
        Message::Report { pred } => bearing(MessageKind::Report, u64::from(pred.get())),
        Message::Adopt { succ, .. } => bearing(MessageKind::Adopt, u64::from(succ.get())),
        Message::BeTail { at_least } => bearing(MessageKind::BeTail, *at_least),
        Message::Feed { succ } => bearing(MessageKind::Feed, id_or_zero(*succ)),
        Message::Have { pred, .. } => bearing(MessageKind::Have, u64::from(pred.get())),
        Message::Adopted { succ, .. } => bearing(MessageKind::Adopted, u64::from(succ.get())),
        Message::Caught { pred, .. } => bearing(MessageKind::Caught, u64::from(pred.get())),
        Message::Ready => bearing(MessageKind::Ready, 0),
        Message::Answer(answer) => bearing(MessageKind::Answer, answer.length),
    }
}

//! How many sends were accepted.
ghost use Rattle.std.specs.Prelude.{◌≡◌, ◌&&◌};
ghost use Rattle.cq_live.specs.Lives.{is_send, is_sent, sends_closed};

use cq_base::{Ask, Reply};
use cq_chain::Answer;

/// Whether the ask is a send, and the answer that closed it says that it was accepted.
fn is_accepted(ask: &Ask, answer: &Answer) -> bool
    ensures { result ≡ (is_send ask.now && is_sent answer.now.reply) }
{
    match (ask, &answer.reply) {
        (Ask::Send { .. }, Reply::Sent(_)) => true,
        _ => false,
    }
}

/// How many of the asks are sends that were accepted, by the answers that closed the first of the asks: O(answers).
pub(crate) fn sends_closed(asks: &[Ask], answers: &[Answer]) -> usize
    ensures { result ≡ sends_closed asks.now answers.now }
{
    let mut sends = 0;
    for (ask, answer) in asks.iter().zip(answers) {
        if is_accepted(ask, answer) {
            sends += 1;
        }
    }
    sends
}

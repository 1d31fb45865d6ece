//! Who stands before and behind whom, and what a gap in the chain makes of them.
ghost use Rattle.std.specs.Prelude.{◌≡◌, ◌<◌, ◌+◌, ◌==◌, ◌&&◌, ℕ, List, ◌∷◌, length, drop, Some, None};
ghost use Rattle.cq_chain.specs.Masters.{is_last, stands_before, closing, said_of_loss, said_of_join, to_last};
ghost use Rattle.cq_chain.specs.Messages.{Feed};
ghost use Rattle.cq_chain.specs.within.Waiting.{IsSaid};

use crate::message::Message;
use cq_base::ServerId;

/// Whether it is the last of these.
pub(super) fn is_last(chain: &[ServerId], id: ServerId) -> bool
    ensures { result ≡ is_last chain.now id }
{
    match chain.last() {
        Some(last) => last.get() == id.get(),
        None => false,
    }
}

/// Whether these two stand at that place and the next one.
fn is_pair_at(chain: &[ServerId], i: usize, pred: ServerId, succ: ServerId) -> bool
    requires { i + 1 < length chain.now }
    ensures { (a b : ℕ) (rest : List ℕ) → drop i chain.now ≡ a ∷ b ∷ rest → result ≡ (a == pred && b == succ) }
{
    chain[i].get() == pred.get() && chain[i + 1].get() == succ.get()
}

/// Whether one stands directly before another.
pub(super) fn stands_before(pred: ServerId, succ: ServerId, chain: &[ServerId]) -> bool
    ensures { result ≡ stands_before pred succ chain.now }
{
    for i in 0..chain.len().saturating_sub(1) {
        if is_pair_at(chain, i, pred, succ) {
            return true;
        }
    }
    false
}

/// What is said when the member after that place is gone.
fn closing_at(chain: &[ServerId], i: usize) -> (ServerId, Message)
    requires { i + 1 < length chain.now }
    ensures { (p b : ℕ) (rest : List ℕ) → drop i chain.now ≡ p ∷ b ∷ rest → IsSaid (Some result) (closing p b (b ∷ rest)) }
{
    let pred = chain[i];
    if i + 2 < chain.len() {
        (chain[i + 2], Message::Report { pred })
    } else {
        (pred, Message::BeTail { at_least: 0 })
    }
}

/// What is said when a member is gone that isn't the first.
fn closing(chain: &[ServerId], id: ServerId) -> Option<(ServerId, Message)>
    ensures { (p : ℕ) (rest : List ℕ) → chain.now ≡ p ∷ rest → IsSaid result (closing p id rest) }
{
    for i in 0..chain.len().saturating_sub(1) {
        if chain[i + 1].get() == id.get() {
            return Some(closing_at(chain, i));
        }
    }
    None
}

/// What is said when a member is gone: to the next one, where it was the head; to its successor, where it has two
/// neighbours; and else to the one before it.
pub(super) fn said_of_loss(chain: &[ServerId], id: ServerId) -> Option<(ServerId, Message)>
    ensures { IsSaid result (said_of_loss id chain.now) }
{
    if chain.len() <= 1 {
        return None;
    }
    if chain[0].get() == id.get() {
        return Some((chain[1], Message::BeHead));
    }
    closing(chain, id)
}

/// What is said when a server joins: its predecessor, which is the last member.
pub(super) fn said_of_join(chain: &[ServerId], id: ServerId) -> Option<(ServerId, Message)>
    ensures { IsSaid result (said_of_join id chain.now) }
{
    match chain.last() {
        Some(last) => {
            let pred = *last;
            Some((id, Message::Report { pred }))
        }
        None => None,
    }
}

/// What is said when the server that joins is gone: the last member is to feed nobody any more.
pub(super) fn said_of_drop(chain: &[ServerId]) -> Option<(ServerId, Message)>
    ensures { IsSaid result (to_last (Feed None) chain.now) }
{
    match chain.last() {
        Some(last) => Some((*last, Message::Feed { succ: None })),
        None => None,
    }
}

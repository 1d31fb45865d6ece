//! What a client's node does at one end of a link, and what its core makes of asks and answers.
ghost use Rattle.std.specs.Prelude.{◌≡◌, ℕ, length, map, true, false, List, [], ◌∷◌, ◌++◌, IfOk, OnErr, MatchOption};
ghost use Rattle.std.specs.Option.{IfSome};
ghost use Rattle.cq_base.specs.Relations.{Among};
ghost use Rattle.cq_base.specs.declared.ask.Ask as rust_ask;
ghost use Rattle.cq_base.specs.declared.ask.Request as rust_request;
ghost use Rattle.cq_chain.specs.declared.message.Answer as rust_answer;
ghost use Rattle.cq_chain.specs.declared.message.Message as rust_message;
ghost use Rattle.cq_nodes.specs.ClientMoves.{IsDueAsk, AreAsked, IsTaken, GrewAt, IsAlong, Closes, ClosesBy};

use cq_base::{Ask, NoMemory, Request};
use cq_chain::{Answer, Client, ClientFault, Message};
use cq_link::{PutEnd, TakeEnd};
use std::sync::Wait;

/// Puts a request on a link. A full link hands it back.
fn put_one<R: Wait, P: PutEnd<Request> + Drop>(
    rt: &R,
    out: &mut P,
    request: Request,
) -> Option<Request>
    ensures link { P.link out.new ≡ P.link out.old }
    ensures back { IfSome result (λ back. back ≡ request) }
    ensures asked { (id : ℕ) (asks : List rust_ask.Ask) (closed : ℕ) → IsDueAsk id asks closed request
        → ((other : rust_request.Request) → Among other (P.list out.old) → IsDueAsk id asks closed other)
        → (other : rust_request.Request) → Among other (P.list out.new) → IsDueAsk id asks closed other }
{
    match out.put(rt, request) {
        Ok(()) => None,
        Err(full) => Some(full.0),
    }
}

/// Puts a request on the link of that place. It is handed back where the link is full, and where there is no such
/// place.
pub fn put_at<R: Wait, P: PutEnd<Request> + Drop>(
    rt: &R,
    outs: &mut Vec<P>,
    place: usize,
    request: Request,
) -> Option<Request>
    ensures links { map P.link outs.new.items ≡ map P.link outs.old.items }
    ensures back { IfSome result (λ back. back ≡ request) }
    ensures asked { (id : ℕ) (asks : List rust_ask.Ask) (closed : ℕ) → IsDueAsk id asks closed request
        → AreAsked P.list id asks closed outs.old.items → AreAsked P.list id asks closed outs.new.items }
{
    match outs.get_mut(place) {
        Some(out) => put_one(rt, out, request),
        None => Some(request),
    }
}

/// Takes the next message from a link, after a look at whether one is there.
fn take_one<R: Wait, T: TakeEnd<Message> + Drop>(rt: &R, end: &mut T) -> Option<Message>
    ensures link { T.link end.new ≡ T.link end.old }
    ensures taken { MatchOption result (T.list end.new ≡ T.list end.old) (λ message. T.list end.new ≡ T.list end.old ++ message ∷ []) }
{
    if end.is_empty() {
        return None;
    }
    end.take(rt)
}

/// Takes the next message from the link of that place: none where none is there, and where there is no such place.
pub fn take_at<R: Wait, T: TakeEnd<Message> + Drop>(
    rt: &R,
    ins: &mut Vec<T>,
    place: usize,
) -> Option<Message>
    ensures links { map T.link ins.new.items ≡ map T.link ins.old.items }
    ensures taken { IfSome result (λ message. IsTaken T.list message ins.new.items) }
    ensures kept { (message : rust_message.Message) → IsTaken T.list message ins.old.items → IsTaken T.list message ins.new.items }
    ensures grew { GrewAt T.list ins.old.items ins.new.items place result }
{
    match ins.get_mut(place) {
        Some(end) => take_one(rt, end),
        None => None,
    }
}

/// The next ask, as a request that is open from now on: none where all were made.
pub fn ask_next(
    core: &mut Client,
    asks: &[Ask],
    closed: &[Answer],
) -> Result<Option<Request>, ClientFault>
    ensures asked { (id : ℕ) → IsAlong id asks.now core.old closed.now
        → IfOk result (λ request. IfSome request (IsDueAsk id asks.now (length closed.now))) }
    ensures along { (id : ℕ) → IsAlong id asks.now core.old closed.now → IsAlong id asks.now core.new closed.now }
{
    match asks.get(closed.len()) {
        Some(ask) => Ok(Some(core.ask(ask)?)),
        None => Ok(None),
    }
}

/// The open request once more, if one is open.
pub fn ask_again(core: &Client) -> Result<Option<Request>, NoMemory>
    ensures { (id : ℕ) (asks : List rust_ask.Ask) (closed : List rust_answer.Answer) → IsAlong id asks core.now closed
        → IfOk result (λ request. IfSome request (IsDueAsk id asks (length closed))) }
{
    core.again()
}

/// Whether the answer is one to a request of the client of that id, and not to a query.
fn is_own(id: u32, answer: &Answer) -> bool
    ensures client { result ≡ true → answer.now.client ≡ id }
    ensures no_query { result ≡ true → answer.now.is_query ≡ false }
{
    answer.client == id && !answer.is_query
}

/// Whether the answer closes the open request of the client of that id. If so, no request is open any more.
fn is_closed_by(core: &mut Client, id: u32, answer: &Answer) -> bool
    ensures closes { (asks : List rust_ask.Ask) (closed : List rust_answer.Answer) → IsAlong id asks core.old closed
        → result ≡ true → Closes id asks core.new closed answer.now }
    ensures along { (asks : List rust_ask.Ask) (closed : List rust_answer.Answer) → IsAlong id asks core.old closed
        → result ≡ false → IsAlong id asks core.new closed }
{
    if is_own(id, answer) {
        core.take(answer.number, answer.length, &answer.reply)
    } else {
        false
    }
}

/// The answer by which the message closes the open request of the client of that id, if it does.
pub fn closing(core: &mut Client, id: u32, message: Message) -> Option<Answer>
    ensures { (asks : List rust_ask.Ask) (closed : List rust_answer.Answer) → IsAlong id asks core.old closed
        → MatchOption result (IsAlong id asks core.new closed) (λ answer. ClosesBy id asks core.new closed message answer) }
{
    match message.into_answer() {
        Some(answer) => {
            if is_closed_by(core, id, &answer) {
                Some(answer)
            } else {
                None
            }
        }
        None => None,
    }
}

//! What a server's node does with the requests of its inbox.
ghost use Rattle.std.specs.Prelude.{◌≡◌, min, List, Ok, Some, None, Option, IfOk};
ghost use Rattle.cq_base.specs.declared.ask.Request as rust_request;
ghost use Rattle.cq_base.specs.declared.limits.TheConstants.{MOMENT_LIMIT};
ghost use Rattle.cq_base.specs.declared.party.Party as rust_party;
ghost use Rattle.cq_chain.specs.declared.message.Message as rust_message;
ghost use Rattle.cq_chain.specs.Messages as sent;
ghost use Rattle.cq_chain.specs.Refusals.{refusal_of_arrival};
ghost use Rattle.cq_chain.specs.Servers as states;
ghost use Rattle.cq_chain.specs.Stands.{Does, Keeps, StandsFor};
ghost use Rattle.cq_chain.specs.Steps.{arrived};
ghost use Rattle.cq_nodes.specs.Moves.{Part, Arrives};

use cq_base::{MOMENT_LIMIT, Moment, Request};
use cq_chain::{Server, WorldFault};
use cq_link::TakeEnd;
use std::sync::Wait;

/// The moment at which a server is that has had so many turns.
pub fn moment_of(turns: u64) -> Moment
    ensures { result ≡ min turns MOMENT_LIMIT }
{
    Moment::new(turns.min(MOMENT_LIMIT)).unwrap()
}

/// Gives a request to the core if that is the head; any other core drops it.
fn arrive(core: &mut Server, request: Request, clock: Moment) -> Result<Option<Request>, WorldFault>
    ensures same { (r : rust_request.Request) → result ≡ Ok (Some r) → r ≡ request }
    ensures arrived { (r : rust_request.Request) → result ≡ Ok (Some r) → Does core.old core.new (arrived clock request) }
    ensures admitted { (r : rust_request.Request) → result ≡ Ok (Some r) → (s : states.Server) (outbox : rust_party.Party → List sent.Message)
        → StandsFor core.old s outbox → refusal_of_arrival s ≡ None }
    ensures idle { ((r : rust_request.Request) → result ≡ Ok (Some r) → ⊥) → Keeps core.old core.new }
{
    if !core.is_head() {
        return Ok(None);
    }
    core.arrive(&request, clock)?;
    Ok(Some(request))
}

/// Gives the core the next request of the inbox, and says which one arrived: none where there is none, and where the
/// core isn't the head. After a fault the request is lost.
pub fn arrive_one<R: Wait, I: TakeEnd<Request> + Drop>(
    rt: &R,
    core: &mut Server,
    inbox: &mut I,
    clock: Moment,
) -> Result<Option<Request>, WorldFault>
    ensures link { I.link inbox.new ≡ I.link inbox.old }
    ensures arrived { (back : rust_party.Party → Option rust_message.Message) (r : rust_request.Request) → result ≡ Ok (Some r)
        → Arrives core.old core.new back clock r (I.list inbox.old) (I.list inbox.new) }
    ensures list { (xs : List rust_request.Request) → Part xs (I.list inbox.old) → Part xs (I.list inbox.new) }
    ensures idle { ((r : rust_request.Request) → result ≡ Ok (Some r) → ⊥) → Keeps core.old core.new }
{
    match inbox.take(rt) {
        Some(request) => arrive(core, request, clock),
        None => Ok(None),
    }
}

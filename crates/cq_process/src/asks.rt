//! Requests and queries at the server, as what it does of itself.
ghost use Rattle.std.specs.Prelude.{List, Option, OnOk, OnErr};
ghost use Rattle.cq_base.specs.declared.party.Party as rust_party;
ghost use Rattle.cq_chain.specs.declared.message.Message as rust_message;
ghost use Rattle.cq_chain.specs.Messages as sent;
ghost use Rattle.cq_chain.specs.Refusals.{refusal_of_arrival, refusal_of_query};
ghost use Rattle.cq_chain.specs.Servers as states;
ghost use Rattle.cq_chain.specs.Stands.{IsRefusedBy, Keeps, StandsFor};
ghost use Rattle.cq_events.specs.Actions.{Arrived, Asked};
ghost use Rattle.cq_process.specs.Asking.{ActsBeside};

use cq_base::{Moment, Query, Request};
use cq_chain::{Server, WorldFault};

/// A request arrives at the server, as `Server::arrive` says.
pub fn arrive(core: &mut Server, request: &Request, clock: Moment) -> Result<(), WorldFault>
    ensures done { (back : rust_party.Party → Option rust_message.Message)
        → OnOk result (ActsBeside (Arrived clock request.now) core.old core.new back) }
    ensures idle { OnErr result (Keeps core.old core.new) }
    ensures refused { (s : states.Server) (outbox : rust_party.Party → List sent.Message) → StandsFor core.old s outbox
        → IsRefusedBy (refusal_of_arrival s) result }
{
    core.arrive(request, clock)
}

/// A query comes to the server, as `Server::ask` says.
pub fn ask(core: &mut Server, query: &Query) -> Result<(), WorldFault>
    ensures done { (back : rust_party.Party → Option rust_message.Message)
        → OnOk result (ActsBeside (Asked query.now) core.old core.new back) }
    ensures idle { OnErr result (Keeps core.old core.new) }
    ensures refused { (s : states.Server) (outbox : rust_party.Party → List sent.Message) → StandsFor core.old s outbox
        → IsRefusedBy (refusal_of_query s) result }
{
    core.ask(query)
}

//! What a server's node does when its server crashes.
ghost use Rattle.std.specs.Prelude.{◌≡◌, ◌↔◌, ◌++◌, ◌∷◌, ◌<◌, [], true, vec_len, vec_capacity};
ghost use Rattle.cq_chain.specs.Stands.{Does};
ghost use Rattle.cq_chain.specs.Steps.{crashed};
ghost use Rattle.cq_nodes.specs.Nodes.{IsDue};
ghost use Rattle.cq_events.specs.declared.event.Event.TheVariants as events;

use cq_base::ServerId;
use cq_chain::Server;
use cq_events::Event;

/// Whether a server with so many entries is to crash.
pub fn is_due(crash_after: Option<u64>, count: u64) -> bool
    ensures { (result ≡ true) ↔ IsDue crash_after count }
{
    match crash_after {
        Some(least) => least <= count,
        None => false,
    }
}

/// The server crashes, which is noted. It takes no memory.
pub fn crash(core: &mut Server, id: ServerId, trace: &mut Vec<Event>)
    requires { vec_len trace.old < vec_capacity trace.old }
    ensures core { Does core.old core.new crashed }
    ensures trace { trace.new.items ≡ trace.old.items ++ events.Crash id ∷ [] }
{
    core.crash();
    trace.push_reserved(Event::Crash { server: id });
}

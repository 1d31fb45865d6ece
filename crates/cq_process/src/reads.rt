//! Where a server stands, as its host is told.
ghost use Rattle.std.specs.Prelude.{◌≡◌, List, length};
ghost use Rattle.cq_base.specs.declared.party.Party as rust_party;
ghost use Rattle.cq_chain.specs.Messages as sent;
ghost use Rattle.cq_chain.specs.Servers as states;
ghost use Rattle.cq_chain.specs.Servers.{acts};
ghost use Rattle.cq_chain.specs.Stands.{StandsFor};
ghost use Rattle.cq_base.specs.queue.History.{last_moment};

use cq_chain::Server;
use cq_frames::Standing;

/// Where the server stands: O(1).
pub fn standing(core: &Server) -> Standing
    ensures count { (s : states.Server) (outbox : rust_party.Party → List sent.Message) → StandsFor core.now s outbox
        → result.count ≡ length s.entries }
    ensures acked { (s : states.Server) (outbox : rust_party.Party → List sent.Message) → StandsFor core.now s outbox
        → result.acked ≡ s.acked }
    ensures last { (s : states.Server) (outbox : rust_party.Party → List sent.Message) → StandsFor core.now s outbox
        → result.last ≡ last_moment s.entries }
    ensures head { (s : states.Server) (outbox : rust_party.Party → List sent.Message) → StandsFor core.now s outbox
        → result.is_head ≡ s.head }
    ensures acting { (s : states.Server) (outbox : rust_party.Party → List sent.Message) → StandsFor core.now s outbox
        → result.is_acting ≡ acts s }
    ensures full { (s : states.Server) (outbox : rust_party.Party → List sent.Message) → StandsFor core.now s outbox
        → result.is_full ≡ s.full }
{
    Standing {
        count: core.count(),
        acked: core.acked(),
        last: core.store().last(),
        is_head: core.is_head(),
        is_acting: core.is_acting(),
        is_full: core.is_full(),
    }
}

//! What a new successor is sent.
ghost use Rattle.std.specs.Prelude.{◌≡◌, ◌≤◌, ◌+◌, ◌-◌, ℕ, List, [], ◌∷◌, length, drop, not, IfOk};
ghost use Rattle.cq_base.specs.declared.ask.Entry as rust_entry;
ghost use Rattle.cq_base.specs.declared.party.Party as rust_party;
ghost use Rattle.cq_base.specs.declared.party.Party.TheVariants as parties;
ghost use Rattle.cq_chain.specs.Messages as sent;
ghost use Rattle.cq_chain.specs.Servers as states;
ghost use Rattle.cq_chain.specs.Servers.{is_that};
ghost use Rattle.cq_chain.specs.Stands.{StandsFor};
ghost use Rattle.cq_chain.specs.Steps.{forwards, repair, when};
ghost use Rattle.cq_chain.specs.within.Replicas.{Recalls};
ghost use Rattle.cq_chain.specs.within.Waiting.{AllFor};
ghost use Rattle.cq_store.specs.Stands as stores;
ghost use Rattle.cq_store.specs.Stands.{count_of};

use super::Server;
use crate::fifo::Fifo;
use crate::identity::is_that;
use crate::message::Message;
use crate::replica::Replica;
use crate::snapshot::Snapshot;
use cq_base::{NoMemory, ServerId};
use cq_store::Store;
use std::alloc::Global;

/// The entries after so many, all of which are kept, each as a message: O(entries after these).
fn missing(alloc: Global, have: u64, replica: &Replica) -> Result<Fifo, NoMemory>
    requires { count_of replica.now.store - length replica.now.entries ≤ have }
    ensures { (history : List rust_entry.Entry) (floor : ℕ) → Recalls replica.now history floor
        → IfOk result (λ fifo. (to : ℕ)
        → AllFor (parties.Server to) fifo.messages (forwards to (have + 1) (drop have history))) }
{
    let mut fifo = Fifo::new(alloc);
    for before in have..replica.count() {
        let entry = replica.entry_after(before).try_copy()?;
        let place = before + 1;
        fifo.reserve(1)?;
        fifo.push(Message::Fwd { place, entry });
    }
    Ok(fifo)
}

/// The whole state in one message: what a copy of the store takes.
fn snapshot(alloc: Global, store: &Store) -> Result<Fifo, NoMemory>
    ensures { (history : List rust_entry.Entry) → stores.StandsFor store.now history
        → IfOk result (λ fifo. (to : ℕ)
        → AllFor (parties.Server to) fifo.messages ((parties.Server to, sent.Snap history) ∷ [])) }
{
    let mut fifo = Fifo::new(alloc);
    let state = Snapshot::of(store)?;
    fifo.reserve(1)?;
    fifo.push(Message::Snap { state });
    Ok(fifo)
}

impl Server {
    /// What a new successor that has so many entries is to be sent: the entries that it lacks, or the whole
    /// state where the server has forgotten some of these.
    fn repair(&self, have: u64) -> Result<Fifo, NoMemory>
        ensures { (s : states.Server) (outbox : rust_party.Party → List sent.Message) → StandsFor self.now s outbox
            → IfOk result (λ fifo. (to : ℕ) → AllFor (parties.Server to) fifo.messages (repair to have s)) }
    {
        if self.replica.floor() <= have {
            missing(self.alloc, have, &self.replica)
        } else {
            snapshot(self.alloc, self.replica.store())
        }
    }

    /// What a successor that has so many entries is to be sent. One that the server feeds already lacks none that
    /// isn't on its way.
    pub(super) fn handover(&self, succ: ServerId, have: u64) -> Result<Fifo, NoMemory>
        ensures { (s : states.Server) (outbox : rust_party.Party → List sent.Message) → StandsFor self.now s outbox
            → IfOk result (λ fifo. AllFor (parties.Server succ) fifo.messages (when (not (is_that s.succ succ)) (repair succ have s))) }
    {
        if is_that(self.succ, succ) {
            Ok(Fifo::new(self.alloc))
        } else {
            self.repair(have)
        }
    }
}

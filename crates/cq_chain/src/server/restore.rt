//! A server that joined gets the state of its predecessor.
ghost use Rattle.std.specs.Prelude.{◌≡◌, ◌&&◌, ◌++◌, List, [], ◌∷◌, length, is_none, nat_le, None, IfErr, OnOk, OnErr};
ghost use Rattle.cq_base.specs.declared.ask.Entry as rust_entry;
ghost use Rattle.cq_base.specs.declared.party.Party as rust_party;
ghost use Rattle.cq_base.specs.declared.party.Party.TheVariants as parties;
ghost use Rattle.cq_chain.specs.Faults.{IsRefusal};
ghost use Rattle.cq_chain.specs.Messages as sent;
ghost use Rattle.cq_chain.specs.Refusals.{refusal_of_taking};
ghost use Rattle.cq_chain.specs.Servers as states;
ghost use Rattle.cq_chain.specs.Servers.{acts, is_that};
ghost use Rattle.cq_chain.specs.Stands.{StandsFor, Does, Keeps, Means, posted};
ghost use Rattle.cq_chain.specs.Steps.{restored, tail_news, takes, when};
ghost use Rattle.cq_chain.specs.declared.fault.WorldFault.TheVariants as faults;
ghost use Rattle.cq_chain.specs.declared.message.Message.TheVariants as stored;
ghost use Rattle.cq_chain.specs.within.Waiting.{HasRoom};
ghost use Rattle.cq_store.specs.Stands as stores;
ghost use Rattle.cq_store.specs.Stands.{count_of};

use super::Server;
use crate::fault::WorldFault;
use crate::identity::is_that;
use crate::message::{Message, Untaken};
use crate::snapshot::Snapshot;
use cq_base::{NoMemory, Party, ServerId};
use cq_store::Store;

impl Server {
    /// A snapshot comes from the predecessor, no entry is lost by it, and there is nobody to whom it would have
    /// to be forwarded.
    fn is_restoring(&self, from: ServerId, state: &Snapshot) -> bool
        ensures { result ≡ (is_that self.now.pred from && is_none self.now.succ
            && nat_le (count_of self.now.replica.store) (count_of state.now)) }
    {
        is_that(self.pred, from) && self.succ.is_none() && self.replica.count() <= state.count()
    }

    /// Tells the master how many entries it has, which come from that predecessor.
    fn tell_caught(&mut self, pred: ServerId)
        requires { HasRoom self.old.outboxes 2 self.old.pred self.old.succ }
        ensures { (s : states.Server) (outbox : rust_party.Party → List sent.Message) → StandsFor self.old s outbox
            → StandsFor self.new s (posted outbox ((parties.Master, sent.Caught pred (length s.entries)) ∷ [])) }
    {
        let count = self.replica.count();
        self.outboxes
            .push(Party::Master, Message::Caught { pred, count });
    }

    /// Tells what comes of a snapshot of that predecessor: as the tail that it is or is to be, or else the master.
    fn tell_restored(&mut self, pred: ServerId, acted: bool)
        requires { HasRoom self.old.outboxes 2 self.old.pred self.old.succ }
        ensures { (old now : states.Server) (outbox : rust_party.Party → List sent.Message) → StandsFor self.old now outbox
            → acted ≡ acts old → old.pred ≡ now.pred → StandsFor self.new now (posted outbox (tail_news old now
            ++ when (is_none now.at_least) ((parties.Master, sent.Caught pred (length now.entries)) ∷ []))) }
    {
        match self.at_least {
            Some(_) => self.send_ack(acted),
            None => self.tell_caught(pred),
        }
    }

    /// The store of a snapshot of that predecessor takes the place of the server's own, in room that was made.
    fn restore(&mut self, from: ServerId, store: Store)
        requires { HasRoom self.old.outboxes 4 self.old.pred self.old.succ }
        ensures { (entries : List rust_entry.Entry) → stores.StandsFor store entries
            → Does self.old self.new (restored from entries) }
    {
        let acted = self.is_acting();
        self.replica.restore(store);
        self.tell_restored(from, acted);
        self.acknowledge_all();
    }

    /// A snapshot: O(1) where it is ignored, or else what a copy of its store takes.
    pub(super) fn take_snap(&mut self, from: ServerId, state: &Snapshot) -> Result<(), NoMemory>
        ensures ok { (entries : List rust_entry.Entry) → stores.StandsFor state.now entries
            → OnOk result (Does self.old self.new (takes (parties.Server from) (sent.Snap entries))) }
        ensures err { OnErr result (Keeps self.old self.new) }
    {
        if !self.is_restoring(from, state) {
            return Ok(());
        }
        let store = state.store().try_copy()?;
        self.reserve()?;
        self.restore(from, store);
        Ok(())
    }

    /// The same of a snapshot that is handed over, whose store becomes the server's: O(entries kept).
    fn take_store(&mut self, from: ServerId, state: Snapshot) -> Result<(), Untaken>
        ensures ok { (entries : List rust_entry.Entry) → stores.StandsFor state entries
            → OnOk result (Does self.old self.new (takes (parties.Server from) (sent.Snap entries))) }
        ensures err { OnErr result (Keeps self.old self.new) }
        ensures back { IfErr result (λ untaken. (untaken.message ≡ stored.Snap state) × (untaken.fault ≡ faults.NoMemory)) }
    {
        if !self.is_restoring(from, &state) {
            return Ok(());
        }
        match self.reserve() {
            Ok(()) => {
                self.restore(from, state.into_store());
                Ok(())
            }
            Err(NoMemory) => Err(Untaken {
                message: Message::Snap { state },
                fault: WorldFault::NoMemory,
            }),
        }
    }

    /// Takes a message as `take` does, and hands it back where it doesn't.
    fn take_lent(&mut self, from: Party, message: Message) -> Result<(), Untaken>
        ensures taken { (s : states.Server) (outbox : rust_party.Party → List sent.Message) (m : sent.Message) → StandsFor self.old s outbox
            → Means message m → OnOk result (refusal_of_taking from m s ≡ None) }
        ensures refused { (s : states.Server) (outbox : rust_party.Party → List sent.Message) (m : sent.Message) → StandsFor self.old s outbox
            → Means message m → IfErr result (λ untaken. IsRefusal untaken.fault (refusal_of_taking from m s)) }
        ensures ok { (m : sent.Message) → Means message m → OnOk result (Does self.old self.new (takes from m)) }
        ensures err { OnErr result (Keeps self.old self.new) }
        ensures back { IfErr result (λ untaken. untaken.message ≡ message) }
    {
        match self.take(from, &message) {
            Ok(()) => Ok(()),
            Err(fault) => Err(Untaken { message, fault }),
        }
    }

    /// Takes a message of another server.
    fn take_owned_from(&mut self, from: ServerId, message: Message) -> Result<(), Untaken>
        ensures taken { (s : states.Server) (outbox : rust_party.Party → List sent.Message) (m : sent.Message) → StandsFor self.old s outbox
            → Means message m → OnOk result (refusal_of_taking (parties.Server from) m s ≡ None) }
        ensures refused { (s : states.Server) (outbox : rust_party.Party → List sent.Message) (m : sent.Message) → StandsFor self.old s outbox
            → Means message m → IfErr result (λ untaken. IsRefusal untaken.fault (refusal_of_taking (parties.Server from) m s)) }
        ensures ok { (m : sent.Message) → Means message m → OnOk result (Does self.old self.new (takes (parties.Server from) m)) }
        ensures err { OnErr result (Keeps self.old self.new) }
        ensures back { IfErr result (λ untaken. untaken.message ≡ message) }
    {
        match message.into_snapshot() {
            Ok(state) => self.take_store(from, state),
            Err(other) => self.take_lent(Party::Server(from), other),
        }
    }

    /// Takes a message that is handed over, as `take` takes one that is lent, and hands it back where it doesn't.
    /// A snapshot's store isn't copied: that takes O(entries kept) and no memory but for what the server sends.
    ///
    /// Faults: those of `take`.
    pub fn take_owned(&mut self, from: Party, message: Message) -> Result<(), Untaken>
        ensures taken { (s : states.Server) (outbox : rust_party.Party → List sent.Message) (m : sent.Message) → StandsFor self.old s outbox
            → Means message m → OnOk result (refusal_of_taking from m s ≡ None) }
        ensures refused { (s : states.Server) (outbox : rust_party.Party → List sent.Message) (m : sent.Message) → StandsFor self.old s outbox
            → Means message m → IfErr result (λ untaken. IsRefusal untaken.fault (refusal_of_taking from m s)) }
        ensures ok { (m : sent.Message) → Means message m → OnOk result (Does self.old self.new (takes from m)) }
        ensures err { OnErr result (Keeps self.old self.new) }
        ensures back { IfErr result (λ untaken. untaken.message ≡ message) }
    {
        match from {
            Party::Server(id) => self.take_owned_from(id, message),
            Party::Master | Party::Clients => self.take_lent(from, message),
        }
    }
}

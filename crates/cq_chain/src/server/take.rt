//! What a server does with each message.
ghost use Rattle.std.specs.Prelude.{◌≡◌, ◌<◌, ◌≤◌, ◌+◌, ◌==◌, ◌&&◌, nat_le, min, true, List, length, OnOk, OnErr};
ghost use Rattle.cq_base.specs.declared.limits.TheConstants.{HISTORY_LIMIT};
ghost use Rattle.cq_base.specs.declared.party.Party as rust_party;
ghost use Rattle.cq_base.specs.declared.party.Party.TheVariants as parties;
ghost use Rattle.cq_chain.specs.Messages as sent;
ghost use Rattle.cq_chain.specs.Refusals.{refusal_of_taking};
ghost use Rattle.cq_chain.specs.Servers as states;
ghost use Rattle.cq_chain.specs.Servers.{is_that};
ghost use Rattle.cq_chain.specs.Stands.{StandsFor, Does, Keeps, IsRefusedBy, Means};
ghost use Rattle.cq_chain.specs.Steps.{forwarded, acknowledged, takes};
ghost use Rattle.cq_store.specs.Stands.{count_of, last_of};

use super::Server;
use crate::fault::WorldFault;
use crate::identity::is_that;
use crate::message::Message;
use cq_base::{Entry, NoMemory, Party, ServerId};

/// That place comes right after so many.
fn is_after(place: u64, count: u64) -> bool
    ensures { result ≡ (place == count + 1) }
{
    0 < place && place - 1 == count
}

impl Server {
    /// A forwarded entry is the next one of the predecessor.
    fn is_next(&self, from: ServerId, place: u64, entry: &Entry) -> bool
        ensures value { result ≡ (is_that self.now.pred from && place == count_of self.now.replica.store + 1
            && nat_le (last_of self.now.replica.store) entry.now.moment) }
        ensures after_last { result ≡ true → last_of self.now.replica.store ≤ entry.now.moment }
    {
        is_that(self.pred, from)
            && is_after(place, self.replica.count())
            && self.replica.last().get() <= entry.moment.get()
    }

    /// The next entry of the predecessor is appended.
    fn take_next(&mut self, entry: &Entry) -> Result<(), NoMemory>
        requires limit { count_of self.old.replica.store < HISTORY_LIMIT }
        requires stamped { last_of self.old.replica.store ≤ entry.now.moment }
        ensures ok { OnOk result (Does self.old self.new (forwarded entry.now)) }
        ensures err { OnErr result (Keeps self.old self.new) }
    {
        let acted = self.is_acting();
        let entry = entry.try_copy()?;
        self.reserve()?;
        self.append(entry)?;
        self.send_ack(acted);
        self.acknowledge_all();
        Ok(())
    }

    /// A forwarded entry.
    fn take_fwd(&mut self, from: ServerId, place: u64, entry: &Entry) -> Result<(), WorldFault>
        ensures refused { (s : states.Server) (outbox : rust_party.Party → List sent.Message) → StandsFor self.old s outbox
            → IsRefusedBy (refusal_of_taking (parties.Server from) (sent.Fwd place entry.now) s) result }
        ensures ok { OnOk result (Does self.old self.new (takes (parties.Server from) (sent.Fwd place entry.now))) }
        ensures err { OnErr result (Keeps self.old self.new) }
    {
        if !self.is_next(from, place, entry) {
            return Ok(());
        }
        if self.is_at_limit() {
            return Err(WorldFault::HistoryFull);
        }
        self.take_next(entry)?;
        Ok(())
    }

    /// An acknowledgement.
    fn take_ack(&mut self, place: u64) -> Result<(), NoMemory>
        ensures ok { OnOk result (Does self.old self.new (λ s. acknowledged (min place (length s.entries)) s)) }
        ensures err { OnErr result (Keeps self.old self.new) }
    {
        let place = place.min(self.replica.count());
        if place <= self.acked {
            return Ok(());
        }
        self.outboxes.reserve_server(self.alloc, self.pred)?;
        self.acked = place;
        self.replica.forget(place);
        self.outboxes.push_server(self.pred, Message::Ack { place });
        Ok(())
    }

    /// Takes a message of another server.
    fn take_from(&mut self, from: ServerId, message: &Message) -> Result<(), WorldFault>
        ensures refused { (s : states.Server) (outbox : rust_party.Party → List sent.Message) (m : sent.Message) → StandsFor self.old s outbox
            → Means message.now m → IsRefusedBy (refusal_of_taking (parties.Server from) m s) result }
        ensures ok { (m : sent.Message) → Means message.now m → OnOk result (Does self.old self.new (takes (parties.Server from) m)) }
        ensures err { OnErr result (Keeps self.old self.new) }
    {
        match message {
            Message::Fwd { place, entry } => self.take_fwd(from, *place, entry),
            Message::Snap { state } => Ok(self.take_snap(from, state)?),
            Message::Ack { place } => Ok(self.take_ack(*place)?),
            _ => Ok(()),
        }
    }

    /// Takes a message, and makes all the room that this needs before the first change.
    ///
    /// - `Fwd`: the next entry of the predecessor becomes an entry of the server, which sends it on; where it acts
    ///   it answers the clients and acknowledges to its predecessor. O(1), and what the store takes for an entry.
    /// - `Snap` of the predecessor: a server with no successor, which has no more entries, takes the state over and
    ///   answers none of its entries. Where it is no tail, nor to be it, it tells the master. It takes what a copy of
    ///   the store takes.
    /// - `Ack`: an acknowledgement, of no more entries than the server has, is kept and passed on to the
    ///   predecessor, if it is news, and these entries are forgotten. O(entries forgotten).
    /// - `BeHead` of the master: it is the head. O(1).
    /// - `Report` of the master: it has that predecessor, tells the master how many entries it has, and the
    ///   predecessor which are acknowledged. O(1).
    /// - `Adopt` of the master: it has that successor, acts no more, sends it the entries that it lacks, one by one
    ///   or as a snapshot, and tells the master how many entries it has. One that was its successor already lacks
    ///   none that isn't on its way, and is sent none. O(entries sent), or what a copy of the store takes.
    /// - `BeTail` of the master: it is the tail, and acts once it has so many entries. O(1).
    /// - `Feed` of the master: a server that acts has that successor, sends it the whole state and from then on each
    ///   entry, and goes on acting; with no server named it has no successor any more. What a copy of the store
    ///   takes, or O(1).
    ///
    /// A server that begins to act tells the master. What else comes is ignored. A chain is mended as in van Renesse
    /// and Schneider, section 3; snapshots, and what servers and master tell each other meanwhile, are a choice of
    /// this project.
    ///
    /// Faults: `HistoryFull` (41) where the entry would be the one after 2^62, `NoMemory` (20).
    pub fn take(&mut self, from: Party, message: &Message) -> Result<(), WorldFault>
        ensures refused { (s : states.Server) (outbox : rust_party.Party → List sent.Message) (m : sent.Message) → StandsFor self.old s outbox
            → Means message.now m → IsRefusedBy (refusal_of_taking from m s) result }
        ensures ok { (m : sent.Message) → Means message.now m → OnOk result (Does self.old self.new (takes from m)) }
        ensures err { OnErr result (Keeps self.old self.new) }
    {
        match from {
            Party::Server(id) => self.take_from(id, message),
            Party::Master => Ok(self.take_order(message)?),
            Party::Clients => Ok(()),
        }
    }
}

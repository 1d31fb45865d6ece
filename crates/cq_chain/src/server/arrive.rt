//! Requests at the head, and queries at the tail.
ghost use Rattle.std.specs.Prelude.{◌≡◌, ◌<◌, ◌≤◌, max, List, IfOk, OnOk, OnErr};
ghost use Rattle.cq_base.specs.declared.limits.TheConstants.{HISTORY_LIMIT};
ghost use Rattle.cq_base.specs.declared.party.Party as rust_party;
ghost use Rattle.cq_chain.specs.Messages as sent;
ghost use Rattle.cq_chain.specs.Refusals.{refusal_of_arrival, refusal_of_query};
ghost use Rattle.cq_chain.specs.Servers as states;
ghost use Rattle.cq_chain.specs.Stands.{StandsFor, Does, Keeps, IsRefusedBy};
ghost use Rattle.cq_chain.specs.Steps.{arrived, asked};
ghost use Rattle.cq_store.specs.Stands.{count_of, last_of};

use super::Server;
use crate::fault::WorldFault;
use crate::message::{Answer, Message};
use cq_base::{Entry, Moment, NoMemory, Party, Query, Request};

fn later(a: Moment, b: Moment) -> Moment
    ensures { result ≡ max a b }
{
    if a.get() < b.get() { b } else { a }
}

impl Server {
    /// The entry that a request becomes: its moment is no earlier than that of the entry before it.
    fn stamped(&self, clock: Moment, request: &Request) -> Result<Entry, NoMemory>
        ensures value { IfOk result (λ entry. entry ≡ record { moment = max clock (last_of self.now.replica.store); request = request.now }) }
        ensures after_last { IfOk result (λ entry. last_of self.now.replica.store ≤ entry.moment) }
    {
        let moment = later(clock, self.replica.last());
        Ok(Entry {
            moment,
            request: request.try_copy()?,
        })
    }

    /// A request becomes the next entry.
    fn append_request(&mut self, request: &Request, clock: Moment) -> Result<(), NoMemory>
        requires { count_of self.old.replica.store < HISTORY_LIMIT }
        ensures ok { OnOk result (Does self.old self.new (arrived clock request.now)) }
        ensures err { OnErr result (Keeps self.old self.new) }
    {
        let entry = self.stamped(clock, request)?;
        self.reserve()?;
        self.append(entry)?;
        self.acknowledge_all();
        Ok(())
    }

    /// A request arrives. It becomes the next entry, which is stamped with the larger of the server's clock and
    /// the moment of the entry before it (a choice of this project), and is sent to the successor; a server
    /// that acts answers it. It takes what the store takes for the entry.
    ///
    /// Faults: `NotHead` (40) unless the server is the head, `HistoryFull` (41) once it has 2^62 entries,
    /// `NoMemory` (20).
    pub fn arrive(&mut self, request: &Request, clock: Moment) -> Result<(), WorldFault>
        ensures refused { (s : states.Server) (outbox : rust_party.Party → List sent.Message) → StandsFor self.old s outbox
            → IsRefusedBy (refusal_of_arrival s) result }
        ensures ok { OnOk result (Does self.old self.new (arrived clock request.now)) }
        ensures err { OnErr result (Keeps self.old self.new) }
    {
        if !self.head {
            return Err(WorldFault::NotHead);
        }
        if self.is_at_limit() {
            return Err(WorldFault::HistoryFull);
        }
        self.append_request(request, clock)?;
        Ok(())
    }

    /// Puts the answer to a query into the outbox.
    fn answer(&mut self, query: &Query) -> Result<(), NoMemory>
        ensures ok { OnOk result (Does self.old self.new (asked query.now)) }
        ensures err { OnErr result (Keeps self.old self.new) }
    {
        self.outboxes.reserve(self.alloc, Party::Clients)?;
        let answer = Answer {
            client: query.client,
            number: query.tag,
            is_query: true,
            length: self.replica.count(),
            reply: self.replica.query(query),
        };
        self.outboxes.push(Party::Clients, Message::Answer(answer));
        Ok(())
    }

    /// A query comes. A server that acts answers it from the entries that it has: O(log messages) for each
    /// message of the queue that is in flight.
    ///
    /// Faults: `NotTail` (42) unless the server acts, `NoMemory` (20).
    pub fn ask(&mut self, query: &Query) -> Result<(), WorldFault>
        ensures refused { (s : states.Server) (outbox : rust_party.Party → List sent.Message) → StandsFor self.old s outbox
            → IsRefusedBy (refusal_of_query s) result }
        ensures ok { OnOk result (Does self.old self.new (asked query.now)) }
        ensures err { OnErr result (Keeps self.old self.new) }
    {
        if !self.is_acting() {
            return Err(WorldFault::NotTail);
        }
        self.answer(query)?;
        Ok(())
    }
}

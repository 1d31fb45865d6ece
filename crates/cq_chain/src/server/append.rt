//! One entry more, which goes on to the successor, or is answered.
ghost use Rattle.std.specs.Prelude.{◌≡◌, ◌<◌, ◌≤◌, ℕ, List, IfOk, OnOk, OnErr};
ghost use Rattle.cq_base.specs.declared.limits.TheConstants.{HISTORY_LIMIT};
ghost use Rattle.cq_base.specs.declared.ask.Entry as rust_entry;
ghost use Rattle.cq_base.specs.declared.party.Party as rust_party;
ghost use Rattle.cq_base.specs.queue.History.{reply_to};
ghost use Rattle.cq_chain.specs.Messages as sent;
ghost use Rattle.cq_chain.specs.Servers as states;
ghost use Rattle.cq_chain.specs.Servers.{acts};
ghost use Rattle.cq_chain.specs.Stands.{StandsFor, Does, Keeps, posted};
ghost use Rattle.cq_chain.specs.Steps.{appended, passed_on, settled, tail_news, to_server};
ghost use Rattle.cq_chain.specs.within.Waiting.{HasRoom, HasRoomAt, IsCopyFor, Posts, TakesOne};
ghost use Rattle.cq_store.specs.Stands.{count_of, last_of};

use super::Server;
use crate::message::{Answer, Message};
use crate::outboxes::Outboxes;
use cq_base::{Entry, NoMemory, Party, Reply, ServerId};

/// Sends the copy of an entry to the successor, if there is one, in room that was made.
fn forward(outboxes: &mut Outboxes, succ: Option<ServerId>, place: u64, copy: Option<Entry>)
    requires { HasRoomAt outboxes.old 1 succ }
    ensures posts { (entry : rust_entry.Entry) → IsCopyFor succ entry copy
        → Posts outboxes.old outboxes.new (to_server succ (sent.Fwd place entry)) }
    ensures room { TakesOne outboxes.old outboxes.new }
{
    if let Some(entry) = copy {
        outboxes.push_server(succ, Message::Fwd { place, entry });
    }
}

impl Server {
    /// Makes room for what a step sends.
    pub(super) fn reserve(&mut self) -> Result<(), NoMemory>
        ensures keeps { Keeps self.old self.new }
        ensures replica { self.new.replica ≡ self.old.replica }
        ensures room { OnOk result (HasRoom self.new.outboxes 4 self.new.pred self.new.succ) }
    {
        self.outboxes.reserve_all(self.alloc, self.pred, self.succ)
    }

    /// A copy of the entry for the successor, if there is one.
    fn copy_for_successor(&self, entry: &Entry) -> Result<Option<Entry>, NoMemory>
        ensures { IfOk result (IsCopyFor self.now.succ entry.now) }
    {
        match self.succ {
            Some(_) => Ok(Some(entry.try_copy()?)),
            None => Ok(None),
        }
    }

    /// Sends on an entry that has just come to the history: its copy goes to the successor, and the server answers it if
    /// it acts.
    fn pass_on(&mut self, client: u32, number: u64, copy: Option<Entry>, reply: Reply)
        requires { HasRoom self.old.outboxes 4 self.old.pred self.old.succ }
        ensures stands { (s : states.Server) (outbox : rust_party.Party → List sent.Message) (entry : rust_entry.Entry)
            → StandsFor self.old (appended s entry) outbox → reply ≡ reply_to s.entries entry
            → client ≡ entry.request.client → number ≡ entry.request.number → IsCopyFor self.old.succ entry copy
            → StandsFor self.new (appended s entry) (posted outbox (passed_on s entry)) }
        ensures room { HasRoom self.new.outboxes 2 self.new.pred self.new.succ }
    {
        let length = self.replica.count();
        forward(&mut self.outboxes, self.succ, length, copy);
        if self.is_acting() {
            let answer = Answer {
                client,
                number,
                is_query: false,
                length,
                reply,
            };
            self.outboxes.push(Party::Clients, Message::Answer(answer));
        }
    }

    /// One more entry, which is sent on, in room that was made.
    pub(super) fn append(&mut self, entry: Entry) -> Result<(), NoMemory>
        requires limit { count_of self.old.replica.store < HISTORY_LIMIT }
        requires stamped { last_of self.old.replica.store ≤ entry.moment }
        requires room { HasRoom self.old.outboxes 4 self.old.pred self.old.succ }
        ensures ok { OnOk result (Does self.old self.new
            (λ s. record { server = appended s entry; sent = passed_on s entry })) }
        ensures err { OnErr result (Keeps self.old self.new) }
        ensures left { OnOk result (HasRoom self.new.outboxes 2 self.new.pred self.new.succ) }
    {
        let client = entry.request.client;
        let number = entry.request.number;
        let copy = self.copy_for_successor(&entry)?;
        let reply = self.replica.append(entry)?;
        self.pass_on(client, number, copy, reply);
        Ok(())
    }

    /// Tells the predecessor what the tail has, and the master that the server acts if it did not before.
    pub(super) fn send_ack(&mut self, acted: bool)
        requires { HasRoom self.old.outboxes 2 self.old.pred self.old.succ }
        ensures { (old now : states.Server) (outbox : rust_party.Party → List sent.Message) → StandsFor self.old now outbox
            → acted ≡ acts old → old.pred ≡ now.pred → StandsFor self.new now (posted outbox (tail_news old now)) }
    {
        if self.is_acting() {
            let place = self.replica.count();
            self.outboxes.push_server(self.pred, Message::Ack { place });
            if !acted {
                self.outboxes.push(Party::Master, Message::Ready);
            }
        }
    }

    /// A server that acts has nothing more to send on.
    pub(super) fn acknowledge_all(&mut self)
        ensures { (s : states.Server) (outbox : rust_party.Party → List sent.Message) → StandsFor self.old s outbox
            → StandsFor self.new (settled s) outbox }
    {
        if self.is_acting() {
            self.acked = self.replica.count();
            self.replica.forget_all();
            self.full = true;
        }
    }
}

//! What a server does with the orders of the master.
ghost use Rattle.std.specs.Prelude.{◌≡◌, if◌then◌else◌, Some, None, OnOk, OnErr};
ghost use Rattle.cq_base.specs.declared.party.Party.TheVariants as parties;
ghost use Rattle.cq_chain.specs.Messages as sent;
ghost use Rattle.cq_chain.specs.Servers.{acts};
ghost use Rattle.cq_chain.specs.Stands.{Does, Keeps, Means};
ghost use Rattle.cq_chain.specs.Steps.{headed, reported, adopting, feeding, tailed, silent, takes};

use super::Server;
use crate::message::Message;
use crate::snapshot::Snapshot;
use cq_base::{NoMemory, Party, ServerId};

impl Server {
    /// It is the head: O(1). It takes no memory.
    fn be_head(&mut self)
        ensures { Does self.old self.new headed }
    {
        self.head = true;
        self.pred = None;
    }

    /// Its predecessor is that one: O(1).
    fn report(&mut self, pred: ServerId) -> Result<(), NoMemory>
        ensures ok { OnOk result (Does self.old self.new (reported pred)) }
        ensures err { OnErr result (Keeps self.old self.new) }
    {
        let count = self.replica.count();
        let place = self.acked;
        self.outboxes.reserve(self.alloc, Party::Master)?;
        self.outboxes.reserve(self.alloc, Party::Server(pred))?;
        self.pred = Some(pred);
        self.outboxes
            .push(Party::Master, Message::Have { pred, count });
        self.outboxes
            .push(Party::Server(pred), Message::Ack { place });
        Ok(())
    }

    /// Its successor is that one, which has so many entries: O(entries sent), or what a copy of the store takes. Where
    /// it is the successor already, O(1).
    fn adopt(&mut self, succ: ServerId, have: u64) -> Result<(), NoMemory>
        ensures ok { OnOk result (Does self.old self.new (adopting succ have)) }
        ensures err { OnErr result (Keeps self.old self.new) }
    {
        let count = self.replica.count();
        let messages = self.handover(succ, have)?;
        self.outboxes.reserve(self.alloc, Party::Master)?;
        self.outboxes
            .reserve_many(self.alloc, Party::Server(succ), messages.len())?;
        self.at_least = None;
        self.succ = Some(succ);
        self.outboxes.push_all(Party::Server(succ), messages);
        self.outboxes
            .push(Party::Master, Message::Adopted { succ, count });
        Ok(())
    }

    /// It is the tail, and acts once it has so many entries: O(1).
    fn be_tail(&mut self, least: u64) -> Result<(), NoMemory>
        ensures ok { OnOk result (Does self.old self.new (tailed least)) }
        ensures err { OnErr result (Keeps self.old self.new) }
    {
        self.reserve()?;
        self.at_least = Some(least);
        self.succ = None;
        self.send_ack(false);
        self.acknowledge_all();
        Ok(())
    }

    /// It feeds that server from now on: what a copy of the store takes.
    fn feed_one(&mut self, succ: ServerId) -> Result<(), NoMemory>
        ensures ok { OnOk result (Does self.old self.new (feeding (Some succ))) }
        ensures err { OnErr result (Keeps self.old self.new) }
    {
        let state = Snapshot::of(self.replica.store())?;
        self.outboxes.reserve(self.alloc, Party::Server(succ))?;
        self.succ = Some(succ);
        self.outboxes
            .push(Party::Server(succ), Message::Snap { state });
        Ok(())
    }

    /// It feeds nobody any more: O(1). It takes no memory.
    fn feed_none(&mut self)
        ensures { Does self.old self.new (feeding None) }
    {
        self.succ = None;
    }

    /// A server that acts feeds that one from now on, if there is one, and goes on acting.
    fn feed(&mut self, succ: Option<ServerId>) -> Result<(), NoMemory>
        ensures ok { OnOk result (Does self.old self.new (λ s. if acts s then feeding succ s else silent s)) }
        ensures err { OnErr result (Keeps self.old self.new) }
    {
        if !self.is_acting() {
            return Ok(());
        }
        match succ {
            Some(id) => self.feed_one(id),
            None => {
                self.feed_none();
                Ok(())
            }
        }
    }

    /// Takes a message of the master.
    pub(super) fn take_order(&mut self, message: &Message) -> Result<(), NoMemory>
        ensures ok { (m : sent.Message) → Means message.now m → OnOk result (Does self.old self.new (takes parties.Master m)) }
        ensures err { OnErr result (Keeps self.old self.new) }
    {
        match message {
            Message::BeHead => {
                self.be_head();
                Ok(())
            }
            Message::Report { pred } => self.report(*pred),
            Message::Adopt { succ, have } => self.adopt(*succ, *have),
            Message::BeTail { at_least } => self.be_tail(*at_least),
            Message::Feed { succ } => self.feed(*succ),
            _ => Ok(()),
        }
    }
}

//! What the master does with what servers tell it.
ghost use Rattle.std.specs.Prelude.{◌≡◌, ℕ, List, OnOk, OnErr};
ghost use Rattle.cq_base.specs.declared.party.Party as rust_party;
ghost use Rattle.cq_chain.specs.Masters as masters;
ghost use Rattle.cq_chain.specs.Masters.{hears, joins_behind};
ghost use Rattle.cq_chain.specs.Messages as sent;
ghost use Rattle.cq_chain.specs.Stands.{MasterStandsFor, Orders, KeepsMaster};

use super::Master;
use super::neighbours::{is_last, stands_before};
use crate::identity::is_that;
use crate::message::Message;
use cq_base::{NoMemory, ServerId};

impl Master {
    /// The server joins behind that one, which is the last member.
    fn joins_behind(&self, pred: ServerId, from: ServerId) -> bool
        ensures { (m : masters.Master) (outbox : rust_party.Party → List sent.Message) → MasterStandsFor self.now m outbox
            → result ≡ joins_behind pred from m }
    {
        is_that(self.joiner, from) && is_last(&self.chain, pred)
    }

    /// A server has that predecessor, and so many entries.
    pub(super) fn hear_have(
        &mut self,
        from: ServerId,
        pred: ServerId,
        count: u64,
    ) -> Result<(), NoMemory>
        ensures ok { OnOk result (Orders self.old self.new (hears from (sent.Have pred count))) }
        ensures err { OnErr result (KeepsMaster self.old self.new) }
    {
        if stands_before(pred, from, &self.chain) {
            let adopt = Message::Adopt {
                succ: from,
                have: count,
            };
            return self.order(pred, adopt);
        }
        if self.joins_behind(pred, from) {
            return self.order(pred, Message::Feed { succ: Some(from) });
        }
        Ok(())
    }

    /// A server has that predecessor, and took a snapshot of so many entries.
    pub(super) fn hear_caught(
        &mut self,
        from: ServerId,
        pred: ServerId,
        count: u64,
    ) -> Result<(), NoMemory>
        ensures ok { OnOk result (Orders self.old self.new (hears from (sent.Caught pred count))) }
        ensures err { OnErr result (KeepsMaster self.old self.new) }
    {
        if !self.joins_behind(pred, from) {
            return Ok(());
        }
        self.admit(pred, from, count)
    }

    /// A server has that successor, and so many entries itself.
    pub(super) fn hear_adopted(&mut self, succ: ServerId, count: u64) -> Result<(), NoMemory>
        ensures ok { (from : ℕ) → OnOk result (Orders self.old self.new (hears from (sent.Adopted succ count))) }
        ensures err { OnErr result (KeepsMaster self.old self.new) }
    {
        if !is_last(&self.chain, succ) {
            return Ok(());
        }
        if self.told {
            return Ok(());
        }
        let said = Some((succ, Message::BeTail { at_least: count }));
        self.reserve(&said)?;
        self.told = true;
        self.say(said);
        Ok(())
    }

    /// A server acts as tail.
    pub(super) fn hear_ready(&mut self, from: ServerId)
        ensures { Orders self.old self.new (hears from sent.Ready) }
    {
        if is_last(&self.chain, from) {
            self.ready = true;
        }
    }
}

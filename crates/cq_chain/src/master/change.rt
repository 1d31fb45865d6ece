//! Servers that are lost, and servers that join.
ghost use Rattle.std.specs.Prelude.{◌≡◌, ◌||◌, ◌&&◌, ◌∷◌, [], not, List, false, if◌then◌else◌, Some, None, OnOk, OnErr};
ghost use Rattle.cq_base.specs.declared.party.Party as rust_party;
ghost use Rattle.cq_base.specs.declared.party.Party.TheVariants as parties;
ghost use Rattle.cq_chain.specs.Masters as masters;
ghost use Rattle.cq_chain.specs.Masters.{is_in, closed_up, dropped, joined, admitted};
ghost use Rattle.cq_chain.specs.Messages as sent;
ghost use Rattle.cq_chain.specs.Stands.{MasterStandsFor, Orders, KeepsMaster, Means, posted};
ghost use Rattle.cq_chain.specs.within.Waiting.{IsSaid, HasRoomToSay};

use super::Master;
use super::neighbours::{is_last, said_of_drop, said_of_join, said_of_loss};
use crate::message::Message;
use cq_base::{NoMemory, Party, ServerId};

/// Whether the last member was told, once a member is gone.
fn is_told_after(last: bool, told: bool) -> bool
    ensures { result ≡ (last || told) }
{
    last || told
}

/// Whether the last member is ready, once a member is gone.
fn is_ready_after(last: bool, ready: bool) -> bool
    ensures { result ≡ (not last && ready) }
{
    !last && ready
}

/// The server that joins, once a member is gone.
fn joiner_after(last: bool, joiner: Option<ServerId>) -> Option<ServerId>
    ensures { result ≡ (if last then None else joiner) }
{
    if last { None } else { joiner }
}

impl Master {
    /// Makes room for what is said to one server, if anything is.
    pub(super) fn reserve(&mut self, said: &Option<(ServerId, Message)>) -> Result<(), NoMemory>
        ensures keeps { KeepsMaster self.old self.new }
        ensures chain { self.new.chain ≡ self.old.chain }
        ensures used { self.new.used ≡ self.old.used }
        ensures room { OnOk result (HasRoomToSay self.new.outboxes said.now) }
    {
        match said {
            Some((to, _)) => self.outboxes.reserve(self.alloc, Party::Server(*to)),
            None => Ok(()),
        }
    }

    /// Says it to one server, in room that was made.
    fn say_one(&mut self, said: (ServerId, Message))
        requires { HasRoomToSay self.old.outboxes (Some said) }
        ensures { (m : masters.Master) (outbox : rust_party.Party → List sent.Message) (all : List (rust_party.Party × sent.Message))
            → MasterStandsFor self.old m outbox → IsSaid (Some said) all → MasterStandsFor self.new m (posted outbox all) }
    {
        let (to, message) = said;
        self.outboxes.push(Party::Server(to), message);
    }

    /// Says it to one server, if anything is said, in room that was made.
    pub(super) fn say(&mut self, said: Option<(ServerId, Message)>)
        requires { HasRoomToSay self.old.outboxes said }
        ensures { (m : masters.Master) (outbox : rust_party.Party → List sent.Message) (all : List (rust_party.Party × sent.Message))
            → MasterStandsFor self.old m outbox → IsSaid said all → MasterStandsFor self.new m (posted outbox all) }
    {
        match said {
            Some(one) => self.say_one(one),
            None => (),
        }
    }

    /// Says that to one server.
    pub(super) fn order(&mut self, to: ServerId, message: Message) -> Result<(), NoMemory>
        ensures ok { (x : sent.Message) → Means message x
            → OnOk result (Orders self.old self.new (λ m. record { master = m; said = (parties.Server to, x) ∷ [] })) }
        ensures err { OnErr result (KeepsMaster self.old self.new) }
    {
        let said = Some((to, message));
        self.reserve(&said)?;
        self.say(said);
        Ok(())
    }

    /// Takes a member out of the chain. A new last member isn't ready yet, and no server joins behind it. It takes no
    /// memory.
    fn remove(&mut self, id: ServerId)
        ensures stands { (m : masters.Master) (outbox : rust_party.Party → List sent.Message) → MasterStandsFor self.old m outbox
            → MasterStandsFor self.new (closed_up id m).master outbox }
        ensures outboxes { self.new.outboxes ≡ self.old.outboxes }
    {
        let last = is_last(&self.chain, id);
        self.told = is_told_after(last, self.told);
        self.ready = is_ready_after(last, self.ready);
        self.joiner = joiner_after(last, self.joiner);
        self.chain.retain(|other| other.get() != id.get());
    }

    /// A member is gone.
    pub(super) fn lose(&mut self, id: ServerId) -> Result<(), NoMemory>
        ensures ok { OnOk result (Orders self.old self.new (closed_up id)) }
        ensures err { OnErr result (KeepsMaster self.old self.new) }
    {
        let said = said_of_loss(&self.chain, id);
        self.reserve(&said)?;
        self.remove(id);
        self.say(said);
        Ok(())
    }

    /// The server that joins is gone.
    pub(super) fn drop_joiner(&mut self) -> Result<(), NoMemory>
        ensures ok { OnOk result (Orders self.old self.new dropped) }
        ensures err { OnErr result (KeepsMaster self.old self.new) }
    {
        let said = said_of_drop(&self.chain);
        self.reserve(&said)?;
        self.joiner = None;
        self.say(said);
        Ok(())
    }

    /// A server whose number wasn't used begins to join.
    pub(super) fn begin_join(&mut self, id: ServerId) -> Result<(), NoMemory>
        ensures ok { is_in self.old.used.keys id ≡ false → OnOk result (Orders self.old self.new (joined id)) }
        ensures err { OnErr result (KeepsMaster self.old self.new) }
    {
        let said = said_of_join(&self.chain, id);
        self.reserve(&said)?;
        self.used.insert(id)?;
        self.joiner = Some(id);
        self.say(said);
        Ok(())
    }

    /// The server that joins comes to the end of the chain.
    pub(super) fn admit(&mut self, pred: ServerId, id: ServerId, count: u64) -> Result<(), NoMemory>
        ensures ok { OnOk result (Orders self.old self.new (admitted pred id count)) }
        ensures err { OnErr result (KeepsMaster self.old self.new) }
    {
        let adopt = Message::Adopt {
            succ: id,
            have: count,
        };
        let said = Some((pred, adopt));
        self.reserve(&said)?;
        self.chain.reserve(1)?;
        self.chain.push_reserved(id);
        self.told = false;
        self.ready = false;
        self.joiner = None;
        self.say(said);
        Ok(())
    }
}

//! Messages on their way: put on links, given to clients, and taken.
ghost use Rattle.std.specs.Prelude.{◌≡◌, ◌≢◌, [], ◌∷◌, is_none, true, IfErr, OnOk};
ghost use Rattle.cq_base.specs.declared.party.Party.TheVariants as parties;
ghost use Rattle.cq_chain.specs.Faults.{IsRefusal};
ghost use Rattle.cq_chain.specs.Messages as told;
ghost use Rattle.cq_chain.specs.declared.fault.WorldFault.TheVariants as faults;
ghost use Rattle.cq_chain.specs.Stands.{IsFirst, Means};
ghost use Rattle.cq_events.specs.Events.{refusal_of, refusal_of_take, without_first, answers_in, head_of};
ghost use Rattle.cq_world.specs.within.Kept.{IsFilled, after_popping};
ghost use Rattle.cq_world.specs.Stands.{StandsFor, Shows, Happens, Gives, IsRefused};
ghost use Rattle.cq_world.specs.within.Calls.{IsDone, IsPut, IsPutRefused, IsTaken, IsTakeRefused};
ghost use Rattle.cq_events.specs.Worlds.{is_in};
ghost use Rattle.cq_events.specs.declared.event.Event.TheVariants as events;

use super::Sim;
use crate::links::LinkKey;
use cq_base::{Party, ServerId};
use cq_chain::{Answer, Message, WorldFault};

/// The answer that a message is, if it is one.
fn answer_in(message: Message) -> Option<Answer>
    ensures { (m : told.Message) → Means message m → result ≡ head_of (answers_in (m ∷ [])) }
{
    message.into_answer()
}

impl Sim {
    /// The first message that waits at a server for a party leaves its outbox.
    fn pop_at_server(&mut self, id: ServerId, to: Party) -> Option<Message>
        ensures first { Shows self.old (λ w. IsFirst result (w.outbox (parties.Server id) to)) }
        ensures drawn { Happens self.old self.new (λ w. after_popping w (parties.Server id) to) }
        ensures links { self.new.links ≡ self.old.links }
    {
        match self.servers.get_mut(&id) {
            Some(server) => server.put(to),
            None => None,
        }
    }

    /// The first message that waits at the master for a party leaves its outbox.
    fn pop_at_master(&mut self, to: Party) -> Option<Message>
        ensures first { Shows self.old (λ w. IsFirst result (w.outbox parties.Master to)) }
        ensures drawn { Happens self.old self.new (λ w. after_popping w parties.Master to) }
        ensures links { self.new.links ≡ self.old.links }
    {
        match to {
            Party::Server(id) => self.master.put(id),
            _ => None,
        }
    }

    /// The first message that waits at one party for another leaves its outbox.
    fn pop(&mut self, pair: &LinkKey) -> Option<Message>
        ensures first { Shows self.old (λ w. IsFirst result (w.outbox pair.now.from pair.now.to)) }
        ensures drawn { Happens self.old self.new (λ w. after_popping w pair.now.from pair.now.to) }
        ensures links { self.new.links ≡ self.old.links }
    {
        match pair.from {
            Party::Server(id) => self.pop_at_server(id, pair.to),
            Party::Master => self.pop_at_master(pair.to),
            Party::Clients => None,
        }
    }

    /// The first message that waits for the clients is given to them.
    fn give(&mut self, pair: &LinkKey) -> Result<Option<Answer>, WorldFault>
        requires { pair.now.to ≡ parties.Clients }
        ensures ok { IsPut self.old self.new pair.now result }
        ensures err { IsPutRefused self.old self.new pair.now result }
    {
        match self.pop(pair) {
            Some(message) => Ok(answer_in(message)),
            None => Err(WorldFault::OutboxEmpty),
        }
    }

    /// The first message that waits is put on its link. Its room is made before it leaves the outbox.
    fn post(&mut self, pair: &LinkKey) -> Result<Option<Answer>, WorldFault>
        requires { pair.now.to ≢ parties.Clients }
        ensures ok { IsPut self.old self.new pair.now result }
        ensures err { IsPutRefused self.old self.new pair.now result }
    {
        if self.outbox_count(pair) == 0 {
            return Err(WorldFault::OutboxEmpty);
        }
        self.links.reserve(pair)?;
        match self.pop(pair) {
            Some(message) => {
                self.links.push(pair, message);
                Ok(None)
            }
            None => Err(WorldFault::OutboxEmpty),
        }
    }

    /// Whether a put isn't refused, but maybe for want of memory: O(1).
    pub(super) fn may_put(&self, pair: &LinkKey) -> bool
        ensures { Shows self.now (λ w. result ≡ is_none (refusal_of w (events.Put pair.now.from pair.now.to))) }
    {
        if !self.has_parties(pair) {
            return false;
        }
        let sender_is_down = self.is_down(&pair.from);
        if sender_is_down {
            return false;
        }
        self.outbox_count(pair) != 0
    }

    /// What waits is put on its link, or given.
    pub(super) fn put(&mut self, pair: &LinkKey) -> Result<Option<Answer>, WorldFault>
        ensures ok { Gives self.old self.new (events.Put pair.now.from pair.now.to) result }
        ensures err { IsRefused self.old self.new (events.Put pair.now.from pair.now.to) result }
    {
        if !self.has_parties(pair) {
            return Err(WorldFault::NoSuchServer);
        }
        if self.is_down(&pair.from) {
            return Err(WorldFault::ServerDown);
        }
        match pair.to {
            Party::Clients => self.give(pair),
            _ => self.post(pair),
        }
    }

    /// A server takes the first message of a link. The message leaves the link only if the server takes it.
    fn take_at(&mut self, pair: &LinkKey, id: ServerId) -> Result<(), WorldFault>
        requires { pair.now.to ≡ parties.Server id }
        ensures ok { IsTaken self.old self.new pair.now result }
        ensures err { Shows self.old (λ w. is_in w.master.used id ≡ true → IfErr result (λ fault.
            IsRefusal fault (refusal_of_take w pair.now.from pair.now.to (w.link pair.now.from pair.now.to))
            × StandsFor self.new w)) }
    {
        match self.links.first(pair) {
            Some(message) => match self.servers.get_mut(&id) {
                Some(server) => {
                    server.take(pair.from, message)?;
                    self.links.pop(pair);
                    Ok(())
                }
                None => Err(WorldFault::NoSuchServer),
            },
            None => Err(WorldFault::LinkEmpty),
        }
    }

    /// The master hears the first message of a link from a server. The message leaves the link only if it does.
    fn hear(&mut self, pair: &LinkKey, id: ServerId) -> Result<(), WorldFault>
        requires from { pair.now.from ≡ parties.Server id }
        requires to { pair.now.to ≡ parties.Master }
        ensures ok { IsTaken self.old self.new pair.now result }
        ensures err { IsTakeRefused self.old self.new pair.now result }
    {
        match self.links.first(pair) {
            Some(message) => {
                self.master.take(id, message)?;
                self.links.pop(pair);
                Ok(())
            }
            None => Err(WorldFault::LinkEmpty),
        }
    }

    /// The first message of a link leaves it.
    fn drop_first(&mut self, pair: &LinkKey) -> Result<(), WorldFault>
        ensures ok { Shows self.old (λ w. OnOk result
            (IsFilled (w.link pair.now.from pair.now.to) × StandsFor self.new (without_first w pair.now.from pair.now.to))) }
        ensures err { Shows self.old (λ w. IfErr result (λ fault.
            (fault ≡ faults.LinkEmpty) × (w.link pair.now.from pair.now.to ≡ []) × StandsFor self.new w)) }
    {
        if self.links.waiting(pair) == 0 {
            return Err(WorldFault::LinkEmpty);
        }
        self.links.pop(pair);
        Ok(())
    }

    /// The master takes the first message of a link. It hears servers alone.
    fn take_by_master(&mut self, pair: &LinkKey) -> Result<(), WorldFault>
        requires { pair.now.to ≡ parties.Master }
        ensures ok { IsTaken self.old self.new pair.now result }
        ensures err { IsTakeRefused self.old self.new pair.now result }
    {
        match pair.from {
            Party::Server(id) => self.hear(pair, id),
            _ => self.drop_first(pair),
        }
    }

    /// The first message of a link is taken. The clients do nothing with it.
    pub(super) fn take(&mut self, pair: &LinkKey) -> Result<(), WorldFault>
        ensures ok { IsDone self.old self.new (events.Take pair.now.from pair.now.to) result }
        ensures err { IsRefused self.old self.new (events.Take pair.now.from pair.now.to) result }
    {
        if !self.has_parties(pair) {
            return Err(WorldFault::NoSuchServer);
        }
        if self.is_down(&pair.to) {
            return Err(WorldFault::ServerDown);
        }
        match pair.to {
            Party::Server(id) => self.take_at(pair, id),
            Party::Master => self.take_by_master(pair),
            Party::Clients => self.drop_first(pair),
        }
    }
}

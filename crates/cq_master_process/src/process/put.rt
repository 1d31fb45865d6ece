//! Messages that are put for one server.
ghost use Rattle.std.specs.Prelude.{◌≡◌, ◌+◌, ◌<◌, List, ℕ, true, false, OnOk};
ghost use Rattle.cq_base.specs.Relations.{IsPrefix};
ghost use Rattle.cq_base.specs.declared.party.Party.TheVariants as parties;
ghost use Rattle.cq_chain.specs.declared.message.Message as rust_message;
ghost use Rattle.cq_events.specs.Actions.{Put};
ghost use Rattle.cq_master_process.specs.Cores.{Acts};
ghost use Rattle.cq_master_process.specs.Links.{counted, gone_of, is_open, put_of, taken_of};
ghost use Rattle.cq_master_process.specs.within.Behind.{HasTurn, PutsFor};
ghost use Rattle.cq_master_process.specs.Steps.{Keeps};
ghost use Rattle.cq_master_process.specs.within.Telling.{IsEmptyFor, IsFirstFor, OnIdle, OnNoMemory, OnNothing, OnPut};
ghost use Rattle.cq_process.specs.declared.outgoing.TheConstants.{LINK_LIMIT};

use super::{MasterProcess, Unanswered};
use crate::telling::{Putting, tell_first};
use cq_base::ServerId;
use cq_process::LINK_LIMIT;

impl MasterProcess {
    /// The first message for that server leaves its outbox, and counts.
    fn draw(&mut self, to: ServerId)
        requires open { is_open self.old.links to ≡ true }
        requires room { put_of self.old.links to < LINK_LIMIT }
        ensures done { (x : rust_message.Message) → IsFirstFor self.old.core to x → Acts (Put (parties.Server to) x) self.old.core self.new.core }
        ensures counts { put_of self.new.links ≡ counted (put_of self.old.links) to }
        ensures open { is_open self.new.links to ≡ true }
        ensures taken { taken_of self.new.links ≡ taken_of self.old.links }
        ensures gone { gone_of self.new.links ≡ gone_of self.old.links }
    {
        let _message = self.core.put(to);
        self.links.count_put(to);
    }

    /// The first message for that server is put, and told by its number.
    fn put_told(&mut self, to: ServerId, out: &mut Vec<u8>) -> Putting
        requires open { is_open self.old.links to ≡ true }
        requires room { put_of self.old.links to < LINK_LIMIT }
        requires here { gone_of self.old.links to ≡ false }
        ensures put { OnPut result (PutsFor self.old self.new to out.old.items out.new.items) }
        ensures counts { OnPut result (put_of self.new.links to ≡ put_of self.old.links to + 1) }
        ensures open { is_open self.new.links to ≡ true }
        ensures idle { OnIdle result (Keeps self.old self.new) }
        ensures bytes { OnIdle result (out.new.items ≡ out.old.items) }
        ensures empty { OnNothing result (IsEmptyFor self.old.core to) }
    {
        let number = self.links.last_put(to) + 1;
        match tell_first(&self.core, to, number, out) {
            Putting::Put => {
                self.draw(to);
                Putting::Put
            }
            Putting::Nothing => Putting::Nothing,
            Putting::NoMemory => Putting::NoMemory,
            Putting::Untellable => Putting::Untellable,
        }
    }

    /// The first message for that server, which is gone, is put and thrown away.
    fn put_thrown(&mut self, to: ServerId) -> Putting
        requires open { is_open self.old.links to ≡ true }
        requires room { put_of self.old.links to < LINK_LIMIT }
        requires gone { gone_of self.old.links to ≡ true }
        ensures put { (bytes : List ℕ) → OnPut result (PutsFor self.old self.new to bytes bytes) }
        ensures counts { OnPut result (put_of self.new.links to ≡ put_of self.old.links to + 1) }
        ensures open { is_open self.new.links to ≡ true }
        ensures idle { OnIdle result (Keeps self.old self.new) }
        ensures empty { OnNothing result (IsEmptyFor self.old.core to) }
        ensures memory { OnNoMemory result ⊥ }
    {
        match self.core.put(to) {
            Some(_message) => {
                self.links.count_put(to);
                Putting::Put
            }
            None => Putting::Nothing,
        }
    }

    /// The first message for that server is put, and told by its number unless the server is gone.
    fn put_next(&mut self, to: ServerId, out: &mut Vec<u8>) -> Putting
        requires open { is_open self.old.links to ≡ true }
        requires room { put_of self.old.links to < LINK_LIMIT }
        ensures put { OnPut result (PutsFor self.old self.new to out.old.items out.new.items) }
        ensures counts { OnPut result (put_of self.new.links to ≡ put_of self.old.links to + 1) }
        ensures open { is_open self.new.links to ≡ true }
        ensures idle { OnIdle result (Keeps self.old self.new) }
        ensures bytes { OnIdle result (out.new.items ≡ out.old.items) }
        ensures empty { OnNothing result (IsEmptyFor self.old.core to) }
        ensures memory { OnNoMemory result (gone_of self.old.links to ≡ false) }
    {
        if self.links.is_gone(to) {
            return self.put_thrown(to);
        }
        self.put_told(to, out)
    }

    /// All that waits for that server is put, as far as there is memory and numbers.
    fn put_all(&mut self, to: ServerId, out: &mut Vec<u8>) -> Result<(), Unanswered>
        requires { is_open self.old.links to ≡ true }
        ensures turn { OnOk result (HasTurn self.old self.new to out.old.items out.new.items) }
        ensures front { IsPrefix out.old.items out.new.items }
    {
        for _ in self.links.last_put(to)..LINK_LIMIT {
            match self.put_next(to, out) {
                Putting::Put => (),
                Putting::Nothing => return Ok(()),
                Putting::NoMemory => return Ok(()),
                Putting::Untellable => return Err(Unanswered),
            }
        }
        Ok(())
    }

    /// The turn of that server: all that waits for it is put, as far as there is memory and numbers.
    pub(super) fn turn(&mut self, to: ServerId, out: &mut Vec<u8>) -> Result<(), Unanswered>
        ensures turn { OnOk result (HasTurn self.old self.new to out.old.items out.new.items) }
        ensures front { IsPrefix out.old.items out.new.items }
    {
        match self.links.open(to) {
            Ok(()) => self.put_all(to, out),
            Err(_) => Ok(()),
        }
    }
}

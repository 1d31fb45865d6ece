//! The turns of all servers.
ghost use Rattle.std.specs.Prelude.{◌≡◌, List, true, IfSome, IfOk, OnOk};
ghost use Rattle.cq_base.specs.declared.party.Party as rust_party;
ghost use Rattle.cq_base.specs.Relations.{IsPrefix};
ghost use Rattle.cq_chain.specs.Masters as masters;
ghost use Rattle.cq_chain.specs.Messages as sent;
ghost use Rattle.cq_chain.specs.Next.{IsNext, is_above};
ghost use Rattle.cq_chain.specs.Stands.{MasterStandsFor};
ghost use Rattle.cq_master_process.specs.Links.{put_of};
ghost use Rattle.cq_master_process.specs.Turns.{IsLeft};
ghost use Rattle.cq_master_process.specs.within.Behind.{PutsInOrder, TakesTurns};
ghost use Rattle.cq_wire.specs.Limits.{IsServer};

use super::{MasterProcess, Unanswered};
use cq_base::ServerId;
use cq_chain::Master;
use cq_process::LINK_LIMIT;
use cq_wire::server_fits;

/// Whether that server comes behind the other one by its number. Behind none each comes.
fn is_above(other: &Option<ServerId>, id: ServerId) -> bool
    ensures { result ≡ is_above other.now id }
{
    match other {
        Some(other) => other.get() < id.get(),
        None => true,
    }
}

/// The first server behind that one for which something waits: O(servers that a chain ever had).
fn next_behind(core: &Master, after: &Option<ServerId>) -> Option<ServerId>
    ensures next { (m : masters.Master) (outbox : rust_party.Party → List sent.Message) → MasterStandsFor core.now m outbox → IsNext after.now outbox result }
    ensures above { IfSome result (λ id. is_above after.now id ≡ true) }
    ensures fits { IfSome result (λ id. IsServer id) }
{
    match core.next_waiting(*after) {
        Some(id) => {
            server_fits(id);
            if is_above(after, id) { Some(id) } else { None }
        }
        None => None,
    }
}

impl MasterProcess {
    /// All that waits is put, server by server, as far as there is memory and numbers.
    fn put_in_order(&mut self, out: &mut Vec<u8>) -> Result<(), Unanswered>
        ensures puts { OnOk result (PutsInOrder self.old self.new out.old.items out.new.items) }
        ensures front { IsPrefix out.old.items out.new.items }
    {
        let mut after = None;
        while let Some(id) = next_behind(&self.core, &after) {
            match self.turn(id, out) {
                Ok(()) => (),
                Err(fault) => return Err(fault),
            }
            after = Some(id);
        }
        Ok(())
    }

    /// The first server for which something waits, as long as its link has a number left: O(servers, for each for which something
    /// waits).
    fn first_left(&self) -> Option<ServerId>
        ensures { IsLeft self.now.core (put_of self.now.links) result }
    {
        let mut after = None;
        while let Some(id) = next_behind(&self.core, &after) {
            if self.links.last_put(id) < LINK_LIMIT {
                return Some(id);
            }
            after = Some(id);
        }
        None
    }

    /// The turns of all servers, and the first server for which something still waits.
    pub(super) fn turns(&mut self, out: &mut Vec<u8>) -> Result<Option<ServerId>, Unanswered>
        ensures turns { IfOk result (λ waits. TakesTurns self.old self.new waits out.old.items out.new.items) }
        ensures front { IsPrefix out.old.items out.new.items }
    {
        match self.put_in_order(out) {
            Ok(()) => Ok(self.first_left()),
            Err(fault) => Err(fault),
        }
    }
}

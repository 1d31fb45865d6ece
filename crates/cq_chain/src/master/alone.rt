//! The master of a chain of one that nobody ever joined.
ghost use Rattle.std.specs.Prelude.{◌≡◌, ◌∷◌, List, [], true, None};
ghost use Rattle.cq_base.specs.declared.party.Party as rust_party;
ghost use Rattle.cq_chain.specs.Masters as masters;
ghost use Rattle.cq_chain.specs.Masters.{first_master};
ghost use Rattle.cq_chain.specs.Messages as sent;
ghost use Rattle.cq_chain.specs.Stands.{MasterStandsFor};

use super::Master;
use cq_base::ServerId;

/// Whether a number is the only one of these.
fn is_only(numbers: &[ServerId], id: ServerId) -> bool
    ensures { result ≡ true → numbers.now ≡ id ∷ [] }
{
    match numbers {
        [one] => *one == id,
        _ => false,
    }
}

impl Master {
    /// Whether it knows what the master of a first chain of one does, and nothing waits at it: O(1).
    pub fn is_alone(&self) -> bool
        ensures state { (m : masters.Master) (outbox : rust_party.Party → List sent.Message) → MasterStandsFor self.now m outbox
            → result ≡ true → m ≡ first_master 1 }
        ensures nothing { (m : masters.Master) (outbox : rust_party.Party → List sent.Message) → MasterStandsFor self.now m outbox
            → result ≡ true → (to : rust_party.Party) → outbox to ≡ [] }
        ensures again { (outbox : rust_party.Party → List sent.Message) → result ≡ true → ((to : rust_party.Party) → outbox to ≡ [])
            → MasterStandsFor self.now (first_master 1) outbox }
    {
        self.is_settled_alone() && self.outboxes.is_empty()
    }

    /// The same, but for what waits.
    fn is_settled_alone(&self) -> bool
        ensures members { result ≡ true → (self.now.chain.items ≡ 1 ∷ []) × (self.now.used.keys ≡ 1 ∷ []) }
        ensures settled { result ≡ true → (self.now.told ≡ true) × (self.now.ready ≡ true) × (self.now.joiner ≡ None) }
    {
        self.has_one_member() && self.is_settled()
    }

    /// Server 1 is the only member, and no other number was ever used.
    fn has_one_member(&self) -> bool
        ensures { result ≡ true → (self.now.chain.items ≡ 1 ∷ []) × (self.now.used.keys ≡ 1 ∷ []) }
    {
        match ServerId::new(1) {
            Some(first) => is_only(&self.chain, first) && is_only(self.used.as_slice(), first),
            None => false,
        }
    }

    /// The last member was told, and acts, and no server joins.
    fn is_settled(&self) -> bool
        ensures { result ≡ true → (self.now.told ≡ true) × (self.now.ready ≡ true) × (self.now.joiner ≡ None) }
    {
        self.told && self.ready && self.joiner.is_none()
    }
}

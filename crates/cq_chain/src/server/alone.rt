//! The server of a chain of one, at rest: its store is all that has to be known of it.
ghost use Rattle.std.specs.Prelude.{◌≡◌, List, [], true, false, None, Some};
ghost use Rattle.cq_base.specs.declared.ask.Entry as rust_entry;
ghost use Rattle.cq_base.specs.declared.party.Party as rust_party;
ghost use Rattle.cq_chain.specs.Messages as sent;
ghost use Rattle.cq_chain.specs.Servers as states;
ghost use Rattle.cq_chain.specs.Servers.{alone};
ghost use Rattle.cq_chain.specs.Stands.{StandsFor};
ghost use Rattle.cq_store.specs.Stands as stores;
ghost use Rattle.cq_store.specs.Stands.{count_of};

use super::Server;
use crate::outboxes::Outboxes;
use crate::replica::Replica;
use cq_store::Store;
use std::alloc::Global;

impl Server {
    /// The server of a chain of one, at rest, whose store that is. It keeps the allocator. O(1).
    pub fn alone(alloc: Global, store: Store) -> Server
        ensures { (entries : List rust_entry.Entry) (outbox : rust_party.Party → List sent.Message) → stores.StandsFor store entries
            → ((to : rust_party.Party) → outbox to ≡ []) → StandsFor result (alone entries) outbox }
    {
        let replica = Replica::of_store(alloc, store);
        Server {
            alloc,
            acked: replica.count(),
            replica,
            pred: None,
            succ: None,
            head: true,
            at_least: Some(0),
            full: true,
            down: false,
            outboxes: Outboxes::new(alloc),
        }
    }

    /// Its store: O(1).
    pub fn store(&self) -> &Store
        ensures own { result.now ≡ self.now.replica.store }
        ensures stands { (s : states.Server) (outbox : rust_party.Party → List sent.Message) → StandsFor self.now s outbox
            → stores.StandsFor result.now s.entries }
    {
        self.replica.store()
    }

    /// Whether it is the server of a chain of one, at rest: nothing waits at it for anyone. O(parties to which it ever sent).
    pub fn is_alone(&self) -> bool
        ensures state { (s : states.Server) (outbox : rust_party.Party → List sent.Message) → StandsFor self.now s outbox
            → result ≡ true → s ≡ alone s.entries }
        ensures nothing { (s : states.Server) (outbox : rust_party.Party → List sent.Message) → StandsFor self.now s outbox
            → result ≡ true → (to : rust_party.Party) → outbox to ≡ [] }

        // Then it stands for a server alone behind all entries for which its store stands.
        ensures again { (entries : List rust_entry.Entry) (outbox : rust_party.Party → List sent.Message) → result ≡ true
            → stores.StandsFor self.now.replica.store entries → ((to : rust_party.Party) → outbox to ≡ []) → StandsFor self.now (alone entries) outbox }
    {
        self.is_settled_alone() && self.outboxes.is_empty()
    }

    /// The same, but for what waits.
    fn is_settled_alone(&self) -> bool
        ensures only { result ≡ true → (self.now.pred ≡ None) × (self.now.succ ≡ None) × (self.now.head ≡ true) × (self.now.at_least ≡ Some 0) × (self.now.full ≡ true) × (self.now.down ≡ false) }
        ensures settled { result ≡ true → (self.now.acked ≡ count_of self.now.replica.store) × (self.now.replica.entries ≡ []) }
    {
        self.is_only_member() && self.has_settled()
    }

    /// It is head and tail, and lives.
    fn is_only_member(&self) -> bool
        ensures { result ≡ true → (self.now.pred ≡ None) × (self.now.succ ≡ None) × (self.now.head ≡ true) × (self.now.at_least ≡ Some 0) × (self.now.full ≡ true) × (self.now.down ≡ false) }
    {
        self.pred.is_none()
            && self.succ.is_none()
            && self.head
            && self.at_least == Some(0)
            && self.full
            && !self.down
    }

    /// All of its entries are acknowledged, and none is kept.
    fn has_settled(&self) -> bool
        ensures { result ≡ true → (self.now.acked ≡ count_of self.now.replica.store) × (self.now.replica.entries ≡ []) }
    {
        self.acked == self.replica.count() && self.replica.kept() == 0
    }
}

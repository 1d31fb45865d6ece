//! What is kept of each client: its largest number, and the reply to it.
ghost use Rattle.std.specs.Prelude.{◌≡◌, ◌<◌, ◌==◌, ◌++◌, [], ◌∷◌, true, false, length, slice_get, nat_eq, None, Some, ℕ, option_map, cond, IfOk, IfSome, IfNone, OnOk, OnErr};
ghost use Rattle.std.specs.List.{IsDistinct};
ghost use Rattle.std.specs.Map.{keys_of};
ghost use Rattle.indexmap.specs.IndexMap.{get};
ghost use Rattle.cq_store.specs.within.Rooms.{again_of};
ghost use Rattle.cq_store.specs.Stands.{client_at};

use cq_base::{NoMemory, Refusal, Reply};
use indexmap::IndexMap;
use std::alloc::Global;
use std::marker::Model;

/// What is kept of a client.
pub struct ClientRecord {
    /// The largest number that it used.
    pub number: u64,
    /// The reply that this number had.
    pub reply: Reply,
}

/// Written out, not derived: CONTRIBUTING.md, "Drop".
impl Drop for ClientRecord {
    fn drop(self) {
        let ClientRecord {
            number: _,
            reply: _,
        } = self;
    }
}

impl Model for ClientRecord {
    ghost use Rattle.cq_store.specs.Stands as spec;

    ghost Value = { spec.ClientRecord };

    ghost view = { λ c. record { number = c.number; reply = c.reply } };
}

impl ClientRecord {
    fn repeat_reply(&self, number: u64) -> Result<Option<Reply>, NoMemory>
        ensures { IfOk result (λ reply. reply ≡ again_of (Some self.now) number) }
    {
        if self.number < number {
            return Ok(None);
        }
        if number < self.number {
            return Ok(Some(Reply::Refused(Refusal::StaleNumber)));
        }
        Ok(Some(self.reply.try_copy()?))
    }

    /// The same. It shares the texts.
    fn try_copy(&self) -> Result<ClientRecord, NoMemory>
        ensures { IfOk result (λ copy. copy ≡ self.now) }
    {
        Ok(ClientRecord {
            number: self.number,
            reply: self.reply.try_copy()?,
        })
    }
}

/// What is kept of all clients, found by a hash of the client.
pub struct ClientTable {
    kept: IndexMap<u32, ClientRecord>,
}

/// Written out, not derived: CONTRIBUTING.md, "Drop".
impl Drop for ClientTable {
    fn drop(self) {
        let ClientTable { kept: _ } = self;
    }
}

impl Model for ClientTable {
    ghost use Rattle.indexmap.specs.IndexMap.{spare};
    ghost use Rattle.cq_store.specs.within.Rooms as rooms;

    ghost Value = { rooms.ClientTable };

    ghost view = { λ c. record { kept = c.kept.entries; room = spare c.kept } };
}

impl ClientTable {
    /// No client is kept yet.
    pub fn new(alloc: Global) -> ClientTable
        ensures none { (client : ℕ) → client_at result.kept client ≡ None }
        ensures empty { result.kept ≡ [] }
    {
        ClientTable {
            kept: IndexMap::new(alloc),
        }
    }

    /// What is kept of the client: O(1).
    pub fn get(&self, client: u32) -> Option<&ClientRecord>
        ensures { option_map (λ kept. kept.now) result ≡ client_at self.now.kept client }
    {
        self.kept.get(&client)
    }

    /// How many clients there are: O(1).
    pub fn len(&self) -> usize
        ensures len { result ≡ length self.now.kept }
        ensures distinct { IsDistinct nat_eq (keys_of self.now.kept) }
    {
        self.kept.len()
    }

    /// The client at that place, and what is kept of it: O(1).
    pub fn get_index(&self, index: usize) -> Option<(&u32, &ClientRecord)>
        ensures some { IfSome result (λ c. slice_get self.now.kept index ≡ Some (c.0.now, c.1.now)) }
        ensures none { IfNone result (slice_get self.now.kept index ≡ None) }
    {
        self.kept.get_index(index)
    }

    /// Puts that of a client behind all others, and answers whether it did: not where the client is there. After
    /// `NoMemory` nothing has changed. O(1) expected and amortized.
    pub fn restore(&mut self, client: u32, one: ClientRecord) -> Result<bool, NoMemory>
        ensures put { IfOk result (λ is. is ≡ true → self.new.kept ≡ self.old.kept ++ (client, one) ∷ []) }
        ensures new { IfOk result (λ is. is ≡ true → client_at self.old.kept client ≡ None) }
        ensures refused { IfOk result (λ is. is ≡ false → self.new.kept ≡ self.old.kept) }
        ensures only { IfOk result (λ is. is ≡ false → client_at self.old.kept client ≡ None → ⊥) }
        ensures err { OnErr result (self.new.kept ≡ self.old.kept) }
    {
        if self.kept.get(&client).is_some() {
            return Ok(false);
        }
        self.kept.insert(client, one)?;
        Ok(true)
    }

    /// Makes room for one more client.
    pub fn reserve(&mut self) -> Result<(), NoMemory>
        ensures same { self.new.kept ≡ self.old.kept }
        ensures room { OnOk result (0 < self.new.room) }
    {
        self.kept.reserve(1)?;
        Ok(())
    }

    /// Keeps the reply of the client's largest number, in room that was made: O(1).
    pub fn keep(&mut self, client: u32, number: u64, reply: Reply)
        requires { 0 < self.old.room }
        ensures { (other : ℕ) → client_at self.new.kept other
            ≡ cond (client == other) (Some (record { number = number; reply = reply })) (client_at self.old.kept other) }
    {
        match self.kept.insert(client, ClientRecord { number, reply }) {
            Ok(_) => (),
            Err(_) => unreachable!(),
        }
    }

    /// What the client is answered again under that number: the kept reply under the largest number that it
    /// used, a refusal under a smaller one, nothing under a greater one. It copies the kept reply.
    pub fn repeat_reply(&self, client: u32, number: u64) -> Result<Option<Reply>, NoMemory>
        ensures { IfOk result (λ reply. reply ≡ again_of (client_at self.now.kept client) number) }
    {
        match self.get(client) {
            Some(kept) => kept.repeat_reply(number),
            None => Ok(None),
        }
    }

    /// The same of each client. It shares the texts: O(clients and what is kept of each).
    pub fn try_copy(&self) -> Result<ClientTable, NoMemory>
        ensures { IfOk result (λ copy. (client : ℕ) → client_at copy.kept client ≡ client_at self.now.kept client) }
    {
        let mut kept = IndexMap::new(*self.kept.allocator());
        for i in 0..self.kept.len() {
            match self.kept.get_index(i) {
                Some((client, reply)) => {
                    kept.insert(*client, reply.try_copy()?)?;
                }
                None => unreachable!(),
            }
        }
        Ok(ClientTable { kept })
    }
}

//! The bodies of kept replies, each once, in the order of their first mentions.
ghost use Rattle.std.specs.Prelude.{◌≡◌, ◌<◌, ◌^◌, [], length, take, true, false, slice_get, if◌then◌else◌, Ok, Err, IfOk, IfSome, IfNone, OnOk, OnErr};
ghost use Rattle.std.specs.Option.{option_map};
ghost use Rattle.std.specs.List.{position_or_len};
ghost use Rattle.std.specs.Str.{bytes_eq};
ghost use Rattle.std.specs.Hash as fed;
ghost use Rattle.std.specs.Cmp.Rules.{comparing, hashing};
ghost use Rattle.std.proofs.Common.{rules};
ghost use Rattle.cq_wire.specs.declared.fault.WireFault.TheVariants.{BadNumber};
ghost use Rattle.cq_wire.specs.Reading.{Gives};
ghost use Rattle.cq_store_wire.specs.Bodies.{and_body, is_known, resolve};

use crate::reply::Mention;
use cq_base::{Body, NoMemory};
use cq_wire::{ReadFault, WireFault};
use indexmap::IndexSet;
use std::alloc::Global;
use std::hash::{Hash, Hasher};
use std::marker::Model;

/// A body that is found by a hash of its text.
#[derive(Drop)]
struct Key {
    body: Body,
}

impl Model for Key {
    ghost use Rattle.std.specs.Prelude.{ℕ, List};

    ghost Value = { List ℕ };

    ghost view = { λ k. k.body };
}

impl PartialEq for Key {
    ghost eq = { bytes_eq };

    ghost laws = { Prim.search (comparing, rules) };

    fn eq(&self, other: &Key) -> bool {
        self.body == other.body
    }
}

impl Eq for Key {
    ghost laws = { Prim.search (comparing, rules) };
}

impl Hash for Key {
    ghost hash_input = { λ t. fed.str t };

    ghost respects_eq = { Prim.search (hashing, comparing, rules) };

    fn hash<H: Hasher>(&self, state: &mut H) {
        self.body.as_str().hash(state);
    }
}

/// The same body. It shares the text.
fn copy_of(body: &Body) -> Result<Body, ReadFault>
    ensures { Gives (λ copy. copy) result (Ok body.now) }
{
    match body.try_copy() {
        Ok(copy) => Ok(copy),
        Err(_) => Err(ReadFault::NoMemory),
    }
}

/// The bodies that were mentioned, by their numbers. It shares their texts.
#[derive(Drop)]
pub struct Bodies {
    keys: IndexSet<Key>,
}

impl Model for Bodies {
    ghost use Rattle.std.specs.Prelude.{ℕ, List};

    ghost Value = { List (List ℕ) };

    ghost view = { λ b. b.keys.keys };
}

impl Bodies {
    /// None is known. It takes no memory.
    pub fn new(alloc: Global) -> Bodies
        ensures { result ≡ [] }
    {
        Bodies {
            keys: IndexSet::new(alloc),
        }
    }

    /// How many are known. O(1).
    pub fn len(&self) -> usize
        ensures len { result ≡ length self.now }
        ensures small { result < 2 ^ 63 }
    {
        self.keys.len()
    }

    /// Forgets all but the first ones.
    pub fn truncate(&mut self, len: usize)
        ensures { self.new ≡ take len self.old }
    {
        self.keys.truncate(len);
    }

    /// The body of that number. O(1).
    pub fn get(&self, number: u64) -> Option<&Body>
        ensures { option_map (λ body. body.now) result ≡ slice_get self.now number }
    {
        match self.keys.get_index(number as usize) {
            Some(key) => Some(&key.body),
            None => None,
        }
    }

    /// The number of the body, if it is known; else it is known from now on, behind all others. O(bytes of the body), expected
    /// and amortized.
    #[tactic(auto, unfolding(crate::specs::Bodies::and_body))]
    pub fn put(&mut self, body: &Body) -> Result<Option<usize>, NoMemory>
        ensures new { OnOk result (self.new ≡ and_body self.old body.now) }
        ensures first { IfOk result (λ number. IfNone number (is_known self.old body.now ≡ false)) }
        ensures again { IfOk result (λ number. IfSome number (λ k. is_known self.old body.now ≡ true)) }
        ensures number { IfOk result (λ number. IfSome number (λ k. k ≡ position_or_len (bytes_eq body.now) self.old)) }
        ensures err { OnErr result (self.new ≡ self.old) }
    {
        let key = Key {
            body: body.try_copy()?,
        };
        let (number, is_new) = self.keys.insert_full(key)?;
        if is_new { Ok(None) } else { Ok(Some(number)) }
    }

    /// The body, if it isn't known yet.
    fn resolve_first(&mut self, body: &Body) -> Result<Body, ReadFault>
        ensures body { Gives (λ body. body) result (if is_known self.old body.now then Err BadNumber else Ok body.now) }
        ensures known { IfOk result (λ body. self.new ≡ and_body self.old body) }
    {
        match self.put(body) {
            Ok(None) => copy_of(body),
            Ok(Some(_)) => Err(ReadFault::Bad(WireFault::BadNumber)),
            Err(_) => Err(ReadFault::NoMemory),
        }
    }

    /// The body that is mentioned so. O(bytes of it), expected and amortized.
    #[tactic(auto, unfolding(crate::specs::Bodies::resolve))]
    pub fn resolve(&mut self, mention: &Mention) -> Result<Body, ReadFault>
        ensures body { Gives (λ body. body) result (resolve self.old mention.now) }
        ensures known { IfOk result (λ body. self.new ≡ and_body self.old body) }
    {
        match mention {
            Mention::First(body) => self.resolve_first(body),
            Mention::Again(number) => match self.get(*number) {
                Some(body) => copy_of(body),
                None => Err(ReadFault::Bad(WireFault::BadNumber)),
            },
        }
    }
}

//! A flat object: at most eight members, whose values are texts, whole numbers, truth values and `null`, and
//! one inner object of the same kind at most. It takes no memory from the allocator.
ghost use Rattle.std.specs.Prelude.{◌≡◌, ◌≤◌, None, map, option_map, IfSome, IfOk, IsNone, Ok, true};
ghost use Rattle.std.specs.List.{list_any, list_all};
ghost use Rattle.std.specs.Str.{bytes_eq};
ghost use Rattle.std.specs.Option.{option_copied};
ghost use Rattle.serde_json.specs.Find.{get};
ghost use Rattle.cq_base.specs.declared.limits.TheConstants.{MOMENT_LIMIT, SECONDS_LIMIT, BATCH_LIMIT, PARTY_LIMIT, NUMBER_LIMIT};
ghost use Rattle.cq_json.specs.Fields as spec;
ghost use Rattle.cq_json.specs.Keys.{key_text};
ghost use Rattle.cq_json.specs.Flat.{scalar_data, inner_members, flat_data, inner_data, is_inner, last_named, IsNoObject};
ghost use Rattle.cq_json.specs.Readers.{Gives, same};

use crate::fields::{ReadFault, party_named, within};
use crate::key::Key;
use arrayvec::ArrayVec;
use cq_base::{
    BATCH_LIMIT, BatchSize, MOMENT_LIMIT, Moment, NUMBER_LIMIT, PARTY_LIMIT, Party, SECONDS_LIMIT,
    Seconds, ServerId,
};

/// The most members of an object that is read as a flat one.
pub(crate) const MOST: usize = 8;

/// The value of a member.
#[derive(Clone, Copy)]
pub enum Scalar<'a> {
    /// A text.
    Text(&'a str),
    /// A whole number, written in digits alone.
    Number(u64),
    /// A truth value.
    Truth(bool),
    /// `null`.
    Null,
    /// The inner object, whose members are kept apart.
    Inner,
}

impl<'a> Scalar<'a> {
    /// Whether it is the inner object.
    pub(crate) fn is_inner(self) -> bool
        ensures { result ≡ is_inner self.entry }
    {
        match self {
            Scalar::Inner => true,
            Scalar::Text(_) | Scalar::Number(_) | Scalar::Truth(_) | Scalar::Null => false,
        }
    }
}

/// A member of an object.
#[derive(Clone, Copy)]
pub struct Member<'a> {
    pub(crate) key: Key,
    pub(crate) value: Scalar<'a>,
}

impl<'a> Default for Member<'a> {
    fn default() -> Member<'a> {
        Member {
            key: Key::Op,
            value: Scalar::Text(""),
        }
    }
}

/// The members of an object, in the order of its text.
pub type Members<'a> = ArrayVec<Member<'a>, MOST>;

/// The members of an object and those of the object in it, to be looked at.
#[derive(Clone, Copy)]
pub struct Flat<'o, 'a> {
    pub(crate) members: &'o [Member<'a>],
    pub(crate) inner: &'o [Member<'a>],
}

/// The value of the last member with that key: O(members).
fn last_named<'a>(members: &[Member<'a>], key: Key) -> Option<Scalar<'a>>
    ensures { result ≡ last_named (key_text key) None members.now }
{
    let mut found = None;
    for member in members {
        if member.key.is(key) {
            found = Some(member.value);
        }
    }
    found
}

/// Whether the key is one of these.
fn is_one_of(keys: &[Key], key: Key) -> bool
    ensures { result ≡ list_any (λ k. bytes_eq (key_text k) (key_text key)) keys.now }
{
    keys.iter().any(|one| one.is(key))
}

/// Whether each member has one of these keys: O(members x keys).
fn are_among(members: &[Member<'_>], keys: &[Key]) -> bool
    ensures { result ≡ list_all
        (λ m. list_any (λ k. bytes_eq (key_text k) (key_text m.key)) keys.now) members.now }
{
    members.iter().all(|member| is_one_of(keys, member.key))
}

impl<'o, 'a> Flat<'o, 'a> {
    /// Whether no key in the object is another than these.
    #[tactic(auto, using(crate::proofs::FlatMembers::among_flat))]
    pub fn has_only(self, keys: &[Key]) -> bool
        ensures { result ≡ spec.has_only (map key_text keys.now) (flat_data self.entry) }
    {
        are_among(self.members, keys)
    }

    /// The inner object.
    fn inner(self) -> Flat<'o, 'a>
        ensures { flat_data result ≡ inner_data self.entry }
    {
        Flat {
            members: self.inner,
            inner: &[],
        }
    }

    /// The value under the key.
    #[tactic(auto, using(crate::proofs::FlatMembers::found_flat))]
    fn get(self, key: Key) -> Option<Scalar<'a>>
        ensures { option_map (scalar_data (inner_members self.entry.inner.now)) result ≡ get (key_text key) (flat_data self.entry) }
    {
        last_named(self.members, key)
    }

    /// The text under the key.
    pub fn text_at(self, key: Key) -> Result<&'a str, ReadFault>
        ensures { Gives (λ t. t.now) result (spec.text_at (key_text key) (flat_data self.entry)) }
    {
        match self.get(key) {
            Some(Scalar::Text(text)) => Ok(text),
            Some(Scalar::Number(_) | Scalar::Truth(_) | Scalar::Null | Scalar::Inner) | None => {
                Err(ReadFault::Bad)
            }
        }
    }

    /// The text under the key, which may be missing.
    pub fn text_if_at(self, key: Key) -> Result<Option<&'a str>, ReadFault>
        ensures { Gives option_copied result (spec.text_if_at (key_text key) (flat_data self.entry)) }
    {
        match self.get(key) {
            Some(Scalar::Text(text)) => Ok(Some(text)),
            Some(Scalar::Number(_) | Scalar::Truth(_) | Scalar::Null | Scalar::Inner) => {
                Err(ReadFault::Bad)
            }
            None => Ok(None),
        }
    }

    /// The truth value under the key, which may be missing.
    pub fn truth_if_at(self, key: Key) -> Result<Option<bool>, ReadFault>
        ensures { Gives same result (spec.truth_if_at (key_text key) (flat_data self.entry)) }
    {
        match self.get(key) {
            Some(Scalar::Truth(truth)) => Ok(Some(truth)),
            Some(Scalar::Number(_) | Scalar::Text(_) | Scalar::Null | Scalar::Inner) => {
                Err(ReadFault::Bad)
            }
            None => Ok(None),
        }
    }

    /// The number under the key, if it is from `low` to `high`.
    fn number_at(self, low: u64, high: u64, key: Key) -> Result<u64, ReadFault>
        ensures value { Gives same result (spec.number_at low high (key_text key) (flat_data self.entry)) }
        ensures least { IfOk result (λ number. low ≤ number) }
        ensures most { IfOk result (λ number. number ≤ high) }
    {
        match self.get(key) {
            Some(Scalar::Number(number)) => within(number, low, high),
            Some(Scalar::Text(_) | Scalar::Truth(_) | Scalar::Null | Scalar::Inner) | None => {
                Err(ReadFault::Bad)
            }
        }
    }

    /// The server under the key.
    pub fn server_at(self, key: Key) -> Result<ServerId, ReadFault>
        ensures { Gives same result (spec.number_at 1 PARTY_LIMIT (key_text key) (flat_data self.entry)) }
    {
        Ok(ServerId::new(self.number_at(1, u64::from(PARTY_LIMIT), key)? as u32).unwrap())
    }

    /// The number under the key.
    pub fn u32_at(self, key: Key) -> Result<u32, ReadFault>
        ensures { Gives same result (spec.number_at 0 PARTY_LIMIT (key_text key) (flat_data self.entry)) }
    {
        Ok(self.number_at(0, u64::from(PARTY_LIMIT), key)? as u32)
    }

    /// The number under the key.
    pub fn u64_at(self, key: Key) -> Result<u64, ReadFault>
        ensures { Gives same result (spec.number_at 0 NUMBER_LIMIT (key_text key) (flat_data self.entry)) }
    {
        self.number_at(0, NUMBER_LIMIT, key)
    }

    /// The moment under the key.
    pub fn moment_at(self, key: Key) -> Result<Moment, ReadFault>
        ensures { Gives same result (spec.number_at 0 MOMENT_LIMIT (key_text key) (flat_data self.entry)) }
    {
        Ok(Moment::new(self.number_at(0, MOMENT_LIMIT, key)?).unwrap())
    }

    /// The visibility timeout under the key.
    pub fn seconds_at(self, key: Key) -> Result<Seconds, ReadFault>
        ensures { Gives same result (spec.number_at 0 SECONDS_LIMIT (key_text key) (flat_data self.entry)) }
    {
        Ok(Seconds::new(self.number_at(0, u64::from(SECONDS_LIMIT), key)? as u32).unwrap())
    }

    /// The number under the key, which may be missing, if it is from `low` to `high`.
    fn number_if_at(self, low: u64, high: u64, key: Key) -> Result<Option<u64>, ReadFault>
        ensures value { Gives same result (spec.number_if_at low high (key_text key) (flat_data self.entry)) }
        ensures least { IfOk result (λ found. IfSome found (λ number. low ≤ number)) }
        ensures most { IfOk result (λ found. IfSome found (λ number. number ≤ high)) }
    {
        match self.get(key) {
            Some(Scalar::Number(number)) => Ok(Some(within(number, low, high)?)),
            Some(Scalar::Text(_) | Scalar::Truth(_) | Scalar::Null | Scalar::Inner) => {
                Err(ReadFault::Bad)
            }
            None => Ok(None),
        }
    }

    /// The visibility timeout under the key, which may be missing.
    pub fn seconds_if_at(self, key: Key) -> Result<Option<Seconds>, ReadFault>
        ensures { Gives same result (spec.number_if_at 0 SECONDS_LIMIT (key_text key) (flat_data self.entry)) }
    {
        match self.number_if_at(0, u64::from(SECONDS_LIMIT), key)? {
            Some(seconds) => Ok(Some(Seconds::new(seconds as u32).unwrap())),
            None => Ok(None),
        }
    }

    /// The number of messages under the key, which may be missing.
    pub fn batch_size_if_at(self, key: Key) -> Result<Option<BatchSize>, ReadFault>
        ensures { Gives same result (spec.number_if_at 1 BATCH_LIMIT (key_text key) (flat_data self.entry)) }
    {
        match self.number_if_at(1, u64::from(BATCH_LIMIT), key)? {
            Some(size) => Ok(Some(BatchSize::new(size as u8).unwrap())),
            None => Ok(None),
        }
    }

    /// The party under the key.
    pub fn party_at(self, key: Key) -> Result<Party, ReadFault>
        ensures { Gives same result (spec.party_at (key_text key) (flat_data self.entry)) }
    {
        match self.get(key) {
            Some(Scalar::Text(name)) => party_named(name),
            Some(Scalar::Number(_)) => Ok(Party::Server(self.server_at(key)?)),
            Some(Scalar::Truth(_) | Scalar::Null | Scalar::Inner) | None => Err(ReadFault::Bad),
        }
    }

    /// The inner object, if it is under the key.
    pub(crate) fn inner_at(self, key: Key) -> Option<Flat<'o, 'a>>
        ensures some { IfSome result (λ inner. spec.member_at (key_text key) (flat_data self.entry) ≡ Ok (flat_data inner)) }
        ensures none { IsNone result → IsNoObject (spec.member_at (key_text key) (flat_data self.entry)) }
    {
        match self.get(key) {
            Some(Scalar::Inner) => Some(self.inner()),
            Some(Scalar::Text(_) | Scalar::Number(_) | Scalar::Truth(_) | Scalar::Null) | None => {
                None
            }
        }
    }
}

//! The members of a JSON object, each read as the kind that its key wants.
ghost use Rattle.std.specs.Prelude.{◌≡◌, ◌≤◌, ◌-◌, map, string_bytes, IfOk};
ghost use Rattle.std.specs.BTreeMap.{keys as keys_of};
ghost use Rattle.std.specs.List.{list_any, list_all};
ghost use Rattle.std.specs.Option.{option_copied};
ghost use Rattle.std.specs.Str.{bytes_eq};
ghost use Rattle.serde_json.specs.View.{view};
ghost use Rattle.cq_base.specs.declared.limits.TheConstants.{MOMENT_LIMIT, SECONDS_LIMIT, BATCH_LIMIT, PARTY_LIMIT, NUMBER_LIMIT};
ghost use Rattle.cq_json.specs.Fields as spec;
ghost use Rattle.cq_json.specs.Readers.{Gives, same};

use cq_base::{
    BATCH_LIMIT, BaseFault, BatchSize, MOMENT_LIMIT, Moment, NUMBER_LIMIT, PARTY_LIMIT, Party,
    SECONDS_LIMIT, Seconds, ServerId,
};
use serde_json::{Map, Value};
use std::alloc::Global;

/// Why reading a line stopped before an event was made.
pub enum ReadFault {
    /// The line is none of the script's.
    Bad,
    /// One of its texts breaks that text's rule.
    Text(BaseFault),
    /// There was no memory to read it.
    Memory,
}

impl From<BaseFault> for ReadFault {
    ghost use Rattle.std.specs.Prelude.{◌≡◌};
    ghost use Rattle.cq_json.specs.Readers.{stop_of};

    ghost from_gives = { λ fault stop. stop ≡ stop_of fault };

    fn from(fault: BaseFault) -> ReadFault {
        match fault {
            BaseFault::NoMemory => ReadFault::Memory,
            _ => ReadFault::Text(fault),
        }
    }
}

/// The value that the bytes are as JSON: O(bytes).
#[tactic(auto, using(crate::proofs::JsonText::json_of_read, crate::proofs::JsonText::json_of_refused))]
pub fn parse(alloc: Global, bytes: &[u8]) -> Result<Value, ReadFault>
    ensures { Gives view result (spec.or_bad (spec.json_of bytes.now)) }
{
    match Value::from_slice(alloc, bytes) {
        Ok(value) => Ok(value),
        Err(error) => {
            if error.is_memory() {
                Err(ReadFault::Memory)
            } else {
                Err(ReadFault::Bad)
            }
        }
    }
}

fn is_among(keys: &[&str], name: &str) -> bool
    ensures { result ≡ list_any (λ key. bytes_eq key.now name.now) keys.now }
{
    keys.iter().any(|key| *key == name)
}

fn are_among(keys: &[&str], members: &Map<String, Value>) -> bool
    ensures { result ≡ list_all
        (λ name. list_any (λ key. bytes_eq key.now (string_bytes name)) keys.now)
        (keys_of members.now) }
{
    members.keys().all(|name| is_among(keys, name.as_str()))
}

/// Whether it is an object, and no key in it is another than these.
#[tactic(auto, using(crate::proofs::Members::members_among_view))]
pub fn has_only(value: &Value, keys: &[&str]) -> bool
    ensures { result ≡ spec.has_only (map (λ key. key.now) keys.now) (view value.now) }
{
    match value.as_object() {
        Some(members) => are_among(keys, members),
        None => false,
    }
}

/// The value under the key.
pub fn member_at<'v>(value: &'v Value, key: &str) -> Result<&'v Value, ReadFault>
    ensures { Gives (λ v. view v.now) result (spec.member_at key.now (view value.now)) }
{
    match value.get(key) {
        Some(found) => Ok(found),
        None => Err(ReadFault::Bad),
    }
}

/// The text under the key.
pub fn text_at<'v>(value: &'v Value, key: &str) -> Result<&'v str, ReadFault>
    ensures { Gives (λ t. t.now) result (spec.text_at key.now (view value.now)) }
{
    match member_at(value, key)?.as_str() {
        Some(text) => Ok(text),
        None => Err(ReadFault::Bad),
    }
}

/// The number, if it is from `low` to `high`.
pub(crate) fn within(number: u64, low: u64, high: u64) -> Result<u64, ReadFault>
    ensures value { Gives same result (spec.within low high number) }
    ensures least { IfOk result (λ found. low ≤ found) }
    ensures most { IfOk result (λ found. found ≤ high) }
{
    if low <= number && number <= high {
        Ok(number)
    } else {
        Err(ReadFault::Bad)
    }
}

fn whole(value: &Value, low: u64, high: u64) -> Result<u64, ReadFault>
    ensures value { Gives same result (spec.whole low high (view value.now)) }
    ensures least { IfOk result (λ number. low ≤ number) }
    ensures most { IfOk result (λ number. number ≤ high) }
{
    match value.as_u64() {
        Some(number) => within(number, low, high),
        None => Err(ReadFault::Bad),
    }
}

fn seconds(value: &Value) -> Result<Seconds, ReadFault>
    ensures { Gives same result (spec.whole 0 SECONDS_LIMIT (view value.now)) }
{
    Ok(Seconds::new(whole(value, 0, u64::from(SECONDS_LIMIT))? as u32).unwrap())
}

fn batch_size(value: &Value) -> Result<BatchSize, ReadFault>
    ensures { Gives same result (spec.whole 1 BATCH_LIMIT (view value.now)) }
{
    Ok(BatchSize::new(whole(value, 1, u64::from(BATCH_LIMIT))? as u8).unwrap())
}

fn server(value: &Value) -> Result<ServerId, ReadFault>
    ensures { Gives same result (spec.whole 1 PARTY_LIMIT (view value.now)) }
{
    Ok(ServerId::new(whole(value, 1, u64::from(PARTY_LIMIT))? as u32).unwrap())
}

pub(crate) fn party_named(name: &str) -> Result<Party, ReadFault>
    ensures { Gives same result (spec.party_named name.now) }
{
    if name == "master" {
        Ok(Party::Master)
    } else if name == "clients" {
        Ok(Party::Clients)
    } else {
        Err(ReadFault::Bad)
    }
}

fn party(value: &Value) -> Result<Party, ReadFault>
    ensures { Gives same result (spec.party_in (view value.now)) }
{
    match value.as_str() {
        Some(name) => party_named(name),
        None => Ok(Party::Server(server(value)?)),
    }
}

/// The server under the key.
pub fn server_at(value: &Value, key: &str) -> Result<ServerId, ReadFault>
    ensures { Gives same result (spec.number_at 1 PARTY_LIMIT key.now (view value.now)) }
{
    server(member_at(value, key)?)
}

/// The party under the key.
pub fn party_at(value: &Value, key: &str) -> Result<Party, ReadFault>
    ensures { Gives same result (spec.party_at key.now (view value.now)) }
{
    party(member_at(value, key)?)
}

/// The number under the key.
pub fn u32_at(value: &Value, key: &str) -> Result<u32, ReadFault>
    ensures { Gives same result (spec.number_at 0 PARTY_LIMIT key.now (view value.now)) }
{
    Ok(whole(member_at(value, key)?, 0, u64::from(PARTY_LIMIT))? as u32)
}

/// The number under the key.
pub fn u64_at(value: &Value, key: &str) -> Result<u64, ReadFault>
    ensures { Gives same result (spec.number_at 0 NUMBER_LIMIT key.now (view value.now)) }
{
    whole(member_at(value, key)?, 0, NUMBER_LIMIT)
}

/// The moment under the key.
pub fn moment_at(value: &Value, key: &str) -> Result<Moment, ReadFault>
    ensures { Gives same result (spec.number_at 0 MOMENT_LIMIT key.now (view value.now)) }
{
    Ok(Moment::new(whole(member_at(value, key)?, 0, MOMENT_LIMIT)?).unwrap())
}

/// The text under the key, which may be missing.
pub fn text_if_at<'v>(value: &'v Value, key: &str) -> Result<Option<&'v str>, ReadFault>
    ensures { Gives option_copied result (spec.text_if_at key.now (view value.now)) }
{
    match value.get(key) {
        Some(found) => match found.as_str() {
            Some(text) => Ok(Some(text)),
            None => Err(ReadFault::Bad),
        },
        None => Ok(None),
    }
}

/// The truth value under the key, which may be missing.
pub fn truth_if_at(value: &Value, key: &str) -> Result<Option<bool>, ReadFault>
    ensures { Gives same result (spec.truth_if_at key.now (view value.now)) }
{
    match value.get(key) {
        Some(found) => match found.as_bool() {
            Some(truth) => Ok(Some(truth)),
            None => Err(ReadFault::Bad),
        },
        None => Ok(None),
    }
}

/// The visibility timeout under the key.
pub fn seconds_at(value: &Value, key: &str) -> Result<Seconds, ReadFault>
    ensures { Gives same result (spec.number_at 0 SECONDS_LIMIT key.now (view value.now)) }
{
    seconds(member_at(value, key)?)
}

/// The visibility timeout under the key, which may be missing.
pub fn seconds_if_at(value: &Value, key: &str) -> Result<Option<Seconds>, ReadFault>
    ensures { Gives same result (spec.number_if_at 0 SECONDS_LIMIT key.now (view value.now)) }
{
    match value.get(key) {
        Some(found) => Ok(Some(seconds(found)?)),
        None => Ok(None),
    }
}

/// The number of messages under the key, which may be missing.
pub fn batch_size_if_at(value: &Value, key: &str) -> Result<Option<BatchSize>, ReadFault>
    ensures { Gives same result (spec.number_if_at 1 BATCH_LIMIT key.now (view value.now)) }
{
    match value.get(key) {
        Some(found) => Ok(Some(batch_size(found)?)),
        None => Ok(None),
    }
}

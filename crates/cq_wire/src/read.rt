//! Whole values, from all of the bytes.
ghost use Rattle.std.specs.Prelude.{◌≡◌, IfOk, Ok};
ghost use Rattle.cq_base.specs.declared.ask.Entry as rust_entry;
ghost use Rattle.cq_base.specs.declared.ask.Query as rust_query;
ghost use Rattle.cq_base.specs.declared.ask.Request as rust_request;
ghost use Rattle.cq_base.specs.declared.reply.Reply as rust_reply;
ghost use Rattle.cq_wire.specs.Layout.{whole, entry, query, reply, request};
ghost use Rattle.cq_wire.specs.Limits.{IsEntry, IsQuery, IsReply, IsRequest};
ghost use Rattle.cq_wire.specs.Reading.{Gives, all_of, whole_at, entry_at, query_at, reply_at, request_at};

use crate::asks::{entry_of, query_of, request_of};
use crate::fault::{ReadFault, WireFault};
use crate::replies::reply_of;
use crate::version::VERSION;
use cq_base::{Entry, Query, Reply, Request};
use std::alloc::Global;

#[tactic(auto, unfolding(crate::specs::Reading::all_of))]
fn all_of_entry(alloc: Global, bytes: &[u8]) -> Result<Entry, ReadFault>
    ensures { Gives (λ x. x) result (all_of entry_at bytes.now) }
{
    let (entry, rest) = match entry_of(alloc, bytes) {
        Ok(read) => read,
        Err(fault) => return Err(fault),
    };
    if !rest.is_empty() {
        return Err(ReadFault::Bad(WireFault::BytesLeft));
    }
    Ok(entry)
}

#[tactic(auto, unfolding(crate::specs::Reading::whole_at))]
fn whole_entry(alloc: Global, bytes: &[u8]) -> Result<Entry, ReadFault>
    ensures { Gives (λ x. x) result (whole_at entry_at bytes.now) }
{
    match bytes {
        [] => Err(ReadFault::Bad(WireFault::Truncated)),
        [version, rest @ ..] => {
            if *version == VERSION {
                all_of_entry(alloc, rest)
            } else {
                Err(ReadFault::Bad(WireFault::OtherVersion))
            }
        }
    }
}

/// The entry that the bytes are, all of them: O(bytes). It takes memory for its texts alone.
pub fn read_entry(alloc: Global, bytes: &[u8]) -> Result<Entry, ReadFault>
    // What is read was written so: no other bytes are read as the same value.
    ensures found { IfOk result (λ x. IsEntry x × (bytes.now ≡ whole entry x)) }
    // What was written is read, unless memory runs out.
    ensures only { (x : rust_entry.Entry) → IsEntry x → bytes.now ≡ whole entry x → Gives (λ y. y) result (Ok x) }
    // Which fault it is.
    ensures exact { Gives (λ x. x) result (whole_at entry_at bytes.now) }
{
    whole_entry(alloc, bytes)
}

#[tactic(auto, unfolding(crate::specs::Reading::all_of))]
fn all_of_request(alloc: Global, bytes: &[u8]) -> Result<Request, ReadFault>
    ensures { Gives (λ x. x) result (all_of request_at bytes.now) }
{
    let (request, rest) = match request_of(alloc, bytes) {
        Ok(read) => read,
        Err(fault) => return Err(fault),
    };
    if !rest.is_empty() {
        return Err(ReadFault::Bad(WireFault::BytesLeft));
    }
    Ok(request)
}

#[tactic(auto, unfolding(crate::specs::Reading::whole_at))]
fn whole_request(alloc: Global, bytes: &[u8]) -> Result<Request, ReadFault>
    ensures { Gives (λ x. x) result (whole_at request_at bytes.now) }
{
    match bytes {
        [] => Err(ReadFault::Bad(WireFault::Truncated)),
        [version, rest @ ..] => {
            if *version == VERSION {
                all_of_request(alloc, rest)
            } else {
                Err(ReadFault::Bad(WireFault::OtherVersion))
            }
        }
    }
}

/// The request that the bytes are, all of them: O(bytes). It takes memory for its texts alone.
pub fn read_request(alloc: Global, bytes: &[u8]) -> Result<Request, ReadFault>
    // What is read was written so: no other bytes are read as the same value.
    ensures found { IfOk result (λ x. IsRequest x × (bytes.now ≡ whole request x)) }
    // What was written is read, unless memory runs out.
    ensures only { (x : rust_request.Request) → IsRequest x → bytes.now ≡ whole request x → Gives (λ y. y) result (Ok x) }
    // Which fault it is.
    ensures exact { Gives (λ x. x) result (whole_at request_at bytes.now) }
{
    whole_request(alloc, bytes)
}

#[tactic(auto, unfolding(crate::specs::Reading::all_of))]
fn all_of_query(alloc: Global, bytes: &[u8]) -> Result<Query, ReadFault>
    ensures { Gives (λ x. x) result (all_of query_at bytes.now) }
{
    let (query, rest) = match query_of(alloc, bytes) {
        Ok(read) => read,
        Err(fault) => return Err(fault),
    };
    if !rest.is_empty() {
        return Err(ReadFault::Bad(WireFault::BytesLeft));
    }
    Ok(query)
}

#[tactic(auto, unfolding(crate::specs::Reading::whole_at))]
fn whole_query(alloc: Global, bytes: &[u8]) -> Result<Query, ReadFault>
    ensures { Gives (λ x. x) result (whole_at query_at bytes.now) }
{
    match bytes {
        [] => Err(ReadFault::Bad(WireFault::Truncated)),
        [version, rest @ ..] => {
            if *version == VERSION {
                all_of_query(alloc, rest)
            } else {
                Err(ReadFault::Bad(WireFault::OtherVersion))
            }
        }
    }
}

/// The query that the bytes are, all of them: O(bytes). It takes memory for its texts alone.
pub fn read_query(alloc: Global, bytes: &[u8]) -> Result<Query, ReadFault>
    // What is read was written so: no other bytes are read as the same value.
    ensures found { IfOk result (λ x. IsQuery x × (bytes.now ≡ whole query x)) }
    // What was written is read, unless memory runs out.
    ensures only { (x : rust_query.Query) → IsQuery x → bytes.now ≡ whole query x → Gives (λ y. y) result (Ok x) }
    // Which fault it is.
    ensures exact { Gives (λ x. x) result (whole_at query_at bytes.now) }
{
    whole_query(alloc, bytes)
}

#[tactic(auto, unfolding(crate::specs::Reading::all_of))]
fn all_of_reply(alloc: Global, bytes: &[u8]) -> Result<Reply, ReadFault>
    ensures { Gives (λ x. x) result (all_of reply_at bytes.now) }
{
    let (reply, rest) = match reply_of(alloc, bytes) {
        Ok(read) => read,
        Err(fault) => return Err(fault),
    };
    if !rest.is_empty() {
        return Err(ReadFault::Bad(WireFault::BytesLeft));
    }
    Ok(reply)
}

#[tactic(auto, unfolding(crate::specs::Reading::whole_at))]
fn whole_reply(alloc: Global, bytes: &[u8]) -> Result<Reply, ReadFault>
    ensures { Gives (λ x. x) result (whole_at reply_at bytes.now) }
{
    match bytes {
        [] => Err(ReadFault::Bad(WireFault::Truncated)),
        [version, rest @ ..] => {
            if *version == VERSION {
                all_of_reply(alloc, rest)
            } else {
                Err(ReadFault::Bad(WireFault::OtherVersion))
            }
        }
    }
}

/// The reply that the bytes are, all of them: O(bytes). It takes memory for its texts alone.
pub fn read_reply(alloc: Global, bytes: &[u8]) -> Result<Reply, ReadFault>
    // What is read was written so: no other bytes are read as the same value.
    ensures found { IfOk result (λ x. IsReply x × (bytes.now ≡ whole reply x)) }
    // What was written is read, unless memory runs out.
    ensures only { (x : rust_reply.Reply) → IsReply x → bytes.now ≡ whole reply x → Gives (λ y. y) result (Ok x) }
    // Which fault it is.
    ensures exact { Gives (λ x. x) result (whole_at reply_at bytes.now) }
{
    whole_reply(alloc, bytes)
}

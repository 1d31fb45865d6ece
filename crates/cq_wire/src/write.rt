//! Whole values, at the end of bytes.
ghost use Rattle.std.specs.Prelude.{◌≡◌, ◌++◌, OnOk, OnErr};
ghost use Rattle.cq_wire.specs.Layout.{whole, entry, query, reply, request};

use crate::put::{put_entry, put_query, put_reply, put_request};
use crate::version::VERSION;
use crate::writer::Writer;
use cq_base::{Entry, NoMemory, Query, Reply, Request};
use std::mem;

#[tactic(auto, unfolding(crate::specs::Layout::whole))]
fn put_whole_entry(out: &mut Writer, value: &Entry) -> Result<(), NoMemory>
    ensures ok { OnOk result (out.new.value ≡ out.old.value ++ whole entry value.now) }
    ensures before { out.new.before ≡ out.old.before }
{
    out.put(&[VERSION])?;
    put_entry(out, value)
}

/// Writes the entry behind the bytes: O(bytes of it). After `NoMemory` they are as before.
pub fn write_entry(bytes: &mut Vec<u8>, value: &Entry) -> Result<(), NoMemory>
    ensures ok { OnOk result (bytes.new.items ≡ bytes.old.items ++ whole entry value.now) }
    ensures err { OnErr result (bytes.new.items ≡ bytes.old.items) }
{
    let empty = Vec::new(*bytes.allocator());
    let mut out = Writer::after(mem::replace(bytes, empty));
    if put_whole_entry(&mut out, value).is_err() {
        *bytes = out.undone();
        return Err(NoMemory);
    }
    *bytes = out.whole();
    Ok(())
}

#[tactic(auto, unfolding(crate::specs::Layout::whole))]
fn put_whole_request(out: &mut Writer, value: &Request) -> Result<(), NoMemory>
    ensures ok { OnOk result (out.new.value ≡ out.old.value ++ whole request value.now) }
    ensures before { out.new.before ≡ out.old.before }
{
    out.put(&[VERSION])?;
    put_request(out, value)
}

/// Writes the request behind the bytes: O(bytes of it). After `NoMemory` they are as before.
pub fn write_request(bytes: &mut Vec<u8>, value: &Request) -> Result<(), NoMemory>
    ensures ok { OnOk result (bytes.new.items ≡ bytes.old.items ++ whole request value.now) }
    ensures err { OnErr result (bytes.new.items ≡ bytes.old.items) }
{
    let empty = Vec::new(*bytes.allocator());
    let mut out = Writer::after(mem::replace(bytes, empty));
    if put_whole_request(&mut out, value).is_err() {
        *bytes = out.undone();
        return Err(NoMemory);
    }
    *bytes = out.whole();
    Ok(())
}

#[tactic(auto, unfolding(crate::specs::Layout::whole))]
fn put_whole_query(out: &mut Writer, value: &Query) -> Result<(), NoMemory>
    ensures ok { OnOk result (out.new.value ≡ out.old.value ++ whole query value.now) }
    ensures before { out.new.before ≡ out.old.before }
{
    out.put(&[VERSION])?;
    put_query(out, value)
}

/// Writes the query behind the bytes: O(bytes of it). After `NoMemory` they are as before.
pub fn write_query(bytes: &mut Vec<u8>, value: &Query) -> Result<(), NoMemory>
    ensures ok { OnOk result (bytes.new.items ≡ bytes.old.items ++ whole query value.now) }
    ensures err { OnErr result (bytes.new.items ≡ bytes.old.items) }
{
    let empty = Vec::new(*bytes.allocator());
    let mut out = Writer::after(mem::replace(bytes, empty));
    if put_whole_query(&mut out, value).is_err() {
        *bytes = out.undone();
        return Err(NoMemory);
    }
    *bytes = out.whole();
    Ok(())
}

#[tactic(auto, unfolding(crate::specs::Layout::whole))]
fn put_whole_reply(out: &mut Writer, value: &Reply) -> Result<(), NoMemory>
    ensures ok { OnOk result (out.new.value ≡ out.old.value ++ whole reply value.now) }
    ensures before { out.new.before ≡ out.old.before }
{
    out.put(&[VERSION])?;
    put_reply(out, value)
}

/// Writes the reply behind the bytes: O(bytes of it). After `NoMemory` they are as before.
pub fn write_reply(bytes: &mut Vec<u8>, value: &Reply) -> Result<(), NoMemory>
    ensures ok { OnOk result (bytes.new.items ≡ bytes.old.items ++ whole reply value.now) }
    ensures err { OnErr result (bytes.new.items ≡ bytes.old.items) }
{
    let empty = Vec::new(*bytes.allocator());
    let mut out = Writer::after(mem::replace(bytes, empty));
    if put_whole_reply(&mut out, value).is_err() {
        *bytes = out.undone();
        return Err(NoMemory);
    }
    *bytes = out.whole();
    Ok(())
}

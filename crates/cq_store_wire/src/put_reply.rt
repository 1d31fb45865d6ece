//! Kept replies, each put behind what is there.
ghost use Rattle.std.specs.Prelude.{◌≡◌, ◌++◌, OnOk};
ghost use Rattle.std.specs.List.{flat_map};
ghost use Rattle.cq_base.specs.Relations.{IsPrefix};
ghost use Rattle.cq_store_wire.specs.Bodies.{all_recorded, and_bodies, and_body, and_reply, mention as mentioned, recorded, reply_recorded};
ghost use Rattle.cq_store_wire.specs.Layout.{delivery_record, mention, reply_record};
ghost use Rattle.cq_store_wire.specs.declared.reply.ReplyRecord.TheVariants as records;

use crate::bodies::Bodies;
use cq_base::{Body, Delivery, NoMemory, Reply};
use cq_wire::{Writer, put_receipt, put_reply};

/// Puts the body where it is mentioned first, and its number where it is mentioned again. After `NoMemory` it may be known.
#[tactic(auto, unfolding(crate::specs::Layout::mention, crate::specs::Bodies::mention))]
fn put_mention(out: &mut Writer, bodies: &mut Bodies, body: &Body) -> Result<(), NoMemory>
    ensures ok { OnOk result (out.new.value ≡ out.old.value ++ mention (mentioned bodies.old body.now)) }
    ensures known { OnOk result (bodies.new ≡ and_body bodies.old body.now) }
    ensures more { IsPrefix bodies.old bodies.new }
    ensures before { out.new.before ≡ out.old.before }
{
    match bodies.put(body)? {
        None => {
            out.put(&[0])?;
            out.put_text(body.as_str())
        }
        Some(number) => {
            out.put(&[1])?;
            out.put_u64(number as u64)
        }
    }
}

#[tactic(auto, unfolding(crate::specs::Layout::delivery_record))]
fn put_delivery(out: &mut Writer, bodies: &mut Bodies, value: &Delivery) -> Result<(), NoMemory>
    ensures ok { OnOk result (out.new.value ≡ out.old.value ++ delivery_record (recorded bodies.old value.now)) }
    ensures known { OnOk result (bodies.new ≡ and_body bodies.old value.now.body) }
    ensures more { IsPrefix bodies.old bodies.new }
    ensures before { out.new.before ≡ out.old.before }
{
    put_receipt(out, value.receipt)?;
    out.put_text(value.group.as_str())?;
    put_mention(out, bodies, &value.body)
}

fn put_several(out: &mut Writer, bodies: &mut Bodies, values: &[Delivery]) -> Result<(), NoMemory>
    ensures ok { OnOk result (out.new.value ≡ out.old.value ++ flat_map delivery_record (all_recorded bodies.old values.now)) }
    ensures known { OnOk result (bodies.new ≡ and_bodies bodies.old values.now) }
    ensures more { IsPrefix bodies.old bodies.new }
    ensures before { out.new.before ≡ out.old.before }
{
    for value in values {
        put_delivery(out, bodies, value)?;
    }
    Ok(())
}

#[tactic(auto, unfolding(crate::specs::Layout::reply_record, cq_wire::specs::Layout::listed))]
fn put_received(out: &mut Writer, bodies: &mut Bodies, values: &[Delivery]) -> Result<(), NoMemory>
    ensures ok { OnOk result (out.new.value ≡ out.old.value ++ reply_record (records.Received (all_recorded bodies.old values.now))) }
    ensures known { OnOk result (bodies.new ≡ and_bodies bodies.old values.now) }
    ensures more { IsPrefix bodies.old bodies.new }
    ensures before { out.new.before ≡ out.old.before }
{
    out.put(&[3])?;
    out.put_u64(values.len() as u64)?;
    put_several(out, bodies, values)
}

/// Puts a kept reply. After `NoMemory` a front of its bytes may be there, and some of its bodies may be known.
#[tactic(auto, unfolding(crate::specs::Layout::reply_record))]
pub fn put_kept_reply(out: &mut Writer, bodies: &mut Bodies, value: &Reply) -> Result<(), NoMemory>
    ensures ok { OnOk result (out.new.value ≡ out.old.value ++ reply_record (reply_recorded bodies.old value.now)) }
    ensures known { OnOk result (bodies.new ≡ and_reply bodies.old value.now) }
    ensures more { IsPrefix bodies.old bodies.new }
    ensures before { out.new.before ≡ out.old.before }
{
    match value {
        Reply::Received(deliveries) => put_received(out, bodies, deliveries.as_slice()),
        Reply::Created(_)
        | Reply::Removed
        | Reply::Sent(_)
        | Reply::Deleted(_)
        | Reply::Changed
        | Reply::Counts { .. }
        | Reply::Refused(_) => put_reply(out, value),
    }
}

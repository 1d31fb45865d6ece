//! Parts of a store, each put behind what is there.
ghost use Rattle.std.specs.Prelude.{◌≡◌, ◌++◌, OnOk};
ghost use Rattle.cq_base.specs.Relations.{IsPrefix};
ghost use Rattle.cq_wire.specs.Layout.{number64, optional};
ghost use Rattle.cq_store_wire.specs.declared.part.Part.TheVariants as parts;
ghost use Rattle.cq_store_wire.specs.Bodies.{and_reply};
ghost use Rattle.cq_store_wire.specs.Layout.{accepted, handings, message, name, part, queue, uses};
ghost use Rattle.cq_store_wire.specs.Order.{client_part, emptied_if, name_record};

use crate::bodies::Bodies;
use crate::put_reply::put_kept_reply;
use cq_base::{Moment, NoMemory, QueueName};
use cq_messages::Message;
use cq_queue::{Accepted, Queue};
use cq_store::{ClientRecord, QueueRecord};
use cq_wire::Writer;

#[tactic(auto, unfolding(cq_wire::specs::Layout::optional))]
fn put_moment_if(out: &mut Writer, moment: Option<Moment>) -> Result<(), NoMemory>
    ensures ok { OnOk result (out.new.value ≡ out.old.value ++ optional number64 moment) }
    ensures before { out.new.before ≡ out.old.before }
{
    match moment {
        Some(moment) => {
            out.put(&[1])?;
            out.put_u64(moment.get())
        }
        None => out.put(&[0]),
    }
}

#[tactic(auto, unfolding(crate::specs::Layout::uses))]
fn put_uses(out: &mut Writer, value: &Queue) -> Result<(), NoMemory>
    ensures ok { OnOk result (out.new.value ≡ out.old.value ++ uses value.now) }
    ensures before { out.new.before ≡ out.old.before }
{
    out.put_u64(value.sent())?;
    out.put_u64(value.used())?;
    out.put_u64(value.last().get())
}

#[tactic(auto, unfolding(crate::specs::Layout::queue))]
fn put_queue(out: &mut Writer, value: &Queue) -> Result<(), NoMemory>
    ensures ok { OnOk result (out.new.value ≡ out.old.value ++ queue value.now) }
    ensures before { out.new.before ≡ out.old.before }
{
    out.put_u64(value.incarnation())?;
    out.put_u32(value.visibility().get())?;
    out.put_flag(value.content())?;
    put_uses(out, value)
}

#[tactic(auto, unfolding(cq_wire::specs::Layout::optional, crate::specs::Layout::queue, crate::specs::Layout::uses))]
fn put_living(out: &mut Writer, kept: &QueueRecord) -> Result<(), NoMemory>
    ensures ok { OnOk result (out.new.value ≡ out.old.value ++ optional queue (emptied_if kept.now.living)) }
    ensures before { out.new.before ≡ out.old.before }
{
    match kept.living() {
        Some(queue) => {
            out.put(&[1])?;
            put_queue(out, queue)
        }
        None => out.put(&[0]),
    }
}

#[tactic(auto, unfolding(crate::specs::Layout::part))]
pub fn put_start(out: &mut Writer, count: u64, last: Moment) -> Result<(), NoMemory>
    ensures ok { OnOk result (out.new.value ≡ out.old.value ++ part (parts.Start count last)) }
    ensures before { out.new.before ≡ out.old.before }
{
    out.put(&[0])?;
    out.put_u64(count)?;
    out.put_u64(last.get())
}

#[tactic(auto, unfolding(crate::specs::Layout::part))]
pub fn put_client(
    out: &mut Writer,
    bodies: &mut Bodies,
    client: u32,
    value: &ClientRecord,
) -> Result<(), NoMemory>
    ensures ok { OnOk result (out.new.value ≡ out.old.value ++ part (client_part bodies.old (client, value.now))) }
    ensures known { OnOk result (bodies.new ≡ and_reply bodies.old value.now.reply) }
    ensures more { IsPrefix bodies.old bodies.new }
    ensures before { out.new.before ≡ out.old.before }
{
    out.put(&[1])?;
    out.put_u32(client)?;
    out.put_u64(value.number)?;
    put_kept_reply(out, bodies, &value.reply)
}

#[tactic(auto, unfolding(crate::specs::Layout::part, crate::specs::Layout::name))]
pub fn put_name(out: &mut Writer, value: &QueueName, kept: &QueueRecord) -> Result<(), NoMemory>
    ensures ok { OnOk result (out.new.value ≡ out.old.value ++ part (parts.Name (name_record value.now kept.now))) }
    ensures before { out.new.before ≡ out.old.before }
{
    out.put(&[2])?;
    out.put_text(value.as_str())?;
    out.put_u64(kept.creations())?;
    put_moment_if(out, kept.removed())?;
    put_living(out, kept)
}

#[tactic(auto, unfolding(crate::specs::Layout::handings))]
fn put_handings(out: &mut Writer, value: &Message) -> Result<(), NoMemory>
    ensures ok { OnOk result (out.new.value ≡ out.old.value ++ handings value.now) }
    ensures before { out.new.before ≡ out.old.before }
{
    out.put_u64(value.handings)?;
    out.put_u64(value.handed_at.get())?;
    out.put_u64(value.until)
}

#[tactic(auto, unfolding(crate::specs::Layout::part, crate::specs::Layout::message))]
pub fn put_message(out: &mut Writer, value: &Message) -> Result<(), NoMemory>
    ensures ok { OnOk result (out.new.value ≡ out.old.value ++ part (parts.Message value.now)) }
    ensures before { out.new.before ≡ out.old.before }
{
    out.put(&[3])?;
    out.put_u64(value.sequence)?;
    out.put_text(value.group.as_str())?;
    out.put_text(value.body.as_str())?;
    put_handings(out, value)
}

#[tactic(auto, unfolding(crate::specs::Layout::part, crate::specs::Layout::accepted))]
pub fn put_accepted(out: &mut Writer, value: &Accepted) -> Result<(), NoMemory>
    ensures ok { OnOk result (out.new.value ≡ out.old.value ++ part (parts.Accepted value.now)) }
    ensures before { out.new.before ≡ out.old.before }
{
    out.put(&[4])?;
    out.put_text(value.dedup.as_str())?;
    out.put_u64(value.moment.get())?;
    out.put_u64(value.sequence)
}

#[tactic(auto, unfolding(crate::specs::Layout::part))]
pub fn put_end(out: &mut Writer) -> Result<(), NoMemory>
    ensures ok { OnOk result (out.new.value ≡ out.old.value ++ part parts.End) }
    ensures before { out.new.before ≡ out.old.before }
{
    out.put(&[5])
}

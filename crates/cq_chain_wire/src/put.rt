//! Messages, each put behind what is there.
ghost use Rattle.std.specs.Prelude.{◌≡◌, ◌++◌, OnOk};
ghost use Rattle.cq_wire.specs.Layout.{number32, number64, optional};
ghost use Rattle.cq_chain_wire.specs.Layout.{answer, message};
ghost use Rattle.cq_chain_wire.specs.Limits.{IsPlain};

use cq_base::{NoMemory, ServerId};
use cq_chain::{Answer, Message};
use cq_wire::{Writer, put_entry, put_reply};

#[tactic(auto, unfolding(cq_wire::specs::Layout::optional))]
fn put_server_if(out: &mut Writer, id: Option<ServerId>) -> Result<(), NoMemory>
    ensures ok { OnOk result (out.new.value ≡ out.old.value ++ optional number32 id) }
    ensures before { out.new.before ≡ out.old.before }
{
    match id {
        Some(id) => {
            out.put(&[1])?;
            out.put_u32(id.get())
        }
        None => out.put(&[0]),
    }
}

/// A server, and how many entries it has.
fn put_counted(out: &mut Writer, id: ServerId, count: u64) -> Result<(), NoMemory>
    ensures ok { OnOk result (out.new.value ≡ out.old.value ++ (number32 id ++ number64 count)) }
    ensures before { out.new.before ≡ out.old.before }
{
    out.put_u32(id.get())?;
    out.put_u64(count)
}

#[tactic(auto, unfolding(crate::specs::Layout::answer))]
fn put_answer(out: &mut Writer, value: &Answer) -> Result<(), NoMemory>
    ensures ok { OnOk result (out.new.value ≡ out.old.value ++ answer value.now) }
    ensures before { out.new.before ≡ out.old.before }
{
    out.put_u32(value.client)?;
    out.put_u64(value.number)?;
    out.put_flag(value.is_query)?;
    out.put_u64(value.length)?;
    put_reply(out, &value.reply)
}

#[tactic(auto, unfolding(crate::specs::Layout::message))]
pub fn put_message(out: &mut Writer, value: &Message) -> Result<(), NoMemory>
    requires { IsPlain value.now }
    ensures ok { OnOk result (out.new.value ≡ out.old.value ++ message value.now) }
    ensures before { out.new.before ≡ out.old.before }
{
    match value {
        Message::Fwd { place, entry } => {
            out.put(&[0])?;
            out.put_u64(*place)?;
            put_entry(out, entry)
        }
        Message::Snap { state: _ } => Ok(()),
        Message::Ack { place } => {
            out.put(&[2])?;
            out.put_u64(*place)
        }
        Message::BeHead => out.put(&[3]),
        Message::Report { pred } => {
            out.put(&[4])?;
            out.put_u32(pred.get())
        }
        Message::Adopt { succ, have } => {
            out.put(&[5])?;
            put_counted(out, *succ, *have)
        }
        Message::BeTail { at_least } => {
            out.put(&[6])?;
            out.put_u64(*at_least)
        }
        Message::Feed { succ } => {
            out.put(&[7])?;
            put_server_if(out, *succ)
        }
        Message::Have { pred, count } => {
            out.put(&[8])?;
            put_counted(out, *pred, *count)
        }
        Message::Adopted { succ, count } => {
            out.put(&[9])?;
            put_counted(out, *succ, *count)
        }
        Message::Caught { pred, count } => {
            out.put(&[10])?;
            put_counted(out, *pred, *count)
        }
        Message::Ready => out.put(&[11]),
        Message::Answer(answer) => {
            out.put(&[12])?;
            put_answer(out, answer)
        }
    }
}

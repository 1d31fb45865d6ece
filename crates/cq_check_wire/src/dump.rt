//! Values as hex digits and as words.
use crate::frames::{add_command, add_response};
use crate::kinds::Value;
use crate::made::{Draws, value};
use crate::stored::add_store;
use cq_base::{Ask, DedupId, Delivery, Entry, Query, Receipt, Reply, Request, Seconds, ServerId};
use cq_chain::{Answer, Message};
use std::alloc::Global;
use std::fmt::Write;
use std::io;

pub fn add_hex(text: &mut String, bytes: &[u8]) -> io::Result<()> {
    for byte in bytes {
        write!(text, "{byte:02x}")?;
    }
    Ok(())
}

fn add_receipt(text: &mut String, receipt: Receipt) -> io::Result<()> {
    let incarnation = receipt.incarnation();
    let sequence = receipt.sequence();
    let handing = receipt.handing();
    write!(text, " {incarnation} {sequence} {handing}")?;
    Ok(())
}

pub fn add_text(text: &mut String, words: &str) -> io::Result<()> {
    text.push(' ')?;
    add_hex(text, words.as_bytes())
}

fn add_dedup(text: &mut String, dedup: &Option<DedupId>) -> io::Result<()> {
    match dedup {
        Some(id) => add_text(text, id.as_str()),
        None => {
            text.push_str(" none")?;
            Ok(())
        }
    }
}

fn add_seconds(text: &mut String, seconds: Option<Seconds>) -> io::Result<()> {
    match seconds {
        Some(seconds) => write!(text, " {}", seconds.get())?,
        None => text.push_str(" none")?,
    }
    Ok(())
}

fn add_ask(text: &mut String, ask: &Ask) -> io::Result<()> {
    match ask {
        Ask::Create {
            queue,
            visibility,
            content,
        } => {
            text.push_str(" create")?;
            add_text(text, queue.as_str())?;
            write!(text, " {} {content}", visibility.get())?;
            Ok(())
        }
        Ask::Remove { queue } => {
            text.push_str(" remove")?;
            add_text(text, queue.as_str())
        }
        Ask::Send {
            queue,
            group,
            dedup,
            body,
        } => {
            text.push_str(" send")?;
            add_text(text, queue.as_str())?;
            add_text(text, group.as_str())?;
            add_dedup(text, dedup)?;
            add_text(text, body.as_str())
        }
        Ask::Receive {
            queue,
            size,
            visibility,
        } => {
            text.push_str(" receive")?;
            add_text(text, queue.as_str())?;
            write!(text, " {}", size.get())?;
            add_seconds(text, *visibility)
        }
        Ask::Delete { queue, receipt } => {
            text.push_str(" delete")?;
            add_text(text, queue.as_str())?;
            add_receipt(text, *receipt)
        }
        Ask::Change {
            queue,
            receipt,
            visibility,
        } => {
            text.push_str(" change")?;
            add_text(text, queue.as_str())?;
            add_receipt(text, *receipt)?;
            add_seconds(text, Some(*visibility))
        }
    }
}

pub fn add_request(text: &mut String, request: &Request) -> io::Result<()> {
    write!(text, " {} {}", request.client, request.number)?;
    add_ask(text, &request.ask)
}

fn add_entry(text: &mut String, entry: &Entry) -> io::Result<()> {
    write!(text, " {}", entry.moment.get())?;
    add_request(text, &entry.request)
}

pub fn add_query(text: &mut String, query: &Query) -> io::Result<()> {
    write!(text, " {} {}", query.client, query.tag)?;
    add_text(text, query.queue.as_str())
}

fn add_deliveries(text: &mut String, deliveries: &[Delivery]) -> io::Result<()> {
    write!(text, " received {}", deliveries.len())?;
    for delivery in deliveries {
        add_receipt(text, delivery.receipt)?;
        add_text(text, delivery.group.as_str())?;
        add_text(text, delivery.body.as_str())?;
    }
    Ok(())
}

pub fn add_reply(text: &mut String, reply: &Reply) -> io::Result<()> {
    match reply {
        Reply::Created(incarnation) => write!(text, " created {incarnation}")?,
        Reply::Removed => text.push_str(" removed")?,
        Reply::Sent(sequence) => write!(text, " sent {sequence}")?,
        Reply::Received(deliveries) => add_deliveries(text, deliveries.as_slice())?,
        Reply::Deleted(removed) => write!(text, " deleted {removed}")?,
        Reply::Changed => text.push_str(" changed")?,
        Reply::Counts { visible, in_flight } => write!(text, " counts {visible} {in_flight}")?,
        Reply::Refused(refusal) => write!(text, " refused {}", refusal.code())?,
    }
    Ok(())
}

fn add_counted(text: &mut String, kind: &str, id: ServerId, count: u64) -> io::Result<()> {
    write!(text, " {kind} {} {count}", id.get())?;
    Ok(())
}

fn add_server_if(text: &mut String, id: Option<ServerId>) -> io::Result<()> {
    match id {
        Some(id) => write!(text, " {}", id.get())?,
        None => text.push_str(" none")?,
    }
    Ok(())
}

fn add_answer(text: &mut String, answer: &Answer) -> io::Result<()> {
    write!(
        text,
        " answer {} {} {} {}",
        answer.client, answer.number, answer.is_query, answer.length
    )?;
    add_reply(text, &answer.reply)
}

/// Adds the words of a message.
pub fn add_message(text: &mut String, message: &Message) -> io::Result<()> {
    match message {
        Message::Fwd { place, entry } => {
            write!(text, " fwd {place}")?;
            add_entry(text, entry)?;
        }
        Message::Snap { state } => {
            text.push_str(" snap ")?;
            add_store(text, state.store())?;
        }
        Message::Ack { place } => write!(text, " ack {place}")?,
        Message::BeHead => text.push_str(" be-head")?,
        Message::Report { pred } => write!(text, " report {}", pred.get())?,
        Message::Adopt { succ, have } => add_counted(text, "adopt", *succ, *have)?,
        Message::BeTail { at_least } => write!(text, " be-tail {at_least}")?,
        Message::Feed { succ } => {
            text.push_str(" feed")?;
            add_server_if(text, *succ)?;
        }
        Message::Have { pred, count } => add_counted(text, "have", *pred, *count)?,
        Message::Adopted { succ, count } => add_counted(text, "adopted", *succ, *count)?,
        Message::Caught { pred, count } => add_counted(text, "caught", *pred, *count)?,
        Message::Ready => text.push_str(" ready")?,
        Message::Answer(answer) => add_answer(text, answer)?,
    }
    Ok(())
}

/// Adds the words of a value.
pub fn add_value(text: &mut String, value: &Value) -> io::Result<()> {
    match value {
        Value::Entry(entry) => {
            text.push_str("entry")?;
            add_entry(text, entry)
        }
        Value::Request(request) => {
            text.push_str("request")?;
            add_request(text, request)
        }
        Value::Query(query) => {
            text.push_str("query")?;
            add_query(text, query)
        }
        Value::Reply(reply) => {
            text.push_str("reply")?;
            add_reply(text, reply)
        }
        Value::Message(message) => {
            text.push_str("message")?;
            add_message(text, message)
        }
        Value::Command(command) => {
            text.push_str("command")?;
            add_command(text, command)
        }
        Value::Response(response) => {
            text.push_str("response")?;
            add_response(text, response)
        }
    }
}

/// So many values, a line each.
pub fn dump(rt: &impl Print, alloc: Global, draws: &mut Draws, count: u64) -> io::Result<()> {
    for _ in 0..count {
        let value = value(alloc, draws)?;
        let mut text = String::new(alloc);
        add_hex(&mut text, &value.bytes(alloc)?)?;
        text.push(' ')?;
        add_value(&mut text, &value)?;
        println!(rt; "{text}")?;
    }
    Ok(())
}

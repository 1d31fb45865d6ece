//! Stores as words.
use crate::dump::{add_reply, add_text};
use crate::stop;
use cq_base::Moment;
use cq_messages::Message;
use cq_queue::{Accepted, Queue};
use cq_store::{QueueRecord, Store};
use std::fmt::Write;
use std::io;

/// More messages, and more accepted sends, than a queue has that is made here.
const ITEMS: usize = 100_000;

fn add_moment_if(text: &mut String, moment: Option<Moment>) -> io::Result<()> {
    match moment {
        Some(moment) => write!(text, " {}", moment.get())?,
        None => text.push_str(" none")?,
    }
    Ok(())
}

fn add_queue(text: &mut String, queue: &Queue) -> io::Result<()> {
    write!(
        text,
        " {} {} {}",
        queue.incarnation(),
        queue.visibility().get(),
        queue.content()
    )?;
    write!(
        text,
        " {} {} {}",
        queue.sent(),
        queue.used(),
        queue.last().get()
    )?;
    Ok(())
}

fn add_message(text: &mut String, message: &Message) -> io::Result<()> {
    write!(text, " message {}", message.sequence)?;
    add_text(text, message.group.as_str())?;
    add_text(text, message.body.as_str())?;
    write!(
        text,
        " {} {} {}",
        message.handings,
        message.handed_at.get(),
        message.until
    )?;
    Ok(())
}

fn add_messages(text: &mut String, queue: &Queue) -> io::Result<()> {
    let mut sequence = 0;
    for _ in 0..ITEMS {
        match queue.messages().after(sequence) {
            Some(message) => {
                add_message(text, message)?;
                sequence = message.sequence;
            }
            None => break,
        }
    }
    Ok(())
}

fn add_accepted(text: &mut String, accepted: &Accepted) -> io::Result<()> {
    text.push_str(" accepted")?;
    add_text(text, accepted.dedup.as_str())?;
    write!(text, " {} {}", accepted.moment.get(), accepted.sequence)?;
    Ok(())
}

fn add_window(text: &mut String, queue: &Queue) -> io::Result<()> {
    for index in 0..ITEMS {
        match queue.accepted(index) {
            Some(accepted) => add_accepted(text, accepted)?,
            None => break,
        }
    }
    Ok(())
}

fn add_kept(text: &mut String, kept: &QueueRecord) -> io::Result<()> {
    write!(text, " {}", kept.creations())?;
    add_moment_if(text, kept.removed())?;
    match kept.living() {
        Some(queue) => {
            add_queue(text, queue)?;
            add_messages(text, queue)?;
            add_window(text, queue)
        }
        None => {
            text.push_str(" none")?;
            Ok(())
        }
    }
}

fn add_clients(text: &mut String, store: &Store) -> io::Result<()> {
    for index in 0..store.client_count() {
        let (client, kept) = store.client(index).ok_or(stop("no client"))?;
        write!(text, " client {client} {}", kept.number)?;
        add_reply(text, &kept.reply)?;
    }
    Ok(())
}

fn add_names(text: &mut String, store: &Store) -> io::Result<()> {
    for index in 0..store.name_count() {
        let (name, kept) = store.name(index).ok_or(stop("no name"))?;
        text.push_str(" name")?;
        add_text(text, name.as_str())?;
        add_kept(text, kept)?;
    }
    Ok(())
}

/// Adds the words of a store.
pub fn add_store(text: &mut String, store: &Store) -> io::Result<()> {
    write!(text, "store {} {}", store.count(), store.last().get())?;
    add_clients(text, store)?;
    add_names(text, store)
}

//! The kinds of values.
use crate::stop;
use cq_base::{Entry, NoMemory, Query, Reply, Request};
use cq_chain::Message;
use cq_chain_wire::{is_plain, read_message, write_message};
use cq_frames::{Command, Response, read_command, read_response, write_command, write_response};
use cq_wire::{
    ReadFault, read_entry, read_query, read_reply, read_request, write_entry, write_query,
    write_reply, write_request,
};
use std::alloc::Global;
use std::io;

/// What a value is.
#[derive(Clone, Copy, PartialEq, Eq)]
pub enum Kind {
    Entry,
    Request,
    Query,
    Reply,
    Message,
    Command,
    Response,
}

impl Kind {
    /// The kind of that name.
    pub fn named(name: &str) -> Option<Kind> {
        match name {
            "entry" => Some(Kind::Entry),
            "request" => Some(Kind::Request),
            "query" => Some(Kind::Query),
            "reply" => Some(Kind::Reply),
            "message" => Some(Kind::Message),
            "command" => Some(Kind::Command),
            "response" => Some(Kind::Response),
            _ => None,
        }
    }
}

pub const KINDS: [Kind; 7] = [
    Kind::Entry,
    Kind::Request,
    Kind::Query,
    Kind::Reply,
    Kind::Message,
    Kind::Command,
    Kind::Response,
];

/// A value of some kind.
#[derive(Drop)]
pub enum Value {
    Entry(Entry),
    Request(Request),
    Query(Query),
    Reply(Reply),
    Message(Message),
    Command(Command),
    Response(Response),
}

/// Writes a message. A snapshot isn't written.
fn write_plain(bytes: &mut Vec<u8>, message: &Message) -> Result<(), NoMemory> {
    if is_plain(message) {
        write_message(bytes, message)
    } else {
        Ok(())
    }
}

impl Value {
    pub fn kind(&self) -> Kind {
        match self {
            Value::Entry(_) => Kind::Entry,
            Value::Request(_) => Kind::Request,
            Value::Query(_) => Kind::Query,
            Value::Reply(_) => Kind::Reply,
            Value::Message(_) => Kind::Message,
            Value::Command(_) => Kind::Command,
            Value::Response(_) => Kind::Response,
        }
    }

    fn write_into(&self, bytes: &mut Vec<u8>) -> Result<(), NoMemory> {
        match self {
            Value::Entry(entry) => write_entry(bytes, entry),
            Value::Request(request) => write_request(bytes, request),
            Value::Query(query) => write_query(bytes, query),
            Value::Reply(reply) => write_reply(bytes, reply),
            Value::Message(message) => write_plain(bytes, message),
            Value::Command(command) => write_command(bytes, command),
            Value::Response(response) => write_response(bytes, response),
        }
    }

    /// Its bytes. A write that finds no memory has to leave no byte, and is made once more.
    pub fn bytes(&self, alloc: Global) -> io::Result<Vec<u8>> {
        let mut bytes = Vec::new(alloc);
        if self.write_into(&mut bytes).is_ok() {
            return Ok(bytes);
        }
        if !bytes.is_empty() {
            return Err(stop("a write that found no memory left bytes"));
        }
        self.write_into(&mut bytes).map_err(|_| stop("no memory"))?;
        Ok(bytes)
    }
}

fn read_once(alloc: Global, kind: Kind, bytes: &[u8]) -> Result<Value, ReadFault> {
    match kind {
        Kind::Entry => match read_entry(alloc, bytes) {
            Ok(entry) => Ok(Value::Entry(entry)),
            Err(fault) => Err(fault),
        },
        Kind::Request => match read_request(alloc, bytes) {
            Ok(request) => Ok(Value::Request(request)),
            Err(fault) => Err(fault),
        },
        Kind::Query => match read_query(alloc, bytes) {
            Ok(query) => Ok(Value::Query(query)),
            Err(fault) => Err(fault),
        },
        Kind::Reply => match read_reply(alloc, bytes) {
            Ok(reply) => Ok(Value::Reply(reply)),
            Err(fault) => Err(fault),
        },
        Kind::Message => match read_message(alloc, bytes) {
            Ok(message) => Ok(Value::Message(message)),
            Err(fault) => Err(fault),
        },
        Kind::Command => match read_command(alloc, bytes) {
            Ok(command) => Ok(Value::Command(command)),
            Err(fault) => Err(fault),
        },
        Kind::Response => match read_response(alloc, bytes) {
            Ok(response) => Ok(Value::Response(response)),
            Err(fault) => Err(fault),
        },
    }
}

/// The value of that kind that the bytes are. A read that finds no memory is made once more.
pub fn read(alloc: Global, kind: Kind, bytes: &[u8]) -> Result<Value, ReadFault> {
    match read_once(alloc, kind, bytes) {
        Err(ReadFault::NoMemory) => read_once(alloc, kind, bytes),
        read => read,
    }
}

//! Bytes that are given as hex digits.
use crate::dump::{add_message, add_value};
use crate::kinds::{Kind, read};
use crate::pieces::read_pieces;
use crate::stop;
use crate::stored::add_store;
use crate::stores::read_store;
use cq_wire::ReadFault;
use std::alloc::Global;
use std::io;
use std::str::SplitWhitespace;

/// The number of a hex digit.
fn digit(byte: u8) -> io::Result<u8> {
    match byte {
        b'0'..=b'9' => Ok(byte - b'0'),
        b'a'..=b'f' => Ok(byte - b'a' + 10),
        _ => Err(stop("no hex digit")),
    }
}

/// The bytes of those digits, two a byte.
fn bytes_of(alloc: Global, digits: &[u8]) -> io::Result<Vec<u8>> {
    let mut bytes = Vec::with_capacity(alloc, digits.len() / 2)?;
    for pair in digits.chunks(2) {
        let high = digit(*pair.first().ok_or(stop("no digit"))?)?;
        let low = digit(*pair.get(1).ok_or(stop("half a byte"))?)?;
        bytes
            .push(high.saturating_mul(16).saturating_add(low))
            .map_err(|_| stop("no memory"))?;
    }
    Ok(bytes)
}

/// Tells the value that the bytes are, or the fault. The value may be a store, or a message in pieces.
pub fn tell_read(
    rt: &impl Print,
    alloc: Global,
    words: &mut SplitWhitespace<'_>,
) -> io::Result<()> {
    let name = words.next().ok_or(stop("no kind"))?;
    if name == "pieces" {
        return tell_pieces(rt, alloc, words);
    }
    let bytes = bytes_of(alloc, words.next().unwrap_or("").as_bytes())?;
    if name == "store" {
        return tell_store(rt, alloc, &bytes);
    }
    let kind = Kind::named(name).ok_or(stop("no such kind"))?;
    match read(alloc, kind, &bytes) {
        Ok(value) => {
            let mut text = String::new(alloc);
            add_value(&mut text, &value)?;
            println!(rt; "{text}")
        }
        Err(ReadFault::NoMemory) => Err(stop("no memory")),
        Err(ReadFault::Bad(fault)) => println!(rt; "{} {}", fault.code(), fault.name()),
    }
}

/// Tells the store that the bytes are, or the fault.
fn tell_store(rt: &impl Print, alloc: Global, bytes: &[u8]) -> io::Result<()> {
    match read_store(alloc, bytes) {
        Ok(store) => {
            let mut text = String::new(alloc);
            add_store(&mut text, &store)?;
            println!(rt; "{text}")
        }
        Err(ReadFault::NoMemory) => Err(stop("no memory")),
        Err(ReadFault::Bad(fault)) => println!(rt; "{} {}", fault.code(), fault.name()),
    }
}

/// The pieces of those digits, a word each; one without bytes is `-`.
fn pieces_of(alloc: Global, words: &mut SplitWhitespace<'_>) -> io::Result<Vec<Vec<u8>>> {
    let mut pieces = Vec::new(alloc);
    for word in words {
        let digits = if word == "-" { "" } else { word };
        let piece = bytes_of(alloc, digits.as_bytes())?;
        pieces.push(piece).map_err(|_| stop("no memory"))?;
    }
    Ok(pieces)
}

/// Tells the message that the pieces are, or the fault.
fn tell_pieces(rt: &impl Print, alloc: Global, words: &mut SplitWhitespace<'_>) -> io::Result<()> {
    let pieces = pieces_of(alloc, words)?;
    match read_pieces(alloc, &pieces) {
        Ok(message) => {
            let mut text = String::new(alloc);
            text.push_str("pieces")?;
            add_message(&mut text, &message)?;
            println!(rt; "{text}")
        }
        Err(ReadFault::NoMemory) => Err(stop("no memory")),
        Err(ReadFault::Bad(fault)) => println!(rt; "{} {}", fault.code(), fault.name()),
    }
}

/// Tells how many bytes there are, and whether they were read.
fn tell_count(rt: &impl Print, bytes: &[u8], is_read: bool) -> io::Result<()> {
    println!(rt; "{} bytes, read: {is_read}", bytes.len())
}

/// Holds the value that the bytes are while it tells of them. The value may be a store.
fn tell_while_held(rt: &impl Print, alloc: Global, name: &str, bytes: &[u8]) -> io::Result<()> {
    if name == "store" {
        let _store = read_store(alloc, bytes).map_err(|_| stop("no store"))?;
        return tell_count(rt, bytes, true);
    }
    let kind = Kind::named(name).ok_or(stop("no such kind"))?;
    let _value = read(alloc, kind, bytes).map_err(|_| stop("no value"))?;
    tell_count(rt, bytes, true)
}

/// Tells how many bytes there are, and whether they are read as a value, which is held until then. The value may be a store.
pub fn tell_held(
    rt: &impl Print,
    alloc: Global,
    words: &mut SplitWhitespace<'_>,
    reads: bool,
) -> io::Result<()> {
    let name = words.next().ok_or(stop("no kind"))?;
    let bytes = bytes_of(alloc, words.next().unwrap_or("").as_bytes())?;
    if reads {
        tell_while_held(rt, alloc, name, &bytes)
    } else {
        tell_count(rt, &bytes, false)
    }
}

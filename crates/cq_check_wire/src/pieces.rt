//! Messages that are written in pieces and read.
use crate::dump::{add_hex, add_message};
use crate::made::{Draws, message};
use crate::reads::Tally;
use crate::stop;
use crate::stores::{made, pass_store};
use cq_chain::{Message, Snapshot};
use cq_chain_wire::{MessageReader, MessageWriter, Progress, passed};
use cq_wire::{ReadFault, WireFault};
use std::alloc::Global;
use std::io;

/// More pieces than a message has that is made here.
const PIECES: usize = 100_000;

/// A message of any kind. Each second one is a snapshot of a store that requests came to.
fn any_message(alloc: Global, draws: &mut Draws) -> io::Result<Message> {
    if draws.below(2) == 0 {
        return message(alloc, draws);
    }
    Ok(Message::Snap {
        state: Snapshot::from_store(made(alloc, draws)?),
    })
}

/// The next piece. A write that finds no memory has to leave no byte, and is made once more.
fn next_piece(
    alloc: Global,
    writer: &mut MessageWriter,
    message: &Message,
    enough: usize,
) -> io::Result<Vec<u8>> {
    if writer.is_done() {
        return Err(stop("no piece is left"));
    }
    let mut bytes = Vec::new(alloc);
    match writer.next(message, &mut bytes, enough) {
        Ok(()) => Ok(bytes),
        Err(_) => {
            if !bytes.is_empty() {
                return Err(stop("a write that found no memory left bytes"));
            }
            writer
                .next(message, &mut bytes, enough)
                .map_err(|_| stop("no memory"))?;
            Ok(bytes)
        }
    }
}

/// The pieces of a message, those of a snapshot of about so many bytes each.
fn pieces(alloc: Global, message: &Message, enough: usize) -> io::Result<Vec<Vec<u8>>> {
    let mut writer = MessageWriter::new(alloc);
    let mut pieces = Vec::new(alloc);
    for _ in 0..PIECES {
        if writer.is_done() {
            break;
        }
        let piece = next_piece(alloc, &mut writer, message, enough)?;
        pieces.push(piece).map_err(|_| stop("no memory"))?;
    }
    if !writer.is_done() {
        return Err(stop("a message isn't written whole"));
    }
    Ok(pieces)
}

fn read_once(alloc: Global, pieces: &[Vec<u8>]) -> Result<Message, ReadFault> {
    let mut progress = Progress::More(MessageReader::new(alloc));
    for piece in pieces {
        progress = match progress {
            Progress::More(reader) => reader.feed(piece)?,
            Progress::Whole(_) => return Err(ReadFault::Bad(WireFault::BytesLeft)),
        };
    }
    match progress {
        Progress::Whole(message) => Ok(message),
        Progress::More(_) => Err(ReadFault::Bad(WireFault::Truncated)),
    }
}

/// The message that the pieces are, all of them. A read that finds no memory is made once more.
pub fn read_pieces(alloc: Global, pieces: &[Vec<u8>]) -> Result<Message, ReadFault> {
    match read_once(alloc, pieces) {
        Err(ReadFault::NoMemory) => read_once(alloc, pieces),
        read => read,
    }
}

/// The pieces together, without what stands before each chunk: the same wherever a message is cut.
fn joined(alloc: Global, pieces: &[Vec<u8>]) -> io::Result<Vec<u8>> {
    let mut text = Vec::new(alloc);
    for piece in pieces {
        let rest = match piece.as_slice() {
            [1, 1, 1, rest @ ..] => rest,
            all => all,
        };
        text.extend_from_slice(rest).map_err(|_| stop("no memory"))?;
    }
    Ok(text)
}

/// The message has to be written as these pieces are, wherever it is cut.
fn expect_same(alloc: Global, message: &Message, texts: &[Vec<u8>]) -> io::Result<()> {
    let again = pieces(alloc, message, usize::MAX)?;
    if joined(alloc, &again)?.as_slice() != joined(alloc, texts)?.as_slice() {
        return Err(stop("a message is written otherwise than it was read"));
    }
    Ok(())
}

/// Reads the pieces as a message.
fn read_one(alloc: Global, tally: &mut Tally, texts: &[Vec<u8>]) -> io::Result<()> {
    match read_pieces(alloc, texts) {
        Ok(message) => {
            expect_same(alloc, &message, texts)?;
            tally.add_value();
            Ok(())
        }
        Err(ReadFault::NoMemory) => Err(stop("no memory")),
        Err(ReadFault::Bad(fault)) => {
            tally.add(fault);
            Ok(())
        }
    }
}

fn copy_of(alloc: Global, bytes: &[u8]) -> io::Result<Vec<u8>> {
    let mut copy = Vec::new(alloc);
    copy.extend_from_slice(bytes)
        .map_err(|_| stop("no memory"))?;
    Ok(copy)
}

/// Reads the pieces with one of them cut at each place.
fn read_cut(
    alloc: Global,
    tally: &mut Tally,
    texts: &mut Vec<Vec<u8>>,
    index: usize,
) -> io::Result<()> {
    let whole = copy_of(alloc, texts.get(index).ok_or(stop("no piece"))?)?;
    for end in 0..whole.len() {
        let front = copy_of(alloc, whole.get(..end).ok_or(stop("no front"))?)?;
        let piece = texts.get_mut(index).ok_or(stop("no piece"))?;
        *piece = front;
        read_one(alloc, tally, texts)?;
    }
    let piece = texts.get_mut(index).ok_or(stop("no piece"))?;
    *piece = whole;
    Ok(())
}

/// Reads some of the pieces, from the first on, and all with one of them cut.
fn read_fronts(alloc: Global, tally: &mut Tally, texts: &mut Vec<Vec<u8>>) -> io::Result<()> {
    for count in 0..texts.len() {
        let front = texts.get(..count).ok_or(stop("no front"))?;
        read_one(alloc, tally, front)?;
    }
    for index in 0..texts.len() {
        read_cut(alloc, tally, texts, index)?;
    }
    Ok(())
}

fn change(texts: &mut Vec<Vec<u8>>, index: usize, place: usize, mask: u8) -> io::Result<()> {
    let piece = texts.get_mut(index).ok_or(stop("no piece"))?;
    let byte = piece.get_mut(place).ok_or(stop("no byte"))?;
    *byte ^= mask;
    Ok(())
}

/// Reads the pieces with each byte of one of them changed.
fn read_changed(
    alloc: Global,
    draws: &mut Draws,
    tally: &mut Tally,
    texts: &mut Vec<Vec<u8>>,
    index: usize,
) -> io::Result<()> {
    let places = texts.get(index).ok_or(stop("no piece"))?.len();
    for place in 0..places {
        let mask = draws.small(256).max(1);
        change(texts, index, place, mask)?;
        read_one(alloc, tally, texts)?;
        change(texts, index, place, mask)?;
    }
    Ok(())
}

/// What the reads of each step gave.
#[derive(Clone, Copy)]
struct Tallies {
    passed: Tally,
    fronts: Tally,
    changed: Tally,
}

/// The pieces of a message, by which it was passed.
fn pass_message(alloc: Global, draws: &mut Draws, tally: &mut Tally) -> io::Result<Vec<Vec<u8>>> {
    let message = any_message(alloc, draws)?;
    let enough = usize::from(draws.small(200));
    let texts = pieces(alloc, &message, enough)?;
    let other = passed(alloc, &message, enough).map_err(|_| stop("no memory"))?;
    expect_same(alloc, &other, &texts)?;
    read_one(alloc, tally, &texts)?;
    Ok(texts)
}

/// Passes a message in pieces, and reads spoilt ones.
fn try_message(alloc: Global, draws: &mut Draws, tallies: &mut Tallies) -> io::Result<()> {
    let mut texts = pass_message(alloc, draws, &mut tallies.passed)?;
    read_fronts(alloc, &mut tallies.fronts, &mut texts)?;
    for index in 0..texts.len() {
        read_changed(alloc, draws, &mut tallies.changed, &mut texts, index)?;
    }
    Ok(())
}

/// So many messages, and as many stores. Nothing is spoilt.
pub fn pass(rt: &impl Print, alloc: Global, draws: &mut Draws, count: u64) -> io::Result<()> {
    let mut messages = Tally::new();
    let mut stores = Tally::new();
    for _ in 0..count {
        let _texts = pass_message(alloc, draws, &mut messages)?;
        let _bytes = pass_store(alloc, draws, &mut stores)?;
    }
    messages.tell(rt, "passed messages")?;
    stores.tell(rt, "passed stores")
}

/// So many messages.
pub fn try_pieces(rt: &impl Print, alloc: Global, draws: &mut Draws, count: u64) -> io::Result<()> {
    let mut tallies = Tallies {
        passed: Tally::new(),
        fronts: Tally::new(),
        changed: Tally::new(),
    };
    for _ in 0..count {
        try_message(alloc, draws, &mut tallies)?;
    }
    tallies.passed.tell(rt, "messages")?;
    tallies.fronts.tell(rt, "fronts of messages")?;
    tallies.changed.tell(rt, "changed messages")
}

/// So many messages in pieces, a line each.
pub fn dump_pieces(
    rt: &impl Print,
    alloc: Global,
    draws: &mut Draws,
    count: u64,
) -> io::Result<()> {
    for _ in 0..count {
        let message = any_message(alloc, draws)?;
        let mut text = String::new(alloc);
        for piece in pieces(alloc, &message, 200)? {
            add_hex(&mut text, &piece)?;
            text.push(' ')?;
        }
        text.push_str("pieces")?;
        add_message(&mut text, &message)?;
        println!(rt; "{text}")?;
    }
    Ok(())
}

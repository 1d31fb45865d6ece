//! Whether values that are written are read back, and bytes that were changed are refused, or read as the value that they are.
//! Each line of standard input is a job:
//!
//! - `values SEED COUNT`: so many values, made by the seed, are written and read. Then of each all fronts are read, and it is
//!   read with each of its bytes changed.
//! - `bytes SEED COUNT`: so many texts of bytes are read as each kind of value.
//! - `stores SEED COUNT`: so many stores, which requests came to by the seed, are written in chunks and read. Then of each all
//!   fronts are read, and it is read with each of its bytes changed.
//! - `pieces SEED COUNT`: so many messages, snapshots among them, are written in pieces and read. Then of each all fronts are read,
//!   and it is read with each of its bytes changed.
//! - `pass SEED COUNT`: so many of both are written and read, and nothing else.
//! - `dump SEED COUNT`, `dump-stores SEED COUNT`, `dump-pieces SEED COUNT`: so many values, stores, or messages in pieces, are
//!   written as hex digits, with words that say them, for a reader in another language.
//! - `read KIND HEX`: those bytes are read as a value of that kind, and the words of the value are told, or the fault.
//! - `read pieces HEX ..`: a message is read from those pieces. `-` is one without bytes.
//! - `hold KIND HEX`, `skip KIND HEX`: the bytes are read, and the value is held; or they aren't read. What the one takes more
//!   than the other is the memory of the value.
//!
//! What is read has to be written as just the bytes that it was read from, wherever a message was cut. Told is how many reads gave
//! a value, and how many each fault. The status is 1 where a value is written otherwise.
#![tactic(auto)]

mod dump;
mod frames;
mod given;
mod kinds;
mod made;
mod pieces;
mod reads;
mod stored;
mod stores;
mod trials;

use crate::made::Draws;
use std::alloc::Global;
use std::io;
use std::io::{BufRead, BufReader};
use std::process::ExitCode;
use std::str::SplitWhitespace;

/// The error of that text.
fn stop(what: &'static str) -> io::Error {
    io::Error::other(what)
}

/// A number that a word says.
fn number(word: Option<&str>) -> io::Result<u64> {
    word.and_then(|word| word.parse().ok())
        .ok_or(stop("no number"))
}

/// The job of that kind, by a seed.
fn run_drawn(
    rt: &impl Print,
    alloc: Global,
    kind: &str,
    words: &mut SplitWhitespace<'_>,
) -> io::Result<()> {
    let mut draws = Draws::new(number(words.next())?);
    let count = number(words.next())?;
    match kind {
        "values" => trials::try_values(rt, alloc, &mut draws, count),
        "bytes" => trials::try_bytes(rt, alloc, &mut draws, count),
        "stores" => stores::try_stores(rt, alloc, &mut draws, count),
        "pieces" => pieces::try_pieces(rt, alloc, &mut draws, count),
        "pass" => pieces::pass(rt, alloc, &mut draws, count),
        "dump" => dump::dump(rt, alloc, &mut draws, count),
        "dump-stores" => stores::dump_stores(rt, alloc, &mut draws, count),
        "dump-pieces" => pieces::dump_pieces(rt, alloc, &mut draws, count),
        _ => Err(stop("no such job")),
    }
}

/// The job of that line.
fn run_line(rt: &impl Print, alloc: Global, line: &str) -> io::Result<()> {
    let mut words = line.split_whitespace();
    match words.next().ok_or(stop("no job"))? {
        "read" => given::tell_read(rt, alloc, &mut words),
        "hold" => given::tell_held(rt, alloc, &mut words, true),
        "skip" => given::tell_held(rt, alloc, &mut words, false),
        kind => run_drawn(rt, alloc, kind, &mut words),
    }
}

fn run_lines(rt: &(impl Print + Input), alloc: Global) -> io::Result<()> {
    for line in BufReader::new(alloc, rt.reader())?.lines(alloc) {
        run_line(rt, alloc, line?.as_str())?;
    }
    Ok(())
}

fn main(rt: HostRuntime) -> ExitCode {
    match run_lines(&rt, rt.alloc()) {
        Ok(()) => ExitCode::SUCCESS,
        Err(error) => {
            let _ = eprintln!(rt; "cq_check_wire: {error}");
            ExitCode::FAILURE
        }
    }
}

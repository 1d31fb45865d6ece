//! Values and bytes that are read.
use crate::kinds::{KINDS, Kind};
use crate::made::{Draws, value};
use crate::reads::Tally;
use crate::stop;
use std::alloc::Global;
use std::io;

/// Reads all fronts of the bytes.
fn read_fronts(alloc: Global, tally: &mut Tally, kind: Kind, bytes: &[u8]) -> io::Result<()> {
    for end in 0..bytes.len() {
        let front = bytes.get(..end).ok_or(stop("no front"))?;
        tally.read(alloc, kind, front)?;
    }
    Ok(())
}

/// Reads the bytes with one of them changed.
fn read_changed(
    alloc: Global,
    tally: &mut Tally,
    kind: Kind,
    bytes: &mut Vec<u8>,
    place: usize,
    mask: u8,
) -> io::Result<()> {
    let byte = bytes.get_mut(place).ok_or(stop("no byte"))?;
    *byte ^= mask;
    tally.read(alloc, kind, bytes)?;
    let byte = bytes.get_mut(place).ok_or(stop("no byte"))?;
    *byte ^= mask;
    Ok(())
}

/// Reads the bytes with each of them changed.
fn read_all_changed(
    alloc: Global,
    draws: &mut Draws,
    tally: &mut Tally,
    kind: Kind,
    bytes: &mut Vec<u8>,
) -> io::Result<()> {
    for place in 0..bytes.len() {
        let mask = draws.small(256).max(1);
        read_changed(alloc, tally, kind, bytes, place, mask)?;
    }
    Ok(())
}

/// What the reads of each step gave.
#[derive(Clone, Copy)]
struct Tallies {
    whole: Tally,
    fronts: Tally,
    changed: Tally,
}

/// Writes and reads a value.
fn try_value(alloc: Global, draws: &mut Draws, tallies: &mut Tallies) -> io::Result<()> {
    let value = value(alloc, draws)?;
    let kind = value.kind();
    let mut bytes = value.bytes(alloc)?;
    tallies.whole.read(alloc, kind, &bytes)?;
    read_fronts(alloc, &mut tallies.fronts, kind, &bytes)?;
    read_all_changed(alloc, draws, &mut tallies.changed, kind, &mut bytes)
}

/// So many values.
pub fn try_values(rt: &impl Print, alloc: Global, draws: &mut Draws, count: u64) -> io::Result<()> {
    let mut tallies = Tallies {
        whole: Tally::new(),
        fronts: Tally::new(),
        changed: Tally::new(),
    };
    for _ in 0..count {
        try_value(alloc, draws, &mut tallies)?;
    }
    tallies.whole.tell(rt, "whole")?;
    tallies.fronts.tell(rt, "fronts")?;
    tallies.changed.tell(rt, "changed")
}

/// Some bytes: small ones more often, so that tags and lengths are met.
fn drawn(alloc: Global, draws: &mut Draws) -> io::Result<Vec<u8>> {
    let mut bytes = Vec::new(alloc);
    bytes.push(1).map_err(|_| stop("no memory"))?;
    for _ in 0..draws.below(48) {
        let limit = if draws.below(3) == 0 { 256 } else { 4 };
        bytes
            .push(draws.small(limit))
            .map_err(|_| stop("no memory"))?;
    }
    Ok(bytes)
}

/// Reads the bytes as each kind.
fn read_as_each(alloc: Global, tally: &mut Tally, bytes: &[u8]) -> io::Result<()> {
    for kind in KINDS {
        tally.read(alloc, kind, bytes)?;
    }
    Ok(())
}

/// So many texts of bytes.
pub fn try_bytes(rt: &impl Print, alloc: Global, draws: &mut Draws, count: u64) -> io::Result<()> {
    let mut tally = Tally::new();
    for _ in 0..count {
        let bytes = drawn(alloc, draws)?;
        read_as_each(alloc, &mut tally, &bytes)?;
    }
    tally.tell(rt, "bytes")
}

//! Bytes as texts that have no 0, no 1 and no line feed.
ghost use Rattle.std.specs.Prelude.{◌≡◌, ◌≤◌, ◌<◌, ◌++◌, ◌∷◌, ℕ, List, false, length, take, replicate, OnOk, IfOk};
ghost use Rattle.cq_lines.specs.Lines.{has_line_feed};
ghost use Rattle.cq_wire.specs.Reading.{Gives};
ghost use Rattle.cq_kept_base.specs.Stuffed.{escaped, put_before, unstuffed};
ghost use Rattle.cq_kept_base.specs.Stuffing.{StandsForItself, Stuffs, has_escape};

use cq_wire::{ReadFault, WireFault};
use memchr::{memchr, memchr3};
use std::alloc::{AllocError, Global};

/// What says that the byte behind it is escaped.
const ESCAPE: u8 = 3;

/// What stands for a line feed behind an escape.
const LINE_FEED: u8 = 2;

/// What stands for a 1 behind an escape.
const ONE: u8 = 4;

/// To call a search takes longer than to look at fewer bytes than that.
const SHORT: usize = 16;

/// By how much the byte that stands for zeros is above their number.
const ZEROS_ABOVE: u8 = 10;

/// The most zeros that follow the first one where one byte stands for all.
const ZEROS_LIMIT: usize = 244;

/// How many zeros these bytes begin with, as far as one byte can stand for them.
fn zeros_in_front(bytes: &[u8]) -> usize
    ensures zeros { take result bytes.now ≡ replicate result 0 }
    ensures within { result ≤ length bytes.now }
    ensures few { result ≤ ZEROS_LIMIT }
{
    let mut count = 0;
    while count < bytes.len() && count < ZEROS_LIMIT && bytes[count] == 0 {
        count += 1;
    }
    count
}

/// Adds what stands for the first of these bytes, and for the zeros behind it if it is one. It answers the bytes behind them.
fn push_first<'a>(text: &mut Vec<u8>, byte: u8, behind: &'a [u8]) -> Result<&'a [u8], AllocError>
    ensures stuffs { IfOk result (λ rest. (value : List ℕ) × (value ++ rest.now ≡ byte ∷ behind.now) × Stuffs text.old.items text.new.items value) }
    ensures fewer { IfOk result (λ rest. length rest.now ≤ length behind.now) }
{
    match byte {
        0 => {
            let more = zeros_in_front(behind);
            text.extend_from_slice(&[ESCAPE, ZEROS_ABOVE + 1 + more as u8])?;
            let (_, rest) = behind.split_at(more);
            Ok(rest)
        }
        1 => {
            text.extend_from_slice(&[ESCAPE, ONE])?;
            Ok(behind)
        }
        3 => {
            text.extend_from_slice(&[ESCAPE, ESCAPE])?;
            Ok(behind)
        }
        10 => {
            text.extend_from_slice(&[ESCAPE, LINE_FEED])?;
            Ok(behind)
        }
        _ => {
            text.extend_from_slice(&[byte])?;
            Ok(behind)
        }
    }
}

/// How many bytes these begin with of which none is 0, 1 or a line feed.
fn line_in_front(bytes: &[u8]) -> usize
    ensures line { has_line_feed (take result bytes.now) ≡ false }
    ensures within { result ≤ length bytes.now }
{
    match memchr3(0, 1, b'\n', bytes) {
        Some(place) => place,
        None => bytes.len(),
    }
}

/// How many bytes these begin with of which none is an escape.
fn unescaped_in_front(bytes: &[u8]) -> usize
    ensures unescaped { has_escape (take result bytes.now) ≡ false }
    ensures within { result ≤ length bytes.now }
{
    if bytes.len() < SHORT {
        return unescaped_in_short(bytes);
    }
    match memchr(ESCAPE, bytes) {
        Some(place) => place,
        None => bytes.len(),
    }
}

/// The same of few bytes, which are looked at one by one.
fn unescaped_in_short(bytes: &[u8]) -> usize
    ensures unescaped { has_escape (take result bytes.now) ≡ false }
    ensures within { result ≤ length bytes.now }
{
    let mut place = 0;
    while place < bytes.len() && bytes[place] != ESCAPE {
        place += 1;
    }
    place
}

/// How many bytes these begin with that stand for themselves.
fn plain_in_front(bytes: &[u8]) -> usize
    ensures plain { StandsForItself (take result bytes.now) }
    ensures within { result ≤ length bytes.now }
{
    let (line, _) = bytes.split_at(line_in_front(bytes));
    unescaped_in_front(line)
}

/// Adds what stands for the first of these bytes, which are some: all that stand for themselves, and the next one, with the zeros behind
/// it if it is one. It answers the bytes behind them.
fn push_front<'a>(text: &mut Vec<u8>, bytes: &'a [u8]) -> Result<&'a [u8], AllocError>
    requires { 0 < length bytes.now }
    ensures stuffs { IfOk result (λ rest. (value : List ℕ) × (value ++ rest.now ≡ bytes.now) × Stuffs text.old.items text.new.items value) }
    ensures fewer { IfOk result (λ rest. length rest.now < length bytes.now) }
{
    let (plain, behind) = bytes.split_at(plain_in_front(bytes));
    text.extend_from_slice(plain)?;
    match behind.split_first() {
        Some((byte, more)) => push_first(text, *byte, more),
        None => Ok(behind),
    }
}

/// Adds a text that stands for these bytes. It is at most twice as long.
pub fn stuff(text: &mut Vec<u8>, bytes: &[u8]) -> Result<(), AllocError>
    ensures { OnOk result (Stuffs text.old.items text.new.items bytes.now) }
{
    let mut rest = bytes;
    while !rest.is_empty() {
        rest = push_front(text, rest)?;
    }
    Ok(())
}

fn push_zeros(bytes: &mut Vec<u8>, count: usize) -> Result<(), AllocError>
    ensures { OnOk result (bytes.new.items ≡ bytes.old.items ++ replicate count 0) }
{
    let mut left = count;
    while left > 0 {
        bytes.push(0)?;
        left -= 1;
    }
    Ok(())
}

/// Adds the bytes for which a byte behind an escape stands.
fn push_escaped(bytes: &mut Vec<u8>, byte: u8) -> Result<(), AllocError>
    ensures { OnOk result (bytes.new.items ≡ bytes.old.items ++ escaped byte) }
{
    if byte == ESCAPE {
        bytes.push(ESCAPE)?;
        return Ok(());
    }
    if byte == LINE_FEED {
        bytes.push(10)?;
        return Ok(());
    }
    if byte == ONE {
        bytes.push(1)?;
        return Ok(());
    }
    push_zeros(bytes, byte.saturating_sub(ZEROS_ABOVE) as usize)
}

/// Adds the bytes for which the next byte of a text stands. It answers whether the byte behind that is escaped.
fn push_next(bytes: &mut Vec<u8>, is_escaped: bool, byte: u8) -> Result<bool, AllocError>
    ensures { IfOk result (λ next. (value : List ℕ) × (bytes.new.items ≡ bytes.old.items ++ value)
        × ((rest : List ℕ) → unstuffed is_escaped (byte ∷ rest) ≡ put_before value (unstuffed next rest))) }
{
    if is_escaped {
        push_escaped(bytes, byte)?;
        return Ok(false);
    }
    if byte == ESCAPE {
        return Ok(true);
    }
    bytes.push(byte)?;
    Ok(false)
}

/// The bytes for which a text stands.
pub fn unstuffed(alloc: Global, text: &[u8]) -> Result<Vec<u8>, ReadFault>
    ensures { Gives (λ bytes. bytes.items) result (unstuffed false text.now) }
{
    let mut bytes = Vec::new(alloc);
    let mut is_escaped = false;
    for byte in text {
        is_escaped = push_next(&mut bytes, is_escaped, *byte)?;
    }
    if is_escaped {
        return Err(ReadFault::Bad(WireFault::Truncated));
    }
    Ok(bytes)
}

//! The places of regions, and how they are written, as the text of a root.
ghost use Rattle.std.specs.Prelude.{◌≡◌, ◌++◌, ◌∷◌, [], ◌<◌, true, false, drop, OnOk, IfOk};
ghost use Rattle.cq_journal.specs.Regions.{AreApart, Each, IsInSteps, behind_of, kind_of, places_in, places_text, regions_text, torn_in};
ghost use Rattle.cq_journal.specs.Roots.{numbered};
ghost use Rattle.cq_journal.specs.within.Bounds.{IsWithin};

use crate::NUMBER_LIMIT;
use crate::number::{push_number, read_number};
use cq_disk::TornWrites;
use cq_records::Behind;
use std::alloc::{AllocError, Global};

/// Whether two regions of this length have no byte in common.
pub(crate) fn is_apart(len: usize, a: usize, b: usize) -> bool
    ensures apart { result ≡ true → AreApart len a b }
    ensures not { result ≡ false → AreApart len a b → ⊥ }
{
    if a <= b { b - a >= len } else { a - b >= len }
}

/// Whether all of these regions have no byte in common with that one: O(places).
pub(crate) fn are_apart(len: usize, places: &[u64], place: usize) -> bool
    ensures apart { result ≡ true → Each (λ n. AreApart len n place) places.now }
    ensures not { result ≡ false → Each (λ n. AreApart len n place) places.now → ⊥ }
{
    for other in places {
        if !is_apart(len, *other as usize, place) {
            return false;
        }
    }
    true
}

/// Whether a region of this length lies so many whole ones behind that place.
fn is_in_steps(len: usize, low: usize, place: u64) -> bool
    requires { 0 < len }
    ensures in_steps { result ≡ true → IsInSteps len low place }
    ensures not { result ≡ false → IsInSteps len low place → ⊥ }
{
    (place as usize).saturating_sub(low) % len == 0
}

/// Whether each of these regions lies so: O(places).
pub(crate) fn are_in_steps(len: usize, low: usize, places: &[u64]) -> bool
    requires { 0 < len }
    ensures in_steps { result ≡ true → Each (IsInSteps len low) places.now }
    ensures not { result ≡ false → Each (IsInSteps len low) places.now → ⊥ }
{
    for place in places {
        if !is_in_steps(len, low, *place) {
            return false;
        }
    }
    true
}

/// Adds these places, five digits each: O(places).
fn push_places(text: &mut Vec<u8>, places: &[u64]) -> Result<(), AllocError>
    requires { Each (λ n. n < NUMBER_LIMIT) places.now }
    ensures { OnOk result (text.new.items ≡ text.old.items ++ places_text places.now) }
{
    for place in places {
        push_number(text, *place)?;
    }
    Ok(())
}

/// What may come behind the records of a region that grows.
pub(crate) fn behind_of(torn: TornWrites) -> Behind
    ensures { result ≡ behind_of torn }
{
    match torn {
        TornWrites::OldOrNew => Behind::TornBatch,
        TornWrites::Any => Behind::Anything,
    }
}

/// What is supposed of torn writes, as a byte.
fn kind_of(torn: TornWrites) -> u8
    ensures { result ≡ kind_of torn }
{
    match torn {
        TornWrites::OldOrNew => 2,
        TornWrites::Any => 3,
    }
}

/// What a root's record says of that.
pub(crate) fn torn_in(bytes: &[u8]) -> TornWrites
    ensures { result ≡ torn_in bytes.now }
{
    match bytes.get(5) {
        Some(3) => TornWrites::Any,
        _ => TornWrites::OldOrNew,
    }
}

/// The text that says what is supposed of torn writes, and names these places and one more behind them: O(places).
pub(crate) fn text_of(
    alloc: Global,
    torn: TornWrites,
    closed: &[u64],
    growing: u64,
) -> Result<Vec<u8>, AllocError>
    requires closed { Each (λ n. n < NUMBER_LIMIT) closed.now }
    requires growing { growing < NUMBER_LIMIT }
    ensures { IfOk result (λ text. text.items ≡ regions_text torn (closed.now ++ growing ∷ [])) }
{
    let mut text = Vec::new(alloc);
    text.push(kind_of(torn))?;
    push_places(&mut text, closed)?;
    push_number(&mut text, growing)?;
    Ok(text)
}

/// The places with one more behind them: O(places).
pub(crate) fn with_growing(
    alloc: Global,
    closed: &[u64],
    growing: u64,
) -> Result<Vec<u64>, AllocError>
    ensures { IfOk result (λ places. places.items ≡ closed.now ++ growing ∷ []) }
{
    let mut places = closed.to_vec(alloc)?;
    places.push(growing)?;
    Ok(places)
}

/// The places with one more behind them, and the text that names these and the next one: O(places).
pub(crate) fn with_next(
    alloc: Global,
    torn: TornWrites,
    closed: &[u64],
    growing: u64,
    next: u64,
) -> Result<(Vec<u64>, Vec<u8>), AllocError>
    requires closed { Each (λ n. n < NUMBER_LIMIT) closed.now }
    requires growing { growing < NUMBER_LIMIT }
    requires next { next < NUMBER_LIMIT }
    ensures closed { IfOk result (λ made. made.0.items ≡ closed.now ++ growing ∷ []) }
    ensures text { IfOk result (λ made. made.1.items ≡ regions_text torn ((closed.now ++ growing ∷ []) ++ next ∷ [])) }
{
    let places = with_growing(alloc, closed, growing)?;
    let text = text_of(alloc, torn, &places, next)?;
    Ok((places, text))
}

/// Whether a region of this length at this place begins at `low` or behind it, and ends at `high` or before it.
fn is_within(len: usize, low: usize, high: usize, place: u64) -> bool
    ensures within { result ≡ true → IsWithin len low high place }
    ensures not { result ≡ false → IsWithin len low high place → ⊥ }
{
    if place >= NUMBER_LIMIT {
        return false;
    }
    let at = place as usize;
    low <= at && at <= high && high - at >= len
}

/// Whether all of these regions lie there: O(places).
pub(crate) fn are_within(len: usize, low: usize, high: usize, places: &[u64]) -> bool
    ensures within { result ≡ true → Each (IsWithin len low high) places.now }
    ensures not { result ≡ false → Each (IsWithin len low high) places.now → ⊥ }
{
    for place in places {
        if !is_within(len, low, high, *place) {
            return false;
        }
    }
    true
}

/// The places that a root's record names, five bytes each: O(bytes).
pub(crate) fn read_places(alloc: Global, bytes: &[u8]) -> Result<Vec<u64>, AllocError>
    ensures places { IfOk result (λ places. places.items ≡ places_in (drop 6 bytes.now)) }
    ensures small { IfOk result (λ places. Each (λ n. n < NUMBER_LIMIT) places.items) }
{
    let mut places = Vec::new(alloc);
    let mut at = bytes.len().min(6);
    while bytes.len() - at >= 5 {
        let place = read_number(&bytes[at..at + 5]);
        places.push(place)?;
        at += 5;
    }
    Ok(places)
}

/// Whether a root's record has this number, says this of torn writes, and names these places and one more behind them: O(places).
pub(crate) fn is_record_of(
    alloc: Global,
    bytes: &[u8],
    number: u64,
    torn: TornWrites,
    closed: &[u64],
    growing: u64,
) -> Result<bool, AllocError>
    requires number { number < NUMBER_LIMIT }
    requires closed { Each (λ n. n < NUMBER_LIMIT) closed.now }
    requires growing { growing < NUMBER_LIMIT }
    ensures is { IfOk result (λ is. is ≡ true → bytes.now ≡ numbered number (regions_text torn (closed.now ++ growing ∷ []))) }
    ensures not { IfOk result (λ is. is ≡ false → bytes.now ≡ numbered number (regions_text torn (closed.now ++ growing ∷ [])) → ⊥) }
{
    let mut record = Vec::new(alloc);
    push_number(&mut record, number)?;
    record.extend_from_slice(&text_of(alloc, torn, closed, growing)?)?;
    Ok(record.as_slice() == bytes)
}

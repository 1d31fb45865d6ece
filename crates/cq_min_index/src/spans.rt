//! Where in each block of a list numbers stand that a search may have to read.
ghost use Rattle.std.specs.Prelude.{◌≡◌, ℕ, ◌⊎◌, ◌+◌, ◌*◌, ◌/◌, ◌<◌, ◌≤◌, length, get_or, slice_index, IfSome, IsNone, OnOk, OnErr};
ghost use Rattle.cq_min_index.specs.Firsts.{IsFirst};
ghost use Rattle.cq_min_index.specs.within.Spans.{AreSpans, AreSpansBut, AreAboveIn, IsOutside};
ghost use Rattle.cq_min_index.specs.declared.min_blocks.TheConstants.{BLOCK};

use crate::min_blocks::BLOCK;
use crate::min_list::scan;
use std::alloc::AllocError;

/// The largest number. A search for a smaller one need not read where it stands.
pub const LARGEST: u64 = u64::MAX;

/// The places of a block from `from` up to `end`, outside of which each number is the largest.
#[derive(Clone, Copy, Drop)]
pub struct Span {
    pub from: usize,
    pub end: usize,
}

/// An empty span for a block that begins at the end of the numbers. A push that got no memory may have left it there.
pub fn begin_span(spans: &mut Vec<Span>, numbers: &[u64]) -> Result<(), AllocError>
    requires spans { AreSpans numbers.now spans.old.items }
    ensures spans { AreSpans numbers.now spans.new.items }
    ensures long { OnOk result (length numbers.now < BLOCK * length spans.new.items) }
{
    let len = numbers.len();
    if spans.len() <= len / BLOCK {
        spans.push(Span {
            from: len,
            end: len,
        })?;
    }
    Ok(())
}

/// The span with that place, and all between.
fn widened(numbers: &[u64], span: Span, at: usize) -> Span
    requires { at < length numbers.now }
    ensures from { (result.from ≡ at) ⊎ (result.from ≡ span.from) }
    ensures end { (result.end ≡ at + 1) ⊎ (result.end ≡ span.end) }
    ensures at { (result.from ≤ at) × (at < result.end) }
    ensures others { (k : ℕ) → span.from ≤ k → k < span.end → (result.from ≤ k) × (k < result.end) }
{
    let end = at + 1;
    if span.from < span.end {
        Span {
            from: span.from.min(at),
            end: span.end.max(end),
        }
    } else {
        Span { from: at, end }
    }
}

/// Has the span of its block hold that place, if a number below the largest was written there: O(1).
pub fn widen(spans: &mut Vec<Span>, numbers: &[u64], at: usize)
    requires place { at < length numbers.now }
    requires spans { AreSpansBut numbers.now at spans.old.items }
    ensures { AreSpans numbers.now spans.new.items }
{
    if numbers[at] < LARGEST {
        let block = at / BLOCK;
        spans[block] = widened(numbers, spans[block], at);
    }
}

/// The end of the numbers up to `end` without the largest ones at their end: O(end - from).
fn end_of(numbers: &[u64], from: usize, end: usize) -> usize
    requires order { from ≤ end }
    requires within { end ≤ length numbers.now }
    ensures after { from ≤ result }
    ensures within { result ≤ end }
    ensures rest { (k : ℕ) → result ≤ k → k < end → LARGEST ≤ get_or numbers.now k 0 }
{
    let mut i = end;
    while i > from && numbers[i - 1] == LARGEST {
        i -= 1;
    }
    i
}

/// Makes the span of the block of that place as short as it can be: O(1) where it is so already.
pub fn narrow(spans: &mut Vec<Span>, numbers: &[u64], at: usize)
    requires place { at < length numbers.now }
    requires spans { AreSpans numbers.now spans.old.items }
    ensures { AreSpans numbers.now spans.new.items }
{
    let block = at / BLOCK;
    let span = spans[block];
    if span.from < span.end {
        let from = scan(numbers, span.from, span.end, LARGEST - 1);
        let end = end_of(numbers, from, span.end);
        spans[block] = Span { from, end };
    }
}

/// The least number of the block of that place: O(1), or as many as its span has.
pub fn least_of(numbers: &[u64], spans: &[Span], at: usize) -> u64
    requires place { at < length numbers.now }
    requires spans { AreSpans numbers.now spans.now }
    ensures below { (k : ℕ) → k / BLOCK ≡ at / BLOCK → k < length numbers.now → result ≤ get_or numbers.now k 0 }
    ensures reached { (k : ℕ) × ((k / BLOCK ≡ at / BLOCK) × ((k < length numbers.now) × (get_or numbers.now k 0 ≡ result))) }
{
    let span = spans[at / BLOCK];
    let mut least = numbers[at];
    for i in span.from..span.end {
        if numbers[i] < least {
            least = numbers[i];
        }
    }
    least
}

/// The places of the block of `from` that a search for numbers that are at most the limit has to read.
fn to_read(numbers: &[u64], spans: &[Span], from: usize, limit: u64) -> Span
    requires place { from < length numbers.now }
    requires spans { AreSpans numbers.now spans.now }
    ensures within { result.end ≤ length numbers.now }
    ensures before { result.end ≤ BLOCK * (from / BLOCK) + BLOCK }
    ensures rest { (k : ℕ) → from ≤ k → k / BLOCK ≡ from / BLOCK → k < length numbers.now → IsOutside result k
        → limit < get_or numbers.now k 0 }
{
    let block = from / BLOCK;
    if limit < LARGEST {
        spans[block]
    } else {
        let end = numbers.len().min((block + 1) * BLOCK);
        Span { from, end }
    }
}

/// The place of the first number from `from` on in its block that is at most the limit.
pub fn first_in(numbers: &[u64], spans: &[Span], from: usize, limit: u64) -> Option<usize>
    requires place { from < length numbers.now }
    requires spans { AreSpans numbers.now spans.now }
    ensures some { IfSome result (IsFirst numbers.now from limit) }
    ensures here { IfSome result (λ i. i / BLOCK ≡ from / BLOCK) }
    ensures none { IsNone result → AreAboveIn numbers.now limit from (from / BLOCK) }
{
    let span = to_read(numbers, spans, from, limit);
    let start = from.max(span.from);
    if start >= span.end {
        return None;
    }
    let i = scan(numbers, start, span.end, limit);
    if i < span.end { Some(i) } else { None }
}

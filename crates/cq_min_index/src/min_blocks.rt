//! A list in blocks, with the least number of each block in a list above it.
ghost use Rattle.std.specs.Prelude.{◌≡◌, ℕ, ◌+◌, ◌*◌, ◌/◌, ◌<◌, ◌≤◌, List, [], length, slice_index, IfSome, IsNone, OnOk, OnErr};
ghost use Rattle.cq_min_index.specs.Firsts.{IsFirst};
ghost use Rattle.cq_min_index.specs.within.Spans.{AreSpans, AreAboveIn};
ghost use Rattle.cq_min_index.specs.declared.min_blocks.TheConstants.{BLOCK};
ghost use Rattle.cq_min_index.specs.within.Summaries.{IsSummary, IsBegun};

use crate::min_search::MinSearch;
use crate::number_list::NumberList;
use crate::spans::{Span, begin_span, first_in, least_of, narrow, widen};
use std::alloc::{AllocError, Global};
use std::marker::Model;

/// How many numbers of a list have one number above them.
pub const BLOCK: usize = 32;

/// A list in blocks, and above it the least number of each block. A search reads the rest of one block, asks the list
/// above for the next block that has a number small enough, and reads that one. A write reads its block where it takes
/// the least number away, and writes one number above where the least of the block changes. What is read of a block is
/// its span, outside of which nothing but the largest number stands.
#[derive(Drop)]
pub struct MinBlocks<T: MinSearch> {
    low: Vec<u64>,
    spans: Vec<Span>,
    high: T,
}

impl<T: MinSearch> Model for MinBlocks<T> {
    ghost Value = { List ℕ };

    ghost view = { λ b. b.low.items };

    ghost invariant = { λ b. IsSummary b.low.items (T.numbers b.high) × AreSpans b.low.items b.spans.items };
}

/// Writes the first number of a new block above, in a place of its own or in one that stands there already: a push
/// that got no memory below leaves one.
fn begin_block<T: MinSearch>(high: &mut T, block: usize, number: u64) -> Result<(), AllocError>
    requires least { block ≤ length (T.numbers high.old) }
    requires most { length (T.numbers high.old) ≤ block + 1 }
    ensures ok { OnOk result (IsBegun (T.numbers high.old) (T.numbers high.new) block number) }
    ensures err { OnErr result (T.numbers high.new ≡ T.numbers high.old) }
{
    if high.len() == block {
        high.push(number)?;
    } else {
        high.set(block, number);
    }
    Ok(())
}

impl<T: MinSearch> MinBlocks<T> {
    /// No number, over a list with no number.
    pub fn new(alloc: Global, high: T) -> MinBlocks<T>
        requires { T.numbers high ≡ [] }
        ensures { result ≡ [] }
    {
        MinBlocks {
            low: Vec::new(alloc),
            spans: Vec::new(alloc),
            high,
        }
    }

    /// The place of the first number from `from` on in its block that is at most the limit. The block is read only where
    /// the least number of it is.
    fn first_here(&self, from: usize, limit: u64) -> Option<usize>
        requires { from < length self.now }
        ensures some { IfSome result (IsFirst self.now from limit) }
        ensures none { IsNone result → AreAboveIn self.now limit from (from / BLOCK) }
    {
        if self.high.get(from / BLOCK) > limit {
            return None;
        }
        first_in(&self.low, &self.spans, from, limit)
    }
}

impl<T: MinSearch> NumberList for MinBlocks<T> {
    ghost numbers = { λ b. b };

    fn len(&self) -> usize {
        self.low.len()
    }

    fn get(&self, at: usize) -> u64 {
        self.low[at]
    }

    fn set(&mut self, at: usize, number: u64) {
        let before = self.low[at];
        if number == before {
            return;
        }
        self.low[at] = number;
        widen(&mut self.spans, &self.low, at);
        let block = at / BLOCK;
        let least = self.high.get(block);
        if number < least {
            self.high.set(block, number);
        } else if before == least {
            narrow(&mut self.spans, &self.low, at);
            let least = least_of(&self.low, &self.spans, at);
            self.high.set(block, least);
        }
    }

    fn push(&mut self, number: u64) -> Result<(), AllocError> {
        let len = self.low.len();
        let block = len / BLOCK;
        if len % BLOCK == 0 {
            begin_block(&mut self.high, block, number)?;
            begin_span(&mut self.spans, &self.low)?;
            self.low.push(number)?;
            widen(&mut self.spans, &self.low, len);
        } else {
            self.low.push(number)?;
            widen(&mut self.spans, &self.low, len);
            if number < self.high.get(block) {
                self.high.set(block, number);
            }
        }
        Ok(())
    }

    fn try_copy(&self) -> Result<MinBlocks<T>, AllocError> {
        Ok(MinBlocks {
            low: self.low.clone()?,
            spans: self.spans.clone()?,
            high: self.high.try_copy()?,
        })
    }
}

impl<T: MinSearch> MinSearch for MinBlocks<T> {
    fn first_at_most(&self, from: usize, limit: u64) -> Option<usize> {
        let len = self.low.len();
        if from >= len {
            return None;
        }
        if let Some(i) = self.first_here(from, limit) {
            return Some(i);
        }
        let block = self.high.first_at_most(from / BLOCK + 1, limit)?;
        let start = block * BLOCK;
        if start >= len {
            return None;
        }
        first_in(&self.low, &self.spans, start, limit)
    }
}

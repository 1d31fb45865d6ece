//! A list with nothing above it, which is read number by number.
ghost use Rattle.std.specs.Prelude.{◌≡◌, ℕ, ◌<◌, ◌≤◌, List, [], length, slice_index};
ghost use Rattle.cq_min_index.specs.Firsts.{AreAbove, IsFirst};

use crate::min_search::MinSearch;
use crate::number_list::NumberList;
use std::alloc::{AllocError, Global};
use std::marker::Model;

/// The place of the first of the numbers from `from` up to `end` that is at most the limit, or else `end`:
/// O(end - from).
pub fn scan(numbers: &[u64], from: usize, end: usize, limit: u64) -> usize
    requires order { from ≤ end }
    requires within { end ≤ length numbers.now }
    ensures after { from ≤ result }
    ensures within { result ≤ end }
    ensures before { AreAbove numbers.now limit from result }
    ensures found { result < end → slice_index numbers.now result ≤ limit }
{
    let mut i = from;
    while i < end && numbers[i] > limit {
        i += 1;
    }
    i
}

/// A list that is searched from one end to the other: the top of a tree, where few numbers are left.
#[derive(Drop)]
pub struct MinList {
    numbers: Vec<u64>,
}

impl Model for MinList {
    ghost Value = { List ℕ };

    ghost view = { λ f. f.numbers.items };
}

impl MinList {
    /// No number. It takes no memory.
    pub fn new(alloc: Global) -> MinList
        ensures { result ≡ [] }
    {
        MinList {
            numbers: Vec::new(alloc),
        }
    }
}

impl NumberList for MinList {
    ghost numbers = { λ f. f };

    fn len(&self) -> usize {
        self.numbers.len()
    }

    fn get(&self, at: usize) -> u64 {
        self.numbers[at]
    }

    fn set(&mut self, at: usize, number: u64) {
        self.numbers[at] = number;
    }

    fn push(&mut self, number: u64) -> Result<(), AllocError> {
        self.numbers.push(number)?;
        Ok(())
    }

    fn try_copy(&self) -> Result<MinList, AllocError> {
        Ok(MinList {
            numbers: self.numbers.clone()?,
        })
    }
}

impl MinSearch for MinList {
    fn first_at_most(&self, from: usize, limit: u64) -> Option<usize> {
        let len = self.numbers.len();
        if from >= len {
            return None;
        }
        let i = scan(&self.numbers, from, len, limit);
        if i < len { Some(i) } else { None }
    }
}

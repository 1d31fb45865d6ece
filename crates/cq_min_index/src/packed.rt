//! A list of which few numbers are below the largest, and these are side by side.
ghost use Rattle.std.specs.Prelude.{◌≡◌, ◌≢◌, ℕ, ◌+◌, ◌<◌, ◌≤◌, [], length, get_or, set, take, filter, count_by, nat_le};
ghost use Rattle.cq_min_index.specs.Packing.{ArePlaced, by_place, is_counted, upto};
ghost use Rattle.cq_min_index.specs.declared.spans.TheConstants.{LARGEST};

use crate::min_blocks::BLOCK;
use crate::min_search::MinSearch;
use crate::min_tree::{MinTree, new_min_tree};
use crate::number_list::NumberList;
use crate::spans::LARGEST;
use std::alloc::{AllocError, Global};
use std::marker::Model;

/// A list whose numbers below the largest are kept side by side, whatever places they have in it, so that those that
/// are at most a limit are counted without a walk over the others. A write is O(log n).
#[derive(Drop)]
pub struct Packed {
    /// By position.
    numbers: MinTree,
    /// By position, the place that its number has in the list.
    places: Vec<usize>,
    /// By place, the position at which its number stands.
    positions: Vec<usize>,
    /// From this position on there is the largest number alone.
    small: usize,
}

impl Model for Packed {
    ghost use Rattle.std.specs.Prelude.{List, ℕ};
    ghost use Rattle.cq_min_index.specs.Packing.{ArePacked, by_place};

    ghost Value = { List ℕ };

    ghost view = { λ p. by_place p.numbers p.positions.items };

    ghost invariant = { λ p. ArePacked p.numbers p.places.items p.positions.items p.small };
}

/// Exchanges the places of two positions: O(1).
fn exchange(places: &mut Vec<usize>, positions: &mut Vec<usize>, one: usize, other: usize)
    requires one { one < length positions.old.items }
    requires other { other < length positions.old.items }
    requires placed { ArePlaced places.old.items positions.old.items }
    ensures placed { ArePlaced places.new.items positions.new.items }
    ensures long { length positions.new.items ≡ length positions.old.items }
    ensures one { get_or positions.new.items (get_or places.old.items one 0) 0 ≡ other }
    ensures other { get_or positions.new.items (get_or places.old.items other 0) 0 ≡ one }
    ensures others { (k : ℕ) → k ≢ get_or places.old.items one 0 → k ≢ get_or places.old.items other 0
        → get_or positions.new.items k 0 ≡ get_or positions.old.items k 0 }
{
    let at_one = places[one];
    let at_other = places[other];
    places.swap(one, other);
    positions.swap(at_one, at_other);
}

/// Writes a number for the place of a position, and has it stand at the first position behind the small ones.
fn put_in(
    numbers: &mut MinTree,
    places: &mut Vec<usize>,
    positions: &mut Vec<usize>,
    position: usize,
    first: usize,
    number: u64,
)
    requires long { length numbers.old ≡ length positions.old.items }
    requires position { position < length positions.old.items }
    requires first { first < length positions.old.items }
    requires same { get_or numbers.old first 0 ≡ get_or numbers.old position 0 }
    requires placed { ArePlaced places.old.items positions.old.items }
    ensures long { length numbers.new ≡ length positions.new.items }
    ensures placed { ArePlaced places.new.items positions.new.items }
    ensures number { by_place numbers.new positions.new.items
        ≡ set (by_place numbers.old positions.old.items) (get_or places.old.items position 0) number }
    ensures rest { numbers.new ≡ set numbers.old first number }
{
    exchange(places, positions, position, first);
    numbers.set(first, number);
}

/// Writes the largest number for the place of a position, and has the number at the last position of the small ones
/// stand there.
fn take_out(
    numbers: &mut MinTree,
    places: &mut Vec<usize>,
    positions: &mut Vec<usize>,
    position: usize,
    last: usize,
)
    requires long { length numbers.old ≡ length positions.old.items }
    requires position { position ≤ last }
    requires last { last < length positions.old.items }
    requires placed { ArePlaced places.old.items positions.old.items }
    ensures long { length numbers.new ≡ length positions.new.items }
    ensures placed { ArePlaced places.new.items positions.new.items }
    ensures number { by_place numbers.new positions.new.items
        ≡ set (by_place numbers.old positions.old.items) (get_or places.old.items position 0) LARGEST }
    ensures rest { numbers.new ≡ set (set numbers.old position (get_or numbers.old last 0)) last LARGEST }
{
    let moved = numbers.get(last);
    numbers.set(position, moved);
    numbers.set(last, LARGEST);
    exchange(places, positions, position, last);
}

/// The end of the block of a position, or the end of the positions that are read where this comes before it.
fn end_of_block(position: usize, end: usize) -> usize
    requires { position < end }
    ensures after { position < result }
    ensures within { result ≤ end }
{
    let left = BLOCK - position % BLOCK;
    position + left.min(end - position)
}

/// How many of the numbers at the positions from `from` up to `to` are at most the limit: O(to - from), with no search.
fn count_small_between(numbers: &MinTree, from: usize, to: usize, limit: u64) -> u64
    requires order { from ≤ to }
    requires within { to ≤ length numbers.now }
    ensures few { result + from ≤ to }
    ensures counted { count_by (λ j. nat_le (get_or numbers.now j 0) limit) (upto to)
        ≡ count_by (λ j. nat_le (get_or numbers.now j 0) limit) (upto from) + result }
{
    let mut count = 0;
    for i in from..to {
        if numbers.get(i) <= limit {
            count += 1;
        }
    }
    count
}

/// How many of the numbers at the positions from `from` up to `to` are at most the limit and have a place before
/// `end`: O(to - from), with no search. Places are read only where not all of them are before `end`.
fn count_between(
    numbers: &MinTree,
    places: &[usize],
    from: usize,
    to: usize,
    limit: u64,
    end: usize,
) -> u64
    requires order { from ≤ to }
    requires within { to ≤ length numbers.now }
    requires long { length numbers.now ≡ length places.now }
    requires places { (j : ℕ) → j < length places.now → get_or places.now j 0 < length places.now }
    ensures few { result + from ≤ to }
    ensures counted { count_by (is_counted numbers.now places.now limit end) (upto to)
        ≡ count_by (is_counted numbers.now places.now limit end) (upto from) + result }
{
    if places.len() <= end {
        return count_small_between(numbers, from, to, limit);
    }
    let mut count = 0;
    for i in from..to {
        if numbers.get(i) <= limit && places[i] < end {
            count += 1;
        }
    }
    count
}

impl Packed {
    /// No number. It takes no memory.
    pub fn new(alloc: Global) -> Packed
        ensures { result ≡ [] }
    {
        Packed {
            numbers: new_min_tree(alloc),
            places: Vec::new(alloc),
            positions: Vec::new(alloc),
            small: 0,
        }
    }

    /// How many of the numbers at the places before `end` are at most the limit, which is below the largest: O(log n)
    /// for each run of such numbers in the list, and O(1) for each number of a run. It takes no memory.
    pub fn count_at_most(&self, limit: u64, end: usize) -> u64
        requires { limit < LARGEST }
        ensures { result ≡ length (filter (λ n. nat_le n limit) (take end self.now)) }
    {
        let mut count = 0;
        let mut from = 0;
        while from < self.small {
            match self.numbers.first_at_most(from, limit) {
                Some(position) => {
                    let run_end = end_of_block(position, self.small);
                    count += count_between(
                        &self.numbers,
                        &self.places,
                        position,
                        run_end,
                        limit,
                        end,
                    );
                    from = run_end;
                }
                None => return count,
            }
        }
        count
    }
}

impl NumberList for Packed {
    ghost numbers = { λ p. p };

    fn len(&self) -> usize {
        self.positions.len()
    }

    fn get(&self, at: usize) -> u64 {
        self.numbers.get(self.positions[at])
    }

    fn set(&mut self, at: usize, number: u64) {
        let position = self.positions[at];
        if position < self.small {
            if number < LARGEST {
                self.numbers.set(position, number);
            } else {
                let last = self.small - 1;
                take_out(
                    &mut self.numbers,
                    &mut self.places,
                    &mut self.positions,
                    position,
                    last,
                );
                self.small = last;
            }
        } else if number < LARGEST {
            let first = self.small;
            put_in(
                &mut self.numbers,
                &mut self.places,
                &mut self.positions,
                position,
                first,
                number,
            );
            self.small = first + 1;
        }
    }

    fn push(&mut self, number: u64) -> Result<(), AllocError> {
        let place = self.positions.len();
        self.places.reserve(1)?;
        self.positions.reserve(1)?;
        self.numbers.push(LARGEST)?;
        self.places.push_reserved(place);
        self.positions.push_reserved(place);
        self.set(place, number);
        Ok(())
    }

    fn try_copy(&self) -> Result<Packed, AllocError> {
        Ok(Packed {
            numbers: self.numbers.try_copy()?,
            places: self.places.clone()?,
            positions: self.positions.clone()?,
            small: self.small,
        })
    }
}

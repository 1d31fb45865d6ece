//! Lists above lists.
ghost use Rattle.std.specs.Prelude.{◌≡◌, []};

use crate::min_blocks::MinBlocks;
use crate::min_list::MinList;
use std::alloc::Global;

/// A list in which a search and a write are O(log n): each list has a 32nd of the numbers of the one below it, and with
/// fewer than 2^31 numbers 64 at most are at the top, which is searched as a whole.
pub type MinTree = MinBlocks<MinBlocks<MinBlocks<MinBlocks<MinBlocks<MinList>>>>>;

/// No number. It takes no memory.
pub fn new_min_tree(alloc: Global) -> MinTree
    ensures { result ≡ [] }
{
    let top = MinList::new(alloc);
    let fifth = MinBlocks::new(alloc, top);
    let fourth = MinBlocks::new(alloc, fifth);
    let third = MinBlocks::new(alloc, fourth);
    let second = MinBlocks::new(alloc, third);
    MinBlocks::new(alloc, second)
}

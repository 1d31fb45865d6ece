//! What each list of numbers that is searched can do, whatever stands above it.
ghost use Rattle.std.specs.Prelude.{length, IfSome, IsNone};
ghost use Rattle.cq_min_index.specs.Firsts.{AreAbove, IsFirst};

use crate::number_list::NumberList;

/// A list of numbers that is searched for small ones.
pub trait MinSearch: NumberList {
    /// The place of the first number from that place on which is at most the limit.
    fn first_at_most(&self, from: usize, limit: u64) -> Option<usize>
        ensures found { IfSome result (IsFirst (Self.numbers self.now) from limit) }
        ensures none { IsNone result → AreAbove (Self.numbers self.now) limit from (length (Self.numbers self.now)) };
}

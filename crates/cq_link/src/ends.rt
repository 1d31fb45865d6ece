//! What a node needs of the ends of a link or of an inbox.
ghost use Rattle.std.specs.Prelude.{◌≡◌, List, [], ◌∷◌, ◌++◌, OnOk, IfErr, MatchOption};

use crate::link::{Putter, Taker};
use std::sync::Wait;

/// The item, which a full link or inbox hands back.
#[derive(Debug, Drop)]
pub struct Full<T: Drop>(pub T);

/// An end on which items are put.
pub trait PutEnd<T: Drop> {
    /// What tells a link from others.
    ghost Id: { Type 0 };

    /// What was put on it so far, in order.
    ghost list: { Self → List T };

    /// The link that it is an end of.
    ghost link: { Self → Id };

    /// Puts an item behind those that were put on this end before. Where there is no room it hands the item
    /// back, and nothing changes.
    fn put<R: Wait>(&mut self, rt: &R, item: T) -> Result<(), Full<T>>
        ensures link { link self.new ≡ link self.old }
        ensures ok { OnOk result (list self.new ≡ list self.old ++ item ∷ []) }
        ensures full { IfErr result (λ full. (full.0 ≡ item) × (list self.new ≡ list self.old)) };
}

/// An end from which items are taken.
pub trait TakeEnd<T: Drop> {
    /// What tells a link from others.
    ghost Id: { Type 0 };

    /// What was taken from it so far, in order.
    ghost list: { Self → List T };

    /// The link that it is an end of.
    ghost link: { Self → Id };

    /// Takes the first item that is there.
    fn take<R: Wait>(&mut self, rt: &R) -> Option<T>
        ensures link { link self.new ≡ link self.old }
        ensures taken { MatchOption result (list self.new ≡ list self.old) (λ item. list self.new ≡ list self.old ++ item ∷ []) };

    /// Whether it knows that nothing is there: a look before a take, which moves nothing. An end that can't look answers
    /// false. What another thread puts meanwhile is seen by a later look.
    fn is_empty(&mut self) -> bool
        ensures link { link self.new ≡ link self.old }
        ensures list { list self.new ≡ list self.old }
    {
        false
    }
}

impl<T: Drop> PutEnd<T> for Putter<T> {
    ghost use Rattle.cq_link.specs.Links.{LinkId, putter_link, put_on};

    ghost Id = { LinkId };

    ghost list = { put_on };

    ghost link = { putter_link };

    fn put<R: Wait>(&mut self, _rt: &R, item: T) -> Result<(), Full<T>> {
        Putter::put(self, item)
    }
}

impl<T: Drop> TakeEnd<T> for Taker<T> {
    ghost use Rattle.cq_link.specs.Links.{LinkId, taker_link, taken_from};

    ghost Id = { LinkId };

    ghost list = { taken_from };

    ghost link = { taker_link };

    fn take<R: Wait>(&mut self, _rt: &R) -> Option<T> {
        Taker::take(self)
    }

    fn is_empty(&mut self) -> bool {
        Taker::is_empty(self)
    }
}

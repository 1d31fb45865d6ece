//! The rule of an inbox, which each step of its ends keeps.

use crossbeam_channel::protocol::{Join, Lesson, Outcome, Protocol, Split};
use std::collections::LinkedList;

/// An item with the end on which it was put.
#[derive(Debug, Drop)]
pub struct Tagged<T: Drop> {
    /// Whether it was put on the second of the two ends.
    pub second: bool,
    pub item: T,
}

/// What a pass may do, and what it has put and taken. No value of it is made.
pub struct Known<T: Drop> {
    pub first: bool,
    pub second: bool,
    pub takes: bool,
    pub of_first: LinkedList<T>,
    pub of_second: LinkedList<T>,
    pub got: LinkedList<Tagged<T>>,
}

/// For each end on which items are put, its list is what was taken of it, followed by what the channel holds.
pub struct InOrder;

impl<T: Drop> Protocol<Tagged<T>, Known<T>> for InOrder {
    ghost use Rattle.std.specs.Prelude.{true, []};
    ghost use Rattle.cq_link.specs.within.Rules.{known, Delivers};

    ghost holds = { Delivers };

    ghost first = { known true true true [] [] [] };
}

/// Leaves the first end, and cuts off the second end with the taking one.
pub struct First;

impl<T: Drop> Split<Known<T>> for First {
    ghost use Rattle.std.specs.Prelude.{true, false};
    ghost use Rattle.cq_link.specs.within.Rules.{in_roles};

    ghost left = { in_roles true false false };

    ghost right = { in_roles false true true };
}

/// Joins the second end to the others.
impl<T: Drop> Join<Known<T>> for First {
    ghost use Rattle.std.specs.Prelude.{true, false, []};
    ghost use Rattle.cq_link.specs.within.Rules.{known};

    ghost both = { λ v w. known true true v.takes v.of_first w.of_second v.got };

    ghost spent = { known false false false [] [] [] };
}

/// Leaves the second end, and cuts off the taking one.
pub struct Second;

impl<T: Drop> Split<Known<T>> for Second {
    ghost use Rattle.std.specs.Prelude.{true, false};
    ghost use Rattle.cq_link.specs.within.Rules.{in_roles};

    ghost left = { in_roles false true false };

    ghost right = { in_roles false false true };
}

/// Joins the taking end to another.
impl<T: Drop> Join<Known<T>> for Second {
    ghost use Rattle.std.specs.Prelude.{true, false, []};
    ghost use Rattle.cq_link.specs.within.Rules.{known};

    ghost both = { λ v w. known v.first v.second true v.of_first v.of_second w.got };

    ghost spent = { known false false false [] [] [] };
}

/// The item joins the list of its end. Where it is refused, nothing is learned.
pub struct Puts;

impl<T: Drop> Outcome<Tagged<T>, Known<T>> for Puts {
    ghost use Rattle.std.specs.Prelude.{◌≡◌};
    ghost use Rattle.cq_link.specs.within.Rules.{after_put};

    ghost then = { λ v x w. w ≡ after_put v x };
}

impl<T: Drop> Lesson<Tagged<T>, Known<T>> for Puts {
    ghost use Rattle.std.specs.Prelude.{⊤};

    ghost fact = { λ v items. ⊤ };
}

/// The item joins what was taken. Where there is none, nothing is learned.
pub struct Takes;

impl<T: Drop> Outcome<Tagged<T>, Known<T>> for Takes {
    ghost use Rattle.std.specs.Prelude.{◌≡◌};
    ghost use Rattle.cq_link.specs.within.Rules.{after_take};

    ghost then = { λ v x w. w ≡ after_take v x };
}

impl<T: Drop> Lesson<Tagged<T>, Known<T>> for Takes {
    ghost use Rattle.std.specs.Prelude.{⊤};

    ghost fact = { λ v items. ⊤ };
}

/// The item joins what was taken, and the channel holds what was put on each end and isn't taken.
pub struct Settles;

impl<T: Drop> Outcome<Tagged<T>, Known<T>> for Settles {
    ghost use Rattle.cq_link.specs.within.Rules.{Settled};

    ghost then = { Settled };
}

impl<T: Drop> Lesson<Tagged<T>, Known<T>> for Settles {
    ghost use Rattle.cq_link.specs.within.Rules.{Total};

    ghost fact = { Total };
}

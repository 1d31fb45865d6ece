//! An inbox: two ends on which requests are put, each by a thread of its own, and one from which they are taken.
ghost use Rattle.std.specs.Prelude.{◌≡◌, true};
ghost use Rattle.crossbeam_channel.specs.Claims.{view, IsSeatAt};
ghost use Rattle.crossbeam_channel.specs.Ends.{sends_on, receives_on};
ghost use Rattle.cq_link.specs.within.Rules.{may_put, HasAll};

mod calls;
mod make;

use crate::rule::{InOrder, Known, Tagged};
use cq_base::Request;
use crossbeam_channel::{Pass, RuledReceiver, RuledSender};

/// Makes inboxes.
pub struct Inbox;

/// One of the two ends of an inbox on which items are put.
#[derive(Drop)]
pub struct InPut<T: Drop = Request> {
    second: bool,
    sender: RuledSender<Tagged<T>, Known<T>, InOrder>,
    pass: Pass<Tagged<T>, Known<T>>,
    ghost seat: { IsSeatAt (sends_on sender) pass },
    ghost role: { may_put second (view pass) ≡ true },
}

/// The end of an inbox from which items are taken.
#[derive(Drop)]
pub struct InTake<T: Drop = Request> {
    receiver: RuledReceiver<Tagged<T>, Known<T>, InOrder>,
    pass: Pass<Tagged<T>, Known<T>>,
    ghost seat: { IsSeatAt (receives_on receiver) pass },
    ghost role: { (view pass).takes ≡ true },
}

/// What is left in an inbox whose ends are settled.
#[derive(Drop)]
pub struct InLeft<T: Drop = Request> {
    receiver: RuledReceiver<Tagged<T>, Known<T>, InOrder>,
    pass: Pass<Tagged<T>, Known<T>>,
    ghost seat: { IsSeatAt (receives_on receiver) pass },
    ghost roles: { HasAll (view pass) },
}

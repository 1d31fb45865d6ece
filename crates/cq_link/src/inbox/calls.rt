//! What the ends of an inbox do.
ghost use Rattle.std.specs.Prelude.{◌≡◌, Bool, [], ◌∷◌, ◌++◌, OnOk, IfErr, MatchOption};
ghost use Rattle.cq_link.specs.Tags.{if_of};
ghost use Rattle.cq_link.specs.Inboxes.{put_inbox, take_inbox, is_second, put_in, taken_in, left_in};

use crate::ends::{Full, PutEnd, TakeEnd};
use crate::inbox::{InLeft, InPut, InTake};
use crate::rule::{Puts, Settles, Tagged, Takes};
use std::sync::Wait;

impl<T: Drop> InPut<T> {
    /// Puts an item behind those that were put on this end before. A full inbox hands it back, and nothing
    /// changes. It takes no memory, and waits for another thread only while that is in the middle of its step.
    pub fn put<R: Wait>(&mut self, rt: &R, item: T) -> Result<(), Full<T>>
        ensures inbox { (put_inbox self.new ≡ put_inbox self.old) × (is_second self.new ≡ is_second self.old) }
        ensures ok { OnOk result (put_in self.new ≡ put_in self.old ++ item ∷ []) }
        ensures full { IfErr result (λ full. (full.0 ≡ item) × (put_in self.new ≡ put_in self.old)) }
    {
        let tagged = Tagged {
            second: self.second,
            item,
        };
        match self
            .sender
            .try_send_as::<Puts, R>(rt, &mut self.pass, tagged)
        {
            Ok(()) => Ok(()),
            Err(refused) => {
                let Tagged { item, .. } = refused.into_inner();
                Err(Full(item))
            }
        }
    }
}

impl<T: Drop> InTake<T> {
    /// Takes the first item that is there, with the end on which it was put. It takes no memory, and waits for
    /// another thread only while that is in the middle of its step.
    pub fn take<R: Wait>(&mut self, rt: &R) -> Option<Tagged<T>>
        ensures inbox { take_inbox self.new ≡ take_inbox self.old }
        ensures taken { MatchOption result (taken_in self.new ≡ taken_in self.old) (λ item. taken_in self.new ≡ taken_in self.old ++ item ∷ []) }
    {
        match self.receiver.try_recv_as::<Takes, R>(rt, &mut self.pass) {
            Ok(taken) => Some(taken),
            Err(_) => None,
        }
    }
}

impl<T: Drop> InLeft<T> {
    /// Takes the first item that is left, with the end on which it was put. It takes no memory.
    pub fn take<R: Wait>(&mut self, rt: &R) -> Option<Tagged<T>>
        ensures { MatchOption result
            ((e : Bool) → (left_in e self.old ≡ []) × (left_in e self.new ≡ []))
            (λ item. (e : Bool) → left_in e self.old ≡ if_of e item ++ left_in e self.new) }
    {
        match self.receiver.try_recv_as::<Settles, R>(rt, &mut self.pass) {
            Ok(item) => Some(item),
            Err(_) => None,
        }
    }
}

impl<T: Drop> PutEnd<T> for InPut<T> {
    ghost use Rattle.std.specs.Prelude.{Bool};
    ghost use Rattle.cq_link.specs.Inboxes.{InboxId, put_inbox, is_second, put_in};

    ghost Id = { InboxId T × Bool };

    ghost list = { put_in };

    ghost link = { λ p. (put_inbox p, is_second p) };

    fn put<R: Wait>(&mut self, rt: &R, item: T) -> Result<(), Full<T>> {
        InPut::put(self, rt, item)
    }
}

impl<T: Drop> TakeEnd<T> for InTake<T> {
    ghost use Rattle.std.specs.Prelude.{map};
    ghost use Rattle.cq_link.specs.Inboxes.{InboxId, take_inbox, taken_in};

    ghost Id = { InboxId T };

    ghost list = { λ t. map (λ x. x.item) (taken_in t) };

    ghost link = { take_inbox };

    fn take<R: Wait>(&mut self, rt: &R) -> Option<T> {
        match InTake::take(self, rt) {
            Some(tagged) => {
                let Tagged { item, .. } = tagged;
                Some(item)
            }
            None => None,
        }
    }
}

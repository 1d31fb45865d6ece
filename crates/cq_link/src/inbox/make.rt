//! How inboxes are made and settled.
ghost use Rattle.std.specs.Prelude.{◌≡◌, ◌↔◌, true, false, [], ◌++◌, IfOk, Err};
ghost use Rattle.cq_link.specs.Faults.{IsBadCapacity};
ghost use Rattle.cq_link.specs.Tags.{of};
ghost use Rattle.cq_link.specs.Inboxes.{put_inbox, take_inbox, is_second, put_in, taken_in, left_in};
ghost use Rattle.cq_link.specs.declared.fault.LinkFault.TheVariants as faults;

use crate::fault::LinkFault;
use crate::inbox::{InLeft, InPut, InTake, Inbox};
use crate::link::CAPACITY_LIMIT;
use crate::rule::{First, Second, Settles};
use crossbeam_channel::bounded_with;
use std::alloc::Global;

impl Inbox {
    /// The three ends of a new inbox with room for so many requests, from 1 to 65,536: the first and the second
    /// on which requests are put, and the one from which they are taken. Another capacity is refused as
    /// `BadCapacity`, before memory is asked for. All the memory of an inbox is taken here.
    pub fn make(alloc: Global, capacity: usize) -> Result<(InPut, InPut, InTake), LinkFault>
        ensures inbox { IfOk result (λ ends. (put_inbox ends.0 ≡ take_inbox ends.2) × (put_inbox ends.1 ≡ take_inbox ends.2)) }
        ensures ends { IfOk result (λ ends. (is_second ends.0 ≡ false) × (is_second ends.1 ≡ true)) }
        ensures nothing { IfOk result (λ ends. (put_in ends.0 ≡ []) × (put_in ends.1 ≡ []) × (taken_in ends.2 ≡ [])) }
        ensures bad { (result ≡ Err faults.BadCapacity) ↔ IsBadCapacity capacity }
    {
        if capacity == 0 || capacity > CAPACITY_LIMIT {
            return Err(LinkFault::BadCapacity);
        }
        let (first, receiver, mut one) = bounded_with(alloc, capacity)?;
        let second = first.try_clone()?;
        let mut two = first.another::<First>(&mut one);
        let three = first.another::<Second>(&mut two);
        Ok((
            InPut {
                second: false,
                sender: first,
                pass: one,
            },
            InPut {
                second: true,
                sender: second,
                pass: two,
            },
            InTake {
                receiver,
                pass: three,
            },
        ))
    }

    /// Brings the three ends of one inbox together, once no thread uses them. For each end on which requests
    /// were put, what was taken of it, followed by what is left of it, is what was put. No memory is taken.
    pub fn settle<T: Drop>(first: InPut<T>, second: InPut<T>, taker: InTake<T>) -> InLeft<T>
        requires inbox { (put_inbox first ≡ take_inbox taker) × (put_inbox second ≡ take_inbox taker) }
        requires ends { (is_second first ≡ false) × (is_second second ≡ true) }
        ensures first { of false (taken_in taker) ++ left_in false result ≡ put_in first }
        ensures second { of true (taken_in taker) ++ left_in true result ≡ put_in second }
    {
        let InPut {
            sender,
            mut pass,
            ..
        } = first;
        let InPut { pass: other, .. } = second;
        let InTake {
            receiver,
            pass: taken,
        } = taker;
        sender.absorb::<Second>(&mut pass, taken);
        sender.absorb::<First>(&mut pass, other);
        sender.learn_as::<Settles>(&mut pass);
        InLeft { receiver, pass }
    }
}

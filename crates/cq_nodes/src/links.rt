//! The links of a node that hasn't begun.
ghost use Rattle.std.specs.Prelude.{◌≡◌, ◌++◌, ◌∷◌, [], length, map, OnOk, OnErr};
ghost use Rattle.cq_nodes.specs.Ends.{unread_in};
ghost use Rattle.cq_nodes.specs.FreshLinks.{AreUnput, AreUntaken};

use crate::ends::{In, Out};
use cq_base::NoMemory;
use cq_chain::Message;
use cq_link::{PutEnd, TakeEnd};
use std::alloc::Global;
use std::marker::Model;

/// The ends of a node's links that nobody used: nothing was put on them, and nothing was taken from them. They stand in
/// the order of their places, at each of which is a link to a party and one from it.
pub struct Links<P: PutEnd<Message> + Drop, T: TakeEnd<Message> + Drop> {
    outs: Vec<Out<P>>,
    ins: Vec<In<T>>,
}

/// Written out, not derived: CONTRIBUTING.md, "Drop".
impl<P: PutEnd<Message> + Drop, T: TakeEnd<Message> + Drop> Drop for Links<P, T> {
    fn drop(self) {
        let Links { outs: _, ins: _ } = self;
    }
}

impl<P: PutEnd<Message> + Drop, T: TakeEnd<Message> + Drop> Model for Links<P, T> {
    ghost use Rattle.cq_nodes.specs.FreshLinks.{Ends, ends_of, AreUnput, AreUntaken};

    ghost Value = { Ends P T };

    ghost view = { λ l. ends_of l.outs.items l.ins.items };

    ghost invariant = { λ l. AreUnput P.list l.outs.items × AreUntaken T.list l.ins.items };
}

impl<P: PutEnd<Message> + Drop, T: TakeEnd<Message> + Drop> Links<P, T> {
    /// No links.
    pub fn new(alloc: Global) -> Links<P, T>
        ensures { result ≡ record { outs = []; ins = [] } }
    {
        Links {
            outs: Vec::new(alloc),
            ins: Vec::new(alloc),
        }
    }

    /// Adds the ends of the links to and from one more party, at the next place. Where there is no memory for them, both
    /// are dropped.
    pub fn add(&mut self, out: P, end: T) -> Result<(), NoMemory>
        requires unput { P.list out ≡ [] }
        requires untaken { T.list end ≡ [] }
        ensures ok { OnOk result (self.new ≡ record { outs = self.old.outs ++ out ∷ []; ins = self.old.ins ++ end ∷ [] }) }
        ensures err { OnErr result (self.new ≡ self.old) }
    {
        self.outs.reserve(1)?;
        self.ins.reserve(1)?;
        self.outs.push_reserved(Out {
            end: out,
            kept: None,
        });
        self.ins.push_reserved(In { end, unread: None });
        Ok(())
    }

    /// How many parties it has links with.
    pub fn len(&self) -> usize
        ensures outs { result ≡ length self.now.outs }
    {
        self.outs.len()
    }

    /// The ends that are put on, and those that are taken from.
    pub(crate) fn into_parts(self) -> (Vec<Out<P>>, Vec<In<T>>)
        ensures outs { map (λ out. out.end) result.0.items ≡ self.outs }
        ensures ins { map (λ end. end.end) result.1.items ≡ self.ins }
        ensures unput { AreUnput P.list result.0.items }
        ensures untaken { AreUntaken T.list result.1.items }
        ensures read { unread_in result.1.items ≡ 0 }
    {
        let Links { outs, ins } = self;
        (outs, ins)
    }
}

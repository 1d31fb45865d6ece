//! The ends of links without the messages that wait at them.
ghost use Rattle.std.specs.Prelude.{◌≡◌, ◌++◌, ◌∷◌, [], IfOk, OnOk};
ghost use Rattle.cq_nodes.specs.Ends.{ends_of, in_ends_of};

use cq_base::NoMemory;
use cq_chain::Message;
use cq_link::{Ports, Putter, Taker};
use cq_nodes::{In, Out};
use std::alloc::Global;

/// Adds the ends behind those that are there. The messages that were handed back are dropped.
pub(crate) fn add_outs(
    ends: &mut Vec<Putter<Message>>,
    outs: Vec<Out<Putter<Message>>>,
) -> Result<(), NoMemory>
    ensures { OnOk result (ends.new.items ≡ ends.old.items ++ ends_of outs.items) }
{
    ends.reserve(outs.len())?;
    for Out { end, .. } in outs {
        ends.push(end)?;
    }
    Ok(())
}

/// Adds the ends behind those that are there. The messages that weren't read are dropped.
pub(crate) fn add_ins(
    ends: &mut Vec<Taker<Message>>,
    ins: Vec<In<Taker<Message>>>,
) -> Result<(), NoMemory>
    ensures { OnOk result (ends.new.items ≡ ends.old.items ++ in_ends_of ins.items) }
{
    ends.reserve(ins.len())?;
    for In { end, .. } in ins {
        ends.push(end)?;
    }
    Ok(())
}

/// The ends of a party.
pub(crate) fn port_of(
    alloc: Global,
    outs: Vec<Out<Putter<Message>>>,
    ins: Vec<In<Taker<Message>>>,
) -> Result<Ports<Message>, NoMemory>
    ensures outs { IfOk result (λ port. port.outs.items ≡ ends_of outs.items) }
    ensures ins { IfOk result (λ port. port.ins.items ≡ in_ends_of ins.items) }
{
    let mut port = Ports {
        outs: Vec::new(alloc),
        ins: Vec::new(alloc),
    };
    add_outs(&mut port.outs, outs)?;
    add_ins(&mut port.ins, ins)?;
    Ok(port)
}

/// The ends of a party that has the two ends of a link to itself, before all others.
pub(crate) fn own_port_of(
    alloc: Global,
    own: (Putter<Message>, Taker<Message>),
    outs: Vec<Out<Putter<Message>>>,
    ins: Vec<In<Taker<Message>>>,
) -> Result<Ports<Message>, NoMemory>
    ensures outs { IfOk result (λ port. port.outs.items ≡ own.0 ∷ ends_of outs.items) }
    ensures ins { IfOk result (λ port. port.ins.items ≡ own.1 ∷ in_ends_of ins.items) }
{
    let mut port = Ports {
        outs: Vec::new(alloc),
        ins: Vec::new(alloc),
    };
    port.outs.push(own.0)?;
    port.ins.push(own.1)?;
    add_outs(&mut port.outs, outs)?;
    add_ins(&mut port.ins, ins)?;
    Ok(port)
}

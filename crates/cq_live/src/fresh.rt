//! The links of nodes, made of ends that nobody used.
ghost use Rattle.std.specs.Prelude.{◌≡◌, [], length, IfOk};
ghost use Rattle.std.specs.List.{All};
ghost use Rattle.cq_link.specs.Inboxes.{put_in};
ghost use Rattle.cq_link.specs.Links.{put_on, taken_from};

use cq_base::NoMemory;
use cq_chain::Message;
use cq_link::{InPut, Putter, Taker};
use cq_nodes::{ClientLinks, Links};
use std::alloc::Global;

/// The links of a server or of the master, at the places of the ends.
pub(crate) fn links_of(
    alloc: Global,
    outs: Vec<Putter<Message>>,
    ins: Vec<Taker<Message>>,
) -> Result<Links<Putter<Message>, Taker<Message>>, NoMemory>
    requires even { length ins.items ≡ length outs.items }
    requires unput { All (λ out. put_on out ≡ []) outs.items }
    requires untaken { All (λ end. taken_from end ≡ []) ins.items }
    ensures { IfOk result (λ links. links ≡ record { outs = outs.items; ins = ins.items }) }
{
    let mut links = Links::new(alloc);
    let mut ins = ins.into_iter();
    for out in outs {
        if let Some(end) = ins.next() {
            links.add(out, end)?;
        }
    }
    Ok(links)
}

/// The links of a client, at the places of the ends.
pub(crate) fn client_links_of(
    alloc: Global,
    outs: Vec<InPut>,
    ins: Vec<Taker<Message>>,
) -> Result<ClientLinks<InPut, Taker<Message>>, NoMemory>
    requires even { length ins.items ≡ length outs.items }
    requires unput { All (λ out. put_in out ≡ []) outs.items }
    requires untaken { All (λ end. taken_from end ≡ []) ins.items }
    ensures { IfOk result (λ links. links ≡ record { outs = outs.items; ins = ins.items }) }
{
    let mut links = ClientLinks::new(alloc);
    let mut ins = ins.into_iter();
    for out in outs {
        if let Some(end) = ins.next() {
            links.add(out, end)?;
        }
    }
    Ok(links)
}

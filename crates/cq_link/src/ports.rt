//! The links between parties.
ghost use Rattle.std.specs.Prelude.{◌≡◌, List, map, length, IfOk, IsErrOf};
ghost use Rattle.std.specs.Vec.Iter.{into_iter_items};
ghost use Rattle.cq_link.specs.Faults.{IsBadCapacity};
ghost use Rattle.cq_link.specs.declared.fault.LinkFault.TheVariants as faults;
ghost use Rattle.cq_link.specs.Wirings.{AreCrossed, wiring, AreUnused, IsSquare, HaveDelivered};
ghost use Rattle.cq_link.specs.within.Tables.{AreWired};

use crate::columns::empty_columns;
use crate::fault::LinkFault;
use crate::link::{Putter, Taker};
use crate::row::{add_row, settle_row};
use cq_base::NoMemory;
use std::alloc::{AllocError, Global};
use std::vec::IntoIter;

/// The ends that one party holds of its links to each party, on which it puts, and from each party, in the order of
/// the parties. It has a link to itself, too, so that each party stands at its own number.
#[derive(Drop)]
pub struct Ports<T: Drop> {
    pub outs: Vec<Putter<T>>,
    pub ins: Vec<Taker<T>>,
}

/// Makes a link from each party to each, with room for so many messages. All memory of the links is taken here. A
/// capacity of 0 or above 65,536 is refused as `BadCapacity`, if there is a party.
pub fn wire<T: Drop>(
    alloc: Global,
    parties: usize,
    capacity: usize,
) -> Result<Vec<Ports<T>>, LinkFault>
    ensures crossed { IfOk result (λ ports. AreCrossed (wiring ports.items)) }
    ensures unused { IfOk result (λ ports. AreUnused ports.items) }
    ensures square { IfOk result (λ ports. IsSquare parties ports.items) }
    ensures bad { IsErrOf result faults.BadCapacity → IsBadCapacity capacity }
{
    let (rows, columns) = link_all(alloc, parties, capacity)?;
    Ok(join(alloc, rows, columns)?)
}

/// A row of putters and a column of takers for each party.
fn link_all<T: Drop>(
    alloc: Global,
    parties: usize,
    capacity: usize,
) -> Result<(Vec<Vec<Putter<T>>>, Vec<Vec<Taker<T>>>), LinkFault>
    ensures wired { IfOk result (λ tables. AreWired parties parties (map (λ row. row.items) tables.0.items) (map (λ column. column.items) tables.1.items)) }
    ensures bad { IsErrOf result faults.BadCapacity → IsBadCapacity capacity }
{
    let mut rows = Vec::new(alloc);
    let mut columns = empty_columns(alloc, parties)?;
    for _ in 0..parties {
        let row = add_row(alloc, capacity, &mut columns)?;
        rows.reserve(1)?;
        rows.push_reserved(row);
    }
    Ok((rows, columns))
}

/// The row and the column at each place, together.
fn join<T: Drop>(
    alloc: Global,
    rows: Vec<Vec<Putter<T>>>,
    columns: Vec<Vec<Taker<T>>>,
) -> Result<Vec<Ports<T>>, AllocError>
    requires { length rows.items ≡ length columns.items }
    ensures outs { IfOk result (λ ports. map (λ p. p.outs.items) ports.items ≡ map (λ row. row.items) rows.items) }
    ensures ins { IfOk result (λ ports. map (λ p. p.ins.items) ports.items ≡ map (λ column. column.items) columns.items) }
{
    let mut ports = Vec::new(alloc);
    let mut columns = columns.into_iter();
    for outs in rows {
        if let Some(ins) = columns.next() {
            ports.reserve(1)?;
            ports.push_reserved(Ports { outs, ins });
        }
    }
    Ok(ports)
}

/// Settles each link, once no thread uses any of them, and drops what is left on it. It takes memory for a list of the
/// parties; where there is none, all ends are dropped.
pub fn settle_all<T: Drop>(alloc: Global, ports: Vec<Ports<T>>) -> Result<(), NoMemory>
    requires { AreCrossed (wiring ports.items) }
    ensures { IfOk result (λ _. HaveDelivered ports.items) }
{
    let (rows, mut columns) = take_apart(alloc, ports)?;
    for row in rows {
        settle_row(row, &mut columns);
    }
    Ok(())
}

/// The row and the column of each party, apart.
fn take_apart<T: Drop>(
    alloc: Global,
    ports: Vec<Ports<T>>,
) -> Result<(Vec<Vec<Putter<T>>>, Vec<IntoIter<Taker<T>>>), NoMemory>
    ensures rows { IfOk result (λ tables. map (λ row. row.items) tables.0.items ≡ map (λ p. p.outs.items) ports.items) }
    ensures columns { IfOk result (λ tables. map into_iter_items tables.1.items ≡ map (λ p. p.ins.items) ports.items) }
{
    let mut rows = Vec::new(alloc);
    let mut columns = Vec::new(alloc);
    for Ports { outs, ins } in ports {
        rows.reserve(1)?;
        columns.reserve(1)?;
        rows.push_reserved(outs);
        columns.push_reserved(ins.into_iter());
    }
    Ok((rows, columns))
}

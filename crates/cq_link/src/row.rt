//! The links of one party to all: how they are made, and how they are settled.
ghost use Rattle.std.specs.Prelude.{◌≡◌, List, length, map, drop, IfOk, IsErrOf, Some};
ghost use Rattle.cq_link.specs.Faults.{IsBadCapacity};
ghost use Rattle.cq_link.specs.declared.fault.LinkFault.TheVariants as faults;
ghost use Rattle.std.specs.Vec.Iter.{into_iter_items};
ghost use Rattle.cq_link.specs.Links.{putter_link, taker_link};
ghost use Rattle.cq_link.specs.within.Tables.{AreHeaded, FirstsHaveDelivered, HasDelivered, IsNewRow};

use crate::fault::LinkFault;
use crate::link::{Link, Putter, Taker, settle};
use std::alloc::Global;
use std::vec::IntoIter;

/// Makes a link for each column, behind which its taker goes. The putters are in the order of the columns.
pub(crate) fn add_row<T: Drop>(
    alloc: Global,
    capacity: usize,
    columns: &mut [Vec<Taker<T>>],
) -> Result<Vec<Putter<T>>, LinkFault>
    ensures row { IfOk result (λ row. IsNewRow row.items (map (λ c. c.items) columns.old) (map (λ c. c.items) columns.new)) }
    ensures length { IfOk result (λ row. length row.items ≡ length columns.old) }
    ensures bad { IsErrOf result faults.BadCapacity → IsBadCapacity capacity }
{
    let mut row = Vec::new(alloc);
    for column in columns.iter_mut() {
        let (putter, taker) = Link::make(alloc, capacity)?;
        row.reserve(1)?;
        column.reserve(1)?;
        row.push_reserved(putter);
        column.push_reserved(taker);
    }
    Ok(row)
}

/// Settles a row of ends, each with the first end that is left in the column at its place.
pub(crate) fn settle_row<T: Drop>(row: Vec<Putter<T>>, columns: &mut [IntoIter<Taker<T>>])
    requires { AreHeaded row.items (map into_iter_items columns.old) }
    ensures settled { FirstsHaveDelivered row.items (map into_iter_items columns.old) }
    ensures columns { map into_iter_items columns.new ≡ map (drop 1) (map into_iter_items columns.old) }
{
    let mut row = row.into_iter();
    for column in columns.iter_mut() {
        settle_pair(row.next(), column.next());
    }
}

/// Settles the two ends of a link, if both are there, and drops what is left on it.
pub(crate) fn settle_pair<T: Drop>(putter: Option<Putter<T>>, taker: Option<Taker<T>>)
    requires { (out : Putter T) (end : Taker T) → putter ≡ Some out → taker ≡ Some end → putter_link out ≡ taker_link end }
    ensures { (out : Putter T) (end : Taker T) → putter ≡ Some out → taker ≡ Some end → HasDelivered out end }
{
    if let (Some(putter), Some(taker)) = (putter, taker) {
        let _ = settle(putter, taker);
    }
}

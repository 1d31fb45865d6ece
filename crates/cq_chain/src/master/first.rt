//! The master of a first chain.
ghost use Rattle.std.specs.Prelude.{◌≡◌, IfOk};
ghost use Rattle.cq_chain.specs.Masters.{numbers_from};

use cq_base::{ChainSize, NoMemory, ServerId};
use indexmap::IndexSet;
use std::alloc::Global;

/// The members of a first chain, head first.
pub(super) fn first_chain(alloc: Global, size: ChainSize) -> Result<Vec<ServerId>, NoMemory>
    ensures { IfOk result (λ chain. chain.items ≡ numbers_from 1 size) }
{
    let mut chain = Vec::new(alloc);
    for k in 0..u32::from(size.get()) {
        match ServerId::new(k + 1) {
            Some(id) => chain.push(id)?,
            None => unreachable!(),
        }
    }
    Ok(chain)
}

/// The numbers that are used for a first chain.
pub(super) fn first_used(alloc: Global, size: ChainSize) -> Result<IndexSet<ServerId>, NoMemory>
    ensures { IfOk result (λ used. used.keys ≡ numbers_from 1 size) }
{
    let mut used = IndexSet::new(alloc);
    for k in 0..u32::from(size.get()) {
        match ServerId::new(k + 1) {
            Some(id) => {
                used.insert(id)?;
            }
            None => unreachable!(),
        }
    }
    Ok(used)
}

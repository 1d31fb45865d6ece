//! Copies of slots.
ghost use Rattle.std.specs.Prelude.{◌≡◌, IfOk};

use crate::slot::Slot;
use cq_base::NoMemory;
use std::alloc::Global;

/// The same slots. They share the texts: O(slots).
pub fn copies(alloc: Global, slots: &[Slot]) -> Result<Vec<Slot>, NoMemory>
    ensures { IfOk result (λ copy. copy.items ≡ slots.now) }
{
    let mut copy = Vec::with_capacity(alloc, slots.len())?;
    for slot in slots {
        copy.push(slot.try_copy()?)?;
    }
    Ok(copy)
}

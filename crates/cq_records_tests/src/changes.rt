//! Roots whose texts say how often they were changed.
ghost use Rattle.cq_journal.specs.Root.{IsRoot};

use crate::text_of;
use cq_disk::{Device, Region};
use cq_journal::{Root, read_root};
use cq_records::{ReadFault, is_text};
use std::alloc::{AllocError, Global};

/// A root, and how often its text was changed.
#[derive(Drop)]
pub struct Changed<D: Device> {
    pub root: Root<D>,
    pub changes: usize,
}

/// Changes a root's text until that fails.
pub fn change<D: Device>(alloc: Global, root: Root<D>) -> Result<Changed<D>, AllocError>
    requires { IsRoot root }
{
    let mut root = root;
    let mut changes = 0;
    for number in 1..1_000 {
        let text = text_of(alloc, number)?;
        if text.len() > 100 || !is_text(&text) || root.put(alloc, &text).is_err() {
            return Ok(Changed { root, changes });
        }
        changes = number;
    }
    Ok(Changed { root, changes })
}

/// How often the text was changed of the root that a device begins with. `None`: there is no root, or its text is
/// another one.
pub fn count_changes<D: Device>(
    alloc: Global,
    device: D,
    half: usize,
) -> Result<Option<usize>, ReadFault> {
    if half > device.len() / 2 {
        return Ok(None);
    }
    let mut region = Region {
        device,
        start: 0,
        len: half,
    };
    let Some(found) = read_root(alloc, &mut region)? else {
        return Ok(None);
    };
    let changes = found.number.saturating_sub(1) as usize;
    let text = text_of(alloc, changes)?;
    let is_whole = found.bytes.len() >= 5 && &found.bytes[5..] == text.as_slice();
    Ok(is_whole.then_some(changes))
}

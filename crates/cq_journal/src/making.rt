//! How a root is made.
ghost use Rattle.std.specs.Prelude.{◌≡◌, ◌+◌, ◌<◌, ◌≤◌, true, length, Some, IfOk, IsTrue};
ghost use Rattle.cq_records.specs.Frames.{is_plain};
ghost use Rattle.cq_journal.specs.Root.{root_half, root_device, root_number, IsRoot};
ghost use Rattle.cq_journal.specs.Roots.{root_of, numbered, HasSoundHalves};

use crate::root::batch_of;
use crate::{ROOT_TEXT_LIMIT, Root};
use cq_disk::{Device, Region};
use cq_records::{Log, LogFault, blank};
use std::alloc::Global;

/// Makes a root of this text, in two halves of this length at the begin of a device. Whatever they have is lost.
pub fn create<D: Device>(
    alloc: Global,
    device: D,
    half: usize,
    text: &[u8],
) -> Result<Root<D>, LogFault>
    requires room { half + half ≤ length (D.seen device) }
    requires text { is_plain text.now ≡ true }
    requires short { length text.now ≤ ROOT_TEXT_LIMIT }
    ensures root { IfOk result (λ root. IsRoot root) }
    ensures half { IfOk result (λ root. root_half root ≡ half) }
    ensures number { IfOk result (λ root. root_number root ≡ 1) }
    ensures text { IfOk result (λ root. root_of half (D.seen (root_device root)) ≡ Some (numbered 1 text.now)) }
    ensures sound { IfOk result (λ root. HasSoundHalves half (D.seen (root_device root))) }
    ensures honest { IfOk result (λ root. IsTrue (D.is_honest (root_device root)) → IsTrue (D.is_honest device)) }
{
    let batch = batch_of(alloc, 1, text)?;
    let mut device = device;
    let _len = device.len();
    device.sync()?;
    let mut region = Region {
        device,
        start: half,
        len: half,
    };
    blank(&mut region)?;
    region.start = 0;
    blank(&mut region)?;
    let mut log = Log::new(region);
    log.commit(&batch)?;
    Ok(Root { log, number: 1 })
}

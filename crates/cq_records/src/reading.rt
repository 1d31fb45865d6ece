//! Reading the records of a log that a crash may have left.
ghost use Rattle.std.specs.Prelude.{◌≡◌, ◌⊎◌, ℕ, List, ◌+◌, ◌<◌, ◌≤◌, ◌++◌, [], true, false, length, drop, IsTrue, IfOk, OnOk, IfSome, IsErrOf, MatchOption};
ghost use Rattle.cq_disk.specs.Device.{LeavesOnly};
ghost use Rattle.cq_records.specs.Batch.{batch_bytes};
ghost use Rattle.cq_records.specs.Frames.{ends_with, is_text, frames, may_follow, records, joined, all_sound, BeginsWith, HasMore, IsDamaged};

use crate::behind::may_follow;
use crate::frame::{HEAD_LENGTH, is_plain, read_head, short_sum};
use crate::{Batch, Behind, ReadFault};
use cq_disk::{Device, DeviceFault};
use std::alloc::Global;

/// A record, and the place behind its frame.
#[derive(Drop)]
pub struct Found {
    pub text: Vec<u8>,
    pub behind: usize,
}

/// Reads the record that begins at this place. `None`: there is no whole one. It takes memory for this record alone.
pub fn read_record<D: Device>(
    alloc: Global,
    device: &mut D,
    at: usize,
) -> Result<Option<Found>, ReadFault>
    requires { at ≤ length (D.seen device.old) }

    ensures found { IfOk result (λ found. IsTrue (D.is_honest device.new)
        → MatchOption found (frames (drop at (D.seen device.old)) ≡ []) (λ it. BeginsWith it.text.items (drop at (D.seen device.old)))) }
    ensures behind { IfOk result (λ found. IfSome found (λ it. (it.behind ≡ at + 9 + length it.text.items) × (it.behind ≤ length (D.seen device.old)))) }
    ensures text { IfOk result (λ found. IfSome found (λ it. is_text it.text.items ≡ true)) }
    ensures damaged { IsErrOf result ReadFault.Damaged → IsTrue (D.is_honest device.new) → IsDamaged (drop at (D.seen device.old)) }
    ensures failed { IsErrOf result ReadFault.Failed → D.faults device.old < D.faults device.new }
    ensures later { D.faults device.old ≤ D.faults device.new }

    ensures seen { D.seen device.new ≡ D.seen device.old }
    ensures honest { IsTrue (D.is_honest device.new) → IsTrue (D.is_honest device.old) }
    ensures any_moment { LeavesOnly D.moment D.left_since device.old device.new (D.may_leave device.old) }
    ensures keeps { D.keeps device.old device.new }
{
    let room = device.len() - at;
    if room < HEAD_LENGTH {
        return Ok(None);
    }
    let mut bytes = [0; HEAD_LENGTH];
    device.read_at(at, &mut bytes)?;
    let Some(head) = read_head(&bytes) else {
        return Ok(None);
    };
    if head.text_length > room - HEAD_LENGTH {
        return Ok(None);
    }
    let mut text = vec![in alloc; 0u8; head.text_length]?;
    device.read_at(at + HEAD_LENGTH, &mut text)?;
    if !is_plain(&text) {
        return Ok(None);
    }
    if short_sum(&text) != head.sum {
        return Err(ReadFault::Damaged);
    }
    let behind = at + HEAD_LENGTH + text.len();
    Ok(Some(Found { text, behind }))
}

/// Whether what a device has from this place on may come behind the records of a log. It takes memory for these bytes.
fn ends_at<D: Device>(
    alloc: Global,
    device: &mut D,
    behind: Behind,
    at: usize,
) -> Result<bool, DeviceFault>
    requires { at ≤ length (D.seen device.old) }
    ensures ends { IfOk result (λ ends. IsTrue (D.is_honest device.new) → ends ≡ may_follow behind (drop at (D.seen device.old))) }
    ensures failed { IsErrOf result DeviceFault.Failed → D.faults device.old < D.faults device.new }
    ensures later { D.faults device.old ≤ D.faults device.new }

    ensures seen { D.seen device.new ≡ D.seen device.old }
    ensures honest { IsTrue (D.is_honest device.new) → IsTrue (D.is_honest device.old) }
    ensures any_moment { LeavesOnly D.moment D.left_since device.old device.new (D.may_leave device.old) }
    ensures keeps { D.keeps device.old device.new }
{
    if behind == Behind::Anything {
        return Ok(true);
    }
    let mut bytes = vec![in alloc; 0u8; device.len() - at]?;
    device.read_at(at, &mut bytes)?;
    Ok(may_follow(behind, &bytes))
}

/// Reads the record that begins at this place, as `read_record` does. `None`: there is no whole one, and what comes there may come behind a
/// log's records. `Damaged`, too, where it may not.
fn next_record<D: Device>(
    alloc: Global,
    device: &mut D,
    behind: Behind,
    at: usize,
) -> Result<Option<Found>, ReadFault>
    requires { at ≤ length (D.seen device.old) }

    ensures found { IfOk result (λ found. IsTrue (D.is_honest device.new)
        → MatchOption found ((frames (drop at (D.seen device.old)) ≡ []) × (may_follow behind (drop at (D.seen device.old)) ≡ true)) (λ it. BeginsWith it.text.items (drop at (D.seen device.old)))) }
    ensures behind { IfOk result (λ found. IfSome found (λ it. (it.behind ≡ at + 9 + length it.text.items) × (it.behind ≤ length (D.seen device.old)))) }
    ensures text { IfOk result (λ found. IfSome found (λ it. is_text it.text.items ≡ true)) }
    ensures damaged { IsErrOf result ReadFault.Damaged → IsTrue (D.is_honest device.new)
        → IsDamaged (drop at (D.seen device.old)) ⊎ ((frames (drop at (D.seen device.old)) ≡ []) × (may_follow behind (drop at (D.seen device.old)) ≡ false)) }
    ensures failed { IsErrOf result ReadFault.Failed → D.faults device.old < D.faults device.new }
    ensures later { D.faults device.old ≤ D.faults device.new }

    ensures seen { D.seen device.new ≡ D.seen device.old }
    ensures honest { IsTrue (D.is_honest device.new) → IsTrue (D.is_honest device.old) }
    ensures any_moment { LeavesOnly D.moment D.left_since device.old device.new (D.may_leave device.old) }
    ensures keeps { D.keeps device.old device.new }
{
    if let Some(found) = read_record(alloc, device, at)? {
        return Ok(Some(found));
    }
    if ends_at(alloc, device, behind, at)? {
        return Ok(None);
    }
    // Where another program writes to the device, the record may have come meanwhile.
    match read_record(alloc, device, at)? {
        Some(found) => Ok(Some(found)),
        None => Err(ReadFault::Damaged),
    }
}

/// Adds the records of a log to a batch, in order. It takes memory for all of them, and for what comes behind them. `Damaged`: one is, or
/// something comes behind them that may not. After a fault the batch may have some of them.
pub fn read_into<D: Device>(
    alloc: Global,
    device: &mut D,
    behind: Behind,
    batch: &mut Batch,
) -> Result<(), ReadFault>
    ensures read { OnOk result (IsTrue (D.is_honest device.new) → records (batch_bytes batch.new) ≡ records (batch_bytes batch.old) ++ records (D.seen device.old)) }
    ensures length { OnOk result (length (batch_bytes batch.new) ≤ length (batch_bytes batch.old) + length (D.seen device.old)) }
    ensures damaged { IsErrOf result ReadFault.Damaged → IsTrue (D.is_honest device.new) → (all_sound (frames (D.seen device.old)) ≡ false) ⊎ (ends_with behind (D.seen device.old) ≡ false) }
    ensures failed { IsErrOf result ReadFault.Failed → D.faults device.old < D.faults device.new }
    ensures later { D.faults device.old ≤ D.faults device.new }

    ensures seen { D.seen device.new ≡ D.seen device.old }
    ensures honest { IsTrue (D.is_honest device.new) → IsTrue (D.is_honest device.old) }
    ensures any_moment { LeavesOnly D.moment D.left_since device.old device.new (D.may_leave device.old) }
    ensures keeps { D.keeps device.old device.new }
{
    let mut at = 0;
    while let Some(found) = next_record(alloc, device, behind, at)? {
        batch.add(&found.text)?;
        at = found.behind;
    }
    Ok(())
}

/// Adds the texts of a log's records to a text, one behind the other, and gives their number. Afterwards the place is behind the last one
/// that was added: after `Damaged`, where the damaged one begins, or what may not come behind the records. It takes memory for all of them,
/// and for what comes behind them. After a fault the text may have some of them.
pub fn read_log<D: Device>(
    alloc: Global,
    device: &mut D,
    behind: Behind,
    at: &mut usize,
    text: &mut Vec<u8>,
) -> Result<usize, ReadFault>
    requires { at.old ≡ 0 }
    ensures count { IfOk result (λ count. IsTrue (D.is_honest device.new) → count ≡ length (records (D.seen device.old))) }
    ensures read { OnOk result (IsTrue (D.is_honest device.new) → text.new.items ≡ text.old.items ++ joined (records (D.seen device.old))) }
    ensures ends { OnOk result (IsTrue (D.is_honest device.new) → ends_with behind (D.seen device.old) ≡ true) }
    ensures within { at.new ≤ length (D.seen device.old) }
    ensures damaged { IsErrOf result ReadFault.Damaged → IsTrue (D.is_honest device.new) → IsDamaged (drop at.new (D.seen device.old)) ⊎ HasMore behind at.new (D.seen device.old) }
    ensures unsound { IsErrOf result ReadFault.Damaged → IsTrue (D.is_honest device.new) → (all_sound (frames (D.seen device.old)) ≡ false) ⊎ (ends_with behind (D.seen device.old) ≡ false) }
    ensures failed { IsErrOf result ReadFault.Failed → D.faults device.old < D.faults device.new }
    ensures later { D.faults device.old ≤ D.faults device.new }

    ensures seen { D.seen device.new ≡ D.seen device.old }
    ensures honest { IsTrue (D.is_honest device.new) → IsTrue (D.is_honest device.old) }
    ensures any_moment { LeavesOnly D.moment D.left_since device.old device.new (D.may_leave device.old) }
    ensures keeps { D.keeps device.old device.new }
{
    let mut count = 0;
    while let Some(found) = next_record(alloc, device, behind, *at)? {
        text.extend_from_slice(&found.text)?;
        *at = found.behind;
        count += 1;
    }
    Ok(count)
}

//! Files on which a journal is still to be made.
ghost use Rattle.std.specs.Prelude.{◌≡◌, ◌+◌, ◌≤◌, true, false, drop, length, IfOk, IsTrue};
ghost use Rattle.cq_disk.specs.Region.{part};
ghost use Rattle.cq_kept_run.specs.declared.sizes.TheConstants.{HALF};
ghost use Rattle.cq_kept_run.specs.within.Unmade.{IsUnmade};
ghost use Rattle.cq_records.specs.Frames.{are_zeros};

use crate::sizes::FIRST_ROOT;
use cq_disk::{Device, DeviceFault, Region};
use cq_journal::read_half;
use cq_records::ReadFault;
use std::alloc::Global;

/// How many bytes are read or written at a time.
const STEP: usize = 65_536;

fn are_zeros(bytes: &[u8]) -> bool
    ensures { result ≡ are_zeros bytes.now }
{
    bytes.iter().all(|byte| *byte == 0)
}

/// Whether a device has so many zeros from this place on. The buffer has as many bytes.
fn are_zeros_at<D: Device>(
    device: &mut D,
    at: usize,
    count: usize,
    buffer: &mut [u8],
) -> Result<bool, DeviceFault>
    requires within { at + count ≤ length (D.seen device.old) }
    requires count { length buffer.old ≡ count }
    ensures zeros { IfOk result (λ is. IsTrue (D.is_honest device.new) → is ≡ are_zeros (part at count (D.seen device.old))) }
    ensures honest { IsTrue (D.is_honest device.new) → IsTrue (D.is_honest device.old) }
    ensures seen { D.seen device.new ≡ D.seen device.old }
{
    device.read_at(at, buffer)?;
    Ok(are_zeros(buffer))
}

/// Whether a device has no other bytes than zeros from this place on. It reads up to the first other one.
fn is_blank_from<D: Device>(device: &mut D, from: usize) -> Result<bool, DeviceFault>
    requires { from ≤ length (D.seen device.old) }
    ensures blank { IfOk result (λ is. IsTrue (D.is_honest device.new) → is ≡ are_zeros (drop from (D.seen device.old))) }
    ensures honest { IsTrue (D.is_honest device.new) → IsTrue (D.is_honest device.old) }
    ensures seen { D.seen device.new ≡ D.seen device.old }
{
    let len = device.len();
    let mut bytes = [0; STEP];
    let mut done = from;
    while done < len {
        let many = (len - done).min(STEP);
        let is_zero = are_zeros_at(device, done, many, &mut bytes[..many])?;
        if !is_zero {
            return Ok(false);
        }
        done += many;
    }
    Ok(true)
}

/// Whether a journal is still to be made on a device, of whose root the region is the first half: nothing but zeros stands there, or, where
/// the making of one was cut short, a part of its first root and else zeros. It reads the record of the half, and then up to the first byte
/// that isn't zero. It takes memory for the record.
pub(crate) fn is_unmade<D: Device>(
    alloc: Global,
    region: &mut Region<D>,
) -> Result<bool, DeviceFault>
    requires begin { (region.old.start ≡ 0) × (region.old.len ≡ HALF) }
    requires room { HALF + HALF ≤ length (D.seen region.old.device) }
    ensures yes { IfOk result (λ is. IsTrue (D.is_honest region.new.device) → is ≡ true → IsUnmade HALF (D.seen region.old.device)) }
    ensures no { IfOk result (λ is. IsTrue (D.is_honest region.new.device) → is ≡ false → IsUnmade HALF (D.seen region.old.device) → ⊥) }
    ensures honest { IsTrue (D.is_honest region.new.device) → IsTrue (D.is_honest region.old.device) }
    ensures seen { D.seen region.new.device ≡ D.seen region.old.device }
{
    match read_half(alloc, region) {
        Ok(None) => is_blank_from(&mut region.device, FIRST_ROOT),
        Ok(Some(_)) => Ok(false),
        Err(ReadFault::Damaged) => Ok(false),
        Err(ReadFault::NoMemory) => Err(DeviceFault::NoMemory),
        Err(ReadFault::Failed) => Err(DeviceFault::Failed),
    }
}

/// Writes zeros over a whole device.
fn write_zeros<D: Device>(device: &mut D) -> Result<(), DeviceFault>
    ensures length { length (D.seen device.new) ≡ length (D.seen device.old) }
    ensures honest { IsTrue (D.is_honest device.new) → IsTrue (D.is_honest device.old) }
{
    let len = device.len();
    let zeros = [0; STEP];
    let mut done = 0;
    while done < len {
        let many = (len - done).min(STEP);
        device.write_at(done, &zeros[..many])?;
        done += many;
    }
    Ok(())
}

/// Writes zeros over a whole device on which no journal was made, and syncs it: so it has its space on the medium before a journal needs
/// it.
pub(crate) fn fill<D: Device>(device: &mut D) -> Result<(), DeviceFault>
    requires { IsTrue (D.is_honest device.old) → IsUnmade HALF (D.seen device.old) }
    ensures length { length (D.seen device.new) ≡ length (D.seen device.old) }
    ensures honest { IsTrue (D.is_honest device.new) → IsTrue (D.is_honest device.old) }
{
    write_zeros(device)?;
    device.sync()
}

//! How a root is read.
ghost use Rattle.std.specs.Prelude.{◌≡◌, ◌⊎◌, ◌+◌, ◌<◌, ◌≤◌, true, false, length, Some, None, IsTrue, IfOk, OnOk, IfSome, MatchOption, IsErrOf, ⊤};
ghost use Rattle.cq_disk.specs.Device.{Only, LeavesOnly, HasCause};
ghost use Rattle.cq_disk.specs.Region.{part};
ghost use Rattle.cq_records.specs.Frames.{frames, all_sound};
ghost use Rattle.cq_journal.specs.Roots.{number_in, half_of, HasSoundHalves};
ghost use Rattle.cq_journal.specs.Found.{items_of, HasGrown, IsChosen, IsFound};
ghost use Rattle.cq_journal.specs.within.Refreshed.{IsRefreshed};

use crate::number::read_number;
use crate::refresh::refresh;
use cq_disk::{Device, DeviceFault, Region, TornWrites};
use cq_records::{ReadFault, read_record};
use std::alloc::Global;

/// How many digits a number has.
const DIGITS: usize = 5;

/// Where the text begins in a root's record, behind its number: what is supposed of torn writes, and the places.
const PLACES: usize = DIGITS;

/// A root that was found in two halves: where the half in use begins, its number, and its record, which is the number
/// and the text.
#[derive(Drop)]
pub struct Found {
    pub start: usize,
    pub number: u64,
    pub bytes: Vec<u8>,
}

/// Reads the root that two halves have, of which the region is the first, and puts its half on the medium: a system may take
/// it for written though the medium hasn't got it. With two syncs a batch the half isn't written again, since a torn write could
/// leave any bytes of it. `None`: neither has a record whose number is above 0. `Damaged`: both have the same number, or a
/// record is damaged. It takes memory for a half.
pub fn read_root<D: Device>(
    alloc: Global,
    region: &mut Region<D>,
) -> Result<Option<Found>, ReadFault>
    requires start { region.old.start ≡ 0 }
    requires room { region.old.len + region.old.len ≤ length (D.seen region.old.device) }

    ensures found { IfOk result (λ found. IsTrue (D.is_honest region.new.device) → IsFound region.old.len (D.seen region.old.device) found) }
    ensures start { IfOk result (λ found. IfSome found (λ it. (it.start ≡ 0) ⊎ (it.start ≡ region.old.len))) }
    ensures place { IfOk result (λ _. (region.new.start ≡ 0) × (region.new.len ≡ region.old.len)) }
    ensures seen { IsTrue (D.is_honest region.new.device) → D.seen region.new.device ≡ D.seen region.old.device }
    ensures length { length (D.seen region.new.device) ≡ length (D.seen region.old.device) }
    ensures durable { IfOk result (λ _. Only (D.seen region.new.device) (D.may_leave region.new.device)) }
    // A crash at any moment leaves what it might have left before, or what is read.
    ensures any_moment { IsTrue (D.is_honest region.new.device) → LeavesOnly D.moment D.left_since region.old.device region.new.device
        (λ c. D.may_leave region.old.device c ⊎ (c ≡ D.seen region.old.device)) }
    ensures honest { IsTrue (D.is_honest region.new.device) → IsTrue (D.is_honest region.old.device) }
    ensures damaged { IsErrOf result ReadFault.Damaged → IsTrue (D.is_honest region.new.device) → HasSoundHalves region.old.len (D.seen region.old.device) → ⊥ }
    ensures none { IfOk result (λ found. MatchOption found (IsTrue (D.is_honest region.new.device) → HasSoundHalves region.old.len (D.seen region.old.device) → ⊥) (λ _. ⊤)) }
    ensures failed { IsErrOf result ReadFault.Failed → D.faults region.old.device < D.faults region.new.device }
{
    let found = find_root(alloc, region)?;
    let half = region.len;
    refresh_found(alloc, &mut region.device, half, &found)?;
    confirm(alloc, region, &found)?;
    Ok(found)
}

/// Reads the root that two halves have, of which the region is the first, and writes nothing: what is read may be less than `read_root`
/// leaves on the medium, for a root that is only read. `None` and `Damaged` are those of `read_root`. It syncs the device first.
pub fn find_root<D: Device>(
    alloc: Global,
    region: &mut Region<D>,
) -> Result<Option<Found>, ReadFault>
    requires start { region.old.start ≡ 0 }
    requires room { region.old.len + region.old.len ≤ length (D.seen region.old.device) }

    ensures found { IfOk result (λ found. IsTrue (D.is_honest region.new.device) → IsFound region.old.len (D.seen region.old.device) found) }
    ensures start { IfOk result (λ found. IfSome found (λ it. (it.start ≡ 0) ⊎ (it.start ≡ region.old.len))) }
    ensures place { IfOk result (λ _. (region.new.start ≡ 0) × (region.new.len ≡ region.old.len)) }
    ensures seen { D.seen region.new.device ≡ D.seen region.old.device }
    ensures durable { IfOk result (λ _. Only (D.seen region.new.device) (D.may_leave region.new.device)) }
    ensures any_moment { LeavesOnly D.moment D.left_since region.old.device region.new.device
        (λ c. D.may_leave region.old.device c ⊎ (c ≡ D.seen region.old.device)) }
    ensures honest { IsTrue (D.is_honest region.new.device) → IsTrue (D.is_honest region.old.device) }
    ensures damaged { IsErrOf result ReadFault.Damaged → IsTrue (D.is_honest region.new.device) → HasSoundHalves region.old.len (D.seen region.old.device) → ⊥ }
    ensures later { D.faults region.old.device ≤ D.faults region.new.device }
    ensures failed { IsErrOf result ReadFault.Failed → D.faults region.old.device < D.faults region.new.device }
{
    let _len = region.device.len();
    region.device.sync()?;
    let first = read_half(alloc, region)?;
    region.start = region.len;
    let second = read_half(alloc, region)?;
    region.start = 0;
    choose(region.len, first, second)
}

/// Writes the half that was found over itself, where a torn write leaves old or written bytes, and syncs the device.
fn refresh_found<D: Device>(
    alloc: Global,
    device: &mut D,
    half: usize,
    found: &Option<Found>,
) -> Result<(), DeviceFault>
    requires start { IfSome found.now (λ it. (it.start ≡ 0) ⊎ (it.start ≡ half)) }
    requires room { half + half ≤ length (D.seen device.old) }

    ensures seen { IsTrue (D.is_honest device.new) → D.seen device.new ≡ D.seen device.old }
    ensures length { length (D.seen device.new) ≡ length (D.seen device.old) }
    ensures durable { OnOk result (Only (D.seen device.new) (D.may_leave device.new)) }
    // A crash at any moment leaves what it might have left before, or that with bytes of the half as they are read.
    ensures any_moment { IsTrue (D.is_honest device.new) → LeavesOnly D.moment D.left_since device.old device.new
        (λ c. MatchOption found.now (D.may_leave device.old c) (λ it. IsRefreshed (D.may_leave device.old) it.start (part it.start half (D.seen device.old)) c)) }
    ensures honest { IsTrue (D.is_honest device.new) → IsTrue (D.is_honest device.old) }
    ensures cause { HasCause (D.faults device.old) (D.faults device.new) result }
{
    let Some(it) = found else {
        return device.sync();
    };
    match device.torn_writes() {
        TornWrites::OldOrNew => refresh(alloc, device, it.start, half),
        TornWrites::Any => device.sync(),
    }
}

/// Reads the half again whose root was found: what was written over it was read by itself, and a system may have let go of what it kept of
/// the file meanwhile. `Damaged`: the half hasn't the root any more.
fn confirm<D: Device>(
    alloc: Global,
    region: &mut Region<D>,
    found: &Option<Found>,
) -> Result<(), ReadFault>
    requires start { region.old.start ≡ 0 }
    requires half { IfSome found.now (λ it. (it.start ≡ 0) ⊎ (it.start ≡ region.old.len)) }
    requires room { region.old.len + region.old.len ≤ length (D.seen region.old.device) }
    ensures place { OnOk result ((region.new.start ≡ 0) × (region.new.len ≡ region.old.len)) }
    ensures seen { D.seen region.new.device ≡ D.seen region.old.device }
    ensures durable { Only (D.seen region.old.device) (D.may_leave region.old.device) → Only (D.seen region.new.device) (D.may_leave region.new.device) }
    ensures any_moment { Only (D.seen region.old.device) (D.may_leave region.old.device) → LeavesOnly D.moment D.left_since region.old.device region.new.device
        (λ c. c ≡ D.seen region.old.device) }
    ensures honest { IsTrue (D.is_honest region.new.device) → IsTrue (D.is_honest region.old.device) }
    ensures damaged { IsErrOf result ReadFault.Damaged → IsTrue (D.is_honest region.new.device) → IsFound region.old.len (D.seen region.old.device) found.now → HasSoundHalves region.old.len (D.seen region.old.device) → ⊥ }
    ensures later { D.faults region.old.device ≤ D.faults region.new.device }
    ensures failed { IsErrOf result ReadFault.Failed → D.faults region.old.device < D.faults region.new.device }
{
    let Some(it) = found else {
        return Ok(());
    };
    let _len = region.device.len();
    region.start = it.start;
    let again = read_half(alloc, region)?;
    region.start = 0;
    if is_same(&again, &it.bytes) {
        Ok(())
    } else {
        Err(ReadFault::Damaged)
    }
}

/// Whether a half's record has these bytes.
fn is_same(there: &Option<Vec<u8>>, bytes: &[u8]) -> bool
    ensures same { result ≡ true → items_of there.now ≡ Some bytes.now }
    ensures other { result ≡ false → items_of there.now ≡ Some bytes.now → ⊥ }
{
    match there {
        Some(there) => are_same(there.as_slice(), bytes),
        None => false,
    }
}

/// The record of a half, which is the region. `Damaged`: it hasn't its checksum. It takes memory for the record.
pub fn read_half<D: Device>(
    alloc: Global,
    region: &mut Region<D>,
) -> Result<Option<Vec<u8>>, ReadFault>
    ensures half { IfOk result (λ bytes. IsTrue (D.is_honest region.new.device)
        → half_of region.old.start region.old.len (D.seen region.old.device) ≡ items_of bytes) }
    ensures place { (region.new.start ≡ region.old.start) × (region.new.len ≡ region.old.len) }
    ensures seen { D.seen region.new.device ≡ D.seen region.old.device }
    ensures durable { Only (D.seen region.old.device) (D.may_leave region.old.device) → Only (D.seen region.new.device) (D.may_leave region.new.device) }
    ensures any_moment { Only (D.seen region.old.device) (D.may_leave region.old.device) → LeavesOnly D.moment D.left_since region.old.device region.new.device
        (λ c. c ≡ D.seen region.old.device) }
    ensures honest { IsTrue (D.is_honest region.new.device) → IsTrue (D.is_honest region.old.device) }
    ensures damaged { IsErrOf result ReadFault.Damaged → IsTrue (D.is_honest region.new.device) → all_sound (frames (part region.old.start region.old.len (D.seen region.old.device))) ≡ false }
    ensures later { D.faults region.old.device ≤ D.faults region.new.device }
    ensures failed { IsErrOf result ReadFault.Failed → D.faults region.old.device < D.faults region.new.device }
{
    let found = read_record(alloc, region, 0)?;
    Ok(found.map(|it| it.text))
}

fn number_of_half(bytes: &Option<Vec<u8>>) -> u64
    ensures { result ≡ number_in (items_of bytes.now) }
{
    match bytes {
        Some(bytes) => read_number(bytes),
        None => 0,
    }
}

fn found_at(start: usize, number: u64, bytes: Option<Vec<u8>>) -> Option<Found>
    ensures { MatchOption result (items_of bytes ≡ None) (λ it. (it.start ≡ start) × (it.number ≡ number) × (items_of bytes ≡ Some it.bytes.items)) }
{
    match bytes {
        Some(bytes) => Some(Found {
            start,
            number,
            bytes,
        }),
        None => None,
    }
}

/// The half with the higher number.
fn choose(
    half: usize,
    first: Option<Vec<u8>>,
    second: Option<Vec<u8>>,
) -> Result<Option<Found>, ReadFault>
    ensures chosen { IfOk result (IsChosen half (items_of first) (items_of second)) }
    ensures damaged { IsErrOf result ReadFault.Damaged → number_in (items_of first) ≡ number_in (items_of second) }
    ensures failed { IsErrOf result ReadFault.Failed → ⊥ }
{
    let (a, b) = (number_of_half(&first), number_of_half(&second));
    if a == 0 && b == 0 {
        return Ok(None);
    }
    if a == b {
        return Err(ReadFault::Damaged);
    }
    if a < b {
        return Ok(found_at(half, b, second));
    }
    Ok(found_at(0, a, first))
}

/// Whether a root that was found later names all regions that an earlier one does, first and in their order, and each change between the two
/// named one region more: then what the earlier one names has stayed where it was. A change takes two numbers, and either root may be
/// in the midst of one. O(regions).
pub fn has_grown(first: &Found, later: &Found) -> bool
    ensures grown { result ≡ true → HasGrown first.now later.now }
    ensures not { result ≡ false → HasGrown first.now later.now → ⊥ }
{
    let (front, all) = (first.bytes.as_slice(), later.bytes.as_slice());
    if front.len() < PLACES || all.len() < front.len() || later.number < first.number {
        return false;
    }
    let changes = ((all.len() - front.len()) / DIGITS) as u64;
    let numbers = later.number - first.number;
    if numbers > 2 * changes + 1 || numbers < (2 * changes).saturating_sub(1) {
        return false;
    }
    are_same(&front[PLACES..front.len()], &all[PLACES..front.len()])
}

fn are_same(first: &[u8], second: &[u8]) -> bool
    ensures same { result ≡ true → first.now ≡ second.now }
    ensures other { result ≡ false → first.now ≡ second.now → ⊥ }
{
    first == second
}

//! The root of a file: a text that is replaced as a whole.
ghost use Rattle.std.specs.Prelude.{◌≡◌, ◌⊎◌, ◌+◌, ◌<◌, ◌≤◌, ◌^◌, [], ◌∷◌, true, false, length, drop, Some, IsTrue, IfOk, OnOk, IsErrOf};
ghost use Rattle.cq_disk.specs.Device.{Only, LeavesOnly, HasCause};
ghost use Rattle.cq_records.specs.Frames.{is_plain, records};
ghost use Rattle.cq_records.specs.Batch.{batch_bytes};
ghost use Rattle.cq_journal.specs.Roots.{root_of, numbered};

use crate::number::push_number;
use crate::{Found, NUMBER_LIMIT};
use cq_disk::{Device, DeviceFault, Region};
use cq_records::{Batch, HEAD_LENGTH, Log, LogFault, blank};
use std::alloc::{AllocError, Global};

/// The most bytes that the text of a root may have: a record's, without those of its number.
pub const ROOT_TEXT_LIMIT: usize = 16_387_058;

/// The bytes of a root's record before its text, with the head of its frame and its number.
const RECORD_HEAD: usize = HEAD_LENGTH + 5;

/// A root in the first bytes of a device: two halves of one length, of which one has the text. Each change is written
/// into the other one, which is then in use.
#[derive(Drop)]
pub struct Root<D: Device> {
    /// Over the half in use.
    pub log: Log<Region<D>>,
    pub number: u64,
    ghost short: { log.device.len + log.device.len < 2 ^ 64 },
}

/// A batch of the record of this number and text.
pub(crate) fn batch_of(alloc: Global, number: u64, text: &[u8]) -> Result<Batch, AllocError>
    requires number { number < NUMBER_LIMIT }
    requires text { is_plain text.now ≡ true }
    requires short { length text.now ≤ ROOT_TEXT_LIMIT }
    ensures records { IfOk result (λ batch. records (batch_bytes batch) ≡ numbered number text.now ∷ []) }
    ensures length { IfOk result (λ batch. length (batch_bytes batch) ≡ length text.now + 14) }
{
    let mut record = Vec::new(alloc);
    push_number(&mut record, number)?;
    record.extend_from_slice(text)?;
    let mut batch = Batch::new(alloc);
    batch.add(&record)?;
    Ok(batch)
}

impl<D: Device> Root<D> {
    ghost use Rattle.cq_journal.specs.Root.{root_half, root_device, root_number, IsRoot, HasRoom};
    ghost use Rattle.cq_journal.specs.Found.{IsRootAt};
    ghost use Rattle.cq_journal.specs.Roots.{IsOldOrNew, IsOldOrPut, IsSameRoot};
    ghost use Rattle.cq_journal.specs.within.Turns.{IsTurned};

    /// The root that `read_root` found in two halves, of which the region is the first.
    pub fn at(region: Region<D>, found: &Found) -> Root<D>
        requires start { (found.now.start ≡ 0) ⊎ (found.now.start ≡ region.len) }
        requires room { region.len + region.len ≤ length (D.seen region.device) }
        requires durable { Only (D.seen region.device) (D.may_leave region.device) }
        requires found { IsTrue (D.is_honest region.device) → IsRootAt region.len (D.seen region.device) found.now }
        ensures root { IsRoot result }
        ensures device { (root_device result ≡ region.device) × (root_half result ≡ region.len) × (root_number result ≡ found.now.number) }
    {
        let mut region = region;
        let _len = region.device.len();
        region.start = found.start;
        Root {
            log: Log {
                device: region,
                end: 0,
            },
            number: found.number,
        }
    }

    /// Whether another text of this length can be put: there is a number left, and a half has room for the record.
    pub fn has_room(&self, text: &[u8]) -> bool
        ensures room { result ≡ true → HasRoom self.now (length text.now) }
        ensures none { result ≡ false → HasRoom self.now (length text.now) → ⊥ }
    {
        self.number < NUMBER_LIMIT - 1
            && self.log.device.len >= RECORD_HEAD
            && text.len() <= self.log.device.len - RECORD_HEAD
    }

    /// Puts another text in the place of the root's. After `Ok` each crash leaves it; a crash at any moment of the
    /// call leaves the old one or the new one. `Full`: there is no room for it, and nothing was changed. After another
    /// fault the root is to be opened anew.
    pub fn put(&mut self, alloc: Global, text: &[u8]) -> Result<(), LogFault>
        requires root { IsRoot self.old }
        requires text { is_plain text.now ≡ true }
        requires short { length text.now ≤ ROOT_TEXT_LIMIT }

        ensures root { OnOk result (IsRoot self.new) }
        ensures half { OnOk result (root_half self.new ≡ root_half self.old) }
        ensures number { OnOk result (root_number self.new ≡ root_number self.old + 1) }
        ensures behind { OnOk result (drop (root_half self.old + root_half self.old) (D.seen (root_device self.new)) ≡ drop (root_half self.old + root_half self.old) (D.seen (root_device self.old))) }
        ensures text { OnOk result (IsTrue (D.is_honest (root_device self.new)) → root_of (root_half self.new) (D.seen (root_device self.new)) ≡ Some (numbered (root_number self.old + 1) text.now)) }
        ensures shown { OnOk result (IsTrue (D.is_honest (root_device self.new)) → IsOldOrNew (root_half self.old) (D.seen (root_device self.old)) (numbered (root_number self.old + 1) text.now) (D.seen (root_device self.new))) }
        ensures any_moment { IsTrue (D.is_honest (root_device self.new)) → LeavesOnly D.moment D.left_since (root_device self.old) (root_device self.new)
            (IsOldOrNew (root_half self.old) (D.seen (root_device self.old)) (numbered (root_number self.old + 1) text.now)) }
        ensures keeps { D.keeps (root_device self.old) (root_device self.new) }
        ensures honest { IsTrue (D.is_honest (root_device self.new)) → IsTrue (D.is_honest (root_device self.old)) }
        ensures full { IsErrOf result LogFault.Full → (self.new ≡ self.old) × (HasRoom self.old (length text.now) → ⊥) }
        ensures failed { IsErrOf result LogFault.Failed → D.faults (root_device self.old) < D.faults (root_device self.new) }
        ensures later { D.faults (root_device self.old) ≤ D.faults (root_device self.new) }
    {
        if !self.has_room(text) {
            return Err(LogFault::Full);
        }
        let batch = batch_of(alloc, self.number + 1, text)?;
        self.turn()?;
        self.log.commit(&batch)?;
        self.number += 1;
        Ok(())
    }

    /// Puts another text in the place of the root's, in both halves: where one of them is lost later, the other one says the same. A crash
    /// at any moment of the call leaves the old text or the new one. `Full`: there is no room for it, and nothing was changed. After
    /// another fault the root is to be opened anew. Where only one number is left, one half has the text.
    pub fn put_in_both(&mut self, alloc: Global, text: &[u8]) -> Result<(), LogFault>
        requires root { IsRoot self.old }
        requires text { is_plain text.now ≡ true }
        requires short { length text.now ≤ ROOT_TEXT_LIMIT }

        ensures root { OnOk result (IsRoot self.new) }
        ensures half { OnOk result (root_half self.new ≡ root_half self.old) }
        ensures number { OnOk result ((root_number self.old + 1 ≤ root_number self.new) × (root_number self.new ≤ root_number self.old + 2)) }
        ensures behind { OnOk result (drop (root_half self.old + root_half self.old) (D.seen (root_device self.new)) ≡ drop (root_half self.old + root_half self.old) (D.seen (root_device self.old))) }
        ensures text { OnOk result (IsTrue (D.is_honest (root_device self.new)) → root_of (root_half self.new) (D.seen (root_device self.new)) ≡ Some (numbered (root_number self.new) text.now)) }
        ensures shown { OnOk result (IsTrue (D.is_honest (root_device self.new)) → IsOldOrPut (root_half self.old) (D.seen (root_device self.old)) text.now (D.seen (root_device self.new))) }
        ensures any_moment { IsTrue (D.is_honest (root_device self.new)) → LeavesOnly D.moment D.left_since (root_device self.old) (root_device self.new)
            (IsOldOrPut (root_half self.old) (D.seen (root_device self.old)) text.now) }
        ensures keeps { D.keeps (root_device self.old) (root_device self.new) }
        ensures honest { IsTrue (D.is_honest (root_device self.new)) → IsTrue (D.is_honest (root_device self.old)) }
        ensures full { IsErrOf result LogFault.Full → (self.new ≡ self.old) × (HasRoom self.old (length text.now) → ⊥) }
        ensures failed { IsErrOf result LogFault.Failed → D.faults (root_device self.old) < D.faults (root_device self.new) }
        ensures later { D.faults (root_device self.old) ≤ D.faults (root_device self.new) }
    {
        if !self.has_room(text) {
            return Err(LogFault::Full);
        }
        self.put(alloc, text)?;
        if !self.has_room(text) {
            return Ok(());
        }
        self.put(alloc, text)
    }

    /// Turns to the other half, and blanks it. The root is the same.
    fn turn(&mut self) -> Result<(), DeviceFault>
        requires { IsRoot self.old }

        ensures turned { OnOk result (IsTurned self.old self.new) }
        ensures any_moment { IsTrue (D.is_honest (root_device self.new)) → LeavesOnly D.moment D.left_since (root_device self.old) (root_device self.new)
            (IsSameRoot (root_half self.old) (D.seen (root_device self.old))) }
        ensures honest { IsTrue (D.is_honest (root_device self.new)) → IsTrue (D.is_honest (root_device self.old)) }
        ensures keeps { D.keeps (root_device self.old) (root_device self.new) }
        ensures cause { HasCause (D.faults (root_device self.old)) (D.faults (root_device self.new)) result }
    {
        self.log.device.start = self.log.device.len - self.log.device.start;
        self.log.end = 0;
        blank(&mut self.log.device)?;
        Ok(())
    }
}

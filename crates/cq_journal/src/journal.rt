//! Records in regions of one device, which its root names.
ghost use Rattle.std.specs.Prelude.{◌≡◌, ◌++◌, ◌+◌, ◌<◌, ◌≤◌, [], true, false, length, Some, IsTrue, IfOk, OnOk, IsErrOf};
ghost use Rattle.cq_disk.specs.declared.device.TornWrites.TheVariants.{OldOrNew};
ghost use Rattle.cq_disk.specs.Device.{LeavesOnly};
ghost use Rattle.cq_records.specs.Batch.{batch_bytes};
ghost use Rattle.cq_records.specs.Frames.{records};
ghost use Rattle.cq_journal.specs.Intact.{IsIntact};
ghost use Rattle.cq_journal.specs.Regions.{kept, HasPrefixOf, HasRecords};
ghost use Rattle.cq_journal.specs.declared.base.Base.{Base};

use crate::places::{are_apart, is_apart, text_of, with_next};
use crate::{NUMBER_LIMIT, Root, create};
use cq_disk::{Device, TornWrites};
use cq_records::{Batch, LogFault};
use std::alloc::Global;

/// The most regions that count.
pub const REGION_LIMIT: usize = 3_000_000;

/// Records in their order, on one device: a root, and behind it regions of one length, each of them a log. The root names
/// those that count. Records are added to the last of these.
#[derive(Drop)]
pub struct Journal<D: Device> {
    pub(crate) root: Root<D>,
    /// The length of a region.
    pub(crate) len: usize,
    /// The places of the regions that count and don't grow any more, in order.
    pub(crate) closed: Vec<u64>,
    /// The place of the region that grows.
    pub(crate) growing: usize,
    /// What the root says is supposed of torn writes there.
    pub(crate) torn: TornWrites,
    /// Where the log in that region ends.
    pub(crate) end: usize,
}

impl<D: Device> Journal<D> {
    ghost use Rattle.cq_journal.specs.Base.{IsBase, base_records};
    ghost use Rattle.cq_journal.specs.Intact.{LeavesIntact, StaysIntact};
    ghost use Rattle.cq_journal.specs.Journal.{HasRegions, IsJournal, journal_device, IsFree, journal_half, journal_records, region_len};

    /// Makes a journal on a device: a root of two halves of this length, and behind it one region of this length. Whatever
    /// the device has is lost. `Full`: it is too short. It takes time in proportion to what it makes.
    pub fn create(alloc: Global, device: D, half: usize, len: usize) -> Result<Journal<D>, LogFault>
        requires root { half + half ≤ length (D.seen device) }
        requires small { half + half < NUMBER_LIMIT }
        ensures journal { IfOk result IsJournal }
        ensures empty { IfOk result (λ journal. journal_records journal ≡ []) }
        ensures half { IfOk result (λ journal. journal_half journal ≡ half) }
        ensures len { IfOk result (λ journal. region_len journal ≡ len) }
        ensures intact { IfOk result (λ journal. IsIntact half len (D.seen (journal_device journal))) }
        ensures honest { IfOk result (λ journal. IsTrue (D.is_honest (journal_device journal)) → IsTrue (D.is_honest device)) }
    {
        let place = half + half;
        let torn = device.torn_writes();
        let text = text_of(alloc, torn, &[], place as u64)?;
        let mut root = create(alloc, device, half, &text)?;
        let whole = root.log.device.device.len();
        if whole < place || whole - place < len {
            return Err(LogFault::Full);
        }
        root.blank_at(place, len)?;
        Ok(Journal {
            root,
            len,
            closed: Vec::new(alloc),
            growing: place,
            torn,
            end: 0,
        })
    }

    /// Adds the records of a batch. After `Ok` they are acknowledged: from then on each crash leaves a journal that has
    /// them, behind all from before. `Full`: the region that grows has no room for them, or isn't for batches that the device
    /// may tear in any way; the journal has the records from before. After another fault it is to be opened anew.
    pub fn commit(&mut self, batch: &Batch) -> Result<(), LogFault>
        requires { IsJournal self.old }

        ensures journal { OnOk result (IsJournal self.new) }
        ensures lengths { (journal_half self.new ≡ journal_half self.old) × (region_len self.new ≡ region_len self.old) }
        ensures acknowledged { OnOk result (journal_records self.new ≡ journal_records self.old ++ records (batch_bytes batch.now)) }
        ensures kept { OnOk result (IsTrue (D.is_honest (journal_device self.new)) → kept (journal_half self.new) (region_len self.new) (D.seen (journal_device self.new)) ≡ Some (journal_records self.new)) }

        // A crash at any moment of the call leaves the records from before it, and some of the batch's from the first on.
        ensures any_moment { IsTrue (D.is_honest (journal_device self.new)) → LeavesOnly D.moment D.left_since (journal_device self.old) (journal_device self.new)
            (HasPrefixOf (journal_half self.old) (region_len self.old) (journal_records self.old) (records (batch_bytes batch.now))) }

        // No opening refuses what it leaves, where the bytes from before are intact. So it is of each call on a journal.
        ensures intact { LeavesIntact self.old self.new }
        ensures stays { OnOk result (StaysIntact self.old self.new) }
        ensures stays_full { IsErrOf result LogFault.Full → StaysIntact self.old self.new }

        ensures keeps { D.keeps (journal_device self.old) (journal_device self.new) }
        ensures honest { D.is_honest (journal_device self.new) ≡ D.is_honest (journal_device self.old) }
        ensures full { IsErrOf result LogFault.Full → IsJournal self.new × (journal_records self.new ≡ journal_records self.old) }
        ensures failed { IsErrOf result LogFault.Failed → D.faults (journal_device self.old) < D.faults (journal_device self.new) }
        ensures later { D.faults (journal_device self.old) ≤ D.faults (journal_device self.new) }

        // A base under way stays as it is.
        ensures bases { (base : Base) → IsBase self.old base → IsBase self.new base × (base_records self.new base ≡ base_records self.old base) }
    {
        if self.is_torn_otherwise() {
            return Err(LogFault::Full);
        }
        let done = self.root.commit_at(self.growing, self.len, self.end, batch);
        self.end = self.root.log.end;
        done
    }

    /// Whether the device may tear a batch in any way, where the root says that the region that grows has none such.
    fn is_torn_otherwise(&self) -> bool
        ensures { result ≡ false → self.now.torn ≡ OldOrNew → D.torn (journal_device self.now) ≡ OldOrNew }
    {
        match self.torn {
            TornWrites::OldOrNew => self.root.log.device.device.torn_writes() == TornWrites::Any,
            TornWrites::Any => false,
        }
    }

    /// The device, to be handed on.
    pub fn into_device(self) -> D
        ensures { result ≡ journal_device self }
    {
        self.root.log.device.device
    }

    /// Whether the region of the journal's length at this place lies behind the root, in the device, and apart from all that
    /// count: O(regions that count).
    pub(crate) fn is_free(&self, place: usize) -> bool
        requires { HasRegions self.now }
        ensures free { result ≡ true → IsFree self.now place }
        ensures not { result ≡ false → IsFree self.now place → ⊥ }
    {
        let half = self.root.log.device.len;
        let whole = self.root.log.device.device.len();
        if place < half + half || place > whole || whole - place < self.len {
            return false;
        }
        if place as u64 >= NUMBER_LIMIT || self.closed.len() + 1 >= REGION_LIMIT {
            return false;
        }
        is_apart(self.len, self.growing, place) && are_apart(self.len, &self.closed, place)
    }

    /// Goes on in another region, which loses what it has: records are added there from then on. The records are the same,
    /// also after a crash at any moment of the call. `Full`: there is no free region at this place, the root
    /// has no room for one more, or the device no space for one; the journal goes on. After any other fault it is to be opened anew. It takes time in
    /// proportion to the length of a region.
    pub fn next_region(&mut self, alloc: Global, place: usize) -> Result<(), LogFault>
        requires { IsJournal self.old }

        ensures journal { OnOk result (IsJournal self.new) }
        ensures lengths { OnOk result ((journal_half self.new ≡ journal_half self.old) × (region_len self.new ≡ region_len self.old)) }
        ensures records { OnOk result (journal_records self.new ≡ journal_records self.old) }
        ensures any_moment { IsTrue (D.is_honest (journal_device self.new)) → LeavesOnly D.moment D.left_since (journal_device self.old) (journal_device self.new)
            (HasRecords (journal_half self.old) (region_len self.old) (journal_records self.old)) }
        ensures intact { LeavesIntact self.old self.new }
        ensures stays { OnOk result (StaysIntact self.old self.new) }
        ensures stays_full { IsErrOf result LogFault.Full → StaysIntact self.old self.new }
        ensures honest { IsTrue (D.is_honest (journal_device self.new)) → IsTrue (D.is_honest (journal_device self.old)) }
        ensures full { IsErrOf result LogFault.Full → IsJournal self.new × (journal_records self.new ≡ journal_records self.old) }
        ensures lengths_full { IsErrOf result LogFault.Full → (journal_half self.new ≡ journal_half self.old) × (region_len self.new ≡ region_len self.old) }
        ensures failed { IsErrOf result LogFault.Failed → D.faults (journal_device self.old) < D.faults (journal_device self.new) }
        ensures later { D.faults (journal_device self.old) ≤ D.faults (journal_device self.new) }
    {
        if !self.is_free(place) {
            return Err(LogFault::Full);
        }
        self.go_on_at(alloc, place)
    }

    /// Goes on in a free region.
    fn go_on_at(&mut self, alloc: Global, place: usize) -> Result<(), LogFault>
        requires journal { IsJournal self.old }
        requires free { IsFree self.old place }

        ensures journal { OnOk result (IsJournal self.new) }
        ensures lengths { OnOk result ((journal_half self.new ≡ journal_half self.old) × (region_len self.new ≡ region_len self.old)) }
        ensures records { OnOk result (journal_records self.new ≡ journal_records self.old) }
        ensures any_moment { IsTrue (D.is_honest (journal_device self.new)) → LeavesOnly D.moment D.left_since (journal_device self.old) (journal_device self.new)
            (HasRecords (journal_half self.old) (region_len self.old) (journal_records self.old)) }
        ensures intact { LeavesIntact self.old self.new }
        ensures stays { OnOk result (StaysIntact self.old self.new) }
        ensures stays_full { IsErrOf result LogFault.Full → StaysIntact self.old self.new }
        ensures honest { IsTrue (D.is_honest (journal_device self.new)) → IsTrue (D.is_honest (journal_device self.old)) }
        ensures full { IsErrOf result LogFault.Full → IsJournal self.new × (journal_records self.new ≡ journal_records self.old) }
        ensures lengths_full { IsErrOf result LogFault.Full → (journal_half self.new ≡ journal_half self.old) × (region_len self.new ≡ region_len self.old) }
        ensures failed { IsErrOf result LogFault.Failed → D.faults (journal_device self.old) < D.faults (journal_device self.new) }
        ensures later { D.faults (journal_device self.old) ≤ D.faults (journal_device self.new) }
    {
        let torn = self.root.log.device.device.torn_writes();
        let (closed, text) = with_next(
            alloc,
            torn,
            &self.closed,
            self.growing as u64,
            place as u64,
        )?;
        if !self.root.has_room(&text) {
            return Err(LogFault::Full);
        }
        self.clear_outside(place)?;
        self.root.put_in_both(alloc, &text)?;
        self.closed = closed;
        self.growing = place;
        self.torn = torn;
        self.end = 0;
        Ok(())
    }
}

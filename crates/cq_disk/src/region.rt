//! A part of a device, as a device of its own.
ghost use Rattle.std.specs.Prelude.{◌≡◌, ◌+◌, ◌≤◌, ◌<◌, ◌^◌, length, take, drop, List, ℕ};
ghost use Rattle.cq_disk.specs.Region.{part, Leaves, counts, KeepsBeside, keeps_none, keeps_both, region_splits};

use crate::{Device, DeviceFault, TornWrites};

/// The `len` bytes of a device from `start` on. What lies before and behind them is left alone, at each moment
/// that a crash may come (`keeps`).
#[derive(Drop)]
pub struct Region<D: Device> {
    pub device: D,
    pub start: usize,
    pub len: usize,
    ghost within: { start + len ≤ length (D.seen device) },
    ghost small: { start + len < 2 ^ 64 },
}

impl<D: Device> Region<D> {
    /// The whole device, to be handed on.
    pub fn into_device(self) -> D
        ensures { result ≡ self.device }
    {
        self.device
    }
}

impl<D: Device> Device for Region<D> {
    ghost seen = { λ r. part r.start r.len (D.seen r.device) };

    ghost may_leave = { λ r. Leaves r.start r.len (D.may_leave r.device) };

    ghost moment = { λ r. D.moment r.device };

    ghost left_since = { λ r t. Leaves r.start r.len (D.left_since r.device t) };

    ghost keeps = { λ r s. KeepsBeside D.moment D.left_since D.may_leave D.keeps D.seen r.start r.len s.start s.len r.device s.device };

    ghost torn = { λ r. D.torn r.device };

    ghost is_honest = { λ r. D.is_honest r.device };

    ghost faults = { λ r. D.faults r.device };

    ghost splits = { λ a b t x kept le left. region_splits D.moment D.left_since D.may_leave D.keeps D.seen D.splits a.start a.len b.start b.len a.device b.device kept t x le left };

    ghost keeps_self = { λ r. keeps_none D.moment D.left_since D.may_leave D.keeps D.seen D.only_now D.keeps_self r.start r.len r.device };

    ghost keeps_on = { λ a b c p q. keeps_both D.moment D.left_since D.may_leave D.keeps D.seen D.keeps_on a.start a.len b.start b.len c.start c.len a.device b.device c.device p q };

    ghost counts_now = { λ r t x le left. counts r.start r.len (D.may_leave r.device) (D.left_since r.device t) (λ c. D.counts_now r.device t c le) x left };

    ghost only_now = { λ r x left. counts r.start r.len (D.left_since r.device (D.moment r.device)) (D.may_leave r.device) (λ c. D.only_now r.device c) x left };

    fn torn_writes(&self) -> TornWrites {
        self.device.torn_writes()
    }

    fn len(&self) -> usize {
        self.len
    }

    fn read_at(&mut self, at: usize, bytes: &mut [u8]) -> Result<(), DeviceFault> {
        self.device.read_at(self.start + at, bytes)
    }

    fn write_at(&mut self, at: usize, bytes: &[u8]) -> Result<(), DeviceFault> {
        self.device.write_at(self.start + at, bytes)
    }

    fn sync(&mut self) -> Result<(), DeviceFault> {
        self.device.sync()
    }
}

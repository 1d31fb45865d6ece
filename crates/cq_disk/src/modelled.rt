//! A device whose members are computed from the calls that it made and what they answered.
ghost use Rattle.std.specs.Prelude.{◌≡◌, true, length};
ghost use Rattle.cq_disk.specs.Events.{seen_of, sync_failed, all_within, honest, faults_of, MayLeave, Since, since_now, only_since, resized, Extends, extends_splits, extends_none, extends_both};

use crate::{Calls, Device, DeviceFault, Start, TornWrites};
use std::marker::PhantomData;

/// A device over calls of which nothing is supposed: it meets the contracts of `Device` whatever they answered.
/// What the clauses say is true of the real bytes where these are as `specs/Events.antt` has them: they began as
/// `S` says, reads gave what was seen (`is_honest`), and a sync that ended well put on the medium what was seen.
#[derive(Drop)]
pub struct Modelled<C: Calls, S: Start> {
    calls: C,
    len: usize,
    torn: TornWrites,
    has_failed: bool,
    start: PhantomData<S>,
    ghost tied: { has_failed ≡ sync_failed (C.Calls.history calls) },
    ghost within: { all_within len (C.Calls.history calls) ≡ true },
}

impl<C: Calls, S: Start> Modelled<C, S> {
    ghost use Rattle.std.specs.Prelude.{[]};
    ghost use Rattle.cq_disk.specs.Modelled.{IsNew, calls_of};

    /// A device of this length over calls of which none has been made.
    pub fn new(calls: C, len: usize, torn: TornWrites) -> Modelled<C, S>
        requires { C.Calls.history calls ≡ [] }
        ensures { IsNew calls len torn result }
    {
        Modelled {
            calls,
            len,
            torn,
            has_failed: false,
            start: PhantomData,
        }
    }

    /// The calls, to be handed on.
    pub fn into_calls(self) -> C
        ensures { result ≡ calls_of self }
    {
        self.calls
    }
}

impl<C: Calls, S: Start> Device for Modelled<C, S> {
    ghost seen = { λ d. seen_of (resized d.len S.Start.shown) (C.Calls.history d.calls) };

    ghost may_leave = { λ d. MayLeave d.torn S.Start.beneath (resized d.len S.Start.shown) (C.Calls.history d.calls) };

    ghost moment = { λ d. length (C.Calls.history d.calls) };

    ghost left_since = { λ d t. Since d.torn S.Start.beneath (resized d.len S.Start.shown) (C.Calls.history d.calls) t };

    // Nothing lies beside the whole.
    ghost keeps = { λ a b. Extends a.torn b.torn a.len b.len (C.Calls.history a.calls) (C.Calls.history b.calls) };

    ghost torn = { λ d. d.torn };

    ghost is_honest = { λ d. honest (resized d.len S.Start.shown) (C.Calls.history d.calls) };

    ghost faults = { λ d. faults_of (C.Calls.history d.calls) };

    ghost splits = { λ a b t c more le left. extends_splits S.Start.beneath S.Start.shown a.torn b.torn a.len b.len (C.Calls.history a.calls) (C.Calls.history b.calls) more t c le left };

    ghost keeps_self = { λ a. extends_none a.torn a.len (C.Calls.history a.calls) };

    ghost keeps_on = { λ a b c p q. extends_both a.torn b.torn c.torn a.len b.len c.len (C.Calls.history a.calls) (C.Calls.history b.calls) (C.Calls.history c.calls) p q };

    ghost counts_now = { λ d t c le may. since_now d.torn S.Start.beneath (resized d.len S.Start.shown) (C.Calls.history d.calls) t c may };

    ghost only_now = { λ d c left. only_since d.torn S.Start.beneath (resized d.len S.Start.shown) (C.Calls.history d.calls) c left };

    fn torn_writes(&self) -> TornWrites {
        self.torn
    }

    fn len(&self) -> usize {
        self.len
    }

    fn read_at(&mut self, at: usize, bytes: &mut [u8]) -> Result<(), DeviceFault> {
        if self.calls.read(at, bytes) {
            Ok(())
        } else {
            Err(DeviceFault::Failed)
        }
    }

    fn write_at(&mut self, at: usize, bytes: &[u8]) -> Result<(), DeviceFault> {
        if self.calls.write(at, bytes) {
            Ok(())
        } else {
            Err(DeviceFault::Failed)
        }
    }

    fn sync(&mut self) -> Result<(), DeviceFault> {
        let is_done = self.calls.sync();
        let had_failed = self.has_failed;
        self.has_failed = had_failed || !is_done;
        if is_done && !had_failed {
            Ok(())
        } else {
            Err(DeviceFault::Failed)
        }
    }
}

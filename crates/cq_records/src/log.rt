//! A log of records on a device: each commit puts a batch on the medium before it is acknowledged.
ghost use Rattle.std.specs.Prelude.{◌≡◌, ◌+◌, ◌<◌, ◌≤◌, ◌++◌, [], length, replicate, OnOk, IfOk, IsErrOf};
ghost use Rattle.cq_disk.specs.Device.{Only, LeavesOnly};
ghost use Rattle.cq_records.specs.Frames.{frames};

use crate::writes::{write_at_once, write_then_open};
use crate::{Batch, LogFault, blank};
use cq_disk::{Device, DeviceFault, TornWrites};

/// The device has the frames of the records, and zeros behind them. Neither a record nor the head of its frame
/// has a zero byte, so a frame of which a crash lost some bytes has a zero, and counts for nothing. Where a mark of a batch's begin
/// comes behind it, no crash has lost them.
#[derive(Drop)]
pub struct Log<D: Device> {
    pub device: D,
    pub end: usize,
}

impl<D: Device> Log<D> {
    ghost use Rattle.cq_records.specs.Batch.{batch_bytes};
    ghost use Rattle.cq_records.specs.Logs.{IsSettled};
    ghost use Rattle.cq_records.specs.Layout.{IsPrefixOf};

    /// The empty log of a device that `blank` has made so.
    pub fn new(device: D) -> Log<D>
        requires zeros { D.seen device ≡ replicate (length (D.seen device)) 0 }
        requires durable { Only (D.seen device) (D.may_leave device) }
        ensures settled { IsSettled D.seen D.may_leave result }
        ensures empty { frames (D.seen result.device) ≡ [] }
        ensures device { result.device ≡ device }
    {
        Log { device, end: 0 }
    }

    /// The empty log of any device, which is synced and blanked.
    pub fn blank(device: D) -> Result<Log<D>, DeviceFault>
        ensures settled { IfOk result (IsSettled D.seen D.may_leave) }
        ensures empty { IfOk result (λ log. frames (D.seen log.device) ≡ []) }
        ensures keeps { IfOk result (λ log. D.keeps device log.device) }
    {
        let mut device = device;
        device.sync()?;
        blank(&mut device)?;
        Ok(Log::new(device))
    }

    /// Adds the records of a batch. After `Ok` they are acknowledged: from then on each crash leaves a log that has
    /// them. After `Full` the log is as it was; after `NoMemory` and `Failed` it is to be opened anew. It makes one
    /// write and one sync, or two of each where nothing is supposed of torn writes.
    pub fn commit(&mut self, batch: &Batch) -> Result<(), LogFault>
        requires { IsSettled D.seen D.may_leave self.old }

        ensures settled { OnOk result (IsSettled D.seen D.may_leave self.new) }
        ensures acknowledged { OnOk result (frames (D.seen self.new.device) ≡ frames (D.seen self.old.device) ++ frames (batch_bytes batch.now)) }
        ensures end { OnOk result (self.new.end ≡ self.old.end + length (batch_bytes batch.now)) }

        // A crash at any moment of the call leaves the records from before it, and some of the batch's from the first on.
        ensures any_moment { LeavesOnly D.moment D.left_since self.old.device self.new.device
            (IsPrefixOf (D.torn self.old.device) (frames (D.seen self.old.device)) (frames (batch_bytes batch.now))) }

        // Nothing beside the log's device changes, and nothing is read.
        ensures keeps { D.keeps self.old.device self.new.device }
        ensures honest { D.is_honest self.new.device ≡ D.is_honest self.old.device }

        // It doesn't give up by itself.
        ensures full { IsErrOf result LogFault.Full → (self.new ≡ self.old) × (length (D.seen self.old.device) < self.old.end + length (batch_bytes batch.now)) }
        ensures failed { IsErrOf result LogFault.Failed → D.faults self.old.device < D.faults self.new.device }
        ensures later { D.faults self.old.device ≤ D.faults self.new.device }
    {
        let bytes = batch.as_slice();
        if bytes.len() > self.device.len() - self.end {
            return Err(LogFault::Full);
        }
        match self.device.torn_writes() {
            TornWrites::OldOrNew => write_at_once(&mut self.device, self.end, bytes)?,
            TornWrites::Any => write_then_open(&mut self.device, self.end, bytes)?,
        }
        self.end += bytes.len();
        Ok(())
    }
}

//! Calls on a file of the operating system. Each method makes one call and notes it with its answer: that it makes
//! the call which it notes is to be read here, and no proof shows it.
ghost use Rattle.std.specs.Prelude.{◌≡◌, []};

use crate::Calls;
use crate::record::{Call, Record};
use std::fs::File;
use std::os::unix::fs::FileExt;

#[derive(Drop)]
pub struct Host {
    file: File,
    made: Record,
}

impl Host {
    ghost use Rattle.cq_disk.specs.within.Host.{calls_on};

    /// An open file, on which no call has been made.
    pub(crate) fn new(file: File) -> Host
        ensures { calls_on result ≡ [] }
    {
        Host {
            file,
            made: Record::new(),
        }
    }
}

impl Calls for Host {
    ghost history = { λ host. host.made.calls };

    fn read(&mut self, at: usize, bytes: &mut [u8]) -> bool {
        let is_done = self.file.read_exact_at(bytes, at as u64).is_ok();
        let call = if is_done {
            Call::Read { at, bytes }
        } else {
            Call::ReadFailed
        };
        self.made = self.made.and(&call);
        is_done
    }

    fn write(&mut self, at: usize, bytes: &[u8]) -> bool {
        let is_done = self.file.write_all_at(bytes, at as u64).is_ok();
        let call = if is_done {
            Call::Wrote { at, bytes }
        } else {
            Call::WriteFailed { at, bytes }
        };
        self.made = self.made.and(&call);
        is_done
    }

    fn sync(&mut self) -> bool {
        let is_done = self.file.sync_data().is_ok();
        let call = if is_done {
            Call::Synced
        } else {
            Call::SyncFailed
        };
        self.made = self.made.and(&call);
        is_done
    }
}

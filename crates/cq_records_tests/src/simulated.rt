//! A file in memory, whose writes reach its medium at a sync, and of which a crash leaves what a seed says. What was not
//! written since it was opened reaches it by no sync, as pages that the system takes for written.
ghost use Rattle.std.specs.Prelude.{◌≡◌, [], IfOk};

use cq_disk::{Call, Calls, Record, TornWrites};
use rand_xoshiro::Xoshiro256PlusPlus;
use rand_xoshiro::rand_core::Rng;
use std::alloc::{AllocError, Global};

#[derive(Drop)]
struct Write {
    at: usize,
    bytes: Vec<u8>,
}

/// After so many calls it fails at each, as if its machine had lost its power in the middle of the last one.
#[derive(Drop)]
struct Disk {
    alloc: Global,
    seen: Vec<u8>,
    medium: Vec<u8>,
    /// Since the last sync, in order.
    pending: Vec<Write>,
    calls_left: u64,
}

/// A file that may lose its power, with the record of the calls on it.
/// What is left of a file whose program has ended.
#[derive(Drop)]
pub struct Left {
    /// What reads give, as long as the power isn't lost.
    pub seen: Vec<u8>,
    pub medium: Vec<u8>,
}

#[derive(Drop)]
pub struct Simulated {
    disk: Disk,
    made: Record,
}

fn overlay(bytes: &mut [u8], at: usize, written: &[u8]) -> bool {
    if at > bytes.len() || written.len() > bytes.len() - at {
        return false;
    }
    bytes[at..at + written.len()].copy_from_slice(written);
    true
}

fn scatter(medium: &mut [u8], write: &Write, random: &mut Xoshiro256PlusPlus, torn: TornWrites) {
    let mut at = write.at;
    for byte in &write.bytes {
        let (choice, any) = (random.next_u32(), random.next_u32());
        if at < medium.len() && choice % 2 == 0 {
            medium[at] = match torn {
                TornWrites::OldOrNew => *byte,
                TornWrites::Any => (any % 256) as u8,
            };
        }
        at = at.saturating_add(1);
    }
}

impl Disk {
    // Whether the call may begin, and whether it may end.
    fn spend(&mut self) -> (bool, bool) {
        let begins = self.calls_left > 0;
        self.calls_left = self.calls_left.saturating_sub(1);
        (begins, self.calls_left > 0)
    }

    fn read(&mut self, at: usize, bytes: &mut [u8]) -> bool {
        let (begins, _) = self.spend();
        if !begins || at > self.seen.len() || bytes.len() > self.seen.len() - at {
            return false;
        }
        let end = at + bytes.len();
        bytes.copy_from_slice(&self.seen[at..end]);
        true
    }

    fn write_pending(&mut self, at: usize, bytes: &[u8]) -> Result<(), AllocError> {
        let bytes = bytes.to_vec(self.alloc)?;
        self.pending.push(Write { at, bytes })?;
        Ok(())
    }

    fn write(&mut self, at: usize, bytes: &[u8]) -> bool {
        let (begins, ends) = self.spend();
        begins
            && self.write_pending(at, bytes).is_ok()
            && ends
            && overlay(&mut self.seen, at, bytes)
    }

    fn sync(&mut self) -> bool {
        let (_, ends) = self.spend();
        if !ends {
            return false;
        }
        for write in &self.pending {
            overlay(&mut self.medium, write.at, &write.bytes);
        }
        self.pending.clear();
        true
    }
}

impl Disk {
    fn into_left(self, random: &mut Xoshiro256PlusPlus, torn: TornWrites) -> Left {
        let Disk {
            seen,
            medium,
            pending,
            ..
        } = self;
        let mut medium = medium;
        for write in &pending {
            scatter(&mut medium, write, random, torn);
        }
        Left { seen, medium }
    }
}

impl Simulated {
    ghost use Rattle.cq_records_tests.specs.Simulated.{calls_on};

    /// A file that holds these bytes, on its medium too.
    pub fn new(alloc: Global, bytes: &[u8], calls_left: u64) -> Result<Simulated, AllocError>
        ensures { IfOk result (λ file. calls_on file ≡ []) }
    {
        Simulated::over(alloc, bytes, bytes, calls_left)
    }

    /// A file of which reads give these bytes, and whose medium has others.
    pub fn over(
        alloc: Global,
        seen: &[u8],
        medium: &[u8],
        calls_left: u64,
    ) -> Result<Simulated, AllocError>
        ensures { IfOk result (λ file. calls_on file ≡ []) }
    {
        let disk = Disk {
            alloc,
            seen: seen.to_vec(alloc)?,
            medium: medium.to_vec(alloc)?,
            pending: Vec::new(alloc),
            calls_left,
        };
        Ok(Simulated {
            disk,
            made: Record::new(),
        })
    }

    /// What its medium has after a crash.
    pub fn into_medium(self, random: &mut Xoshiro256PlusPlus, torn: TornWrites) -> Vec<u8> {
        self.disk.into_left(random, torn).medium
    }

    /// What its system and its medium have after its program has ended. What wasn't synced is taken for written.
    pub fn into_left(self, random: &mut Xoshiro256PlusPlus, torn: TornWrites) -> Left {
        self.disk.into_left(random, torn)
    }
}

impl Calls for Simulated {
    ghost history = { λ file. file.made.calls };

    fn read(&mut self, at: usize, bytes: &mut [u8]) -> bool {
        let is_done = self.disk.read(at, bytes);
        let call = if is_done {
            Call::Read { at, bytes }
        } else {
            Call::ReadFailed
        };
        self.made = self.made.and(&call);
        is_done
    }

    fn write(&mut self, at: usize, bytes: &[u8]) -> bool {
        let is_done = self.disk.write(at, bytes);
        let call = if is_done {
            Call::Wrote { at, bytes }
        } else {
            Call::WriteFailed { at, bytes }
        };
        self.made = self.made.and(&call);
        is_done
    }

    fn sync(&mut self) -> bool {
        let is_done = self.disk.sync();
        let call = if is_done {
            Call::Synced
        } else {
            Call::SyncFailed
        };
        self.made = self.made.and(&call);
        is_done
    }
}

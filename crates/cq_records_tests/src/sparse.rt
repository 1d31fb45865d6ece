//! A file in memory whose bytes take space only once they are written, and whose disk gets full.
ghost use Rattle.std.specs.Prelude.{◌≡◌, [], IfOk};

use cq_disk::{Call, Calls, Record};
use std::alloc::{AllocError, Global};

#[derive(Drop)]
struct Space {
    bytes: Vec<u8>,
    has_space: Vec<bool>,
    /// So many more bytes may get space.
    left: usize,
}

/// A sparse file, with the record of the calls on it.
#[derive(Drop)]
pub struct Sparse {
    space: Space,
    made: Record,
}

impl Sparse {
    ghost use Rattle.cq_records_tests.specs.Sparse.{calls_on};

    /// A file of so many zeros, which take no space, on a disk with space for so many bytes.
    pub fn new(alloc: Global, len: usize, space: usize) -> Result<Sparse, AllocError>
        ensures { IfOk result (λ file. calls_on file ≡ []) }
    {
        let space = Space {
            bytes: vec![in alloc; 0u8; len]?,
            has_space: vec![in alloc; false; len]?,
            left: space,
        };
        Ok(Sparse {
            space,
            made: Record::new(),
        })
    }

    /// What reads give.
    pub fn bytes(&self) -> &[u8] {
        &self.space.bytes
    }
}

impl Space {
    // Whether the range lies in the file, and has space or gets it.
    fn reserve(&mut self, at: usize, len: usize) -> bool {
        if at > self.has_space.len() || len > self.has_space.len() - at {
            return false;
        }
        let range = &mut self.has_space[at..at + len];
        let missing = range.iter().filter(|has_space| !**has_space).count();
        if missing > self.left {
            return false;
        }
        range.fill(true);
        self.left -= missing;
        true
    }

    fn overlay(&mut self, at: usize, bytes: &[u8]) -> bool {
        if at > self.bytes.len() || bytes.len() > self.bytes.len() - at {
            return false;
        }
        self.bytes[at..at + bytes.len()].copy_from_slice(bytes);
        true
    }

    fn put(&mut self, at: usize, bytes: &[u8]) -> bool {
        self.reserve(at, bytes.len()) && self.overlay(at, bytes)
    }

    fn copy_out(&self, at: usize, bytes: &mut [u8]) -> bool {
        if at > self.bytes.len() || bytes.len() > self.bytes.len() - at {
            return false;
        }
        bytes.copy_from_slice(&self.bytes[at..at + bytes.len()]);
        true
    }
}

impl Calls for Sparse {
    ghost history = { λ file. file.made.calls };

    fn read(&mut self, at: usize, bytes: &mut [u8]) -> bool {
        let is_done = self.space.copy_out(at, bytes);
        let call = if is_done {
            Call::Read { at, bytes }
        } else {
            Call::ReadFailed
        };
        self.made = self.made.and(&call);
        is_done
    }

    fn write(&mut self, at: usize, bytes: &[u8]) -> bool {
        let is_done = self.space.put(at, bytes);
        let call = if is_done {
            Call::Wrote { at, bytes }
        } else {
            Call::WriteFailed { at, bytes }
        };
        self.made = self.made.and(&call);
        is_done
    }

    fn sync(&mut self) -> bool {
        self.made = self.made.and(&Call::Synced);
        true
    }
}

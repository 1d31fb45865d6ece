//! What comes of reads.
use crate::kinds::{Kind, read};
use crate::stop;
use cq_wire::{ReadFault, WireFault};
use std::alloc::Global;
use std::io;

/// How often reads gave a value, and each fault.
#[derive(Clone, Copy)]
pub struct Tally {
    values: u64,
    truncated: u64,
    bad_tag: u64,
    bad_text: u64,
    bad_number: u64,
    bytes_left: u64,
    other_version: u64,
}

impl Tally {
    pub fn new() -> Tally {
        Tally {
            values: 0,
            truncated: 0,
            bad_tag: 0,
            bad_text: 0,
            bad_number: 0,
            bytes_left: 0,
            other_version: 0,
        }
    }

    /// The count of that fault.
    fn count_of(&mut self, fault: WireFault) -> &mut u64 {
        match fault {
            WireFault::Truncated => &mut self.truncated,
            WireFault::BadTag => &mut self.bad_tag,
            WireFault::BadText => &mut self.bad_text,
            WireFault::BadNumber => &mut self.bad_number,
            WireFault::BytesLeft => &mut self.bytes_left,
            WireFault::OtherVersion => &mut self.other_version,
        }
    }

    /// One more read gave a value.
    pub fn add_value(&mut self) {
        self.values = self.values.saturating_add(1);
    }

    /// One more gave that fault.
    pub fn add(&mut self, fault: WireFault) {
        let count = self.count_of(fault);
        *count = count.saturating_add(1);
    }

    /// Reads the bytes as a value of that kind. One that is read has to be written as these bytes.
    pub fn read(&mut self, alloc: Global, kind: Kind, bytes: &[u8]) -> io::Result<()> {
        match read(alloc, kind, bytes) {
            Ok(value) => {
                if value.bytes(alloc)?.as_slice() != bytes {
                    return Err(stop("a value is written otherwise than it was read"));
                }
                self.add_value();
                Ok(())
            }
            Err(ReadFault::NoMemory) => Err(stop("no memory")),
            Err(ReadFault::Bad(fault)) => {
                self.add(fault);
                Ok(())
            }
        }
    }

    /// Tells the counts.
    pub fn tell(&self, rt: &impl Print, what: &str) -> io::Result<()> {
        println!(rt;
            "{what}: values {}, Truncated {}, BadTag {}, BadText {}, BadNumber {}, BytesLeft {}, OtherVersion {}",
            self.values,
            self.truncated,
            self.bad_tag,
            self.bad_text,
            self.bad_number,
            self.bytes_left,
            self.other_version
        )
    }
}

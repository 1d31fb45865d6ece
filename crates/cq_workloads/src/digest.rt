//! A digest of bytes and numbers, by the steps of FNV-1a with 64 bits.
use std::io;
use std::io::Write;

const START: u64 = 0xcbf2_9ce4_8422_2325;

const PRIME: u64 = 0x0000_0100_0000_01b3;

/// The digest of the bytes that were added to it.
#[derive(Clone, Copy)]
pub struct Digest {
    value: u64,
}

impl Digest {
    pub fn new() -> Digest {
        Digest { value: START }
    }

    pub fn value(self) -> u64 {
        self.value
    }

    /// Adds a number.
    pub fn add(&mut self, number: u64) {
        let mixed = (self.value ^ number).wrapping_mul(PRIME);
        self.value = mixed ^ (mixed >> 29);
    }

    /// Adds these bytes. However many come at a time, the digest is the same.
    pub fn add_bytes(&mut self, bytes: &[u8]) {
        for byte in bytes {
            self.value = (self.value ^ u64::from(*byte)).wrapping_mul(PRIME);
        }
    }
}

/// A writer that keeps nothing but the digest of what is written.
#[derive(Drop)]
pub struct DigestWriter<'a> {
    digest: &'a mut Digest,
}

impl<'a> DigestWriter<'a> {
    pub fn new(digest: &'a mut Digest) -> DigestWriter<'a> {
        DigestWriter { digest }
    }
}

impl Write for DigestWriter<'_> {
    fn write(&mut self, buf: &[u8]) -> io::Result<usize> {
        self.digest.add_bytes(buf);
        Ok(buf.len())
    }

    fn flush(&mut self) -> io::Result<()> {
        Ok(())
    }
}

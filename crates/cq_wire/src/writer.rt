//! A value that is being written at the end of bytes.
ghost use Rattle.std.specs.Prelude.{◌≡◌, ◌<◌, ◌^◌, [], ◌++◌, OnOk, length};
ghost use Rattle.cq_wire.specs.Layout.{number32, number64, text, flag};

use cq_base::NoMemory;
use std::marker::Model;

/// Bytes, and from `start` on what is there of a value.
#[derive(Drop)]
pub struct Writer {
    bytes: Vec<u8>,
    start: usize,
}

impl Model for Writer {
    ghost use Rattle.std.specs.Prelude.{◌≤◌, length, take, drop};
    ghost use Rattle.cq_wire.specs.Written.{Written};

    ghost Value = { Written };

    ghost view = { λ w. record { before = take w.start w.bytes.items; value = drop w.start w.bytes.items } };

    ghost invariant = { λ w. w.start ≤ length w.bytes.items };
}

impl Writer {
    /// Nothing yet of a value, behind those bytes. It takes no memory.
    pub fn after(bytes: Vec<u8>) -> Writer
        ensures before { result.before ≡ bytes.items }
        ensures value { result.value ≡ [] }
    {
        let start = bytes.len();
        Writer { bytes, start }
    }

    /// How many bytes of the value are there. O(1).
    pub fn len(&self) -> usize
        ensures { result ≡ length self.now.value }
    {
        self.bytes.len() - self.start
    }

    /// The bytes with the value at their end.
    pub fn whole(self) -> Vec<u8>
        ensures { result.items ≡ self.before ++ self.value }
    {
        let Writer { bytes, .. } = self;
        bytes
    }

    /// The bytes as they were before the value.
    pub fn undone(self) -> Vec<u8>
        ensures { result.items ≡ self.before }
    {
        let Writer { mut bytes, start } = self;
        bytes.truncate(start);
        bytes
    }

    /// Writes these bytes, or after `NoMemory` none of them.
    pub fn put(&mut self, piece: &[u8]) -> Result<(), NoMemory>
        ensures ok { OnOk result (self.new.value ≡ self.old.value ++ piece.now) }
        ensures before { self.new.before ≡ self.old.before }
    {
        self.bytes.extend_from_slice(piece)?;
        Ok(())
    }

    /// Writes a number in four bytes, the lowest first, or after `NoMemory` nothing.
    #[tactic(auto, unfolding(crate::specs::Layout::number32))]
    pub fn put_u32(&mut self, number: u32) -> Result<(), NoMemory>
        ensures ok { OnOk result (self.new.value ≡ self.old.value ++ number32 number) }
        ensures before { self.new.before ≡ self.old.before }
    {
        self.put(&number.to_le_bytes())
    }

    /// Writes a number in eight bytes, the lowest first, or after `NoMemory` nothing.
    #[tactic(auto, unfolding(crate::specs::Layout::number64))]
    pub fn put_u64(&mut self, number: u64) -> Result<(), NoMemory>
        ensures ok { OnOk result (self.new.value ≡ self.old.value ++ number64 number) }
        ensures before { self.new.before ≡ self.old.before }
    {
        self.put(&number.to_le_bytes())
    }

    /// Writes 1 for yes, 0 for no, or after `NoMemory` nothing.
    #[tactic(auto, unfolding(crate::specs::Layout::flag))]
    pub fn put_flag(&mut self, is_set: bool) -> Result<(), NoMemory>
        ensures ok { OnOk result (self.new.value ≡ self.old.value ++ flag is_set) }
        ensures before { self.new.before ≡ self.old.before }
    {
        if is_set {
            self.put(&[1])
        } else {
            self.put(&[0])
        }
    }

    /// Writes the number of these bytes, and the bytes. After `NoMemory` the number may be there.
    #[tactic(auto, unfolding(crate::specs::Layout::text))]
    pub fn put_run(&mut self, run: &[u8]) -> Result<(), NoMemory>
        requires { length run.now < 2 ^ 32 }
        ensures ok { OnOk result (self.new.value ≡ self.old.value ++ text run.now) }
        ensures before { self.new.before ≡ self.old.before }
    {
        self.put_u32(run.len() as u32)?;
        self.put(run)
    }

    /// The same of the bytes of a text.
    pub fn put_text(&mut self, words: &str) -> Result<(), NoMemory>
        requires { length words.now < 2 ^ 32 }
        ensures ok { OnOk result (self.new.value ≡ self.old.value ++ text words.now) }
        ensures before { self.new.before ≡ self.old.before }
    {
        self.put_run(words.as_bytes())
    }
}

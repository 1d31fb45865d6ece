//! A line that is being written at the end of a text.
ghost use Rattle.std.specs.Prelude.{◌≡◌, ◌<◌, ◌≤◌, [], ◌++◌, OnOk, decimal, length, take};
ghost use Rattle.std.specs.Char.{digit_char};
ghost use Rattle.json.specs.Print.{escape, escape_byte, escape_letter, quoted};
ghost use Rattle.serde_json.specs.Written.{comma_if};

use cq_base::NoMemory;
use cq_json::plain_len;
use std::marker::Model;

/// How many bytes JSON writes as they stand, up to the first one that it escapes: O(that many).
#[tactic(auto, using(cq_json::proofs::PlainText::escape_plain, cq_json::proofs::PlainText::plain_within))]
fn plain_prefix(text: &[u8]) -> usize
    ensures bound { result ≤ length text.now }
    ensures plain { escape (take result text.now) ≡ take result text.now }
{
    plain_len(text)
}

/// The letter behind the backslash where the byte has a short escape; else 0.
fn escape_letter(byte: u8) -> u8
    ensures { result ≡ escape_letter byte }
{
    match byte {
        b'"' | b'\\' => byte,
        b'\n' => b'n',
        b'\t' => b't',
        b'\r' => b'r',
        8 => b'b',
        12 => b'f',
        _ => 0,
    }
}

/// The hex digit of a number below 16, in lower case.
fn hex_digit(number: u8) -> u8
    requires { number < 16 }
    ensures { result ≡ digit_char number }
{
    if number < 10 {
        b'0' + number
    } else {
        b'a' - 10 + number
    }
}

/// A text, and from `start` on what is there of a line.
#[derive(Drop)]
pub struct Row {
    bytes: Vec<u8>,
    start: usize,
}

impl Model for Row {
    ghost use Rattle.std.specs.Prelude.{◌≤◌, length, take, drop};
    ghost use Rattle.cq_answers.specs.within.Grown.{Grown};

    ghost Value = { Grown };

    ghost view = { λ r. record { before = take r.start r.bytes.items; told = drop r.start r.bytes.items } };

    ghost invariant = { λ r. r.start ≤ length r.bytes.items };
}

impl Row {
    /// Nothing yet of a line, behind that text. It takes no memory.
    pub fn after(text: Vec<u8>) -> Row
        ensures before { result.before ≡ text.items }
        ensures told { result.told ≡ [] }
    {
        let start = text.len();
        Row { bytes: text, start }
    }

    /// The text with the line at its end.
    pub fn whole(self) -> Vec<u8>
        ensures { result.items ≡ self.before ++ self.told }
    {
        let Row { bytes, .. } = self;
        bytes
    }

    /// The text as it was before the line.
    pub fn undone(self) -> Vec<u8>
        ensures { result.items ≡ self.before }
    {
        let Row { mut bytes, start } = self;
        bytes.truncate(start);
        bytes
    }

    /// Writes these bytes, or after `NoMemory` none of them.
    pub fn put(&mut self, piece: &[u8]) -> Result<(), NoMemory>
        ensures ok { OnOk result (self.new.told ≡ self.old.told ++ piece.now) }
        ensures before { self.new.before ≡ self.old.before }
    {
        self.bytes.extend_from_slice(piece)?;
        Ok(())
    }

    /// Writes a comma, where something stands before.
    pub fn put_comma(&mut self, later: bool) -> Result<(), NoMemory>
        ensures ok { OnOk result (self.new.told ≡ self.old.told ++ comma_if later) }
        ensures before { self.new.before ≡ self.old.before }
    {
        if later { self.put(b",") } else { self.put(b"") }
    }

    /// Writes the number in decimal.
    pub fn put_number(&mut self, number: u64) -> Result<(), NoMemory>
        ensures ok { OnOk result (self.new.told ≡ self.old.told ++ decimal number) }
        ensures before { self.new.before ≡ self.old.before }
    {
        let mut buffer = itoa::Buffer::new();
        self.put(buffer.format(number).as_bytes())
    }

    /// Writes what stands in a string for the byte.
    #[tactic(auto, unfolding(json::specs::Print::escape_byte))]
    fn put_escape(&mut self, byte: u8) -> Result<(), NoMemory>
        ensures ok { OnOk result (self.new.told ≡ self.old.told ++ escape_byte byte) }
        ensures before { self.new.before ≡ self.old.before }
    {
        let letter = escape_letter(byte);
        if letter > 0 {
            return self.put(&[b'\\', letter]);
        }
        if byte < 32 {
            let high = hex_digit(byte / 16);
            let low = hex_digit(byte % 16);
            return self.put(&[b'\\', b'u', b'0', b'0', high, low]);
        }
        self.put(&[byte])
    }

    /// Writes the text with its escapes, without quotes: O(bytes of it).
    fn put_escaped(&mut self, text: &[u8]) -> Result<(), NoMemory>
        ensures ok { OnOk result (self.new.told ≡ self.old.told ++ escape text.now) }
        ensures before { self.new.before ≡ self.old.before }
    {
        let mut rest = text;
        while !rest.is_empty() {
            let (plain, other) = rest.split_at(plain_prefix(rest));
            self.put(plain)?;
            let Some((byte, later)) = other.split_first() else {
                return Ok(());
            };
            self.put_escape(*byte)?;
            rest = later;
        }
        Ok(())
    }

    /// Writes the text as a string: O(bytes of it). After `NoMemory` a prefix of it may be written.
    pub fn put_string(&mut self, text: &str) -> Result<(), NoMemory>
        ensures ok { OnOk result (self.new.told ≡ self.old.told ++ quoted text.now) }
        ensures before { self.new.before ≡ self.old.before }
    {
        self.put(b"\"")?;
        self.put_escaped(text.as_bytes())?;
        self.put(b"\"")
    }
}

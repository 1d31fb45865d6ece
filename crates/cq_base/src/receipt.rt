//! Receipt handles, and their texts.
ghost use Rattle.std.specs.Prelude.{◌≡◌, ◌≢◌, ◌<◌, ◌↔◌, ◌++◌, IsSome, IfSome, IfNone, OnOk, OnErr, Some, ℕ};
ghost use Rattle.std.specs.Fmt.{decimal};
ghost use Rattle.cq_base.specs.Handle.{Handle, IsHandle, IsHandleNumber, handle_text};

use crate::fault::NoMemory;
use std::marker::Model;
use std::{fmt, str};

/// A receipt handle: the incarnation of the queue, the message's sequence number in it, and which
/// handing of that message it stands for (SQS API Reference, "Message", `ReceiptHandle`).
#[derive(Clone, Copy, Debug, PartialEq, Eq)]
pub struct Receipt {
    incarnation: u64,
    sequence: u64,
    handing: u64,
}

impl Model for Receipt {
    ghost Value = { Handle };

    ghost view = { λ r. record { incarnation = r.incarnation; sequence = r.sequence; handing = r.handing } };

    ghost invariant = { λ r. (0 < r.incarnation) × (0 < r.sequence) × (0 < r.handing) };

    ghost inverse = { λ h. record { incarnation = h.incarnation; sequence = h.sequence; handing = h.handing } };
}

/// The number from 1 to 2^64 - 1 that the text gives in decimal, without leading zeros; none for any
/// other text.
fn read_number(text: &str) -> Option<u64>
    ensures found { IfSome result (λ n. text.now ≡ decimal n) }
    ensures in_range { IfSome result IsHandleNumber }
    ensures none { IfNone result ((n : ℕ) → IsHandleNumber n → text.now ≢ decimal n) }
{
    if text.starts_with('0') || text.starts_with('+') {
        return None;
    }
    text.parse().ok()
}

impl Receipt {
    /// The receipt of these three numbers; none if one of them is 0.
    pub fn new(incarnation: u64, sequence: u64, handing: u64) -> Option<Receipt>
        ensures valid { IsSome result ↔ ((0 < incarnation) × (0 < sequence) × (0 < handing)) }
        ensures value { IfSome result (λ receipt. receipt
            ≡ record { incarnation = incarnation; sequence = sequence; handing = handing }) }
    {
        if incarnation == 0 || sequence == 0 || handing == 0 {
            return None;
        }
        Some(Receipt {
            incarnation,
            sequence,
            handing,
        })
    }

    /// The receipt with that text: three decimal numbers from 1 to 2^64 - 1, without leading zeros,
    /// with `-` between them; none for any other bytes. It takes no memory.
    pub fn read(bytes: &[u8]) -> Option<Receipt>
        ensures found { IfSome result (λ receipt. bytes.now ≡ handle_text receipt) }
        ensures in_range { IfSome result IsHandle }
        ensures only { IfSome result (λ receipt. (h : Handle) → IsHandle h
            → bytes.now ≡ handle_text h → h ≡ receipt) }
        ensures none { IfNone result ((h : Handle) → IsHandle h → bytes.now ≢ handle_text h) }
    {
        let text = str::from_utf8(bytes).ok()?;
        let (incarnation, rest) = text.split_once('-')?;
        let (sequence, handing) = rest.split_once('-')?;
        Some(Receipt {
            incarnation: read_number(incarnation)?,
            sequence: read_number(sequence)?,
            handing: read_number(handing)?,
        })
    }

    /// The number of the queue's incarnation.
    pub fn incarnation(self) -> u64
        ensures value { result ≡ self.incarnation }
        ensures positive { 0 < result }
    {
        self.incarnation
    }

    /// The message's sequence number.
    pub fn sequence(self) -> u64
        ensures value { result ≡ self.sequence }
        ensures positive { 0 < result }
    {
        self.sequence
    }

    /// Which handing of the message it stands for, from 1.
    pub fn handing(self) -> u64
        ensures value { result ≡ self.handing }
        ensures positive { 0 < result }
    {
        self.handing
    }

    /// Writes the text at the end of `out`: the three numbers in decimal with `-` between them. After
    /// `NoMemory` nothing is written.
    pub fn write_into(self, out: &mut Vec<u8>) -> Result<(), NoMemory>
        ensures ok { OnOk result (out.new.items ≡ out.old.items ++ handle_text self) }
        ensures err { OnErr result (out.new.items ≡ out.old.items) }
    {
        let alloc = *out.allocator();
        let text = format!(in alloc; "{self}")?;
        out.extend_from_slice(text.as_bytes())?;
        Ok(())
    }
}

impl fmt::Display for Receipt {
    ghost output = { λ r. Some (handle_text r) };

    fn fmt<W: fmt::Write>(&self, f: &mut fmt::Formatter<W>) -> fmt::Result {
        let incarnation = self.incarnation;
        let sequence = self.sequence;
        let handing = self.handing;
        write!(f, "{incarnation}-{sequence}-{handing}")
    }
}

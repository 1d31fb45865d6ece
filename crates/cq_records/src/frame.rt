//! The form of a record.
ghost use Rattle.std.specs.Prelude.{◌≡◌, ◌+◌, ◌++◌, ◌≤◌, ◌<◌, true, false, length, MatchOption, OnOk, OnErr};
ghost use Rattle.cq_records.specs.Frames.{framed, is_head, is_plain, is_text, next_mark, short_sum, text_length, stored_sum};

use crate::checksum;
use memchr::memchr2;
use std::alloc::AllocError;

/// The most bytes that the text of a record may have.
pub const TEXT_LIMIT: usize = 16_387_063;

/// The bytes of a frame before its text.
pub const HEAD_LENGTH: usize = 9;

/// The mark of the first frame of a batch.
pub(crate) const FIRST: u8 = 1;

/// The mark of the frames behind it.
pub(crate) const NEXT: u8 = 2;

/// Whether a text can be a record: it has at most `TEXT_LIMIT` bytes, and none of them is 0 or 1.
pub fn is_text(text: &[u8]) -> bool
    ensures { result ≡ is_text text.now }
{
    text.len() <= TEXT_LIMIT && is_plain(text)
}

pub(crate) fn is_plain(bytes: &[u8]) -> bool
    ensures { result ≡ is_plain bytes.now }
{
    memchr2(0, 1, bytes).is_none()
}

/// The checksum of a text as its frame has it.
pub(crate) fn short_sum(text: &[u8]) -> u32
    ensures sum { result ≡ short_sum text.now }
    ensures small { result < 4162314256 }
{
    checksum(text) % 4_162_314_256
}

/// The mark of the frame that comes behind those of a batch.
pub(crate) fn next_mark(batch: &[u8]) -> u8
    ensures { result ≡ next_mark batch.now }
{
    if batch.is_empty() { FIRST } else { NEXT }
}

/// Adds the frame of a text. Where there is no memory for it, the bytes are as they were.
pub(crate) fn push_frame(bytes: &mut Vec<u8>, mark: u8, text: &[u8]) -> Result<(), AllocError>
    requires { is_text text.now ≡ true }
    ensures ok { OnOk result (bytes.new.items ≡ bytes.old.items ++ framed mark text.now) }
    ensures err { OnErr result (bytes.new.items ≡ bytes.old.items) }
{
    let length = text.len();
    let sum = short_sum(text);
    let head = [
        2,
        (length % 254 + 2) as u8,
        (length / 254 % 254 + 2) as u8,
        (length / 64_516 + 2) as u8,
        (sum % 254 + 2) as u8,
        (sum / 254 % 254 + 2) as u8,
        (sum / 64_516 % 254 + 2) as u8,
        (sum / 16_387_064 + 2) as u8,
        mark,
    ];
    bytes.extend_from_slice(&head)?;
    let with_text = bytes.extend_from_slice(text);
    if with_text.is_err() {
        bytes.truncate(bytes.len() - HEAD_LENGTH);
    }
    with_text
}

/// What the head of a frame says.
#[derive(Clone, Copy)]
pub(crate) struct Head {
    pub(crate) text_length: usize,
    pub(crate) sum: u32,
}

/// Reads the head of a frame. `None`: no whole frame begins with it.
pub(crate) fn read_head(head: &[u8; HEAD_LENGTH]) -> Option<Head>
    ensures { MatchOption result (is_head head.now ≡ false)
        (λ h. (is_head head.now ≡ true) × (h.text_length ≡ text_length head.now) × (h.sum ≡ stored_sum head.now) × (h.text_length ≤ 16387063)) }
{
    let [gate, a, b, c, d, e, f, g, mark] = *head;
    if gate != 2 || (mark != FIRST && mark != NEXT) || !is_plain(&head[..8]) {
        return None;
    }
    Some(Head {
        text_length: (a - 2) as usize + (254 * (b - 2) as usize + 64_516 * (c - 2) as usize),
        sum: (d - 2) as u32
            + (254 * (e - 2) as u32 + (64_516 * (f - 2) as u32 + 16_387_064 * (g - 2) as u32)),
    })
}

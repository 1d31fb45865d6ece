//! The texts that are kept.
ghost use Rattle.std.specs.Prelude.{◌≡◌, ◌≤◌, ◌++◌, [], ℕ, List, true, false, length, IfOk, IfSome};
ghost use Rattle.cq_records.specs.Frames.{is_text};
ghost use Rattle.cq_kept_session.specs.Bases.{lined, marked, read, several};
ghost use Rattle.cq_kept_session.specs.Texts.{as_kept, has_mark, is_ended, kept_byte, size_text};

use cq_base::ChainSize;
use cq_records::TEXT_LIMIT;
use memchr::memchr2;
use std::alloc::{AllocError, Global};

/// The byte with which a base begins.
pub(crate) const MARK: u8 = 2;

/// The byte behind which the number of servers stands, with which the journal of a session on several begins.
pub(crate) const SIZE_MARK: u8 = 3;

/// Bytes with 4 in the place of each 0 and 1, which no record can have, and of each mark. A line with any of them is a bad line.
pub(crate) fn as_kept(alloc: Global, bytes: &[u8]) -> Result<Vec<u8>, AllocError>
    requires { length bytes.now ≤ TEXT_LIMIT }
    ensures text { IfOk result (λ text. text.items ≡ as_kept bytes.now) }
    ensures is_text { IfOk result (λ text. is_text text.items ≡ true) }
    ensures unmarked { IfOk result (λ text. has_mark text.items ≡ false) }
{
    let mut text = Vec::new(alloc);
    for byte in bytes {
        text.push(kept_byte(*byte))?;
    }
    Ok(text)
}

fn kept_byte(byte: u8) -> u8
    ensures { result ≡ kept_byte byte }
{
    if byte <= SIZE_MARK { 4 } else { byte }
}

/// Whether no mark is among these.
pub(crate) fn is_unmarked(bytes: &[u8]) -> bool
    ensures { result ≡ true → has_mark bytes.now ≡ false }
{
    memchr2(MARK, SIZE_MARK, bytes).is_none()
}

/// Whether the last line has ended once these bytes have come, where that is known of those before them.
pub(crate) fn has_ended(had_ended: bool, bytes: &[u8]) -> bool
    ensures { (before : List ℕ) → had_ended ≡ is_ended before → result ≡ is_ended (before ++ bytes.now) }
{
    match bytes.last() {
        Some(byte) => *byte == b'\n',
        None => had_ended,
    }
}

/// With what the journal of a session on so many servers begins, where these are several.
pub(crate) fn size_text(size: ChainSize) -> [u8; 3]
    ensures { result ≡ size_text size }
{
    [SIZE_MARK, b'0' + size.get(), b'\n']
}

/// The number of servers behind its mark, and what comes behind it. `None`: there is no such number.
pub(crate) fn size_in(bytes: &[u8]) -> Option<(u8, &[u8])>
    ensures { IfSome result (λ found. read marked bytes.now ≡ read (lined (several found.0) []) found.1.now) }
{
    let (digit, rest) = bytes.split_first()?;
    let (end, lines) = rest.split_first()?;
    if *end != b'\n' {
        return None;
    }
    Some((digit.saturating_sub(b'0'), lines))
}

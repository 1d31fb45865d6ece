//! The bytes that stand for themselves in a string of JSON.
ghost use Rattle.std.specs.Prelude.{◌≡◌};
ghost use Rattle.std.specs.List.{prefix_len};
ghost use Rattle.json.specs.Run.{is_plain};

use std::simd::prelude::*;

/// How many bytes are looked at together.
const LANES: usize = 16;

/// How many of the bytes stand for themselves in a string, before the first that doesn't.
fn plain_lanes(bytes: u8x16) -> usize
    ensures { result ≡ prefix_len is_plain bytes }
{
    let quotes = bytes.simd_eq(u8x16::splat(b'"')) | bytes.simd_eq(u8x16::splat(b'\\'));
    let stops = (quotes | bytes.simd_lt(u8x16::splat(b' '))).to_bitmask();
    if stops == 0 {
        LANES
    } else {
        stops.trailing_zeros() as usize
    }
}

/// The length of the prefix whose bytes stand for themselves in a string, found byte by byte: O(that length).
fn plain_len_by_bytes(bytes: &[u8]) -> usize
    ensures { result ≡ prefix_len is_plain bytes.now }
{
    let mut len = 0;
    while len < bytes.len() && bytes[len] != b'"' && bytes[len] != b'\\' && bytes[len] >= b' ' {
        len += 1;
    }
    len
}

/// The length of the prefix whose bytes stand for themselves in a string (RFC 8259, section 7), 16 at a time: O(that
/// length).
pub fn plain_len(bytes: &[u8]) -> usize
    ensures { result ≡ prefix_len is_plain bytes.now }
{
    let mut len = 0;
    while bytes.len() - len >= LANES {
        let plain = plain_lanes(u8x16::from_slice(&bytes[len..]));
        if plain < LANES {
            return len + plain;
        }
        len += LANES;
    }
    len + plain_len_by_bytes(&bytes[len..])
}

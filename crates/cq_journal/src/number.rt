//! Numbers as bytes of which none is 0 or 1.
ghost use Rattle.std.specs.Prelude.{◌≡◌, ◌-◌, ◌<◌, ◌++◌, slice_index, OnOk};
ghost use Rattle.cq_journal.specs.Numbers.{digits, number_of};

use std::alloc::AllocError;

/// Numbers are below this, which is 254 to the fifth: five digits have any of them.
pub const NUMBER_LIMIT: u64 = 1_057_227_821_024;

/// Adds a number: five digits in base 254, the lowest first, each two above its value.
pub(crate) fn push_number(bytes: &mut Vec<u8>, number: u64) -> Result<(), AllocError>
    requires { number < NUMBER_LIMIT }
    ensures ok { OnOk result (bytes.new.items ≡ bytes.old.items ++ digits number) }
{
    bytes.extend_from_slice(&[
        (number % 254 + 2) as u8,
        (number / 254 % 254 + 2) as u8,
        (number / 64_516 % 254 + 2) as u8,
        (number / 16_387_064 % 254 + 2) as u8,
        (number / 4_162_314_256 + 2) as u8,
    ])
}

fn digit(bytes: &[u8], at: usize) -> u64
    ensures value { result ≡ slice_index bytes.now at - 2 }
    ensures small { result < 254 }
{
    match bytes.get(at) {
        Some(byte) => byte.saturating_sub(2) as u64,
        None => 0,
    }
}

/// The number that bytes begin with. A byte that is missing, or 0 or 1, counts as the digit 0.
pub(crate) fn read_number(bytes: &[u8]) -> u64
    ensures value { result ≡ number_of bytes.now }
    ensures small { result < NUMBER_LIMIT }
{
    digit(bytes, 0)
        + (254 * digit(bytes, 1)
            + (64_516 * digit(bytes, 2)
                + (16_387_064 * digit(bytes, 3) + 4_162_314_256 * digit(bytes, 4))))
}

// The digits of a hashed message, of four bits each, and their checksum.

ghost use Rattle.std.specs.Prelude.{◌≡◌, ◌≤◌, ◌<◌, ◌/◌, ◌++◌, length};
ghost use Rattle.std.specs.Int.{w16, to_be_bytes};
ghost use Rattle.lms_ots.specs.OneTime.{checksum, coef};

use crate::input::put;

const HASH_DIGITS: usize = 64;

pub(crate) const LAST_STEP: u8 = 15;

// Half byte i, the high half of a byte first.
pub(crate) fn coef(bytes: &[u8], i: usize) -> u8
    requires { i / 2 < length bytes.now }
    ensures value { result ≡ coef bytes.now i }
    ensures small { result ≤ 15 }
{
    if i % 2 == 0 {
        bytes[i / 2] / 16
    } else {
        bytes[i / 2] % 16
    }
}

// How far the digits stay below the greatest one together, shifted left by four bits.
fn checksum(hash: &[u8; 32]) -> u16
    ensures { result ≡ checksum hash.now }
{
    let mut sum: u16 = 0;
    'digits: for i in 0..HASH_DIGITS {
        sum += u16::from(LAST_STEP - coef(hash, i));
    }
    sum * 16
}

// The hash and its checksum, whose half bytes are the digits.
pub(crate) fn with_checksum(hash: &[u8; 32]) -> [u8; 34]
    ensures { result ≡ hash.now ++ to_be_bytes w16 (checksum hash.now) }
{
    let mut bytes = [0; 34];
    put(&mut bytes, 0, hash);
    put(&mut bytes, 32, &checksum(hash).to_be_bytes());
    bytes
}

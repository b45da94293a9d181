// Hashes: the first half of SHA-512 of a byte and a text.

ghost use Rattle.std.specs.Prelude.{◌≡◌, ◌++◌, length, take, ◌%◌, ◌*◌, ◌≤◌, ◌<◌, ◌+◌, ◌/◌, All};
ghost use Rattle.ntru_codec.specs.Small.{IsSmall, small_encoding};
ghost use Rattle.ntru_model.specs.Pairs.{hash};

use ntru_codec::encode_small;
use sha2::{Digest, Sha512};

/// The bytes of a small polynomial of the larger set.
const SMALL: usize = 191;

fn first_half(digest: &[u8; 64]) -> [u8; 32]
    ensures { result ≡ take 32 digest.now }
{
    let mut half = [0; 32];
    half.copy_from_slice(&digest[..32]);
    half
}

/// The hash of a text.
pub fn hash(byte: u8, text: &[u8]) -> [u8; 32]
    ensures { result ≡ hash byte text.now }
{
    let mut hasher = Sha512::new();
    hasher.update([byte].as_slice());
    hasher.update(text);
    first_half(&hasher.finalize())
}

/// The hash of a text in two parts.
pub fn hash_both(byte: u8, first: &[u8], second: &[u8]) -> [u8; 32]
    ensures { result ≡ hash byte (first.now ++ second.now) }
{
    let mut hasher = Sha512::new();
    hasher.update([byte].as_slice());
    hasher.update(first);
    hasher.update(second);
    first_half(&hasher.finalize())
}

/// The hash by which a small polynomial enters others.
pub(crate) fn hash_of_small(a: &[i16]) -> [u8; 32]
    requires count { length a.now % 4 ≡ 1 }
    requires few { length a.now ≤ 761 }
    requires small { All IsSmall a.now }
    ensures { result ≡ hash 3 (small_encoding a.now) }
{
    let mut room = [0; SMALL];
    let bytes = &mut room[..a.len() / 4 + 1];
    encode_small(a, bytes);
    hash(3, bytes)
}

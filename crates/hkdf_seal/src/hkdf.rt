// HKDF with SHA-256 (RFC 5869), and keys under a label.

ghost use Rattle.std.specs.Prelude.{◌≡◌, ◌≤◌, ◌<◌, ◌+◌, ◌*◌, ◌-◌, ◌/◌, ◌++◌, [], ◌∷◌, length, take, drop};
ghost use Rattle.hkdf_seal.specs.Keys.{block, blocks, expand, extract, hmac, kdf};

use crate::bytes::put;
use crate::mac::{Mac, hmac};

const DIGEST: usize = 32;

const SALT: &[u8; 8] = b"dcgka v1";

/// The pseudorandom key of a salt and of input keying material (RFC 5869, section 2.2).
#[tactic(auto, unfolding(crate::specs::Keys::extract))]
pub fn extract(salt: &[u8], ikm: &[u8]) -> [u8; 32]
    ensures { result ≡ extract salt.now ikm.now }
{
    hmac(salt, ikm)
}

// T(i - 1): nothing before the first block.
fn previous(last: &[u8; 32], number: u8) -> &[u8]
    ensures first { number ≡ 1 → result.now ≡ [] }
    ensures later { 1 < number → result.now ≡ last.now }
{
    if number <= 1 { &[] } else { last }
}

// T(i) from T(i - 1).
fn next_block(prk: &[u8; 32], info: &[u8], last: &[u8], number: u8) -> [u8; 32]
    ensures { result ≡ hmac prk.now (last.now ++ info.now ++ number ∷ []) }
{
    let mut mac = Mac::new(prk);
    mac.update(last);
    mac.update(info);
    mac.update(&[number]);
    mac.finalize()
}

// Writes a block at a place, as far as `into` goes.
fn put_block(into: &mut [u8], at: usize, block: &[u8; 32])
    requires { at ≤ length into.old }
    ensures { take (at + 32) into.new ≡ take (length into.old) (take at into.old ++ block.now) }
{
    let count = DIGEST.min(into.len() - at);
    put(into, at, &block[..count]);
}

/// Fills `into` with the output of HKDF-Expand for its length (RFC 5869, section 2.3).
pub fn expand(prk: &[u8; 32], info: &[u8], into: &mut [u8])
    requires { length into.old ≤ 8160 }
    ensures { into.new ≡ expand prk.now info.now (length into.old) }
{
    let count = into.len().div_ceil(DIGEST);
    let mut last = [0; DIGEST];
    'fill: for i in 0..count {
        let number = i as u8 + 1;
        last = next_block(prk, info, previous(&last, number), number);
        put_block(into, DIGEST * i, &last);
    }
}

/// The key that a key gives under a label and an id. Without an id it is empty.
pub fn kdf(key: &[u8], label: &[u8], id: &[u8]) -> [u8; 32]
    ensures { result ≡ kdf key.now label.now id.now }
{
    let prk = extract(SALT, key);
    let mut mac = Mac::new(&prk);
    mac.update(label);
    mac.update(id);
    mac.update(&[1]);
    mac.finalize()
}

//! Pairs of the key encapsulation Sntrup761, read from their secret keys too, and keys that are encapsulated to one and
//! found by it.

use kem_trait::{Kem, KemRefusal, SeedWords};
use ntru_prime::{Sntrup761, TestedPair};
use sha2::{Digest, Sha256};
use std::alloc::{AllocError, Global};

/// How many bytes a public key, a secret key and a ciphertext have.
const PUBLIC: usize = 1158;

const SECRET: usize = 1763;

const CIPHER: usize = 1039;

/// The pair of a seed. None where the seed gives no usable key.
pub(crate) fn pair_of(
    alloc: Global,
    seed: &[u8; 32],
) -> Result<Option<TestedPair<761>>, AllocError> {
    match Sntrup761::make(alloc, &mut SeedWords::new(seed)) {
        Ok(pair) => Ok(Some(pair)),
        Err(KemRefusal::NoUsableKey) => Ok(None),
        Err(KemRefusal::Memory) => Err(AllocError),
    }
}

pub(crate) fn public_of(pair: &TestedPair<761>) -> [u8; PUBLIC] {
    let mut public = [0; PUBLIC];
    Sntrup761::public(pair, &mut public);
    public
}

/// Pairs, each from the public key of the one before.
pub(crate) fn make(alloc: Global, count: u32) -> Result<[u8; 32], AllocError> {
    let mut seed = [0u8; 32];
    for _ in 0..count {
        if let Some(pair) = pair_of(alloc, &seed)? {
            seed = Sha256::digest(public_of(&pair).as_slice());
        }
    }
    Ok(seed)
}

/// Pairs read from a secret key, each from that of the one before.
pub(crate) fn read(alloc: Global, count: u32) -> Result<[u8; 32], AllocError> {
    let mut secret = [0u8; SECRET];
    let Some(pair) = pair_of(alloc, &[0; 32])? else {
        return Ok([0; 32]);
    };
    Sntrup761::secret(&pair, &mut secret);
    for _ in 0..count {
        read_again(alloc, &mut secret)?;
    }
    Ok(Sha256::digest(secret.as_slice()))
}

/// Reads the pair of a secret key, and writes the secret key of what was read in its place.
fn read_again(alloc: Global, secret: &mut [u8; SECRET]) -> Result<(), AllocError> {
    if let Some(pair) = Sntrup761::pair_from_secret(alloc, secret)? {
        Sntrup761::secret(&pair, secret);
    }
    Ok(())
}

/// Keys encapsulated to one public key, each by the words of the one before.
pub(crate) fn encapsulate(alloc: Global, count: u32) -> Result<[u8; 32], AllocError> {
    let mut key = [0u8; 32];
    let Some(pair) = pair_of(alloc, &key)? else {
        return Ok(key);
    };
    let public = public_of(&pair);
    let mut cipher = [0u8; CIPHER];
    for _ in 0..count {
        if let Some(next) = key_to(&public, &key, &mut cipher) {
            key = next;
        }
    }
    Ok(key)
}

/// A key encapsulated to a public key by the words of a seed. None where the bytes are no public key.
fn key_to(public: &[u8; PUBLIC], seed: &[u8; 32], cipher: &mut [u8; CIPHER]) -> Option<[u8; 32]> {
    if Sntrup761::public_ok(public) {
        Some(Sntrup761::encap(public, &mut SeedWords::new(seed), cipher))
    } else {
        None
    }
}

/// Keys found in ciphertexts. After each the last byte is changed by the key, and from the second on they are refused keys.
pub(crate) fn decapsulate(alloc: Global, count: u32) -> Result<[u8; 32], AllocError> {
    let mut key = [0u8; 32];
    let Some(pair) = pair_of(alloc, &key)? else {
        return Ok(key);
    };
    let mut cipher = [0u8; CIPHER];
    if key_to(&public_of(&pair), &key, &mut cipher).is_none() {
        return Ok(key);
    }
    for _ in 0..count {
        if let Some(found) = Sntrup761::decap(&pair, &cipher) {
            key = found;
        }
        cipher[CIPHER - 1] ^= key[0];
    }
    Ok(key)
}

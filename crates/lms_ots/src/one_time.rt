// Keys, signatures and the candidate key.

ghost use Rattle.std.specs.Prelude.{◌≡◌, ◌↔◌, ◌≤◌, ◌<◌, ◌+◌, ◌++◌, length, IsSome, IsTrue, IfSome};
ghost use Rattle.lms_ots.specs.OneTime.{IsOneTimeSignature, candidate_key, hashed_message, one_time_public, one_time_signature, randomizer};

use crate::SIGNATURE;
use crate::chains::{chain, chain_from_secret};
use crate::digits::{LAST_STEP, coef, with_checksum};
use crate::input::{element_at, prefix, put, step_input};
use sha2::{Digest, Sha256};

const CHAINS: usize = 67;

// u32str(type).
const TYPE: [u8; 4] = [0, 0, 0, 3];

// D_PBLC and D_MESG, and the word behind which the randomizer is made.
const PUBLIC_WORD: u16 = 0x8080;

const MESSAGE_WORD: u16 = 0x8181;

const RANDOMIZER_WORD: u16 = 0xfffd;

// Where the randomizer and the elements begin in a signature.
const RANDOMIZER_PLACE: usize = 4;

const ELEMENTS_PLACE: usize = 36;

/// The public key K of a pair (RFC 8554, section 4.3).
pub fn public_value(identifier: &[u8; 16], q: u32, seed: &[u8; 32]) -> [u8; 32]
    ensures { result ≡ one_time_public identifier.now q seed.now }
{
    let mut hasher = Sha256::new();
    hasher.update(prefix(identifier, q, PUBLIC_WORD));
    'chains: for i in 0..CHAINS {
        hasher.update(chain_from_secret(identifier, q, seed, i as u16, LAST_STEP));
    }
    hasher.finalize()
}

// The randomizer C of a pair's one signature.
#[tactic(auto, unfolding(crate::specs::OneTime::randomizer))]
fn randomizer(identifier: &[u8; 16], q: u32, seed: &[u8; 32]) -> [u8; 32]
    ensures { result ≡ randomizer identifier.now q seed.now }
{
    let start = prefix(identifier, q, RANDOMIZER_WORD);
    Sha256::digest(step_input(&start, 0xff, seed).as_slice())
}

// Q, the hash of the message behind the randomizer.
#[tactic(auto, unfolding(crate::specs::OneTime::hashed_message))]
fn hashed_message(identifier: &[u8; 16], q: u32, randomizer: &[u8; 32], message: &[u8]) -> [u8; 32]
    ensures { result ≡ hashed_message identifier.now q randomizer.now message.now }
{
    let mut hasher = Sha256::new();
    hasher.update(prefix(identifier, q, MESSAGE_WORD));
    hasher.update(randomizer.as_slice());
    hasher.update(message);
    hasher.finalize()
}

/// Signs a message under a pair (RFC 8554, section 4.5), into a buffer of `SIGNATURE` bytes. The randomizer is a hash of the
/// seed.
pub fn sign_once(identifier: &[u8; 16], q: u32, seed: &[u8; 32], message: &[u8], into: &mut [u8])
    requires { length into.old ≡ 2180 }
    ensures signature { into.new ≡ one_time_signature identifier.now q seed.now message.now }
    ensures form { IsOneTimeSignature into.new }

    // It leads back to the pair's public key.
    ensures verifies { candidate_key identifier.now q message.now into.new ≡ one_time_public identifier.now q seed.now }
{
    let randomizer = randomizer(identifier, q, seed);
    let digits = with_checksum(&hashed_message(identifier, q, &randomizer, message));
    put(into, 0, &TYPE);
    put(into, RANDOMIZER_PLACE, &randomizer);
    'chains: for i in 0..CHAINS {
        let end = coef(&digits, i);
        let element = chain_from_secret(identifier, q, seed, i as u16, end);
        put(into, ELEMENTS_PLACE + 32 * i, &element);
    }
}

// Whether the bytes have the form of a signature of this type.
fn has_form(signature: &[u8]) -> bool
    ensures { IsTrue result ↔ IsOneTimeSignature signature.now }
{
    signature.len() == SIGNATURE && signature[..4] == TYPE[..]
}

/// The public key that a signature of a message leads to (RFC 8554, section 4.6): the pair's own where the signature is its
/// signature of this message. `None` where the bytes have another length or another type.
pub fn candidate(
    identifier: &[u8; 16],
    q: u32,
    message: &[u8],
    signature: &[u8],
) -> Option<[u8; 32]>
    ensures form { IsSome result ↔ IsOneTimeSignature signature.now }
    ensures key { IfSome result (λ key. key ≡ candidate_key identifier.now q message.now signature.now) }
{
    if !has_form(signature) {
        return None;
    }
    Some(candidate_of(identifier, q, message, signature))
}

// The candidate key of bytes that have the form of a signature.
fn candidate_of(identifier: &[u8; 16], q: u32, message: &[u8], signature: &[u8]) -> [u8; 32]
    requires { length signature.now ≡ 2180 }
    ensures { result ≡ candidate_key identifier.now q message.now signature.now }
{
    let randomizer = element_at(signature, RANDOMIZER_PLACE);
    let digits = with_checksum(&hashed_message(identifier, q, &randomizer, message));
    let mut hasher = Sha256::new();
    hasher.update(prefix(identifier, q, PUBLIC_WORD));
    'chains: for i in 0..CHAINS {
        let start = prefix(identifier, q, i as u16);
        let element = element_at(signature, ELEMENTS_PLACE + 32 * i);
        hasher.update(chain(&start, coef(&digits, i), LAST_STEP, &element));
    }
    hasher.finalize()
}

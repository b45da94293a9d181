// HMAC with SHA-256 (RFC 2104).

ghost use Rattle.std.specs.Prelude.{◌≡◌, ◌≤◌, ℕ, ◌+◌, ◌-◌, ◌<◌, List, [], ◌++◌, length, replicate, IsTrue};
ghost use Rattle.hkdf_seal.specs.Keys.{hmac, block_key, filled_up, xor_all};
ghost use Rattle.hkdf_seal.specs.Macs.{IsAfter};

use crate::bytes::put;
use sha2::{Digest, Sha256};

const BLOCK: usize = 64;

const INNER_PAD: u8 = 0x36;

const OUTER_PAD: u8 = 0x5c;

// A key of at most one block, filled up with zeros.
fn filled_up(key: &[u8]) -> [u8; 64]
    requires { length key.now ≤ 64 }
    ensures { result ≡ filled_up key.now }
{
    let mut block = [0; BLOCK];
    put(&mut block, 0, key);
    block
}

// The key as one block. A longer key is hashed first.
#[tactic(auto, unfolding(crate::specs::Keys::block_key))]
fn block_key(key: &[u8]) -> [u8; 64]
    ensures { result ≡ block_key key.now }
{
    if key.len() > BLOCK {
        let digest = Sha256::digest(key);
        filled_up(&digest)
    } else {
        filled_up(key)
    }
}

// Each byte of the block, xor the pad.
fn xor_all(mut block: [u8; 64], pad: u8) -> [u8; 64]
    ensures { result ≡ xor_all pad block }
{
    'bytes: for i in 0..BLOCK {
        block[i] ^= pad;
    }
    block
}

/// An HMAC over a text that comes in pieces.
#[derive(Drop)]
pub(crate) struct Mac {
    pub(crate) inner: Sha256,
    pub(crate) outer_block: [u8; 64],
}

impl Mac {
    // Under this key, with nothing of the text yet.
    pub(crate) fn new(key: &[u8]) -> Mac
        ensures { IsAfter result.inner result.outer_block key.now [] }
    {
        let block = block_key(key);
        let mut inner = Sha256::new();
        inner.update(xor_all(block, INNER_PAD));
        Mac {
            inner,
            outer_block: xor_all(block, OUTER_PAD),
        }
    }

    // Adds the next piece of the text.
    pub(crate) fn update(&mut self, piece: &[u8])
        ensures { (key text : List ℕ) → IsAfter self.old.inner self.old.outer_block key text
            → IsAfter self.new.inner self.new.outer_block key (text ++ piece.now) }
    {
        self.inner.update(piece);
    }

    // The tag of the whole text.
    #[tactic(auto, unfolding(crate::specs::Keys::hmac))]
    pub(crate) fn finalize(self) -> [u8; 32]
        ensures { (key text : List ℕ) → IsAfter self.inner self.outer_block key text
            → result ≡ hmac key text }
    {
        let Mac { inner, outer_block } = self;
        let digest = inner.finalize();
        let mut outer = Sha256::new();
        outer.update(outer_block);
        outer.update(digest);
        outer.finalize()
    }
}

/// HMAC with SHA-256 of a text under a key (RFC 2104, section 2).
pub fn hmac(key: &[u8], text: &[u8]) -> [u8; 32]
    ensures { result ≡ hmac key.now text.now }
{
    let mut mac = Mac::new(key);
    mac.update(text);
    mac.finalize()
}

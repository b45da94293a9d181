// The chain key of a sender's ratchet.

ghost use Rattle.std.specs.Prelude.{◌≡◌, take, drop};
ghost use Rattle.group_parts.specs.Ratchets.{next_ratchet, update_secret};

use hkdf_seal::{expand, extract};
use std::marker::Model;

const KEY: usize = 32;

/// The state of a sender's ratchet. It can't be dropped: `step` or `retire` takes it.
pub struct ChainKey {
    key: [u8; 32],
}

impl Model for ChainKey {
    ghost use Rattle.group_model.specs.Sets.{Bytes};

    ghost Value = { Bytes };

    ghost view = { λ c. c.key };
}

// The first 32 bytes and the others.
fn halves(bytes: &[u8; 64]) -> ([u8; 32], [u8; 32])
    ensures first { result.0 ≡ take 32 bytes.now }
    ensures last { result.1 ≡ drop 32 bytes.now }
{
    let (front, back) = bytes.split_at(KEY);
    let mut first = [0; KEY];
    let mut last = [0; KEY];
    first.copy_from_slice(front);
    last.copy_from_slice(back);
    (first, last)
}

impl ChainKey {
    /// The ratchet with these bytes. Before a sender's first message they are 32 zeros.
    pub fn from_bytes(bytes: [u8; 32]) -> ChainKey
        ensures { result ≡ bytes }
    {
        ChainKey { key: bytes }
    }

    /// The ratchet's bytes, which an add hands on.
    pub fn bytes(&self) -> [u8; 32]
        ensures { result ≡ self.now }
    {
        self.key
    }

    /// Steps the ratchet by an input: the update secret, and the ratchet after the step.
    #[tactic(auto, unfolding(group_parts::specs::Ratchets::ratchet_step, group_parts::specs::Ratchets::update_secret, group_parts::specs::Ratchets::next_ratchet))]
    pub fn step(self, input: &[u8]) -> ([u8; 32], ChainKey)
        ensures secret { result.0 ≡ update_secret self input.now }
        ensures ratchet { result.1 ≡ next_ratchet self input.now }
    {
        let ChainKey { key } = self;
        let mut output = [0; 2 * KEY];
        expand(&extract(&key, input), b"ratchet", &mut output);
        let (secret, next) = halves(&output);
        (secret, ChainKey { key: next })
    }

    /// Gives the ratchet up where no further step will follow.
    pub fn retire(self) {
        let ChainKey { key: _ } = self;
    }
}

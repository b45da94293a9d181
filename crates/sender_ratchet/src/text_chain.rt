// The chain of a sender's message keys.

ghost use Rattle.std.specs.Prelude.{◌≡◌, [], codes};
ghost use Rattle.hkdf_seal.specs.Keys.{kdf};

use crate::message_key::MessageKey;
use hkdf_seal::kdf;
use std::marker::Model;

/// The chain that an update secret starts, with a key for each text. It can't be dropped: `next` or `retire` takes it.
pub struct TextChain {
    key: [u8; 32],
}

impl Model for TextChain {
    ghost use Rattle.group_model.specs.Sets.{Bytes};

    ghost Value = { Bytes };

    ghost view = { λ c. c.key };
}

impl TextChain {
    /// The first chain of an update secret.
    pub fn start(secret: &[u8; 32]) -> TextChain
        ensures { result ≡ kdf secret.now (codes "chain") [] }
    {
        TextChain {
            key: kdf(secret, b"chain", &[]),
        }
    }

    /// The key of the next text, and the chain behind it.
    pub fn next(self) -> (MessageKey, TextChain)
        ensures key { result.0 ≡ kdf self (codes "text") [] }
        ensures chain { result.1 ≡ kdf self (codes "next") [] }
    {
        let TextChain { key } = self;
        let message_key = MessageKey::new(kdf(&key, b"text", &[]));
        let next = kdf(&key, b"next", &[]);
        (message_key, TextChain { key: next })
    }

    /// Gives the chain up where no further text will follow.
    pub fn retire(self) {
        let TextChain { key: _ } = self;
    }
}

// The key of one text.

ghost use Rattle.std.specs.Prelude.{◌≡◌, ◌↔◌, ◌++◌, IsSome, OnSome, IfNone};
ghost use Rattle.group_model.specs.Sets.{Bytes};
ghost use Rattle.hkdf_seal.specs.Sealing.{opened, sealed_with_tag, tag_of};

use hkdf_seal::{open, seal};
use std::marker::Model;

/// The key of one text. It can't be dropped: `seal` or `open` takes it.
pub struct MessageKey {
    key: [u8; 32],
}

impl Model for MessageKey {
    ghost use Rattle.group_model.specs.Sets.{Bytes};

    ghost Value = { Bytes };

    ghost view = { λ m. m.key };
}

impl MessageKey {
    pub(crate) fn new(key: [u8; 32]) -> MessageKey
        ensures { result ≡ key }
    {
        MessageKey { key }
    }

    /// Seals the text in place, and answers the tag of what it became.
    #[tactic(auto, unfolding(hkdf_seal::specs::Sealing::sealed_with_tag))]
    pub fn seal(self, text: &mut [u8]) -> [u8; 32]
        ensures { text.new ++ result ≡ sealed_with_tag self text.old }
    {
        let MessageKey { key } = self;
        seal(&key, text)
    }

    /// Opens a sealed text in place. `None` exactly where the tag is not the text's, which is then left as it was; the
    /// key is spent all the same.
    #[tactic(auto, using(crate::proofs::Opened::own_tag_opens, crate::proofs::Opened::other_tag_opens, crate::proofs::Opened::sealed_tag_is, crate::proofs::Opened::sealed_text_is))]
    pub fn open(self, text: &mut [u8], tag: &[u8; 32]) -> Option<()>
        ensures only { IsSome result ↔ (tag.now ≡ tag_of self text.old) }
        ensures opened { OnSome result (opened self (text.old ++ tag.now) ≡ Some text.new) }
        ensures refused { IfNone result (opened self (text.old ++ tag.now) ≡ None) }
        ensures unchanged { IfNone result (text.new ≡ text.old) }

        // What `seal` made of a text under an equal key opens to that text.
        ensures undoes { (plain : Bytes) → text.old ++ tag.now ≡ sealed_with_tag self plain
            → IsSome result × (text.new ≡ plain) }
    {
        let MessageKey { key } = self;
        open(&key, text, tag)
    }
}

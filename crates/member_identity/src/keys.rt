//! What a member signs with and shows.

ghost use Rattle.std.specs.Prelude.{◌≡◌, ◌≤◌, ◌+◌, ◌*◌, ◌-◌, ◌^◌, length};
ghost use Rattle.sha2.specs.Sha256.{sha256};
ghost use Rattle.group_fields.specs.Cards.{Spells};
ghost use Rattle.group_fields.specs.declared.card.Card.{Card};
ghost use Rattle.lms_sign.specs.Signatures.{lms_signature};
ghost use Rattle.lms_sign.specs.Trees.{lms_public};
ghost use Rattle.member_identity.specs.Identity.{KeysValue};

use group_fields::{Bytes, CardView, Digest as Id, MemberId, MessageId, read_card};
use lms_sign::{Leaf, Tree};
use sha2::{Digest, Sha256};
use std::marker::Model;

/// The signing tree of a member with all its nodes, its card and its id, each made once. Contracts see the tree and the
/// card's bytes.
#[derive(Drop)]
pub struct Keys {
    tree: Tree,
    card: Bytes,
    id: MemberId,
}

impl Model for Keys {
    ghost use Rattle.std.specs.Prelude.{◌≡◌};
    ghost use Rattle.sha2.specs.Sha256.{sha256};
    ghost use Rattle.group_fields.specs.Cards.{Spells};
    ghost use Rattle.group_fields.specs.declared.card.Card.{Card};
    ghost use Rattle.member_identity.specs.Identity.{IsShown, KeysValue};

    ghost Value = { KeysValue };

    ghost view = { λ keys. record { tree = keys.tree; card = keys.card } };

    ghost invariant = { λ keys. IsShown keys.card keys.id.0.0 };
}

impl Keys {
    // A tree, and the bytes of a card.
    pub(crate) fn new(tree: Tree, card: Bytes) -> Keys
        requires { (value : Card) × Spells value card }
        ensures { result ≡ record { tree = tree; card = card } }
    {
        let id = MemberId(Id(Sha256::digest(card.as_slice())));
        Keys { tree, card, id }
    }

    /// The member's card.
    pub fn card(&self) -> CardView<'_>
        ensures { Spells result self.now.card }
    {
        read_card(self.card.as_slice()).unwrap()
    }

    /// The member's id: SHA-256 of its card.
    pub fn id(&self) -> MemberId
        ensures { result.0.0 ≡ sha256 self.now.card }
    {
        self.id
    }

    /// The leaf of a message, by its number among those of this member, from 1: leaf number `seq - 1`.
    pub fn leaf(&self, seq: u32, message: MessageId) -> Leaf
        requires first { 1 ≤ seq }
        requires last { seq ≤ 2 ^ self.now.tree.height }
        ensures { result
            ≡ record { number = seq - 1; message = message.0.0; public = lms_public self.now.tree } }
    {
        self.tree.leaf(seq - 1, message).unwrap()
    }

    /// Signs a leaf's message into a buffer of 2,188 bytes and 32 for each level (RFC 8554, section 5.4). The leaf is
    /// used up.
    pub fn sign(&self, leaf: Leaf, into: &mut [u8])
        requires same_key { leaf.public ≡ lms_public self.now.tree }
        requires room { length into.old ≡ 2188 + 32 * self.now.tree.height }
        ensures { into.new ≡ lms_signature self.now.tree leaf.number leaf.message }
    {
        self.tree.sign(leaf, into);
    }
}

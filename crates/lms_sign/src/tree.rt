// Trees and what they hand out.

ghost use Rattle.std.specs.Prelude.{◌≡◌, ◌↔◌, ◌≤◌, ◌<◌, ◌+◌, ◌*◌, ◌^◌, ◌++◌, length, IfOk, IsErr};
ghost use Rattle.lms_sign.specs.Leaves.{LeafValue};
ghost use Rattle.lms_sign.specs.Signatures.{LmsOk, lms_signature};
ghost use Rattle.lms_sign.specs.Trees.{IsHeight, lms_public};

use crate::leaf::Leaf;
use crate::nodes::{leaves_in, nodes_of};
use crate::writing::{public_of, write_signature};
use group_fields::{Memory, MessageId};
use std::alloc::Global;
use std::marker::Model;

/// The tree has no leaf of this number.
#[derive(Clone, Copy, Debug, PartialEq, Eq)]
pub struct Spent;

/// A tree of one-time key pairs, with all its nodes.
#[derive(Drop)]
pub struct Tree {
    height: u32,
    identifier: [u8; 16],
    seed: [u8; 32],
    // Each at the place of its number; none is at place 0.
    nodes: Vec<[u8; 32]>,
}

impl Model for Tree {
    ghost use Rattle.lms_sign.specs.Nodes.{HasNodes};
    ghost use Rattle.lms_sign.specs.Trees.{LmsTree};

    ghost Value = { LmsTree };

    ghost view = { λ t. record { height = t.height; id = t.identifier; seed = t.seed } };

    ghost invariant = { λ t. HasNodes t.height t.identifier t.seed t.nodes.items };
}

impl Tree {
    /// The tree of a height, an identifier and a seed. The height is 5 or 10.
    pub fn make(
        alloc: Global,
        height: u32,
        identifier: &[u8; 16],
        seed: &[u8; 32],
    ) -> Result<Tree, Memory>
        requires { IsHeight height }
        ensures { IfOk result (λ tree. tree ≡ record { height = height; id = identifier.now; seed = seed.now }) }
    {
        let nodes = nodes_of(alloc, leaves_in(height), identifier, seed)?;
        Ok(Tree {
            height,
            identifier: *identifier,
            seed: *seed,
            nodes,
        })
    }

    /// The public key (RFC 8554, section 5.3).
    pub fn public(&self) -> [u8; 56]
        ensures { result ≡ lms_public self.now }
    {
        public_of(self.height, &self.identifier, self.nodes.as_slice())
    }

    /// Leaf `q`, to sign this message and no other. `Spent` where the tree has no such leaf.
    pub fn leaf(&self, q: u32, message: MessageId) -> Result<Leaf, Spent>
        ensures spent { IsErr result ↔ (2 ^ self.now.height ≤ q) }
        ensures leaf { IfOk result (λ leaf. leaf ≡ record { number = q; message = message.0.0; public = lms_public self.now }) }
    {
        if q >= leaves_in(self.height) {
            return Err(Spent);
        }
        Ok(Leaf::new(q, message, self.public()))
    }

    /// Signs a leaf's message into a buffer of 2,188 bytes and 32 for each level (RFC 8554, section 5.4). The leaf is used up.
    pub fn sign(&self, leaf: Leaf, into: &mut [u8])
        requires same_key { leaf.public ≡ lms_public self.now }
        requires room { length into.old ≡ 2188 + 32 * self.now.height }
        ensures signature { into.new ≡ lms_signature self.now leaf.number leaf.message }

        // It is good under the tree's public key.
        ensures verifies { LmsOk (lms_public self.now) leaf.message into.new }
    {
        let (q, message) = leaf.spend();
        write_signature(
            self.height,
            &self.identifier,
            &self.seed,
            self.nodes.as_slice(),
            q,
            &message,
            into,
        );
    }
}

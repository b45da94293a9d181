//! The signatures of the creator.

ghost use Rattle.std.specs.Prelude.{◌≡◌, length, IfOk};

use crate::group::Group;
use crate::packets::{SIGNATURE, joined};
use group_fields::{Bytes, Digest as Id, MessageId};
use lms_sign::{Spent, Tree};
use sha2::{Digest, Sha256};
use std::alloc::{AllocError, Global};

/// The tree that the creator signs by.
pub(crate) fn new_tree(alloc: Global) -> Result<Tree, AllocError>
    ensures { IfOk result (λ tree. tree.height ≡ 10) }
{
    Tree::make(alloc, 10, &[7; 16], &[0; 32])
}

/// Signs a message by a leaf.
fn sign(tree: &Tree, leaf: u32, message: MessageId, signature: &mut [u8])
    requires height { tree.now.height ≡ 10 }
    requires size { length signature.old ≡ 2508 }
{
    match tree.leaf(leaf, message) {
        Ok(leaf) => tree.sign(leaf, signature),
        Err(Spent) => {}
    }
}

/// The packet of the creator's next message, signed by the leaf for it.
pub(crate) fn signed(
    alloc: Global,
    group: &Group,
    tree: &Tree,
    header: &[u8],
    body: &[u8],
) -> Result<Bytes, AllocError>
    requires { tree.now.height ≡ 10 }
{
    let id = MessageId(Id(Sha256::digest(header)));
    let mut signature = [0u8; SIGNATURE];
    sign(tree, group.size.rounds(), id, &mut signature);
    joined(alloc, header, body, &signature)
}

//! Trees of one-time keys, their signatures and the checks of these.

ghost use Rattle.std.specs.Prelude.{◌≡◌, ◌≤◌, length};
ghost use Rattle.lms_sign.specs.Trees.{IsHeight};

use group_fields::{Digest as Id, MessageId};
use lms_sign::{Spent, Tree, verify};
use sha2::{Digest, Sha256};
use std::alloc::{AllocError, Global};

const IDENTIFIER: [u8; 16] = [7; 16];

/// How many bytes a signature of a tree of height 10 has, and how many leaves the tree.
const SIGNATURE: usize = 2508;

const LEAVES: u32 = 1024;

/// Trees, each from the public key of the one before.
pub(crate) fn grow(alloc: Global, height: u32, count: u32) -> Result<[u8; 32], AllocError>
    requires { IsHeight height }
{
    let mut seed = [0u8; 32];
    for _ in 0..count {
        let tree = Tree::make(alloc, height, &IDENTIFIER, &seed)?;
        seed = Sha256::digest(tree.public().as_slice());
    }
    Ok(seed)
}

/// Signatures of a tree of height 10, each of bytes of the one before.
pub(crate) fn sign(alloc: Global, count: u32) -> Result<[u8; 32], AllocError> {
    let tree = Tree::make(alloc, 10, &IDENTIFIER, &[0; 32])?;
    let mut signature = [0u8; SIGNATURE];
    for i in 0..count {
        sign_bytes(&tree, i % LEAVES, &mut signature);
    }
    Ok(Sha256::digest(signature.as_slice()))
}

/// Signs bytes of the signature by this leaf, and puts the new one in its place.
fn sign_bytes(tree: &Tree, q: u32, signature: &mut [u8])
    requires height { tree.now.height ≡ 10 }
    requires size { length signature.old ≡ 2508 }
{
    let mut message = [0u8; 32];
    message.copy_from_slice(&signature[40..72]);
    match tree.leaf(q, MessageId(Id(message))) {
        Ok(leaf) => tree.sign(leaf, signature),
        Err(Spent) => {}
    }
}

/// Checks of a signature. After each its last byte is changed, and a byte of the message, on which the steps of a check depend.
pub(crate) fn check(alloc: Global, count: u32) -> Result<[u8; 32], AllocError> {
    let tree = Tree::make(alloc, 10, &IDENTIFIER, &[0; 32])?;
    let public = tree.public();
    let mut signature = [0u8; SIGNATURE];
    sign_bytes(&tree, 0, &mut signature);
    let mut message = [0u8; 32];
    let mut good = [0u8; 1];
    for _ in 0..count {
        check_one(&public, &mut message, &mut signature, &mut good);
    }
    Ok(Sha256::digest(good.as_slice()))
}

fn check_one(public: &[u8; 56], message: &mut [u8; 32], signature: &mut [u8], good: &mut [u8; 1])
    requires { length signature.old ≡ 2508 }
{
    if verify(public, message.as_slice(), signature) {
        good[0] = good[0].wrapping_add(1);
    }
    message[0] = message[0].wrapping_add(1);
    signature[SIGNATURE - 1] ^= 1;
}

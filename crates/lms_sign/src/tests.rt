ghost use Rattle.std.specs.Prelude.{◌<◌, ◌≤◌};

use super::*;
use group_fields::{Digest as Id, Memory, MessageId};
use sha2::{Digest, Sha256};
use std::alloc::Global;
use std::test::Fail;

const SEED: [u8; 32] = [9; 32];

const IDENTIFIER: [u8; 16] = [0, 1, 2, 3, 4, 5, 6, 7, 8, 9, 10, 11, 12, 13, 14, 15];

const MESSAGE: [u8; 32] = [3; 32];

// Whether a signature with one byte changed, cut to a length, is good.
fn is_good_with(
    public: &[u8; 56],
    signature: &[u8; 2348],
    place: usize,
    flip: u8,
    length: usize,
) -> bool
    requires place { place < 2348 }
    requires length { length ≤ 2348 }
{
    let mut changed = *signature;
    changed[place] ^= flip;
    verify(public, &MESSAGE, &changed[..length])
}

// The last leaf of a tree of height 5 signs; there is none behind it; and nothing else is good. The key and the digest of the
// signature are from an independent computation.
#[test]
fn last_leaf_signs(rt: HostRuntime) -> Result<(), Fail> {
    let tree = Tree::make(rt.alloc(), 5, &IDENTIFIER, &SEED)?;
    let public = tree.public();
    assert_eq!(rt;
        public,
        [
            0, 0, 0, 5, 0, 0, 0, 3, 0, 1, 2, 3, 4, 5, 6, 7, 8, 9, 10, 11, 12, 13, 14, 15, 102, 214,
            49, 166, 150, 190, 239, 26, 239, 37, 146, 154, 230, 104, 108, 76, 148, 168, 146, 27,
            249, 136, 142, 91, 188, 76, 133, 29, 113, 92, 211, 38,
        ]
    );
    let message = MessageId(Id(MESSAGE));
    let mut signature = [0; 2348];
    match tree.leaf(31, message) {
        Ok(leaf) => tree.sign(leaf, &mut signature),
        Err(Spent) => return Err("leaf 31 is spent")?,
    }
    match tree.leaf(32, message) {
        Ok(leaf) => {
            leaf.discard();
            return Err("leaf 32 is not spent")?;
        }
        Err(Spent) => {}
    }
    assert_eq!(rt;
        Sha256::digest(signature.as_slice()),
        [
            150, 31, 106, 109, 225, 17, 160, 168, 153, 85, 202, 153, 241, 110, 3, 4, 109, 24, 133,
            147, 9, 18, 115, 28, 146, 248, 224, 22, 11, 55, 217, 147,
        ]
    );
    assert!(rt; verify(&public, &MESSAGE, &signature));
    assert!(rt; !verify(&public, &SEED, &signature));
    // The last byte; the number; the one-time type; the type; and one byte less.
    assert!(rt; !is_good_with(&public, &signature, 2347, 1, 2348));
    assert!(rt; !is_good_with(&public, &signature, 3, 1, 2348));
    assert!(rt; !is_good_with(&public, &signature, 7, 1, 2348));
    assert!(rt; !is_good_with(&public, &signature, 2187, 1, 2348));
    assert!(rt; !is_good_with(&public, &signature, 0, 0, 2347));
    Ok(())
}

/// The identifier, the seed and the public key of the upper tree in RFC 8554, appendix F, test case 2.
const PUBLISHED_IDENTIFIER: [u8; 16] = [
    0xd0, 0x8f, 0xab, 0xd4, 0xa2, 0x09, 0x1f, 0xf0, 0xa8, 0xcb, 0x4e, 0xd8, 0x34, 0xe7, 0x45, 0x34,
];

const PUBLISHED_SEED: [u8; 32] = [
    0x55, 0x8b, 0x89, 0x66, 0xc4, 0x8a, 0xe9, 0xcb, 0x89, 0x8b, 0x42, 0x3c, 0x83, 0x44, 0x3a, 0xae,
    0x01, 0x4a, 0x72, 0xf1, 0xb1, 0xab, 0x5c, 0xc8, 0x5c, 0xf1, 0xd8, 0x92, 0x90, 0x3b, 0x54, 0x39,
];

const PUBLISHED_KEY: [u8; 56] = [
    0x00, 0x00, 0x00, 0x06, 0x00, 0x00, 0x00, 0x03, 0xd0, 0x8f, 0xab, 0xd4, 0xa2, 0x09, 0x1f, 0xf0,
    0xa8, 0xcb, 0x4e, 0xd8, 0x34, 0xe7, 0x45, 0x34, 0x32, 0xa5, 0x88, 0x85, 0xcd, 0x9b, 0xa0, 0x43,
    0x12, 0x35, 0x46, 0x6b, 0xff, 0x96, 0x51, 0xc6, 0xc9, 0x21, 0x24, 0x40, 0x4d, 0x45, 0xfa, 0x53,
    0xcf, 0x16, 0x1c, 0x28, 0xf1, 0xad, 0x5a, 0x8e,
];

fn key_of_height_ten(
    alloc: Global,
    identifier: &[u8; 16],
    seed: &[u8; 32],
) -> Result<[u8; 56], Memory> {
    Ok(Tree::make(alloc, 10, identifier, seed)?.public())
}

#[test]
fn published_key(rt: HostRuntime) -> Result<(), Fail> {
    let public = key_of_height_ten(rt.alloc(), &PUBLISHED_IDENTIFIER, &PUBLISHED_SEED)?;
    assert_eq!(rt; public, PUBLISHED_KEY);
    Ok(())
}

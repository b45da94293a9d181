// Public keys and signatures, as bytes.

ghost use Rattle.std.specs.Prelude.{◌≡◌, ◌≤◌, ◌<◌, ◌+◌, ◌*◌, ◌/◌, ◌^◌, ◌++◌, ℕ, List, [], length, take, get_or, bit_xor};
ghost use Rattle.std.specs.Int.{w32, to_be_bytes};
ghost use Rattle.lms_ots.specs.OneTime.{joined};
ghost use Rattle.lms_sign.specs.Nodes.{HasNodes, sibling_at};
ghost use Rattle.lms_sign.specs.Signatures.{LmsOk, lms_signature};
ghost use Rattle.lms_sign.specs.Trees.{LmsTree, lms_public, type_of};

use crate::SIGNATURE;
use crate::nodes::{NODE, leaves_in};
use lms_ots::{put, sign_once};

// u32str(otstype).
pub(crate) const ONE_TIME_TYPE: [u8; 4] = [0, 0, 0, 3];

// Where the one-time signature and the type stand in a signature.
pub(crate) const ONE_TIME_PLACE: usize = 4;

pub(crate) const TYPE_PLACE: usize = 2184;

// u32str(type) of a height.
pub(crate) fn type_of(height: u32) -> [u8; 4]
    ensures { result ≡ to_be_bytes w32 (type_of height) }
{
    if height == 5 {
        [0, 0, 0, 5]
    } else {
        [0, 0, 0, 6]
    }
}

// The public key of a tree.
pub(crate) fn public_of(height: u32, identifier: &[u8; 16], nodes: &[[u8; 32]]) -> [u8; 56]
    requires { 1 < length nodes.now }
    ensures { (seed : List ℕ) → HasNodes height identifier.now seed nodes.now
        → result ≡ lms_public (record { height = height; id = identifier.now; seed = seed }) }
{
    let mut public = [0; 56];
    put(&mut public, 0, &type_of(height));
    put(&mut public, 4, &ONE_TIME_TYPE);
    put(&mut public, 8, identifier);
    put(&mut public, 24, &nodes[1]);
    public
}

// Writes a leaf's path: the sibling of the leaf, and of each node above it but the root.
fn write_path(nodes: &[[u8; 32]], number: u32, levels: u32, into: &mut [u8])
    requires count { number < length nodes.now }
    requires pairs { (k : ℕ) → k < length nodes.now → bit_xor k 1 < length nodes.now }
    requires few { levels < 32 }
    requires room { length into.old ≡ 2188 + 32 * levels }
    ensures { into.new ≡ take 2188 into.old ++ joined (sibling_at nodes.now number) levels }
{
    'path: for level in 0..levels {
        let own = number >> level;
        let sibling = own ^ 1;
        put(
            into,
            SIGNATURE + NODE * level as usize,
            &nodes[sibling as usize],
        );
    }
}

// Writes the signature of a message under a leaf of a tree.
pub(crate) fn write_signature(
    height: u32,
    identifier: &[u8; 16],
    seed: &[u8; 32],
    nodes: &[[u8; 32]],
    q: u32,
    message: &[u8; 32],
    into: &mut [u8],
)
    requires nodes { HasNodes height identifier.now seed.now nodes.now }
    requires number { q < 2 ^ height }
    requires room { length into.old ≡ 2188 + 32 * height }
    ensures signature { into.new ≡ lms_signature (record { height = height; id = identifier.now; seed = seed.now }) q message.now }
    ensures verifies { LmsOk (lms_public (record { height = height; id = identifier.now; seed = seed.now })) message.now into.new }
{
    let number = leaves_in(height) + q;
    let mut one_time = [0; lms_ots::SIGNATURE];
    sign_once(identifier, q, seed, message, &mut one_time);
    put(into, 0, &q.to_be_bytes());
    put(into, ONE_TIME_PLACE, &one_time);
    put(into, TYPE_PLACE, &type_of(height));
    write_path(nodes, number, height, into);
}

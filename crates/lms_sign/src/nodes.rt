// The nodes of a tree.

ghost use Rattle.std.specs.Prelude.{◌≡◌, ◌≤◌, ◌<◌, ◌+◌, ◌*◌, ◌^◌, ◌/◌, ℕ, List, [], length, get_or, bit_xor, IfOk};
ghost use Rattle.lms_ots.specs.OneTime.{one_time_public};
ghost use Rattle.lms_sign.specs.Nodes.{AreInner, AreLeaves};
ghost use Rattle.lms_sign.specs.Signatures.{climbed, parent_of};
ghost use Rattle.lms_sign.specs.Trees.{IsHeight, inner_node, leaf_node};

use group_fields::Memory;
use lms_ots::{element_at, prefix, public_value};
use sha2::{Digest, Sha256};
use std::alloc::Global;

// D_LEAF and D_INTR.
const LEAF_WORD: u16 = 0x8282;

const INNER_WORD: u16 = 0x8383;

pub(crate) const NODE: usize = 32;

// The leaves of a tree of this height.
pub(crate) fn leaves_in(height: u32) -> u32
    requires { IsHeight height }
    ensures value { result ≡ 2 ^ height }
    ensures few { result ≤ 1024 }
{
    1 << height
}

// The node of a leaf, by its number and its one-time public key.
#[tactic(auto, unfolding(crate::specs::Trees::leaf_node))]
pub(crate) fn leaf_node(identifier: &[u8; 16], number: u32, key: &[u8; 32]) -> [u8; 32]
    ensures { result ≡ leaf_node identifier.now number key.now }
{
    let mut hasher = Sha256::new();
    hasher.update(prefix(identifier, number, LEAF_WORD));
    hasher.update(key.as_slice());
    hasher.finalize()
}

// The node above two others.
#[tactic(auto, unfolding(crate::specs::Trees::inner_node))]
fn inner_node(identifier: &[u8; 16], number: u32, left: &[u8; 32], right: &[u8; 32]) -> [u8; 32]
    ensures { result ≡ inner_node identifier.now number left.now right.now }
{
    let mut hasher = Sha256::new();
    hasher.update(prefix(identifier, number, INNER_WORD));
    hasher.update(left.as_slice());
    hasher.update(right.as_slice());
    hasher.finalize()
}

// The node above a node and its sibling.
#[tactic(auto, unfolding(crate::specs::Signatures::parent_of))]
fn parent_of(identifier: &[u8; 16], number: u32, own: &[u8; 32], sibling: &[u8; 32]) -> [u8; 32]
    ensures { result ≡ parent_of identifier.now number own.now sibling.now }
{
    if number % 2 == 1 {
        inner_node(identifier, number / 2, sibling, own)
    } else {
        inner_node(identifier, number / 2, own, sibling)
    }
}

// The node so many levels above a leaf, by the path's nodes.
pub(crate) fn climbed(
    identifier: &[u8; 16],
    number: u32,
    leaf: &[u8; 32],
    path: &[u8],
    levels: u32,
) -> [u8; 32]
    requires long { 32 * levels ≤ length path.now }
    requires few { levels < 32 }
    ensures { result ≡ climbed identifier.now number leaf.now path.now levels }
{
    let mut node = *leaf;
    'levels: for level in 0..levels {
        let sibling = element_at(path, NODE * level as usize);
        node = parent_of(identifier, number >> level, &node, &sibling);
    }
    node
}

// Room for so many nodes.
fn room_for(alloc: Global, count: usize) -> Result<Vec<[u8; 32]>, Memory>
    ensures { IfOk result (λ nodes. length nodes.items ≡ count) }
{
    vec![in alloc; [0; NODE]; count]
}

// Fills in the leaves, which are the second half.
fn fill_leaves(nodes: &mut [[u8; 32]], leaves: u32, identifier: &[u8; 16], seed: &[u8; 32])
    requires count { length nodes.old ≡ 2 * leaves }
    requires fits { leaves < 2 ^ 31 }
    ensures { AreLeaves identifier.now seed.now leaves nodes.new }
{
    'leaves: for q in 0..leaves {
        let key = public_value(identifier, q, seed);
        nodes[(leaves + q) as usize] = leaf_node(identifier, leaves + q, &key);
    }
}

// Fills in the nodes above the leaves, from the last one to the root.
fn fill_inner(nodes: &mut [[u8; 32]], leaves: u32, identifier: &[u8; 16])
    requires count { length nodes.old ≡ 2 * leaves }
    requires fits { leaves < 2 ^ 31 }
    ensures leaves { (k : ℕ) → leaves ≤ k → get_or nodes.new k [] ≡ get_or nodes.old k [] }
    ensures inner { AreInner identifier.now leaves 0 nodes.new }
{
    'inner: for done in 1..leaves {
        let number = leaves - done;
        let place = number as usize;
        nodes[place] = inner_node(identifier, number, &nodes[2 * place], &nodes[2 * place + 1]);
    }
}

// All nodes of a tree, each at the place of its number.
pub(crate) fn nodes_of(
    alloc: Global,
    leaves: u32,
    identifier: &[u8; 16],
    seed: &[u8; 32],
) -> Result<Vec<[u8; 32]>, Memory>
    requires { leaves < 2 ^ 31 }
    ensures count { IfOk result (λ nodes. length nodes.items ≡ 2 * leaves) }
    ensures leaves { IfOk result (λ nodes. AreLeaves identifier.now seed.now leaves nodes.items) }
    ensures inner { IfOk result (λ nodes. AreInner identifier.now leaves 0 nodes.items) }
{
    let mut nodes = room_for(alloc, 2 * leaves as usize)?;
    let all = nodes.as_mut_slice();
    fill_leaves(all, leaves, identifier, seed);
    fill_inner(all, leaves, identifier);
    Ok(nodes)
}

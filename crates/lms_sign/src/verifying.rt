// The standard's check.

ghost use Rattle.std.specs.Prelude.{◌≡◌, ◌↔◌, ◌≤◌, ◌<◌, ◌+◌, ◌*◌, ◌^◌, ℕ, length, take, drop, IsTrue, IfSome, IfNone};
ghost use Rattle.std.specs.Int.{w32, to_be_bytes};
ghost use Rattle.lms_ots.specs.OneTime.{element_at};
ghost use Rattle.lms_sign.specs.Signatures.{HasLmsForm, LmsOk, candidate_root, leaf_number};
ghost use Rattle.lms_sign.specs.Trees.{IsHeight, type_of};

use crate::SIGNATURE;
use crate::nodes::{NODE, climbed, leaf_node, leaves_in};
use crate::writing::{ONE_TIME_PLACE, ONE_TIME_TYPE, TYPE_PLACE, type_of};
use lms_ots::{candidate, element_at};

const ROOT_PLACE: usize = 24;

// The height that a public key's type names.
fn height_of(public: &[u8; 56]) -> Option<u32>
    ensures some { IfSome result IsHeight }
    ensures key_type { IfSome result (λ height. take 4 public.now ≡ to_be_bytes w32 (type_of height)) }
    ensures none { IfNone result ((height : ℕ) → take 4 public.now ≡ to_be_bytes w32 (type_of height) → ⊥) }
{
    if public[..4] == [0, 0, 0, 5][..] {
        Some(5)
    } else if public[..4] == [0, 0, 0, 6][..] {
        Some(10)
    } else {
        None
    }
}

// The leaf's number, as a signature states it.
fn leaf_number(signature: &[u8]) -> u32
    requires { 4 ≤ length signature.now }
    ensures { result ≡ leaf_number signature.now }
{
    u32::from_be_bytes([signature[0], signature[1], signature[2], signature[3]])
}

// Whether four bytes stand at a place.
fn stands_at(bytes: &[u8], place: usize, word: &[u8; 4]) -> bool
    requires { place + 4 ≤ length bytes.now }
    ensures { IsTrue result ↔ (take 4 (drop place bytes.now) ≡ word.now) }
{
    bytes[place..place + 4] == word[..]
}

// Whether the types, the length and the number are those that a key of this height asks for.
fn has_form(height: u32, public: &[u8; 56], signature: &[u8]) -> bool
    requires is_height { IsHeight height }
    requires key_type { take 4 public.now ≡ to_be_bytes w32 (type_of height) }
    ensures { IsTrue result ↔ HasLmsForm height public.now signature.now }
{
    if signature.len() != SIGNATURE + NODE * height as usize {
        return false;
    }
    if !stands_at(public, 4, &ONE_TIME_TYPE) {
        return false;
    }
    if !stands_at(signature, ONE_TIME_PLACE, &ONE_TIME_TYPE) {
        return false;
    }
    if !stands_at(signature, TYPE_PLACE, &type_of(height)) {
        return false;
    }
    leaf_number(signature) < leaves_in(height)
}

// The identifier in a public key.
fn identifier_of(public: &[u8; 56]) -> [u8; 16]
    ensures { result ≡ take 16 (drop 8 public.now) }
{
    let mut identifier = [0; 16];
    identifier.copy_from_slice(&public[8..24]);
    identifier
}

// The root that a signature of this form leads to.
fn candidate_root(
    height: u32,
    public: &[u8; 56],
    message: &[u8],
    signature: &[u8],
) -> Option<[u8; 32]>
    requires is_height { IsHeight height }
    requires form { HasLmsForm height public.now signature.now }
    ensures { result ≡ Some (candidate_root height (take 16 (drop 8 public.now)) message.now signature.now) }
{
    let identifier = identifier_of(public);
    let q = leaf_number(signature);
    let number = leaves_in(height) + q;
    let key = candidate(
        &identifier,
        q,
        message,
        &signature[ONE_TIME_PLACE..TYPE_PLACE],
    )?;
    let leaf = leaf_node(&identifier, number, &key);
    Some(climbed(&identifier, number, &leaf, &signature[SIGNATURE..], height))
}

// Whether a signature is good under a key of this height.
fn is_good(height: u32, public: &[u8; 56], message: &[u8], signature: &[u8]) -> bool
    requires is_height { IsHeight height }
    requires key_type { take 4 public.now ≡ to_be_bytes w32 (type_of height) }
    ensures { IsTrue result ↔ LmsOk public.now message.now signature.now }
{
    if !has_form(height, public, signature) {
        return false;
    }
    candidate_root(height, public, message, signature) == Some(element_at(public, ROOT_PLACE))
}

/// Whether a signature of a message is good under a public key, by the check of RFC 8554, section 5.4.2, for the types of this
/// crate: another type in any place, another length and a number that is no leaf's are all refused.
pub fn verify(public: &[u8; 56], message: &[u8], signature: &[u8]) -> bool
    ensures { IsTrue result ↔ LmsOk public.now message.now signature.now }
{
    match height_of(public) {
        Some(height) => is_good(height, public, message, signature),
        None => false,
    }
}

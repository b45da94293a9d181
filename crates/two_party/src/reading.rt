//! Parts that come in.

ghost use Rattle.std.specs.Prelude.{◌≡◌, ◌≤◌, ◌+◌, ◌++◌, Bool, ℕ, take, drop, length, slice_index, Some, IfOk};
ghost use Rattle.std.specs.Prelude.{nat_eq, nat_lt, ◌&&◌};
ghost use Rattle.group_model.specs.Primitives.{Content};
ghost use Rattle.group_model.specs.Pairing.{Part, opened_by};
ghost use Rattle.group_parts.specs.Contents.{content_len, content_read};
ghost use Rattle.group_parts.specs.Parts.{part_len};
ghost use Rattle.group_keys.specs.Primitives.{primitives_of};

use crate::writing::{content_len, part_len};
use group_fields::Memory;
use hkdf_seal::open;
use kem_trait::Kem;
use std::alloc::Global;
use std::marker::Model;

/// What a part opened to: the payload, this side's new pair, the number of the send and the sender's new public key.
/// Contracts see the content, with the secret key in place of the pair.
#[derive(Drop)]
pub(crate) struct Opened<K: Kem> {
    pub(crate) payload: [u8; 32],
    pub(crate) pair: K::Pair,
    pub(crate) number: u32,
    pub(crate) public: Vec<u8>,
}

impl<K: Kem> Model for Opened<K> {
    ghost use Rattle.std.specs.Prelude.{◌≡◌, true};
    ghost use Rattle.group_model.specs.Primitives.{Content};

    ghost Value = { Content };

    ghost view = { λ o. record {
      payload = o.payload;
      secret = K.secret_key o.pair;
      number = o.number;
      public = o.public.items;
    } };

    ghost invariant = { λ o. K.is_public o.public.items ≡ true };
}

/// Whether the number is at least 1 and the bytes are a public key.
fn is_usable<K: Kem>(number: u32, public: &[u8]) -> bool
    requires { length public.now ≡ K.PUBLIC_LEN }
    ensures { result ≡ (nat_lt 0 number && K.is_public public.now) }
{
    number != 0 && K::public_ok(public)
}

/// The bytes from a place on.
pub(crate) fn tail(bytes: &[u8], at: usize) -> &[u8]
    requires { at ≤ length bytes.now }
    ensures { result.now ≡ drop at bytes.now }
{
    &bytes[at..]
}

/// The four bytes at a place.
pub(crate) fn four_at(bytes: &[u8], at: usize) -> [u8; 4]
    requires { at + 4 ≤ length bytes.now }
    ensures { result ≡ take 4 (drop at bytes.now) }
{
    *tail(bytes, at).first_chunk::<4>().unwrap()
}

/// Whether the bytes have the length of a part, and an origin of 0 or 1.
pub(crate) fn is_part<K: Kem>(bytes: &[u8]) -> bool
    ensures { result ≡ (nat_eq (length bytes.now) (part_len ⟦<K as Kem>⟧) && nat_lt (slice_index bytes.now 0) 2) }
{
    bytes.len() == part_len::<K>() && bytes[0] < 2
}

/// Whether the bytes have the length of a content.
fn has_content_len<K: Kem>(bytes: &[u8]) -> bool
    ensures { result ≡ nat_eq (length bytes.now) (content_len ⟦<K as Kem>⟧) }
{
    bytes.len() == content_len::<K>()
}

/// Reads a content. `None` exactly where the bytes spell none: another length, a secret key of no tested pair, a number
/// of 0, or a public key that is none.
#[tactic(auto, unfolding(group_parts::specs::Contents::content_read))]
fn read_content<K: Kem>(alloc: Global, bytes: &[u8]) -> Result<Option<Opened<K>>, Memory>
    ensures { IfOk result (λ answer. answer ≡ content_read ⟦<K as Kem>⟧ bytes.now) }
{
    if !has_content_len::<K>(bytes) {
        return Ok(None);
    }
    let payload = *bytes.first_chunk::<32>().unwrap();
    let secret = &bytes[32..32 + K::SECRET_LEN];
    let Some(pair) = K::pair_from_secret(alloc, secret)? else {
        return Ok(None);
    };
    let at = 32 + K::SECRET_LEN;
    let number = u32::from_be_bytes(four_at(bytes, at));
    let key = tail(bytes, at + 4);
    if !is_usable::<K>(number, key) {
        return Ok(None);
    }
    let mut public = Vec::new(alloc);
    public.extend_from_slice(key)?;
    Ok(Some(Opened {
        payload,
        pair,
        number,
        public,
    }))
}

/// A sealed text and the tag of 32 bytes behind it.
fn split_tag(sealed: &[u8]) -> (&[u8], &[u8; 32])
    requires { 32 ≤ length sealed.now }
    ensures parts { sealed.now ≡ result.0.now ++ result.1.now }
    ensures tag { length result.1.now ≡ 32 }
{
    sealed.split_last_chunk::<32>().unwrap()
}

/// What a ciphertext and a sealed text open to by a pair. `None` exactly where they open to nothing.
#[tactic(auto, unfolding(group_keys::specs::Primitives::primitives_of))]
pub(crate) fn open_by<K: Kem>(
    alloc: Global,
    pair: &K::Pair,
    ciphertext: &[u8],
    sealed: &[u8],
) -> Result<Option<Opened<K>>, Memory>
    requires ciphertext { length ciphertext.now ≡ K.CIPHER_LEN }
    requires sealed { 32 ≤ length sealed.now }
    ensures { (b : Bool) (n : ℕ) → IfOk result (λ answer. answer
        ≡ opened_by (primitives_of ⟦<K as Kem>⟧) (Some (K.secret_key pair.now)) (record {
          made_by_sender = b;
          number = n;
          ciphertext = ciphertext.now;
          sealed = sealed.now;
        })) }
{
    let Some(key) = K::decap(pair, ciphertext) else {
        return Ok(None);
    };
    let (body, tag) = split_tag(sealed);
    let mut text = Vec::new(alloc);
    text.extend_from_slice(body)?;
    if open(&key, text.as_mut_slice(), tag).is_none() {
        return Ok(None);
    }
    read_content::<K>(alloc, text.as_slice())
}

//! The bytes of parts, each written in its place.

ghost use Rattle.std.specs.Prelude.{◌≡◌, ◌<◌, ◌^◌, ◌++◌, ◌∷◌, length, true, Some, IfOk};
ghost use Rattle.std.specs.Int.{w32, to_be_bytes};
ghost use Rattle.hkdf_seal.specs.Sealing.{sealed_with_tag};
ghost use Rattle.group_parts.specs.Contents.{content_len};
ghost use Rattle.group_parts.specs.KeyPairs.{encapsulation};
ghost use Rattle.group_parts.specs.Parts.{origin_of, part_len, sealed_len};

use group_fields::Memory;
use hkdf_seal::seal;
use kem_trait::{Kem, SeedWords, has_set_lengths};
use std::alloc::Global;

/// How many bytes a content has: the payload, a secret key, a number and a public key.
pub(crate) fn content_len<K: Kem>() -> usize
    ensures exact { result ≡ content_len ⟦<K as Kem>⟧ }
{
    has_set_lengths::<K>();
    32 + K::SECRET_LEN + 4 + K::PUBLIC_LEN
}

/// How many bytes a part has.
pub(crate) fn part_len<K: Kem>() -> usize
    ensures exact { result ≡ part_len ⟦<K as Kem>⟧ }
{
    has_set_lengths::<K>();
    5 + K::CIPHER_LEN + content_len::<K>() + 32
}

/// The secret key of a pair, in memory of its own.
pub(crate) fn secret_bytes<K: Kem>(alloc: Global, pair: &K::Pair) -> Result<Vec<u8>, Memory>
    ensures { IfOk result (λ bytes. bytes.items ≡ K.secret_key pair.now) }
{
    let mut bytes = vec![in alloc; 0; K::SECRET_LEN]?;
    K::secret(pair, bytes.as_mut_slice());
    Ok(bytes)
}

/// Writes which key a part is sealed to: its origin and its number.
pub(crate) fn write_target(made_by_sender: bool, number: u32, into: &mut [u8])
    requires { length into.old ≡ 5 }
    ensures { into.new ≡ origin_of made_by_sender ∷ to_be_bytes w32 number }
{
    let (origin, rest) = into.split_at_mut(1);
    origin[0] = made_by_sender as u8;
    rest.copy_from_slice(&number.to_be_bytes());
}

/// Writes a content: the payload, the receiver's new secret key, the number of the send and the sender's new public
/// key.
fn write_content<K: Kem>(
    payload: &[u8; 32],
    other: &K::Pair,
    number: u32,
    own: &K::Pair,
    into: &mut [u8],
)
    requires { length into.old ≡ content_len ⟦<K as Kem>⟧ }
    ensures { into.new ≡ payload.now
        ++ (K.secret_key other.now ++ (to_be_bytes w32 number ++ K.public_in (K.secret_key own.now))) }
{
    let (first, rest) = into.split_at_mut(32);
    let (secret, rest) = rest.split_at_mut(K::SECRET_LEN);
    let (digits, public) = rest.split_at_mut(4);
    first.copy_from_slice(payload);
    K::secret(other, secret);
    digits.copy_from_slice(&number.to_be_bytes());
    K::public(own, public);
}

/// Writes a content, sealed under a key, and its tag.
#[tactic(auto, unfolding(hkdf_seal::specs::Sealing::sealed_with_tag))]
pub(crate) fn write_sealed<K: Kem>(
    key: &[u8; 32],
    payload: &[u8; 32],
    other: &K::Pair,
    number: u32,
    own: &K::Pair,
    into: &mut [u8],
)
    requires { length into.old ≡ sealed_len ⟦<K as Kem>⟧ }
    ensures { into.new ≡ sealed_with_tag key.now (payload.now
        ++ (K.secret_key other.now ++ (to_be_bytes w32 number ++ K.public_in (K.secret_key own.now)))) }
{
    let (content, tag) = into.split_at_mut(content_len::<K>());
    write_content::<K>(payload, other, number, own, content);
    tag.copy_from_slice(&seal(key, content));
}

/// Encapsulates to a public key by the words of a seed.
#[tactic(auto, unfolding(group_parts::specs::KeyPairs::encapsulation))]
pub(crate) fn encapsulate<K: Kem>(public: &[u8], seed: &[u8; 32], ciphertext: &mut [u8]) -> [u8; 32]
    requires public_ok { K.is_public public.now ≡ true }
    requires room { length ciphertext.old ≡ K.CIPHER_LEN }
    ensures { encapsulation ⟦<K as Kem>⟧ public.now seed.now
        ≡ Some (record { key = result; ciphertext = ciphertext.new }) }
{
    let mut words = SeedWords::new(seed);
    K::encap(public, &mut words, ciphertext)
}

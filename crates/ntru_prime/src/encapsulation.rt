// Encapsulation and decapsulation.

ghost use Rattle.std.specs.Prelude.{◌≡◌, ℕ, true, List, ℤ, Some, length, All, ◌++◌, map, unsigned_abs};
ghost use Rattle.std.specs.List.{count_by};
ghost use Rattle.ring_poly.specs.Ring.{IsCentred};
ghost use Rattle.ntru_codec.specs.Small.{IsSmall, small_encoding};
ghost use Rattle.kem_trait.specs.Streams.{behind};
ghost use Rattle.ntru_model.specs.Parameters.{cipher_len};
ghost use Rattle.ntru_model.specs.Residues.{nearest_triple, product_mod};
ghost use Rattle.ntru_model.specs.Encodings.{rounded_encoding};
ghost use Rattle.ntru_model.specs.Pairs.{hash, public_key};
ghost use Rattle.ntru_model.specs.Encapsulation.{answer, decapsulated_by, encapsulated, r_found, r_of};
ghost use Rattle.ntru_prime.specs.Sets.{IsSet, set_of, pair_with};
ghost use Rattle.ntru_prime.specs.Keys.{is_public};

use crate::blanks::{blank, blank_cipher};
use crate::draws::draw_short;
use crate::encodings::{public_len, read_public, read_rounded, write_rounded};
use crate::hashes::{hash, hash_both, hash_of_small};
use crate::pair::TestedPair;
use crate::parts::{part, tail};
use crate::products::{keep_short, modulo_three, triple_product};
use kem_trait::Words;
use ring_poly::{mul_3, mul_q, round_to_three};

/// Writes the ciphertext of r: h r, rounded, and a hash.
fn write_cipher<const P: usize, const Q: i32, const W: usize>(
    h: &[i16],
    r: &[i16],
    confirm: &[u8; 32],
    into: &mut [u8],
)
    requires set { IsSet P Q W }
    requires h_len { length h.now ≡ P }
    requires h_centred { All (IsCentred Q) h.now }
    requires r_len { length r.now ≡ P }
    requires r_small { All IsSmall r.now }
    requires room { length into.old ≡ cipher_len (set_of P Q W) }
    ensures { into.new ≡ rounded_encoding (set_of P Q W) (map nearest_triple (product_mod P (unsigned_abs Q) h.now r.now)) ++ confirm.now }
{
    let mut product = blank::<P>();
    mul_q::<P, Q>(h, r, &mut product);
    round_to_three::<Q>(&mut product);
    let len = into.len() - 32;
    let (core, rest) = into.split_at_mut(len);
    write_rounded::<P, Q, W>(&product, core);
    rest.copy_from_slice(confirm);
}

/// Writes a ciphertext to a public key, and answers the key in it.
pub(crate) fn encap<const P: usize, const Q: i32, const W: usize, V: Words>(
    public: &[u8],
    words: &mut V,
    cipher: &mut [u8],
) -> [u8; 32]
    requires set { IsSet P Q W }
    requires public_ok { is_public (set_of P Q W) public.now ≡ true }
    requires room { length cipher.old ≡ cipher_len (set_of P Q W) }
    ensures given { encapsulated (set_of P Q W) public.now (V.upcoming words.old)
        ≡ Some (record { cipher = cipher.new; key = result }) }
    ensures left { V.upcoming words.new ≡ behind P (V.upcoming words.old) }
{
    let mut h = blank::<P>();
    if read_public::<P, Q, W>(public, &mut h).is_none() {
        unreachable!();
    }
    let mut r = blank::<P>();
    draw_short::<P, W, V>(words, &mut r);
    let digest = hash_of_small(&r);
    let confirm = hash_both(2, &digest, &hash(4, public));
    write_cipher::<P, Q, W>(&h, &r, &confirm, cipher);
    hash_both(1, &digest, cipher)
}

/// Finds r from the polynomial of a ciphertext.
fn find_r<const P: usize, const Q: i32, const W: usize>(
    pair: &TestedPair<P>,
    core: &[i16],
    r: &mut [i16],
)
    requires set { IsSet P Q W }
    requires core_len { length core.now ≡ P }
    requires centred { All (IsCentred Q) core.now }
    requires room { length r.old ≡ P }
    ensures small { All IsSmall r.new }
    ensures found { r.new ≡ r_of (set_of P Q W) (r_found (set_of P Q W) (pair_with (set_of P Q W) pair.now.f pair.now.g_inverse pair.now.h pair.now.secret.items) core.now) }
{
    let mut product = blank::<P>();
    triple_product::<P, Q, W>(pair.f.as_slice(), core, &mut product);
    let mut rest = blank::<P>();
    modulo_three(&product, &mut rest);
    mul_3::<P>(&rest, pair.g_inverse.as_slice(), r);
    keep_short(W, r);
}

/// The key in a ciphertext, or the refused key where it is that of no r. None where its polynomial is not spelled.
pub(crate) fn decap<const P: usize, const Q: i32, const W: usize>(
    pair: &TestedPair<P>,
    cipher: &[u8],
) -> Option<[u8; 32]>
    requires set { IsSet P Q W }
    requires len { length cipher.now ≡ cipher_len (set_of P Q W) }
    ensures { result ≡ decapsulated_by (set_of P Q W) pair.now.secret.items cipher.now }
{
    let mut core = blank::<P>();
    if read_rounded::<P, Q, W>(&cipher[..cipher.len() - 32], &mut core).is_none() {
        return None;
    }
    let mut r = blank::<P>();
    find_r::<P, Q, W>(pair, &core, &mut r);
    Some(key_of::<P, Q, W>(pair, &r, cipher))
}

/// The key of r where the ciphertext is that of r, else the refused key.
fn key_of<const P: usize, const Q: i32, const W: usize>(
    pair: &TestedPair<P>,
    r: &[i16],
    cipher: &[u8],
) -> [u8; 32]
    requires set { IsSet P Q W }
    requires r_len { length r.now ≡ P }
    requires r_small { All IsSmall r.now }
    requires len { length cipher.now ≡ cipher_len (set_of P Q W) }
    ensures { result ≡ answer (set_of P Q W) (pair_with (set_of P Q W) pair.now.f pair.now.g_inverse pair.now.h pair.now.secret.items) cipher.now r.now }
{
    let digest = hash_of_small(r);
    let confirm = hash_both(2, &digest, cache_of::<P, Q, W>(pair));
    let mut room = blank_cipher();
    let again = &mut room[..cipher.len()];
    write_cipher::<P, Q, W>(pair.h.as_slice(), r, &confirm, again);
    if *again == *cipher {
        hash_both(1, &digest, cipher)
    } else {
        hash_both(0, &hash(3, rho_of::<P, Q, W>(pair)), cipher)
    }
}

/// The hash of the public key.
fn cache_of<const P: usize, const Q: i32, const W: usize>(pair: &TestedPair<P>) -> &[u8]
    requires { IsSet P Q W }
    ensures { result.now ≡ hash 4 (public_key (set_of P Q W) (pair_with (set_of P Q W) pair.now.f pair.now.g_inverse pair.now.h pair.now.secret.items)) }
{
    let at = 3 * (P / 4 + 1) + public_len::<P, Q, W>();
    tail(pair.secret.as_slice(), at)
}

/// What enters refused keys.
fn rho_of<const P: usize, const Q: i32, const W: usize>(pair: &TestedPair<P>) -> &[u8]
    requires { IsSet P Q W }
    ensures { result.now ≡ (pair_with (set_of P Q W) pair.now.f pair.now.g_inverse pair.now.h pair.now.secret.items).rho }
{
    let small = P / 4 + 1;
    let at = 2 * small + public_len::<P, Q, W>();
    part(pair.secret.as_slice(), at, small)
}

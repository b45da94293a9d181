// Pairs made from words.

ghost use Rattle.std.specs.Prelude.{◌≡◌, ℕ, ◌≤◌, ◌<◌, List, ℤ, Some, None, length, All, IfOk, OnOk, IsErrOf, pos};
ghost use Rattle.std.specs.Prelude.{unsigned_abs};
ghost use Rattle.std.specs.Option.{option_map};
ghost use Rattle.ring_poly.specs.Ring.{IsCentred};
ghost use Rattle.ring_laws.specs.Laws.{multiple_of};
ghost use Rattle.ntru_codec.specs.Small.{IsSmall};
ghost use Rattle.ntru_model.specs.Parameters.{secret_len, small_len};
ghost use Rattle.ntru_model.specs.Residues.{inverse_mod};
ghost use Rattle.kem_trait.specs.Streams.{behind};
ghost use Rattle.ntru_model.specs.Draws.{first_invertible, words_tried, short_draw, small_draw, bytes_draw};
ghost use Rattle.ntru_model.specs.Pairs.{pair_drawn, pair_words, secret_key};
ghost use Rattle.ntru_prime.specs.Sets.{IsSet, set_of};
ghost use Rattle.ntru_prime.specs.Keys.{made};

use crate::blanks::{blank, blank_bytes, zero_bytes, zero_coefficients};
use crate::draws::{draw_bytes, draw_short, draw_small};
use crate::encodings::{public_len, write_public};
use crate::hashes::hash;
use crate::pair::TestedPair;
use crate::products::triple;
use kem_trait::{KemRefusal, Words};
use ntru_codec::encode_small;
use ring_poly::mul_q;
use ring_solve::{Poly, Solved, inverse};
use std::alloc::{AllocError, Global};

/// How often a polynomial is drawn at most.
const TRIES: usize = 16;

/// Draws small polynomials until one has an inverse modulo 3, and answers the inverse.
fn usable_small<const P: usize, V: Words>(
    alloc: Global,
    words: &mut V,
    g: &mut [i16],
) -> Result<Option<Poly>, AllocError>
    requires size { (1 < P) × (P ≤ 761) }
    requires room { length g.old ≡ P }
    ensures found { IfOk result (λ answer. first_invertible P 16 (small_draw P) (inverse_mod P 3) (V.upcoming words.old)
        ≡ option_map (λ b. record { drawn = g.new; inverse = b; left = V.upcoming words.new }) answer) }
    ensures left { OnOk result (V.upcoming words.new
        ≡ behind (words_tried P 16 (small_draw P) (inverse_mod P 3) (V.upcoming words.old)) (V.upcoming words.old)) }
{
    for i in 0..TRIES {
        draw_small::<P, V>(words, g);
        match inverse::<P, 3>(alloc, g)? {
            Solved::Inverse(found) => return Ok(Some(found)),
            Solved::Kernel(_) => {}
        }
    }
    Ok(None)
}

/// The inverse modulo Q of three times a small polynomial, where there is one.
fn inverse_of_triple<const P: usize, const Q: i32, const W: usize>(
    alloc: Global,
    f: &[i16],
) -> Result<Option<Poly>, AllocError>
    requires set { IsSet P Q W }
    requires len { length f.now ≡ P }
    requires small { All IsSmall f.now }
    ensures { IfOk result (λ answer. inverse_mod P (unsigned_abs Q) (multiple_of (pos 3) f.now) ≡ answer) }
{
    let mut tripled = blank::<P>();
    triple(f, &mut tripled);
    match inverse::<P, Q>(alloc, &tripled)? {
        Solved::Inverse(found) => Ok(Some(found)),
        Solved::Kernel(_) => Ok(None),
    }
}

/// Draws short polynomials until three times one has an inverse modulo Q, and answers the inverse.
fn usable_short<const P: usize, const Q: i32, const W: usize, V: Words>(
    alloc: Global,
    words: &mut V,
    f: &mut [i16],
) -> Result<Option<Poly>, AllocError>
    requires set { IsSet P Q W }
    requires room { length f.old ≡ P }
    ensures found { IfOk result (λ answer. first_invertible P 16 (short_draw P W)
        (λ a. inverse_mod P (unsigned_abs Q) (multiple_of (pos 3) a)) (V.upcoming words.old)
        ≡ option_map (λ b. record { drawn = f.new; inverse = b; left = V.upcoming words.new }) answer) }
    ensures left { OnOk result (V.upcoming words.new ≡ behind (words_tried P 16 (short_draw P W)
        (λ a. inverse_mod P (unsigned_abs Q) (multiple_of (pos 3) a)) (V.upcoming words.old)) (V.upcoming words.old)) }
{
    for i in 0..TRIES {
        draw_short::<P, W, V>(words, f);
        match inverse_of_triple::<P, Q, W>(alloc, f)? {
            Some(found) => return Ok(Some(found)),
            None => {}
        }
    }
    Ok(None)
}

/// Writes a secret key.
pub(crate) fn write_secret<const P: usize, const Q: i32, const W: usize>(
    f: &[i16],
    g_inverse: &[i16],
    h: &[i16],
    rho: &[u8],
    into: &mut [u8],
)
    requires set { IsSet P Q W }
    requires f_len { length f.now ≡ P }
    requires f_small { All IsSmall f.now }
    requires g_len { length g_inverse.now ≡ P }
    requires g_small { All IsSmall g_inverse.now }
    requires h_len { length h.now ≡ P }
    requires h_centred { All (IsCentred Q) h.now }
    requires rho_len { length rho.now ≡ small_len (set_of P Q W) }
    requires room { length into.old ≡ secret_len (set_of P Q W) }
    ensures { into.new ≡ secret_key (set_of P Q W) (record { f = f.now; g_inverse = g_inverse.now; h = h.now; rho = rho.now }) }
{
    let small = P / 4 + 1;
    let (f_part, rest) = into.split_at_mut(small);
    let (g_part, rest) = rest.split_at_mut(small);
    let (h_part, rest) = rest.split_at_mut(public_len::<P, Q, W>());
    let (rho_part, cache) = rest.split_at_mut(small);
    encode_small(f, f_part);
    encode_small(g_inverse, g_part);
    write_public::<P, Q, W>(h, h_part);
    rho_part.copy_from_slice(rho);
    cache.copy_from_slice(&hash(4, h_part));
}

/// A secret key in memory of its own.
pub(crate) fn spelled<const P: usize, const Q: i32, const W: usize>(
    alloc: Global,
    f: &[i16],
    g_inverse: &[i16],
    h: &[i16],
    rho: &[u8],
) -> Result<Vec<u8>, AllocError>
    requires set { IsSet P Q W }
    requires f_len { length f.now ≡ P }
    requires f_small { All IsSmall f.now }
    requires g_len { length g_inverse.now ≡ P }
    requires g_small { All IsSmall g_inverse.now }
    requires h_len { length h.now ≡ P }
    requires h_centred { All (IsCentred Q) h.now }
    requires rho_len { length rho.now ≡ small_len (set_of P Q W) }
    ensures { IfOk result (λ secret. secret.items ≡ secret_key (set_of P Q W) (record { f = f.now; g_inverse = g_inverse.now; h = h.now; rho = rho.now })) }
{
    let len = 3 * (P / 4 + 1) + public_len::<P, Q, W>() + 32;
    let mut secret = zero_bytes(alloc, len)?;
    write_secret::<P, Q, W>(f, g_inverse, h, rho, secret.as_mut_slice());
    Ok(secret)
}

/// Makes a pair: small g until it has an inverse modulo 3, short f until 3 f has one modulo Q, and rho.
pub(crate) fn make<const P: usize, const Q: i32, const W: usize, V: Words>(
    alloc: Global,
    words: &mut V,
) -> Result<TestedPair<P>, KemRefusal>
    requires set { IsSet P Q W }
    ensures pair { IfOk result (λ pair. made (set_of P Q W) (V.upcoming words.old) ≡ Some pair.secret.items) }
    ensures unusable { IsErrOf result KemRefusal.NoUsableKey → made (set_of P Q W) (V.upcoming words.old) ≡ None }
    ensures left { OnOk result (V.upcoming words.new
        ≡ behind (pair_words (set_of P Q W) (V.upcoming words.old)) (V.upcoming words.old)) }
    ensures unusable_left { IsErrOf result KemRefusal.NoUsableKey → V.upcoming words.new
        ≡ behind (pair_words (set_of P Q W) (V.upcoming words.old)) (V.upcoming words.old) }
{
    let mut g = blank::<P>();
    let g_inverse = match usable_small::<P, V>(alloc, words, &mut g)? {
        Some(found) => found,
        None => return Err(KemRefusal::NoUsableKey),
    };
    let mut f = zero_coefficients(alloc, P)?;
    let f_inverse = match usable_short::<P, Q, W, V>(alloc, words, f.as_mut_slice())? {
        Some(found) => found,
        None => return Err(KemRefusal::NoUsableKey),
    };
    let mut h = zero_coefficients(alloc, P)?;
    mul_q::<P, Q>(&g, f_inverse.as_slice(), h.as_mut_slice());
    let mut rho = blank_bytes();
    let rho = &mut rho[..P / 4 + 1];
    draw_bytes(words, rho);
    let secret = spelled::<P, Q, W>(alloc, f.as_slice(), g_inverse.as_slice(), h.as_slice(), rho)?;
    Ok(TestedPair {
        f: Poly::from_vec(f),
        g_inverse,
        h: Poly::from_vec(h),
        secret,
    })
}

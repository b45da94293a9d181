// Pairs read from secret keys.

ghost use Rattle.std.specs.Prelude.{◌≡◌, ℕ, ◌↔◌, true, List, ℤ, Some, None, length, All, IfOk, IfSome, IsSome, OnSome, take, drop, ◌+◌};
ghost use Rattle.std.specs.Option.{option_map};
ghost use Rattle.ring_poly.specs.Ring.{IsCentred};
ghost use Rattle.ntru_codec.specs.Small.{IsSmall};
ghost use Rattle.ntru_model.specs.Parameters.{public_len, secret_len, small_len};
ghost use Rattle.ntru_model.specs.Pairs.{fields_read, is_tested};
ghost use Rattle.ntru_prime.specs.Sets.{IsSet, set_of, pair_with};
ghost use Rattle.ntru_prime.specs.Keys.{is_secret, public_in};

use crate::blanks::{blank, zero_coefficients};
use crate::encodings::{public_len, read_public};
use crate::making::spelled;
use crate::pair::TestedPair;
use crate::parts::part;
use crate::products::{is_one, is_small, triple_product, weight};
use ntru_codec::decode_small;
use ring_poly::mul_3;
use ring_solve::Poly;
use std::alloc::{AllocError, Global};

/// Reads the polynomials of a secret key. None where one of them is not spelled.
fn read_fields<const P: usize, const Q: i32, const W: usize>(
    secret: &[u8],
    f: &mut [i16],
    g_inverse: &mut [i16],
    h: &mut [i16],
) -> Option<()>
    requires set { IsSet P Q W }
    requires len { length secret.now ≡ secret_len (set_of P Q W) }
    requires f_len { length f.old ≡ P }
    requires g_len { length g_inverse.old ≡ P }
    requires h_len { length h.old ≡ P }
    ensures fields { option_map (λ _. pair_with (set_of P Q W) f.new g_inverse.new h.new secret.now) result ≡ fields_read (set_of P Q W) secret.now }
    ensures f_small { OnSome result (All IsSmall f.new) }
    ensures g_small { OnSome result (All IsSmall g_inverse.new) }
    ensures h_centred { OnSome result (All (IsCentred Q) h.new) }
{
    let small = P / 4 + 1;
    let public = public_len::<P, Q, W>();
    if decode_small(part(secret, 0, small), f).is_none() {
        return None;
    }
    if decode_small(part(secret, small, small), g_inverse).is_none() {
        return None;
    }
    if read_public::<P, Q, W>(part(secret, 2 * small, public), h).is_none() {
        return None;
    }
    Some(())
}

/// Whether f has weight W, 3 f h is small, and its product with g_inverse is 1 modulo 3.
fn is_tested<const P: usize, const Q: i32, const W: usize>(
    f: &[i16],
    g_inverse: &[i16],
    h: &[i16],
) -> bool
    requires set { IsSet P Q W }
    requires f_len { length f.now ≡ P }
    requires f_small { All IsSmall f.now }
    requires g_len { length g_inverse.now ≡ P }
    requires g_small { All IsSmall g_inverse.now }
    requires h_len { length h.now ≡ P }
    requires h_centred { All (IsCentred Q) h.now }
    ensures { (rho : List ℕ) → result ≡ is_tested (set_of P Q W) (record { f = f.now; g_inverse = g_inverse.now; h = h.now; rho = rho }) }
{
    if weight(f) != W {
        return false;
    }
    let mut g = blank::<P>();
    triple_product::<P, Q, W>(f, h, &mut g);
    if !is_small(&g) {
        return false;
    }
    let mut product = blank::<P>();
    mul_3::<P>(&g, g_inverse, &mut product);
    is_one::<P>(&product)
}

/// The pair with this secret key. None where the bytes are that of no tested pair.
pub(crate) fn from_secret<const P: usize, const Q: i32, const W: usize>(
    alloc: Global,
    secret: &[u8],
) -> Result<Option<TestedPair<P>>, AllocError>
    requires set { IsSet P Q W }
    requires len { length secret.now ≡ secret_len (set_of P Q W) }
    ensures tested { IfOk result (λ answer. IsSome answer ↔ (is_secret (set_of P Q W) secret.now ≡ true)) }
    ensures same { IfOk result (λ answer. IfSome answer (λ pair. pair.secret.items ≡ secret.now)) }
{
    let mut f = zero_coefficients(alloc, P)?;
    let mut g_inverse = zero_coefficients(alloc, P)?;
    let mut h = zero_coefficients(alloc, P)?;
    let spells = read_fields::<P, Q, W>(
        secret,
        f.as_mut_slice(),
        g_inverse.as_mut_slice(),
        h.as_mut_slice(),
    );
    if spells.is_none() {
        return Ok(None);
    }
    let small = P / 4 + 1;
    let at = 2 * small + public_len::<P, Q, W>();
    let again = spelled::<P, Q, W>(
        alloc,
        f.as_slice(),
        g_inverse.as_slice(),
        h.as_slice(),
        part(secret, at, small),
    )?;
    if !is_tested::<P, Q, W>(f.as_slice(), g_inverse.as_slice(), h.as_slice()) {
        return Ok(None);
    }
    if *again.as_slice() != *secret {
        return Ok(None);
    }
    Ok(Some(TestedPair {
        f: Poly::from_vec(f),
        g_inverse: Poly::from_vec(g_inverse),
        h: Poly::from_vec(h),
        secret: again,
    }))
}

/// Copies the public key out of a pair.
pub(crate) fn copy_public<const P: usize, const Q: i32, const W: usize>(
    pair: &TestedPair<P>,
    into: &mut [u8],
)
    requires set { IsSet P Q W }
    requires room { length into.old ≡ public_len (set_of P Q W) }
    ensures { into.new ≡ public_in (set_of P Q W) pair.now.secret.items }
{
    let at = 2 * (P / 4 + 1);
    into.copy_from_slice(part(pair.secret.as_slice(), at, into.len()));
}

// Products in the ring, and tests of polynomials.

ghost use Rattle.std.specs.Prelude.{◌≡◌, ◌≤◌, ◌<◌, ◌-◌, ◌++◌, ◌*ℤ◌, ℕ, List, ℤ, length, map, replicate, All, pos, Bool, nat_eq, if◌then◌else◌, unsigned_abs, take, drop};
ghost use Rattle.std.specs.List.{count_by, list_all};
ghost use Rattle.std.specs.Ordering.{int_eq};
ghost use Rattle.std.specs.Cmp.Lexicographic.{pointwise};
ghost use Rattle.ring_poly.specs.Ring.{IsCentred};
ghost use Rattle.ring_solve.specs.Fields.{one};
ghost use Rattle.ring_laws.specs.Laws.{is_nonzero, multiple_of};
ghost use Rattle.ntru_codec.specs.Small.{IsSmall};
ghost use Rattle.ntru_model.specs.Residues.{centred, product_mod};
ghost use Rattle.ntru_model.specs.Pairs.{is_small_number};
ghost use Rattle.ntru_prime.specs.Sets.{IsSet};

use crate::blanks::blank;
use ring_poly::{center, mul_q};

fn three_times(a: i16) -> i16
    requires { IsSmall a }
    ensures { result ≡ pos 3 *ℤ a }
{
    3 * a
}

/// Three times a small polynomial.
pub(crate) fn triple(a: &[i16], into: &mut [i16])
    requires same { length a.now ≡ length into.old }
    requires small { All IsSmall a.now }
    ensures { into.new ≡ multiple_of (pos 3) a.now }
{
    for i in 0..a.len() {
        into[i] = three_times(a[i]);
    }
}

/// Three times a small polynomial, times another, modulo Q.
pub(crate) fn triple_product<const P: usize, const Q: i32, const W: usize>(
    f: &[i16],
    a: &[i16],
    into: &mut [i16],
)
    requires set { IsSet P Q W }
    requires f_len { length f.now ≡ P }
    requires small { All IsSmall f.now }
    requires a_len { length a.now ≡ P }
    requires centred { All (IsCentred Q) a.now }
    requires room { length into.old ≡ P }
    ensures { into.new ≡ product_mod P (unsigned_abs Q) (multiple_of (pos 3) f.now) a.now }
{
    let mut tripled = blank::<P>();
    triple(f, &mut tripled);
    mul_q::<P, Q>(&tripled, a, into)
}

/// The centred number modulo 3.
fn centre(a: i16) -> i16
    ensures exact { result ≡ centred 3 a }
    ensures centred { IsCentred (pos 3) result }
{
    center::<3>(i32::from(a))
}

/// Takes each number to the centred one modulo 3.
pub(crate) fn modulo_three(a: &[i16], into: &mut [i16])
    requires { length a.now ≡ length into.old }
    ensures { into.new ≡ map (centred 3) a.now }
{
    for i in 0..a.len() {
        into[i] = centre(a[i]);
    }
}

/// How many coefficients aren't 0.
pub(crate) fn weight(a: &[i16]) -> usize
    ensures { result ≡ count_by is_nonzero a.now }
{
    a.iter().filter(|c| **c != 0).count()
}

/// Whether each coefficient is -1, 0 or 1.
pub(crate) fn is_small(a: &[i16]) -> bool
    ensures { result ≡ list_all is_small_number a.now }
{
    a.iter().all(|c| *c == 0 || *c == 1 || *c == -1)
}

/// The polynomial 1.
fn one<const P: usize>() -> [i16; P]
    requires { (1 < P) × (P ≤ 761) }
    ensures { result ≡ one P }
{
    let mut one = [0; P];
    one[0] = 1;
    one
}

/// Whether the polynomial is 1.
pub(crate) fn is_one<const P: usize>(a: &[i16; P]) -> bool
    requires { (1 < P) × (P ≤ 761) }
    ensures { result ≡ pointwise int_eq a.now (one P) }
{
    *a == one::<P>()
}

/// Puts w ones and then zeros in the place of a polynomial.
fn put_ones(w: usize, into: &mut [i16])
    requires { w ≤ length into.old }
    ensures { into.new ≡ replicate w (pos 1) ++ replicate (length into.old - w) (pos 0) }
{
    let (ones, zeros) = into.split_at_mut(w);
    ones.fill(1);
    zeros.fill(0);
}

/// Puts w ones and then zeros in the place of a polynomial that hasn't w coefficients other than 0.
pub(crate) fn keep_short(w: usize, r: &mut [i16])
    requires { w ≤ length r.old }
    ensures { r.new ≡ (if nat_eq (count_by is_nonzero r.old) w then r.old else replicate w (pos 1) ++ replicate (length r.old - w) (pos 0)) }
{
    if weight(r) != w {
        put_ones(w, r)
    }
}

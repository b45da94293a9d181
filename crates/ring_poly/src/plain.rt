//! The product by its definition, slow, to compare the fast bodies with.

ghost use Rattle.std.specs.Prelude.{◌≡◌, ℕ, ◌+◌, ◌-◌, ◌<◌, ◌≤◌, length, pos};
ghost use Rattle.ring_poly.specs.Ring.{coefficient, convolution, product, reduced, IsWithin};

/// The coefficient of `b` that coefficient `i` of the other factor meets in coefficient `k` of the product in Z[x].
fn met(b: &[i16], k: usize, i: usize) -> i16
    ensures low { i ≤ k → result ≡ coefficient b.now (k - i) }
    ensures high { k < i → result ≡ pos 0 }
{
    if i <= k && k - i < b.len() {
        b[k - i]
    } else {
        0
    }
}

/// Coefficient `k` of the product in Z[x].
fn convolved(a: &[i16], b: &[i16], k: usize) -> i64
    requires few { length a.now ≤ 761 }
    requires a_within { (j : ℕ) → IsWithin 2295 (coefficient a.now j) }
    requires b_within { (j : ℕ) → IsWithin 2295 (coefficient b.now j) }
    ensures exact { result ≡ convolution a.now b.now k }
    ensures within { IsWithin 4008206025 result }
{
    let mut sum = 0i64;
    for i in 0..a.len() {
        sum += a[i] as i64 * met(b, k, i) as i64;
    }
    sum
}

/// Coefficient `k` of the product modulo x^P - x - 1, where each x^(P + i) becomes x^i + x^(i + 1).
fn reduced_coefficient<const P: usize>(a: &[i16], b: &[i16], k: usize) -> i64
    requires size { P ≤ 761 }
    requires in_range { k < P }
    requires few { length a.now ≤ 761 }
    requires a_within { (j : ℕ) → IsWithin 2295 (coefficient a.now j) }
    requires b_within { (j : ℕ) → IsWithin 2295 (coefficient b.now j) }
    ensures { result ≡ reduced P (convolution a.now b.now) k }
{
    let sum = convolved(a, b, k) + convolved(a, b, P + k);
    if k == 0 {
        sum
    } else {
        sum + convolved(a, b, P + k - 1)
    }
}

/// The product of two polynomials of P coefficients in Z[x]/(x^P - x - 1), each coefficient of a factor at most 2295 in
/// size: the plain convolution, then the reduction. The coefficients of the answer are integers, not centred.
pub fn plain_product<const P: usize>(a: &[i16], b: &[i16], out: &mut [i64])
    requires size { P ≤ 761 }
    requires a_len { length a.now ≡ P }
    requires out_len { length out.old ≡ P }
    requires a_within { (j : ℕ) → IsWithin 2295 (coefficient a.now j) }
    requires b_within { (j : ℕ) → IsWithin 2295 (coefficient b.now j) }
    ensures { out.new ≡ product P a.now b.now }
{
    for k in 0..P {
        out[k] = reduced_coefficient::<P>(a, b, k);
    }
}

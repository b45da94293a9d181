//! Arithmetic in the rings of the key encapsulation: the polynomials of p coefficients modulo x^p - x - 1, with
//! coefficients modulo q or modulo 3.
#![tactic(auto)]

ghost use Rattle.std.specs.Prelude.{◌≡◌, ℕ, ◌+◌, ◌-◌, ◌*◌, ◌<◌, ◌≤◌, length, All, EachIndex, pos, ◌+ℤ◌, ◌*ℤ◌, ◌≤ℤ◌, ◌<ℤ◌, neg_ℤ, List, ℤ, ◌∷◌, drop, map};
ghost use Rattle.ring_poly.specs.Ring.{coefficient, product, weighted, AreCongruent, IsCongruent, IsCentred, IsModulus, IsWithin, AreRounded};

mod plain;

pub use plain::plain_product;

/// How many products of a sum of two coefficients and a coefficient an `i32` holds.
const BLOCK: usize = 192;

/// The rest of a division by Q, with the sign of the value.
fn remainder<const Q: i32>(value: i64) -> i32
    requires { IsModulus Q }
    ensures congruent { IsCongruent Q result value }
    ensures above { neg_ℤ Q <ℤ result }
    ensures below { result <ℤ Q }
{
    (value % Q as i64) as i32
}

/// The centred number that is congruent to a sum modulo Q.
fn reduce<const Q: i32>(sum: i64) -> i16
    requires { IsModulus Q }
    ensures congruent { IsCongruent Q result sum }
    ensures centred { IsCentred Q result }
{
    let rest = remainder::<Q>(sum);
    if rest > Q / 2 {
        (rest - Q) as i16
    } else if rest < -(Q / 2) {
        (rest + Q) as i16
    } else {
        rest as i16
    }
}

/// The centred number that is congruent to a value modulo Q.
pub fn center<const Q: i32>(value: i32) -> i16
    requires { IsModulus Q }
    ensures congruent { IsCongruent Q result value }
    ensures centred { IsCentred Q result }
{
    reduce::<Q>(value as i64)
}

/// The sum of the products place by place, of few places.
fn short_dot(a: &[i16], b: &[i16]) -> i32
    requires same { length a.now ≡ length b.now }
    requires short { length a.now ≤ 192 }
    requires a_within { (j : ℕ) → IsWithin 2295 (coefficient a.now j) }
    requires b_within { (j : ℕ) → IsWithin 4590 (coefficient b.now j) }
    ensures { result ≡ weighted a.now (coefficient b.now) }
{
    let mut sum = 0i32;
    for i in 0..a.len() {
        sum += a[i] as i32 * b[i] as i32;
    }
    sum
}

/// The sum of the products place by place.
fn dot(a: &[i16], b: &[i16]) -> i64
    requires same { length a.now ≡ length b.now }
    requires short { length a.now ≤ 761 }
    requires a_within { (j : ℕ) → IsWithin 2295 (coefficient a.now j) }
    requires b_within { (j : ℕ) → IsWithin 4590 (coefficient b.now j) }
    ensures sum { result ≡ weighted a.now (coefficient b.now) }
    ensures within { IsWithin 8016412050 result }
{
    let mut sum = 0i64;
    let mut from = 0;
    while from < a.len() {
        let to = a.len().min(from + BLOCK);
        sum += short_dot(&a[from..to], &b[from..to]) as i64;
        from = to;
    }
    sum
}

/// The number at a place of those that `windows` writes.
fn window_number<const P: usize>(a: &[i16], place: usize) -> i16
    requires size { (1 < P) × (P ≤ 761) }
    requires len { length a.now ≡ P }
    requires within { (j : ℕ) → IsWithin 2295 (coefficient a.now j) }
    requires in_range { place + 1 < 2 * P }
    ensures low { place + 1 < P → result ≡ coefficient a.now (P - 1 - place) }
    ensures mid { place + 1 ≡ P → result ≡ coefficient a.now 0 +ℤ coefficient a.now (P - 1) }
    ensures high { P ≤ place → result ≡ coefficient a.now (2 * P - 1 - place) +ℤ coefficient a.now (2 * P - 2 - place) }
{
    if place + 1 < P {
        a[P - 1 - place]
    } else if place + 1 == P {
        a[0] + a[P - 1]
    } else {
        a[2 * P - 1 - place] + a[2 * P - 2 - place]
    }
}

/// Writes the 2 P - 1 numbers whose windows of P places are the rows of the multiplication by `a`: coefficient k of a
/// product, for k from 1 on, is the sum of the products of the window at P - 1 - k with the other factor.
pub fn windows<const P: usize>(a: &[i16], numbers: &mut [i16])
    requires size { (1 < P) × (P ≤ 761) }
    requires len { length a.now ≡ P }
    requires room { length numbers.old + 1 ≡ 2 * P }
    requires within { (j : ℕ) → IsWithin 2295 (coefficient a.now j) }
    ensures rows { (b : List ℤ) (k : ℕ) → length b ≡ P → 0 < k → k < P → coefficient (product P a.now b) k ≡ weighted b (λ j. coefficient numbers.new (P - 1 - k + j)) }
    ensures first { (c : ℤ) (b : List ℤ) → length b + 1 ≡ P → coefficient (product P a.now (c ∷ b)) 0 ≡ c *ℤ coefficient a.now 0 +ℤ weighted b (coefficient numbers.new) }
    ensures within { (j : ℕ) → IsWithin 4590 (coefficient numbers.new j) }
{
    for place in 0..2 * P - 1 {
        numbers[place] = window_number::<P>(a, place);
    }
}

/// The most numbers that `windows` writes for a set.
const ROOM: usize = 1521;

fn blank() -> [i16; ROOM]
    ensures { length result ≡ 1521 }
{
    [0; ROOM]
}

/// Coefficient 0 of the product.
fn first_coefficient<const Q: i32>(a: &[i16], b: &[i16], numbers: &[i16]) -> i16
    requires modulus { IsModulus Q }
    requires some { 0 < length b.now }
    requires short { length b.now ≤ 761 }
    requires a_some { 0 < length a.now }
    requires len { length b.now ≤ length numbers.now + 1 }
    requires a_within { (j : ℕ) → IsWithin 2295 (coefficient a.now j) }
    requires b_within { (j : ℕ) → IsWithin 2295 (coefficient b.now j) }
    requires within { (j : ℕ) → IsWithin 4590 (coefficient numbers.now j) }
    ensures congruent { IsCongruent Q result (coefficient b.now 0 *ℤ coefficient a.now 0 +ℤ weighted (drop 1 b.now) (coefficient numbers.now)) }
    ensures centred { IsCentred Q result }
{
    let rest = dot(&b[1..], &numbers[..b.len() - 1]);
    reduce::<Q>(b[0] as i64 * a[0] as i64 + rest)
}

/// Coefficients from 1 on of the product.
fn further_coefficients<const P: usize, const Q: i32>(b: &[i16], numbers: &[i16], out: &mut [i16])
    requires size { (1 < P) × (P ≤ 761) }
    requires modulus { IsModulus Q }
    requires b_len { length b.now ≡ P }
    requires len { length numbers.now + 1 ≡ 2 * P }
    requires out_len { length out.old ≡ P }
    requires b_within { (j : ℕ) → IsWithin 2295 (coefficient b.now j) }
    requires within { (j : ℕ) → IsWithin 4590 (coefficient numbers.now j) }
    ensures congruent { (k : ℕ) → 0 < k → k < P → IsCongruent Q (coefficient out.new k) (weighted b.now (λ j. coefficient numbers.now (P - 1 - k + j))) }
    ensures centred { (k : ℕ) → 0 < k → k < P → IsCentred Q (coefficient out.new k) }
    ensures first { coefficient out.new 0 ≡ coefficient out.old 0 }
{
    for k in 1..P {
        out[k] = reduce::<Q>(dot(b, &numbers[P - 1 - k..2 * P - 1 - k]));
    }
}

/// The product of two polynomials with centred coefficients modulo Q, the coefficients of the answer centred too.
pub fn mul_q<const P: usize, const Q: i32>(a: &[i16], b: &[i16], out: &mut [i16])
    requires size { (1 < P) × (P ≤ 761) }
    requires modulus { IsModulus Q }
    requires a_len { length a.now ≡ P }
    requires b_len { length b.now ≡ P }
    requires out_len { length out.old ≡ P }
    requires a_centred { All (IsCentred Q) a.now }
    requires b_centred { All (IsCentred Q) b.now }
    ensures congruent { AreCongruent Q out.new (product P a.now b.now) }
    ensures centred { All (IsCentred Q) out.new }
{
    let mut room = blank();
    let numbers = &mut room[..2 * P - 1];
    windows::<P>(a, numbers);
    out[0] = first_coefficient::<Q>(a, b, numbers);
    further_coefficients::<P, Q>(b, numbers, out);
}

/// The product of two polynomials with coefficients -1, 0 and 1, modulo 3.
pub fn mul_3<const P: usize>(a: &[i16], b: &[i16], out: &mut [i16])
    requires size { (1 < P) × (P ≤ 761) }
    requires a_len { length a.now ≡ P }
    requires b_len { length b.now ≡ P }
    requires out_len { length out.old ≡ P }
    requires a_centred { All (IsCentred (pos 3)) a.now }
    requires b_centred { All (IsCentred (pos 3)) b.now }
    ensures congruent { AreCongruent (pos 3) out.new (product P a.now b.now) }
    ensures centred { All (IsCentred (pos 3)) out.new }
{
    mul_q::<P, 3>(a, b, out)
}

/// Takes each centred coefficient to its nearest multiple of 3.
pub fn round_to_three<const Q: i32>(a: &mut [i16])
    requires modulus { IsModulus Q }
    requires centred { All (IsCentred Q) a.old }
    ensures rounded { AreRounded a.old a.new }
    // Where (Q - 1) / 2 is a multiple of 3, as in each set, the multiples are centred too.
    ensures centred { (h : ℕ) → Q ≡ pos (6 * h + 1) → All (IsCentred Q) a.new }
{
    for i in 0..a.len() {
        let rest = center::<3>(a[i] as i32);
        a[i] -= rest;
    }
}

#[cfg(test)]
mod tests;

//! Values of another program, and answers multiplied back by the definition.

ghost use Rattle.std.specs.Prelude.{◌≡◌, ◌<◌, ◌≤◌, All, length};
ghost use Rattle.ring_poly.specs.Ring.{IsCentred, IsModulus};
ghost use Rattle.ring_solve.specs.Fields.{IsField};
ghost use Rattle.ring_solve.specs.Solutions.{coefficients_of};

use super::*;
use ring_poly::plain_product;
use std::process::Abort;
use std::test::Fail;

const A: [i16; 37] = [
    -22, 58, -44, -13, 20, -57, -54, 42, 5, -51, -17, 11, -56, 53, 1, -36, -59, -52, -8, -10, -55,
    -33, -52, 7, -9, -56, 42, 9, -48, 58, -35, 17, 17, 11, 58, -56, 10,
];

const A_INVERSE: [i16; 37] = [
    -31, -12, -44, 42, -50, -47, -23, -47, -25, 1, -30, -44, 32, -36, -60, -12, 36, -4, -20, 3, 59,
    -5, 1, -36, 48, 36, -48, -42, 57, -54, -4, -7, 27, -18, 48, -19, 50,
];

const S: [i16; 37] = [
    0, 0, 0, 1, 0, 0, 0, -1, -1, 1, -1, -1, 1, 0, 1, 0, 0, 1, 0, 0, 1, -1, -1, 1, 0, -1, 0, -1, 0,
    0, -1, 1, -1, 1, 1, 0, 0,
];

const S_INVERSE: [i16; 37] = [
    0, 1, -1, -1, 0, 0, -1, 0, -1, -1, -1, -1, 1, 0, -1, 0, -1, -1, -1, 0, -1, 1, -1, 0, 0, 1, 0,
    0, 1, 1, 0, 0, 0, 0, 1, 0, 0,
];

/// Divides x^37 - x - 1 modulo 3: x^3 + x^2 - 1.
const DIVISOR: [i16; 4] = [-1, 0, 1, 1];

/// Divides x^37 - x - 1 modulo 127: x - 41.
const LINEAR: [i16; 2] = [-41, 1];

/// Divides x^761 - x - 1 modulo 3, and no polynomial of smaller degree does.
const LARGE_DIVISOR: [i16; 20] = [
    -1, -1, 0, -1, -1, -1, 1, -1, 1, -1, 0, -1, 1, 1, 1, 1, -1, 0, 1, 1,
];

/// The same numbers, as `center` gives them.
fn recentred<const Q: i32>(a: &mut [i16])
    requires { IsModulus Q }
    ensures { All (IsCentred Q) a.new }
{
    for i in 0..a.len() {
        a[i] = center::<Q>(a[i] as i32);
    }
}

#[test]
fn inverse_modulo_127(rt: HostRuntime) -> Result<(), Fail> {
    let mut a = A;
    recentred::<127>(&mut a);
    match inverse::<37, 127>(rt.alloc(), &a)? {
        Solved::Inverse(b) => assert!(rt; b.as_slice() == A_INVERSE.as_slice()),
        Solved::Kernel(_) => assert!(rt; false),
    }
    Ok(())
}

#[test]
fn inverse_modulo_3(rt: HostRuntime) -> Result<(), Fail> {
    let mut s = S;
    recentred::<3>(&mut s);
    match inverse::<37, 3>(rt.alloc(), &s)? {
        Solved::Inverse(b) => assert!(rt; b.as_slice() == S_INVERSE.as_slice()),
        Solved::Kernel(_) => assert!(rt; false),
    }
    Ok(())
}

/// Writes coefficients drawn by a linear congruential generator, centred modulo M.
fn draw<const M: i32>(seed: u32, a: &mut [i16])
    requires { IsModulus M }
    ensures { All (IsCentred M) a.new }
{
    let mut word = seed;
    for i in 0..a.len() {
        word = word.wrapping_mul(1_664_525).wrapping_add(1_013_904_223);
        a[i] = center::<M>((word >> 16) as i32);
    }
    recentred::<M>(a);
}

/// The coefficients of either answer.
fn coefficients(answer: &Solved) -> &[i16]
    ensures { result.now ≡ coefficients_of answer.now }
{
    match answer {
        Solved::Inverse(poly) => poly.as_slice(),
        Solved::Kernel(poly) => poly.as_slice(),
    }
}

fn is_inverse(answer: &Solved) -> bool {
    match answer {
        Solved::Inverse(_) => true,
        Solved::Kernel(_) => false,
    }
}

/// The product is 1 modulo M where an inverse was found, and else 0.
fn check_product<const M: i32>(rt: &impl Abort, found: bool, product: &[i64])
    requires { IsModulus M }
{
    for k in 0..product.len() {
        let want = if found && k == 0 { 1 } else { 0 };
        assert!(rt; product[k].rem_euclid(M as i64) == want, "at {k}");
    }
}

/// Multiplies the answer for `a` back by the definition, and says whether it is an inverse.
fn has_inverse<const P: usize, const M: i32>(
    rt: &(impl Abort + AllocGlobal),
    a: &[i16],
    product: &mut [i64],
) -> Result<bool, Fail>
    requires size { (1 < P) × (P ≤ 761) }
    requires field { IsField M }
    requires modulus { IsModulus M }
    requires a_len { length a.now ≡ P }
    requires product_len { length product.old ≡ P }
    requires centred { All (IsCentred M) a.now }
{
    let answer = inverse::<P, M>(rt.alloc(), a)?;
    let found = is_inverse(&answer);
    let numbers = coefficients(&answer);
    plain_product::<P>(a, numbers, product);
    check_product::<M>(rt, found, product);
    assert!(rt; numbers.iter().any(|number| *number != 0));
    Ok(found)
}

/// Which drawn polynomials have an inverse, by another program.
#[test]
fn drawn(rt: HostRuntime) -> Result<(), Fail> {
    let mut a = [0i16; 37];
    let mut product = [0i64; 37];
    for (seed, want) in [
        (0, true),
        (1, true),
        (71, false),
        (72, true),
        (142, false),
        (189, false),
    ] {
        draw::<127>(seed, &mut a);
        assert_eq!(rt;
            has_inverse::<37, 127>(&rt, &a, &mut product)?,
            want,
            "127 at {seed}"
        );
    }
    for (seed, want) in [
        (0, true),
        (1, true),
        (59, false),
        (60, true),
        (80, false),
        (126, false),
    ] {
        draw::<3>(seed, &mut a);
        assert_eq!(rt;
            has_inverse::<37, 3>(&rt, &a, &mut product)?,
            want,
            "3 at {seed}"
        );
    }
    Ok(())
}

#[test]
fn large_drawn(rt: HostRuntime) -> Result<(), Fail> {
    let mut a = [0i16; 761];
    let mut product = [0i64; 761];
    for seed in 0..3u32 {
        draw::<4591>(seed, &mut a);
        assert!(rt; has_inverse::<761, 4591>(&rt, &a, &mut product)?);
        draw::<3>(seed, &mut a);
        assert!(rt; has_inverse::<761, 3>(&rt, &a, &mut product)?);
    }
    // With a first coefficient of 0.
    a[0] = 0;
    recentred::<3>(&mut a);
    assert!(rt; has_inverse::<761, 3>(&rt, &a, &mut product)?);
    draw::<4591>(7, &mut a);
    a[0] = 0;
    recentred::<4591>(&mut a);
    assert!(rt; has_inverse::<761, 4591>(&rt, &a, &mut product)?);
    Ok(())
}

#[test]
fn zero_and_divisors(rt: HostRuntime) -> Result<(), Fail> {
    let mut a = [0i16; 37];
    let mut product = [0i64; 37];
    recentred::<3>(&mut a);
    assert!(rt; !has_inverse::<37, 3>(&rt, &a, &mut product)?);
    recentred::<127>(&mut a);
    assert!(rt; !has_inverse::<37, 127>(&rt, &a, &mut product)?);
    a[..4].copy_from_slice(&DIVISOR);
    recentred::<3>(&mut a);
    assert!(rt; !has_inverse::<37, 3>(&rt, &a, &mut product)?);
    a = [0; 37];
    a[..2].copy_from_slice(&LINEAR);
    recentred::<127>(&mut a);
    assert!(rt; !has_inverse::<37, 127>(&rt, &a, &mut product)?);
    Ok(())
}

#[test]
fn large_divisor(rt: HostRuntime) -> Result<(), Fail> {
    let mut a = [0i16; 761];
    let mut product = [0i64; 761];
    a[..20].copy_from_slice(&LARGE_DIVISOR);
    recentred::<3>(&mut a);
    assert!(rt; !has_inverse::<761, 3>(&rt, &a, &mut product)?);
    Ok(())
}

//! Values of another program, and the fast products against the definition.

ghost use Rattle.std.specs.Prelude.{◌≡◌, ◌<◌, ◌≤◌, All, length, pos};
ghost use Rattle.ring_poly.specs.Ring.{IsCentred, IsModulus};

use super::*;
use std::process::Abort;
use std::test::Fail;

const A: [i16; 37] = [
    -22, 58, -44, -13, 20, -57, -54, 42, 5, -51, -17, 11, -56, 53, 1, -36, -59, -52, -8, -10, -55,
    -33, -52, 7, -9, -56, 42, 9, -48, 58, -35, 17, 17, 11, 58, -56, 10,
];

const B: [i16; 37] = [
    11, -13, -57, 61, -35, -58, 8, 46, -46, -26, -10, -45, 6, -48, 10, -24, 8, 41, 24, -40, -50,
    11, 10, 18, -39, -16, -51, 7, 28, -55, 9, -56, 16, -37, 0, 24, 5,
];

const AB: [i16; 37] = [
    32, 51, 42, 8, 40, 26, 43, -9, 2, -61, 58, -8, -8, -29, 26, -60, 36, -11, -41, -59, -41, -9,
    -27, -3, 8, -22, -63, 22, 8, 50, 1, -43, 58, 10, -6, -3, 9,
];

const S: [i16; 37] = [
    0, 0, 0, 1, 0, 0, 0, -1, -1, 1, -1, -1, 1, 0, 1, 0, 0, 1, 0, 0, 1, -1, -1, 1, 0, -1, 0, -1, 0,
    0, -1, 1, -1, 1, 1, 0, 0,
];

const T: [i16; 37] = [
    1, 0, 1, 0, 1, 0, -1, -1, 0, 0, 1, 1, -1, -1, 1, 1, 0, 1, 1, 1, 0, 0, 1, 0, 1, 0, -1, 0, 0, -1,
    1, -1, 0, -1, -1, 0, -1,
];

const ST: [i16; 37] = [
    -1, 0, 0, 1, 1, 1, -1, -1, 0, 0, 0, -1, 1, -1, 1, 0, 1, 1, 1, 0, 1, 1, 1, 0, -1, 1, -1, 0, -1,
    1, 1, 1, 0, 1, 1, 0, 1,
];

/// The same numbers, as `center` gives them.
fn recentred<const Q: i32>(a: &mut [i16])
    requires { IsModulus Q }
    ensures { All (IsCentred Q) a.new }
{
    for i in 0..a.len() {
        a[i] = center::<Q>(a[i] as i32);
    }
}

#[test]
fn products(rt: HostRuntime) -> Result<(), Fail> {
    let mut a = A;
    let mut b = B;
    let mut out = [0i16; 37];
    recentred::<127>(&mut a);
    recentred::<127>(&mut b);
    mul_q::<37, 127>(&a, &b, &mut out);
    assert!(rt; out == AB);
    Ok(())
}

#[test]
fn small_products(rt: HostRuntime) -> Result<(), Fail> {
    let mut s = S;
    let mut t = T;
    let mut out = [0i16; 37];
    recentred::<3>(&mut s);
    recentred::<3>(&mut t);
    mul_3::<37>(&s, &t, &mut out);
    assert!(rt; out == ST);
    Ok(())
}

#[test]
fn rounding(rt: HostRuntime) -> Result<(), Fail> {
    let mut a = [-63i16, -62, -61, -2, -1, 0, 1, 2, 4, 61, 63];
    recentred::<127>(&mut a);
    round_to_three::<127>(&mut a);
    assert!(rt; a == [-63i16, -63, -60, -3, 0, 0, 0, 3, 3, 60, 63]);
    assert!(rt; center::<4591>(2296) == -2295);
    assert!(rt; center::<4591>(-2296) == 2295);
    assert!(rt; center::<3>(5) == -1);
    Ok(())
}

/// Writes coefficients drawn by a linear congruential generator, centred modulo Q.
fn draw<const Q: i32>(seed: u32, a: &mut [i16])
    requires { IsModulus Q }
    ensures { All (IsCentred Q) a.new }
{
    let mut word = seed;
    for i in 0..a.len() {
        word = word.wrapping_mul(1_664_525).wrapping_add(1_013_904_223);
        a[i] = center::<Q>((word >> 16) as i32);
    }
    recentred::<Q>(a);
}

/// The coefficients of a fast product are those of the definition, centred.
fn compare<const P: usize, const Q: i32>(
    rt: &impl Abort,
    a: &[i16],
    b: &[i16],
    fast: &[i16],
    plain: &mut [i64],
)
    requires size { P ≤ 761 }
    requires modulus { IsModulus Q }
    requires a_len { length a.now ≡ P }
    requires fast_len { length fast.now ≡ P }
    requires plain_len { length plain.old ≡ P }
    requires a_centred { All (IsCentred Q) a.now }
    requires b_centred { All (IsCentred Q) b.now }
{
    plain_product::<P>(a, b, plain);
    for k in 0..P {
        assert!(rt; center::<Q>(remainder::<Q>(plain[k])) == fast[k], "at {k}");
    }
}

#[test]
fn products_by_definition(rt: HostRuntime) {
    let mut a = [0i16; 37];
    let mut b = [0i16; 37];
    let mut fast = [0i16; 37];
    let mut plain = [0i64; 37];
    for seed in 0..20u32 {
        draw::<127>(seed, &mut a);
        draw::<127>(seed + 100, &mut b);
        mul_q::<37, 127>(&a, &b, &mut fast);
        compare::<37, 127>(&rt, &a, &b, &fast, &mut plain);
        draw::<3>(seed, &mut a);
        draw::<3>(seed + 100, &mut b);
        mul_3::<37>(&a, &b, &mut fast);
        compare::<37, 3>(&rt, &a, &b, &fast, &mut plain);
    }
}

#[test]
fn large_products_by_definition(rt: HostRuntime) {
    let mut a = [2295i16; 761];
    let mut b = [-2295i16; 761];
    let mut fast = [0i16; 761];
    let mut plain = [0i64; 761];
    recentred::<4591>(&mut a);
    recentred::<4591>(&mut b);
    mul_q::<761, 4591>(&a, &b, &mut fast);
    compare::<761, 4591>(&rt, &a, &b, &fast, &mut plain);
    for seed in 0..2u32 {
        draw::<4591>(seed, &mut a);
        draw::<4591>(seed + 100, &mut b);
        mul_q::<761, 4591>(&a, &b, &mut fast);
        compare::<761, 4591>(&rt, &a, &b, &fast, &mut plain);
        draw::<3>(seed, &mut a);
        draw::<3>(seed + 100, &mut b);
        mul_3::<761>(&a, &b, &mut fast);
        compare::<761, 3>(&rt, &a, &b, &fast, &mut plain);
    }
}

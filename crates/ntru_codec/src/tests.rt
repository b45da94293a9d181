//! Worked rows, sizes, and vectors of another program.

ghost use Rattle.std.specs.Prelude.{◌≡◌, ◌<◌, IfOk, vec_len};
ghost use Rattle.std.specs.List.{All};

use super::*;
use std::alloc::{AllocError, Global};
use std::process::Abort;
use std::test::Fail;

/// Digits below 127 and below 43 by a formula, and their encodings by another program.
const BELOW_127: [u16; 37] = [
    1, 5, 11, 19, 29, 41, 55, 71, 89, 109, 4, 28, 54, 82, 112, 17, 51, 87, 125, 38, 80, 124, 43,
    91, 14, 66, 120, 49, 107, 40, 102, 39, 105, 46, 116, 61, 8,
];

const BELOW_43: [u16; 37] = [
    1, 5, 11, 19, 29, 41, 12, 28, 3, 23, 2, 26, 9, 37, 24, 13, 4, 40, 35, 32, 31, 32, 35, 40, 4,
    13, 24, 37, 9, 26, 2, 23, 3, 28, 12, 41, 29,
];

const OF_127: [u8; 33] = [
    0xf4, 0x93, 0xe4, 0xc7, 0x54, 0x5c, 0xc3, 0x12, 0xb3, 0xa7, 0x24, 0x1b, 0x93, 0x32, 0x02, 0x29,
    0xf2, 0x3e, 0xc4, 0x37, 0x4a, 0xe0, 0x90, 0xf7, 0xd1, 0x61, 0x9f, 0x98, 0x47, 0x14, 0x9d, 0x67,
    0x00,
];

const OF_43: [u8; 26] = [
    0x34, 0xc0, 0x40, 0x0f, 0xe7, 0x42, 0xca, 0x0e, 0xee, 0xa4, 0x1f, 0xf0, 0x77, 0xd8, 0x4d, 0x90,
    0xa8, 0xf7, 0x95, 0xb4, 0x5e, 0xa3, 0xc3, 0xda, 0x35, 0x01,
];

fn words(alloc: Global, count: usize) -> Result<Vec<u32>, AllocError>
    ensures { IfOk result (λ v. vec_len v ≡ count) }
{
    vec![in alloc; 0; count]
}

/// The bytes spell these digits, and the digits are encoded to these bytes.
fn check_mixed(
    rt: &(impl Abort + AllocGlobal),
    modulus: u16,
    digits: &[u16],
    bytes: &[u8],
) -> Result<(), Fail> {
    assert!(rt; modulus > 0 && !digits.is_empty() && digits.len() <= 761);
    let mut scratch = words(rt.alloc(), 4 * digits.len())?;
    let mut read = vec![in rt.alloc(); 0u16; digits.len()]?;
    let Some(()) = decode_mixed(bytes, modulus, scratch.as_mut_slice(), read.as_mut_slice()) else {
        panic!(rt; "no spelling");
    };
    assert_eq!(rt; read.as_slice(), digits);
    let mut written = vec![in rt.alloc(); 0u8; encoded_len(read.len(), modulus)]?;
    encode_mixed(
        read.as_slice(),
        modulus,
        scratch.as_mut_slice(),
        written.as_mut_slice(),
    );
    assert_eq!(rt; written.as_slice(), bytes);
    Ok(())
}

#[test]
fn reads_and_writes_mixed_radix(rt: HostRuntime) -> Result<(), Fail> {
    check_mixed(&rt, 127, &[5, 6, 7], &[0x06, 0xbc, 0x01])?;
    check_mixed(&rt, 127, &[126, 126, 126], &[0x7e, 0x41, 0x1f])?;
    check_mixed(&rt, 1, &[0, 0], &[])?;
    check_mixed(&rt, 65535, &[65534, 65534], &[0x00, 0x00, 0xfe, 0xff])?;
    check_mixed(&rt, 127, &BELOW_127, &OF_127)?;
    check_mixed(&rt, 43, &BELOW_43, &OF_43)?;
    Ok(())
}

#[test]
fn refuses_what_is_no_mixed_radix(rt: HostRuntime) -> Result<(), Fail> {
    let rows = [
        [0xff, 0xff, 0xff].as_slice(),
        &[0x7f, 0x41, 0x1f],
        &[0x06, 0xbc],
        &[0x06, 0xbc, 0x01, 0x00],
    ];
    let mut scratch = words(rt.alloc(), 12)?;
    for bytes in rows {
        let mut digits = [1, 2, 3];
        let found = decode_mixed(bytes, 127, scratch.as_mut_slice(), &mut digits);
        assert_eq!(rt; (found, digits), (None, [1, 2, 3]), "at {bytes:?}");
    }
    Ok(())
}

#[test]
fn knows_the_sizes(rt: HostRuntime) {
    for (count, modulus, len) in [
        (761, 4591, 1158),
        (761, 1531, 1007),
        (37, 127, 33),
        (37, 43, 26),
        (1, 1, 0),
        (1, 65535, 2),
        (761, 65535, 1522),
        (4, 2, 1),
    ] {
        assert!(rt; 0 < count && count <= 761 && 0 < modulus);
        assert_eq!(rt; encoded_len(count, modulus), len, "at {count}, {modulus}");
    }
}

#[test]
fn packs_small_coefficients(rt: HostRuntime) {
    let mut read = [7i16; 5];
    let Some(()) = decode_small(&[0x86, 0x01], &mut read) else {
        panic!(rt; "no spelling");
    };
    assert_eq!(rt; read, [1, 0, -1, 1, 0]);
    let mut written = [0u8; 2];
    encode_small(&read, &mut written);
    assert_eq!(rt; written, [0x86, 0x01]);
    for bytes in [
        [0x86, 0x03].as_slice(),
        &[0x8c, 0x01],
        &[0x86],
        &[0x86, 0x01, 0x00],
    ] {
        assert_eq!(rt; decode_small(bytes, &mut read), None, "at {bytes:?}");
    }
    assert_eq!(rt; read, [1, 0, -1, 1, 0]);
}

/// Writes digits drawn by a linear congruential generator, below the modulus.
fn draw(seed: u32, modulus: u16, digits: &mut [u16])
    requires { 0 < modulus }
    ensures { All (λ r. r < modulus) digits.new }
{
    let mut word = seed;
    for i in 0..digits.len() {
        word = word.wrapping_mul(1_664_525).wrapping_add(1_013_904_223);
        digits[i] = ((word >> 16) % u32::from(modulus)) as u16;
    }
}

/// Drawn digits are encoded as the definition has it, and read back.
fn check_drawn(
    rt: &(impl Abort + AllocGlobal),
    seed: u32,
    count: usize,
    modulus: u16,
) -> Result<(), Fail> {
    assert!(rt; 0 < count && count <= 761 && 0 < modulus);
    let mut digits = vec![in rt.alloc(); 0u16; count]?;
    draw(seed, modulus, digits.as_mut_slice());
    let bytes = plain_mixed(rt.alloc(), digits.as_slice(), modulus)?;
    check_mixed(rt, modulus, digits.as_slice(), bytes.as_slice())
}

#[test]
fn agrees_with_the_definition(rt: HostRuntime) -> Result<(), Fail> {
    for (count, modulus) in [
        (37, 127),
        (37, 43),
        (1, 300),
        (2, 255),
        (3, 256),
        (6, 65535),
        (7, 1),
    ] {
        for seed in 0..10u32 {
            check_drawn(&rt, seed, count, modulus)?;
        }
    }
    Ok(())
}

#[test]
fn agrees_at_the_large_set(rt: HostRuntime) -> Result<(), Fail> {
    for (count, modulus) in [(761, 4591), (761, 1531), (760, 4591)] {
        for seed in 0..2u32 {
            check_drawn(&rt, seed, count, modulus)?;
        }
    }
    Ok(())
}

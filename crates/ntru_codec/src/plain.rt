//! The mixed radix encoding by its definition, slow, to compare the fast one with: each digit has its own modulus.

ghost use Rattle.std.specs.Prelude.{◌≡◌, ◌^◌, ◌<◌, ◌≤◌, ◌++◌, length, IfOk, OnOk};
ghost use Rattle.std.specs.List.{All};
ghost use Rattle.ntru_codec.specs.Mixed.{digit, encoding, given_off, joined, left_over, mixed_encoding, next_round, round_bytes};
ghost use Rattle.ntru_codec.specs.Digits.{AreDigits, IsDigit, digits_at};

use std::alloc::{AllocError, Global};

/// Writes the bytes that a digit gives off while its modulus is at least `limit`, and answers what stays of it.
fn give_bytes(
    value: u32,
    modulus: u32,
    limit: u32,
    bytes: &mut Vec<u8>,
) -> Result<(u32, u32), AllocError>
    requires limit { 2 ≤ limit }
    requires below { value < modulus }
    ensures bytes { OnOk result (bytes.new.items ≡ bytes.old.items ++ given_off 4 limit (digit value modulus)) }
    ensures left { IfOk result (λ d. digit d.0 d.1 ≡ left_over 4 limit (digit value modulus)) }
    ensures below { IfOk result (λ d. (d.0 < d.1) × (d.1 < limit)) }
{
    let mut rest = value;
    let mut left = modulus;
    while left >= limit {
        bytes.push((rest % 256) as u8)?;
        rest /= 256;
        left = left.div_ceil(256);
    }
    Ok((rest, left))
}

/// Two neighbours as one digit.
fn join(first: (u32, u32), second: (u32, u32)) -> (u32, u32)
    requires first { IsDigit first }
    requires second { IsDigit second }
    ensures joined { digit result.0 result.1 ≡ joined (digit first.0 first.1) (digit second.0 second.1) }
    ensures below { result.0 < result.1 }
{
    (first.0 + first.1 * second.0, first.1 * second.1)
}

/// One round: writes the bytes that pairs of neighbours give off, and what stays of them behind `left`.
fn plain_round(
    row: &[(u32, u32)],
    left: &mut Vec<(u32, u32)>,
    bytes: &mut Vec<u8>,
) -> Result<(), AllocError>
    requires digits { AreDigits row.now }
    requires left { AreDigits left.old.items }
    ensures bytes { OnOk result (bytes.new.items ≡ bytes.old.items ++ round_bytes (digits_at row.now)) }
    ensures left { OnOk result (digits_at left.new.items ≡ digits_at left.old.items ++ next_round (digits_at row.now)) }
    ensures digits { OnOk result (AreDigits left.new.items) }
{
    if row.is_empty() {
        return Ok(());
    }
    if row.len() == 1 {
        left.push(row[0])?;
        return Ok(());
    }
    let both = join(row[0], row[1]);
    let rest = give_bytes(both.0, both.1, 16384, bytes)?;
    left.push(rest)?;
    plain_round(&row[2..], left, bytes)
}

/// The encoding of digits of any moduli, written behind `bytes`.
fn plain_row(alloc: Global, row: &[(u32, u32)], bytes: &mut Vec<u8>) -> Result<(), AllocError>
    requires some { 0 < length row.now }
    requires digits { AreDigits row.now }
    ensures { OnOk result (bytes.new.items ≡ bytes.old.items ++ encoding (digits_at row.now)) }
{
    if row.len() == 1 {
        give_bytes(row[0].0, row[0].1, 2, bytes)?;
        return Ok(());
    }
    let mut left = Vec::new(alloc);
    plain_round(row, &mut left, bytes)?;
    plain_row(alloc, left.as_slice(), bytes)
}

/// The encoding of digits below `modulus`. The error is want of memory.
pub fn plain_mixed(alloc: Global, digits: &[u16], modulus: u16) -> Result<Vec<u8>, AllocError>
    requires some { 0 < length digits.now }
    requires below { All (λ r. r < modulus) digits.now }
    ensures { IfOk result (λ v. v.items ≡ mixed_encoding modulus digits.now) }
{
    let mut row = Vec::new(alloc);
    for value in digits {
        row.push((u32::from(*value), u32::from(modulus)))?;
    }
    let mut bytes = Vec::new(alloc);
    plain_row(alloc, row.as_slice(), &mut bytes)?;
    Ok(bytes)
}

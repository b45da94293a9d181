//! The mixed radix encoding of a list of digits below one modulus.

ghost use Rattle.std.specs.Prelude.{◌≡◌, ◌*◌, ◌^◌, ◌<◌, ◌≤◌, ◌↔◌, List, ℕ, length, IsSome, IfNone, OnSome};
ghost use Rattle.std.specs.List.{All};
ghost use Rattle.ntru_codec.specs.Mixed.{mixed_encoding, mixed_len, Spells, IsSpelling};

use crate::moduli::Moduli;
use crate::rows::{decode_row, encode_row, row_len};

/// How many bytes the encoding of `count` digits below `modulus` has, whichever digits they are.
pub fn encoded_len(count: usize, modulus: u16) -> usize
    requires some { 0 < count }
    requires few { count ≤ 761 }
    requires above { 0 < modulus }
    ensures len { result ≡ mixed_len count modulus }
    ensures same { (rs : List ℕ) → length rs ≡ count → length (mixed_encoding modulus rs) ≡ result }
{
    row_len(Moduli::equal(count, modulus))
}

/// Writes the encoding of digits below `modulus`. What `scratch` holds afterwards is left open.
pub fn encode_mixed(digits: &[u16], modulus: u16, scratch: &mut [u32], into: &mut [u8])
    requires some { 0 < length digits.now }
    requires few { length digits.now ≤ 761 }
    requires above { 0 < modulus }
    requires below { All (λ r. r < modulus) digits.now }
    requires room { 4 * length digits.now ≤ length scratch.old }
    requires size { length into.old ≡ mixed_len (length digits.now) modulus }
    ensures { into.new ≡ mixed_encoding modulus digits.now }
{
    let count = digits.len();
    let (row, left) = scratch.split_at_mut(count);
    widen(digits, row);
    encode_row(Moduli::equal(count, modulus), row, left, into);
}

/// Reads as many digits below `modulus` as `into` has places. None where no such digits have these bytes as their
/// encoding; `into` is unchanged then. What `scratch` holds afterwards is left open.
pub fn decode_mixed(bytes: &[u8], modulus: u16, scratch: &mut [u32], into: &mut [u16]) -> Option<()>
    requires some { 0 < length into.old }
    requires few { length into.old ≤ 761 }
    requires above { 0 < modulus }
    requires room { 4 * length into.old ≤ length scratch.old }
    ensures spelled { IsSome result ↔ IsSpelling (length into.old) modulus bytes.now }
    ensures value { OnSome result (Spells modulus bytes.now into.new) }
    ensures only { (rs : List ℕ) → length rs ≡ length into.old → Spells modulus bytes.now rs → OnSome result (into.new ≡ rs) }
    ensures none { IfNone result (into.new ≡ into.old) }
{
    let count = into.len();
    let (row, left) = scratch.split_at_mut(count);
    decode_row(Moduli::equal(count, modulus), bytes, row, left)?;
    narrow(row, into);
    Some(())
}

/// Copies digits into words.
fn widen(digits: &[u16], words: &mut [u32])
    requires { length digits.now ≡ length words.old }
    ensures { words.new ≡ digits.now }
{
    for i in 0..digits.len() {
        words[i] = u32::from(digits[i]);
    }
}

/// Copies words that are small enough into digits.
fn narrow(words: &[u32], digits: &mut [u16])
    requires size { length words.now ≡ length digits.old }
    requires fits { All (λ r. r < 2 ^ 16) words.now }
    ensures { digits.new ≡ words.now }
{
    for i in 0..words.len() {
        digits[i] = words[i] as u16;
    }
}

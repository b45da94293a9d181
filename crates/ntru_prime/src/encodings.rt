// Polynomials as bytes.

ghost use Rattle.std.specs.Prelude.{◌≡◌, ◌≤◌, ◌<◌, ◌+◌, ◌*◌, ◌/◌, List, ℤ, length, map, All, pos, ◌-ℤ◌, Option, unsigned_abs};
ghost use Rattle.std.specs.Option.{option_map};
ghost use Rattle.ring_poly.specs.Ring.{IsCentred};
ghost use Rattle.ntru_model.specs.Parameters.{core_len, public_len};
ghost use Rattle.ntru_model.specs.Encodings.{digit_of, public_encoding, public_read, rounded_encoding, rounded_read};
ghost use Rattle.ntru_prime.specs.Sets.{IsSet, set_of};

use crate::blanks::{blank_digits, modulus, scratch};
use ntru_codec::{decode_mixed, encode_mixed, encoded_len};

/// The digit of a centred coefficient modulo q, which is above half of q by the coefficient.
fn digit(q: u16, coefficient: i16) -> u16
    requires small { q ≤ 4591 }
    requires centred { IsCentred (pos q) coefficient }
    ensures exact { result ≡ digit_of q coefficient }
    ensures below { result < q }
{
    (coefficient + (q / 2) as i16) as u16
}

/// The coefficient of a digit.
fn coefficient(q: u16, digit: u16) -> i16
    requires small { q ≤ 4591 }
    requires below { digit < q }
    ensures { result ≡ pos digit -ℤ pos (q / 2) }
{
    digit as i16 - (q / 2) as i16
}

fn digits_of(q: u16, a: &[i16], into: &mut [u16])
    requires small { q ≤ 4591 }
    requires same { length a.now ≡ length into.old }
    requires centred { All (IsCentred (pos q)) a.now }
    ensures digits { into.new ≡ map (digit_of q) a.now }
    ensures below { All (λ r. r < q) into.new }
{
    for i in 0..a.len() {
        into[i] = digit(q, a[i]);
    }
}

fn thirds_of(q: u16, a: &[i16], into: &mut [u16])
    requires small { q ≤ 4591 }
    requires same { length a.now ≡ length into.old }
    requires centred { All (IsCentred (pos q)) a.now }
    ensures digits { into.new ≡ map (λ c. digit_of q c / 3) a.now }
    ensures below { All (λ r. r < (q + 2) / 3) into.new }
{
    for i in 0..a.len() {
        into[i] = digit(q, a[i]) / 3;
    }
}

fn coefficients_of(q: u16, digits: &[u16], into: &mut [i16])
    requires small { q ≤ 4591 }
    requires same { length digits.now ≡ length into.old }
    requires below { All (λ r. r < q) digits.now }
    ensures { into.new ≡ map (λ r. pos r -ℤ pos (q / 2)) digits.now }
{
    for i in 0..digits.len() {
        into[i] = coefficient(q, digits[i]);
    }
}

fn tripled_of(q: u16, digits: &[u16], into: &mut [i16])
    requires small { q ≤ 4591 }
    requires same { length digits.now ≡ length into.old }
    requires below { All (λ r. 3 * r < q) digits.now }
    ensures { into.new ≡ map (λ r. pos (3 * r) -ℤ pos (q / 2)) digits.now }
{
    for i in 0..digits.len() {
        into[i] = coefficient(q, 3 * digits[i]);
    }
}

/// Writes a polynomial of centred coefficients.
pub(crate) fn write_public<const P: usize, const Q: i32, const W: usize>(h: &[i16], into: &mut [u8])
    requires set { IsSet P Q W }
    requires len { length h.now ≡ P }
    requires centred { All (IsCentred Q) h.now }
    requires room { length into.old ≡ public_len (set_of P Q W) }
    ensures { into.new ≡ public_encoding (set_of P Q W) h.now }
{
    let q = modulus::<Q>();
    let mut digits = blank_digits::<P>();
    digits_of(q, h, &mut digits);
    encode_mixed(&digits, q, &mut scratch(), into)
}

/// How many bytes a public key has.
pub(crate) fn public_len<const P: usize, const Q: i32, const W: usize>() -> usize
    requires { IsSet P Q W }
    ensures exact { result ≡ public_len (set_of P Q W) }
    ensures few { result ≤ 1158 }
{
    encoded_len(P, modulus::<Q>())
}

/// Reads one. None where the bytes are the encoding of none.
pub(crate) fn read_public<const P: usize, const Q: i32, const W: usize>(
    bytes: &[u8],
    h: &mut [i16],
) -> Option<()>
    requires set { IsSet P Q W }
    requires len { length h.old ≡ P }
    ensures { option_map (λ _. h.new) result ≡ public_read (set_of P Q W) bytes.now }
{
    let q = modulus::<Q>();
    let mut digits = blank_digits::<P>();
    if decode_mixed(bytes, q, &mut scratch(), &mut digits).is_none() {
        return None;
    }
    coefficients_of(q, &digits, h);
    Some(())
}

/// Writes a polynomial of centred coefficients that are multiples of 3.
pub(crate) fn write_rounded<const P: usize, const Q: i32, const W: usize>(
    c: &[i16],
    into: &mut [u8],
)
    requires set { IsSet P Q W }
    requires len { length c.now ≡ P }
    requires centred { All (IsCentred Q) c.now }
    requires room { length into.old ≡ core_len (set_of P Q W) }
    ensures { into.new ≡ rounded_encoding (set_of P Q W) c.now }
{
    let q = modulus::<Q>();
    let mut digits = blank_digits::<P>();
    thirds_of(q, c, &mut digits);
    encode_mixed(&digits, (q + 2) / 3, &mut scratch(), into)
}

/// Reads one. None where the bytes are the encoding of none.
pub(crate) fn read_rounded<const P: usize, const Q: i32, const W: usize>(
    bytes: &[u8],
    c: &mut [i16],
) -> Option<()>
    requires set { IsSet P Q W }
    requires len { length c.old ≡ P }
    ensures { option_map (λ _. c.new) result ≡ rounded_read (set_of P Q W) bytes.now }
{
    let q = modulus::<Q>();
    let mut digits = blank_digits::<P>();
    if decode_mixed(bytes, (q + 2) / 3, &mut scratch(), &mut digits).is_none() {
        return None;
    }
    tripled_of(q, &digits, c);
    Some(())
}

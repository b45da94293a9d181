//! The encoding of coefficients that are -1, 0 or 1.

ghost use Rattle.std.specs.Prelude.{◌≡◌, ◌+◌, ◌*◌, ◌/◌, ◌%◌, ◌^◌, ◌<◌, ◌≤◌, ◌↔◌, List, ℕ, ℤ, length, take, IsTrue, IsSome, IfNone, OnSome};
ghost use Rattle.std.specs.List.{All};
ghost use Rattle.ntru_codec.specs.Small.{IsSmall, code_of, packed, small_encoding, SpellsSmall, IsSmallSpelling, IsPacked, ArePacked, coefficient_of, coefficients};

/// Writes the encoding of small coefficients, of which there is one more than a multiple of four.
pub fn encode_small(a: &[i16], into: &mut [u8])
    requires count { length a.now % 4 ≡ 1 }
    requires small { All IsSmall a.now }
    requires size { length into.old ≡ length a.now / 4 + 1 }
    ensures { into.new ≡ small_encoding a.now }
{
    let last = into.len() - 1;
    for i in 0..last {
        into[i] = pack(a[4 * i], a[4 * i + 1], a[4 * i + 2], a[4 * i + 3]);
    }
    into[last] = code(a[4 * last]);
}

/// Reads as many small coefficients as `into` has places, one more than a multiple of four. None where no such
/// coefficients have these bytes as their encoding; `into` is unchanged then.
pub fn decode_small(bytes: &[u8], into: &mut [i16]) -> Option<()>
    requires count { length into.old % 4 ≡ 1 }
    ensures spelled { IsSome result ↔ IsSmallSpelling (length into.old) bytes.now }
    ensures value { OnSome result (SpellsSmall bytes.now into.new) }
    ensures only { (a : List ℤ) → length a ≡ length into.old → SpellsSmall bytes.now a → OnSome result (into.new ≡ a) }
    ensures none { IfNone result (into.new ≡ into.old) }
{
    if bytes.len() != into.len() / 4 + 1 {
        return None;
    }
    if !are_packed(bytes) {
        return None;
    }
    unpack(bytes, into);
    Some(())
}

/// The coefficient plus 1.
fn code(a: i16) -> u8
    requires { IsSmall a }
    ensures exact { result ≡ code_of a }
    ensures few { result < 3 }
{
    (a + 1) as u8
}

/// Four coefficients in a byte.
fn pack(a: i16, b: i16, c: i16, d: i16) -> u8
    requires first { IsSmall a }
    requires second { IsSmall b }
    requires third { IsSmall c }
    requires fourth { IsSmall d }
    ensures { result ≡ packed a b c d }
{
    code(a) + 4 * code(b) + 16 * code(c) + 64 * code(d)
}

/// Whether the byte is four codes.
fn is_packed(byte: u8) -> bool
    ensures { IsTrue result ↔ IsPacked byte }
{
    byte % 4 < 3 && byte / 4 % 4 < 3 && byte / 16 % 4 < 3 && byte / 64 < 3
}

/// Whether the bytes are four codes each, but for the last one, which is a single code.
fn are_packed(bytes: &[u8]) -> bool
    requires { 0 < length bytes.now }
    ensures { IsTrue result ↔ ArePacked bytes.now }
{
    let last = bytes.len() - 1;
    for i in 0..last {
        if !is_packed(bytes[i]) {
            return false;
        }
    }
    bytes[last] < 3
}

/// The coefficient of a code.
fn coefficient(code: u8) -> i16
    ensures { result ≡ coefficient_of code }
{
    i16::from(code) - 1
}

/// Writes the coefficients that the bytes hold.
fn unpack(bytes: &[u8], into: &mut [i16])
    requires some { 0 < length bytes.now }
    requires size { length into.old + 3 ≡ 4 * length bytes.now }
    ensures { into.new ≡ coefficients bytes.now }
{
    let last = bytes.len() - 1;
    for i in 0..last {
        let byte = bytes[i];
        into[4 * i] = coefficient(byte % 4);
        into[4 * i + 1] = coefficient(byte / 4 % 4);
        into[4 * i + 2] = coefficient(byte / 16 % 4);
        into[4 * i + 3] = coefficient(byte / 64);
    }
    into[4 * last] = coefficient(bytes[last]);
}

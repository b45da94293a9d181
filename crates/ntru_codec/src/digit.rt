//! Single digits: the bytes that one gives off, and the way back.

ghost use Rattle.std.specs.Prelude.{◌≡◌, ◌+◌, ◌*◌, ◌/◌, ◌^◌, ◌≤◌, length};
ghost use Rattle.ntru_codec.specs.Rows.{low_bytes, Shrinks};

/// How many bytes a digit gives off, and the modulus of what stays of it.
#[derive(Clone, Copy)]
pub(crate) struct Shrunk {
    pub bytes: usize,
    pub modulus: u32,
}

/// What happens to a digit of this modulus, which gives off bytes while the modulus is at least `limit`.
pub(crate) fn shrink(modulus: u32, limit: u32) -> Shrunk
    requires { 2 ≤ limit }
    ensures { Shrinks limit modulus result.bytes result.modulus }
{
    let mut bytes = 0;
    let mut left = modulus;
    while left >= limit {
        left = left.div_ceil(256);
        bytes += 1;
    }
    Shrunk {
        bytes,
        modulus: left,
    }
}

/// Writes the lowest bytes of a digit, as many as there is room for, and gives what stays of it.
pub(crate) fn give_off(value: u32, into: &mut [u8]) -> u32
    ensures bytes { into.new ≡ low_bytes (length into.old) value }
    ensures left { result ≡ value / 256 ^ length into.old }
{
    let mut left = value;
    for byte in into.iter_mut() {
        *byte = (left % 256) as u8;
        left /= 256;
    }
    left
}

/// The digit that gives off these bytes, where `left` stays of it.
pub(crate) fn take_back(left: u32, bytes: &[u8]) -> u32
    requires { (left + 1) * 256 ^ length bytes.now ≤ 2 ^ 32 }
    ensures bytes { low_bytes (length bytes.now) result ≡ bytes.now }
    ensures left { result / 256 ^ length bytes.now ≡ left }
{
    let mut value = left;
    for i in 0..bytes.len() {
        value = value * 256 + u32::from(bytes[bytes.len() - 1 - i]);
    }
    value
}

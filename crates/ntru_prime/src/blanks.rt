// Room for polynomials and bytes.

ghost use Rattle.std.specs.Prelude.{◌≡◌, length, IfOk, unsigned_abs, ◌≤ℤ◌, ◌<ℤ◌, pos};

use std::alloc::{AllocError, Global};

/// The words that the encodings of a set's polynomials need beside them.
const SCRATCH: usize = 3044;

/// The bytes of the words that rho takes.
const RHO: usize = 192;

/// The bytes of the longest ciphertext.
const CIPHER: usize = 1039;

pub(crate) fn blank<const P: usize>() -> [i16; P]
    ensures { length result ≡ P }
{
    [0; P]
}

pub(crate) fn blank_digits<const P: usize>() -> [u16; P]
    ensures { length result ≡ P }
{
    [0; P]
}

pub(crate) fn blank_words<const P: usize>() -> [u32; P]
    ensures { length result ≡ P }
{
    [0; P]
}

pub(crate) fn scratch() -> [u32; SCRATCH]
    ensures { length result ≡ 3044 }
{
    [0; SCRATCH]
}

pub(crate) fn blank_bytes() -> [u8; RHO]
    ensures { length result ≡ 192 }
{
    [0; RHO]
}

pub(crate) fn blank_cipher() -> [u8; CIPHER]
    ensures { length result ≡ 1039 }
{
    [0; CIPHER]
}

pub(crate) fn zero_coefficients(alloc: Global, count: usize) -> Result<Vec<i16>, AllocError>
    ensures { IfOk result (λ v. length v.items ≡ count) }
{
    vec![in alloc; 0i16; count]
}

pub(crate) fn zero_bytes(alloc: Global, count: usize) -> Result<Vec<u8>, AllocError>
    ensures { IfOk result (λ v. length v.items ≡ count) }
{
    vec![in alloc; 0u8; count]
}

/// The modulus as a digit's.
pub(crate) fn modulus<const Q: i32>() -> u16
    requires low { pos 0 ≤ℤ Q }
    requires high { Q <ℤ pos 65536 }
    ensures { result ≡ unsigned_abs Q }
{
    Q as u16
}

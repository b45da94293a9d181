//! The two encodings of the key encapsulation.
//!
//! Digits below a modulus are packed in mixed radix: neighbours are joined to one digit of a larger modulus, which
//! gives off its lowest bytes, and the shorter list is packed again. Coefficients that are -1, 0 or 1 are packed four in
//! a byte. Both readers are strict: they take exactly the bytes that some list of digits encodes to.
#![tactic(auto)]

mod digit;
mod mixed;
mod moduli;
mod plain;
mod rows;
mod small;

pub use mixed::{decode_mixed, encode_mixed, encoded_len};
pub use plain::plain_mixed;
pub use small::{decode_small, encode_small};

#[cfg(test)]
mod tests;

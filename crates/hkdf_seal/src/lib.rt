//! Keys and sealing: HMAC (RFC 2104) and HKDF (RFC 5869) with SHA-256, keys under a label, and texts under a key
//! stream with a tag. No call takes memory.
#![tactic(auto)]

pub use hkdf::{expand, extract, kdf};
pub use laws::{has_lengths, opening_undoes_sealing};
pub use mac::hmac;
pub use sealing::{open, seal};

mod bytes;
mod hkdf;
mod laws;
mod mac;
mod sealing;
#[cfg(test)]
mod tests;

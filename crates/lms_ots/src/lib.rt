//! One-time signatures: LM-OTS of RFC 8554, section 4, with SHA-256 and w = 4. A key pair has an identifier, a leaf number
//! `q` and a secret seed, and signs one message; who signs two under one pair gives it away. No call takes memory.
#![tactic(auto)]

pub use input::{element_at, prefix, put};
pub use one_time::{candidate, public_value, sign_once};

/// The bytes of a signature: its type, the randomizer, and an element for each of the 67 chains.
pub const SIGNATURE: usize = 2180;

mod chains;
mod digits;
mod input;
mod one_time;
#[cfg(test)]
mod tests;

//! Trees of one-time signatures: LMS of RFC 8554, section 5, with SHA-256 and heights 5 and 10. Making a tree takes memory for
//! its nodes; signing and verifying take none.
#![tactic(auto)]

pub use leaf::Leaf;
pub use tree::{Spent, Tree};
pub use verifying::verify;

/// The bytes of a signature without its path, which has 32 for each level.
pub const SIGNATURE: usize = 2188;

mod leaf;
mod nodes;
#[cfg(test)]
mod tests;
mod tree;
mod verifying;
mod writing;

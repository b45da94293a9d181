//! Two-party messaging: numbered parts between two members, each sealed to the newest key that its sender knows of the
//! other, and each with new keys for both, so that they open however the two directions cross.
#![tactic(auto)]

mod draws;
mod laws;
mod own_key;
mod pairing;
mod reading;
mod writing;

pub use draws::{PartDraw, PartDraws, draw_parts};
pub use laws::{draws_are_taken_once, parts_open};
pub use pairing::Pairing;

#[cfg(test)]
mod tests;

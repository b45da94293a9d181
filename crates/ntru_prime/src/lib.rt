//! The key encapsulations Sntrup761 and Drill37, as streamlined NTRU Prime has them, with encodings and draws of this
//! project: `docs/SPECIFICATION.md`, "Key encapsulation".
#![tactic(auto)]

mod blanks;
mod draws;
mod encapsulation;
mod encodings;
mod hashes;
mod making;
mod pair;
mod parts;
mod products;
mod reading;
mod sets;

pub use pair::TestedPair;
pub use sets::{Drill37, Sntrup761};

#[cfg(test)]
mod tests;

//! The parts of a group's packets as bytes, for each key encapsulation: what is sealed in a part, the part itself, the
//! pairs and encapsulations that seeds give, and a ratchet's step. The functions do nothing: the contract of each is a
//! law.
#![tactic(auto)]

mod laws;

pub use laws::{contents_are_spelled, has_lengths, parts_are_spelled};

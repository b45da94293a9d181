//! The primitives of a group, made of a key encapsulation, key derivation and sealing. The functions do nothing:
//! the contract of each is a law.
#![tactic(auto)]

mod laws;

pub use laws::{made_parts_have_sizes, primitives_are_lawful};

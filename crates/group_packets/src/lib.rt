//! Packets as packets of the model of a group, for each key encapsulation. The functions do nothing: the contract of
//! each is a law.
#![tactic(auto)]

mod laws;

pub use laws::{packets_are_of_one, packets_read_back, parts_are_read, parts_are_written};

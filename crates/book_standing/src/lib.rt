//! That what a book holds stands for the book of the model: each call at a place does what it does there to the member
//! of that place. The functions do nothing: the contract of each is a law.
#![tactic(auto)]

mod laws;

pub use laws::{calls_stand, meetings_stand};

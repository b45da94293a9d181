//! Adds and their answers: what a member makes of them and takes. Its book moves as that of the model does, and what it
//! learns is what the model's book gives.
#![tactic(auto)]

mod adding;
mod answering;
mod joining;
mod moves;
mod taking;

pub use adding::make_add;
pub use answering::{make_add_ack, take_add_ack};
pub use taking::take_add;

#[cfg(test)]
mod tests;

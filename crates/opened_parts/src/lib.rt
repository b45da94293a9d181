//! What a member opens of a message: the part that is for it, by what its book holds of the sender's place.
#![tactic(auto)]

mod opening;

pub use opening::{Taken, open_part, sender_place};

#[cfg(test)]
mod tests;

//! What a message of any kind makes of a member's book, and what the member learns of it: one call for what it takes,
//! one for the add that brings it in, one for what it makes, and the two steps of its own ack.
#![tactic(auto)]

mod laws;
mod making;
mod own_acks;
mod taking;

pub use laws::{own_acks_are_entries, texts_are_entries};
pub use making::take_own;
pub use own_acks::{own_secret, step_own_ack};
pub use taking::{join_by, take_packet};

#[cfg(test)]
mod tests;

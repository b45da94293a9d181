//! Creates, updates, removes and acks: the bodies of the first three that a member makes, and what a message of
//! another, or an own one, makes of the book, and what it tells.
#![tactic(auto)]

mod acks;
mod answers;
mod making;
mod seeded;

pub use acks::take_ack;
pub use making::make_seeded;
pub use seeded::take_seeded;

#[cfg(test)]
mod tests;

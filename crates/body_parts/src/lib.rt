//! The parts of a message's body: whom they are for, and how a member makes them from its book, one for each.
#![tactic(auto)]

mod addressing;
mod draws;
mod laws;
mod parts;

pub use addressing::{Receiver, receivers, receivers_among};
pub use draws::draw_for;
pub use laws::receivers_are_addressees;
pub use parts::{append_part, append_parts, can_reach, parts_body};

#[cfg(test)]
mod tests;

//! What a member refuses of a step, and why: the first of all refusals that hold, before the step changes anything.
#![tactic(auto)]

mod cards;
mod commands;
mod facts;
mod packets;
mod refusing;
mod seat;
mod standing;
mod stepped;

pub use refusing::{first_refusal, refusal_before_made};
pub use seat::Seat;
pub use standing::{is_member, is_named};

#[cfg(test)]
mod tests;

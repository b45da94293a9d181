//! Who is a member, who sees a message, and which rule of validity its header breaks first.
#![tactic(auto)]

mod act;
mod author;
mod conditions;
mod faults;
mod members;
mod places;
#[cfg(test)]
mod tests;
mod views;
mod waiting;

pub use act::{Act, act_of, is_operation, is_seeded};
pub use author::count_of_sender;
pub use faults::{RuleFault, rules};
pub use members::{Membership, RemoveWins};
pub use places::{is_among, place_with};
pub use views::{recipients, view};

//! What a member that was taken into a group finds of a packet: the first of all verdicts that hold. Judging takes no
//! memory, and checks the signature last.
#![tactic(auto)]

mod arriving;
mod judging;
mod laws;
mod limits;
mod rules;
mod sending;
mod signed;
mod verdict;

pub use arriving::set_of;
pub use judging::{judge, judge_message};
pub use laws::{addressees_are_of_the_past, verdicts_are_one, what_is_ready_may_be_taken};
pub use limits::needs_answer;
pub use rules::parts_suit;
pub use sending::addressees;
pub use signed::is_signed_under;
pub use verdict::Verdict;

#[cfg(test)]
mod tests;

//! Members that a book meets: those of a new group, who is added to one, and those of a history that is handed on.
//! Their places in the book are those in the history.
#![tactic(auto)]

mod meeting;
mod met;

pub use meeting::{meet_added, meet_founders, meet_history};
pub use met::is_met;

#[cfg(test)]
mod tests;

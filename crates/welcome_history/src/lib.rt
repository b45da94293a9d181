//! The packet that takes a member into a group: the verdict on it, and the history that an add hands on, which is
//! written and read.
#![tactic(auto)]

mod cards;
mod cards_held;
mod creating;
mod first;
mod invitation;
mod laws;
mod reading;
mod row_held;
mod rows_judged;
mod writing;

pub use first::judge_first;
pub use laws::{what_is_handed_on_reads_back, what_is_ready_may_be_read};
pub use reading::read_welcome;
pub use writing::{append_welcome, welcome_len};

#[cfg(test)]
mod tests;

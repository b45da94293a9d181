//! The history of one group: rows in the order in which they were taken, their pasts and heads, and sets of rows and of
//! members.
#![tactic(auto)]

mod crowd;
mod heads;
mod history;
mod index;
mod kept;
mod laws;
mod marks;
mod pasts;
mod places;
mod push;
mod table;
mod texts;

pub use crowd::Crowd;
pub use history::History;
pub use laws::{cards_are_of_their_ids, rows_are_messages, senders_have_one_number};
pub use marks::Marks;
pub use texts::{TextRow, Texts};

#[cfg(test)]
mod tests;

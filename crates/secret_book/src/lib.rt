//! The book of one member: what it holds of each place of its group, in place of everything that it has seen.
#![tactic(auto)]

mod book;
mod kept_secrets;
mod laws;
mod place_row;

pub use book::Book;
pub use laws::{a_book_serves_places, pairings_stand};

#[cfg(test)]
mod tests;

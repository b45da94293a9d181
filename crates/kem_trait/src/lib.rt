//! Key encapsulation as a trait with laws, and the words that it draws from.
#![tactic(auto)]

mod kem;
mod laws;
mod words;

pub use kem::{Kem, KemRefusal, PairList};
pub use laws::{depends_on_words, has_set_lengths};
pub use words::{ListWords, SeedWords, Words};

#[cfg(test)]
mod tests;

//! The journal of one member: records behind gates, of which a crash at any moment leaves each whole or not at all.
#![tactic(auto)]

mod append;
mod fault;
mod journal;
mod layout;
mod room;
mod scan;
#[cfg(test)]
mod tests;

pub use fault::JournalFault;
pub use journal::Journal;

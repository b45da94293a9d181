//! The journal record of a step: what is written for it, and which step bytes are the record of.
#![tactic(auto)]

mod cards;
mod fits;
mod kinds;
mod laws;
mod read;
mod recorded;
#[cfg(test)]
mod tests;
mod write;

pub use fits::{fits_record, lent_cards_are_spelled};
pub use laws::{records_are_read_back, records_fit_a_journal};
pub use read::read_record;
pub use recorded::{Recorded, StepRecord};
pub use write::write_record;

//! Texts: the body of a text that is made, and the text that is read of one. Each spends one message key of its
//! sender's text chain.
#![tactic(auto)]

mod laws;
mod read;
mod write;

pub use laws::{texts_are_the_models, texts_read_back};
pub use read::read_text;
pub use write::make_text;

#[cfg(test)]
mod tests;

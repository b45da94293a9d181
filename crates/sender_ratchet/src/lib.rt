//! The keys that a sender's messages walk through, each for one use: the chain key of its ratchet, the text chain that
//! an update secret starts, and the message key of each text. No call takes memory.
//!
//! Each of the three types is its 32 bytes, and each value is spent: one of its calls takes it, and no second one. So
//! a message key serves one text, and a text chain gives each key once; of a chain key alone the bytes can be had,
//! since an add hands them on. Code that lets a value go is refused with `linear-value-let-go`, since none of the
//! types is `Drop`, and code that uses one again with `borrow-e0382`, since none is `Copy` or `Clone`.
#![tactic(auto)]

pub use chain_key::ChainKey;
pub use laws::keys_are_terms;
pub use message_key::MessageKey;
pub use text_chain::TextChain;

mod chain_key;
mod laws;
mod message_key;
#[cfg(test)]
mod tests;
mod text_chain;

//! A member as the step that made it: from its inviter and 32 random bytes come its key pair, its signing tree and its card.
#![tactic(auto)]

mod identity;
mod keys;
mod laws;

pub use identity::Identity;
pub use keys::Keys;
pub use laws::cards_have_room;

#[cfg(test)]
mod tests;

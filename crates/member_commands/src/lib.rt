//! What a member's command makes, as one call: the message, the history with it and the book after it.
#![tactic(auto)]

mod laws;
mod making;
mod refusal;
mod saying;
mod sealing;
mod taking;

pub use laws::commands_make_the_next;
pub use making::{MadeNext, make_seeded_message};
pub use refusal::NotMade;
pub use saying::{make_text_message, who_may_speak_has_a_chain};

#[cfg(test)]
mod tests;

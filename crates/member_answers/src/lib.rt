//! How a member answers an operation of another in the step that takes it.
#![tactic(auto)]

mod crowds;
mod laws;
mod planning;

pub use laws::planned_answers_are_drawn;
pub use planning::{AnswerPlan, plan_answer};

#[cfg(test)]
mod tests;

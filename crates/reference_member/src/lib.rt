//! The reference member: what a member is after its steps, which steps it accepts, what it refuses and why, and what
//! each step makes. Definitions, laws on them, and the words of a step and of a refusal; no code of a member stands
//! here.
#![tactic(auto)]

mod input;
mod laws;
mod refusal;

pub use input::Input;
pub use laws::{
    heads_are_few, histories_are_those_of_logs, logs_are_lawful, owners_are_there,
    ready_packets_enter, records_are_of_one_step, runs_are_one,
};
pub use refusal::Refusal;

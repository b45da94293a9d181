//! Whom an ack forwards its sender's secret to, and the body that carries it.
#![tactic(auto)]

mod ack;
mod forward;

pub use ack::make_ack;
pub use forward::forward_to;

#[cfg(test)]
mod tests;

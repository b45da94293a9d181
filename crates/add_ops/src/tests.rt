//! Adds of a small group.

mod adding;
mod taking;

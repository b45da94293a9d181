//! The book of one member: what it carries of the others in place of its log, as definitions, and the laws that it says
//! what the log says. The definitions stand in `specs/`; the functions of `laws` prove what they are for.
#![tactic(auto)]

pub mod example;
pub mod laws;

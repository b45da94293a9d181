//! The definitions that a reader must believe of a group: messages and histories, membership, validity, key terms,
//! two-party messaging, what a member knows, and worlds. They stand in `specs/`, by subject. The functions of
//! `laws` prove what they are for; those of `plain` compute some of them slowly, as a yardstick for faster code.
#![tactic(auto)]

pub mod example;
pub mod forms;
pub mod laws;
pub mod plain;

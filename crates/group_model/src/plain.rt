//! A small plain program that computes pasts, heads, membership, views, recipients, forwarding, addressees and the
//! verdicts of the seven rules of validity on lists. It is slow, and its contracts are the definitions: later, faster
//! code is compared with it. Histories are lists with the newest message first. The membership rule is "remove wins".

pub mod members;
pub mod messages;
#[cfg(test)]
mod tests;
pub mod validity;

//! The messages that a member makes next: their headers, whom they are due to, and their bodies.
#![tactic(auto)]

mod addressees;
mod answer_laws;
mod bodies;
mod body_laws;
mod header;
mod laws;

pub use addressees::{addressees_of, receivers_of};
pub use answer_laws::{
    forwarded_receivers_are_addressees, handed_receivers_are_few, some_are_due_by_their_kind,
};
pub use bodies::{next_add, next_seeded};
pub use body_laws::{
    add_bodies_are_the_next, answer_bodies_are_the_next, text_bodies_are_the_next,
};
pub use header::{next_header, with_body};
pub use laws::{
    due_receivers_are_addressees, headers_and_bodies_are_the_next, made_parts_are_the_next,
    makers_are_left_out, next_headers_are_the_models, seeded_bodies_are_the_next,
};

#[cfg(test)]
mod tests;

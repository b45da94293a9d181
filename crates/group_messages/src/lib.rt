//! Headers as messages of the model of a group. The functions do nothing: the contract of each is a law.
#![tactic(auto)]

mod laws;

pub use laws::{
    messages_are_of_one_header, named_ids_are_few, predecessors_ascend, targets_say_the_kind,
};

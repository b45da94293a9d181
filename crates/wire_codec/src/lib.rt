//! Packets: a message as it is handed on, read as lent views, and joined of its header, its body and its signature.
#![tactic(auto)]

mod body;
mod cards;
mod faults;
mod history;
mod laws;
mod packet;
mod parts;
mod rows;
mod signature;
#[cfg(test)]
mod tests;
mod text;
mod write;

pub use history::HistoryView;
pub use laws::{packets_are_in_order, packets_are_joined, packets_are_spelled_once};
pub use packet::{Malformed, PacketView};
pub use rows::Rows;
pub use write::write_packet;

//! The values that every other crate speaks of: ids, byte strings, texts, cards, headers, the reader of fields, and the
//! counts that each device keeps of its failures.
#![tactic(auto)]

mod bytes;
mod card;
mod card_view;
mod cards;
mod counts;
mod cursor;
mod fault;
mod fields;
mod header;
mod header_view;
mod ids;
mod ids_view;
#[cfg(test)]
mod tests;
mod text;
mod writers;

pub use bytes::Bytes;
pub use card::{Card, cards_are_spelled_once, write_card};
pub use card_view::{CardView, read_card, take_card};
pub use cards::Cards;
pub use counts::Counts;
pub use cursor::Cursor;
pub use fault::FieldFault;
pub use fields::{
    end, take_bytes, take_counted_ids, take_digest, take_ids, take_known, take_next_id, take_u8,
    take_u16, take_u32,
};
pub use header::{Header, Kind, Target, headers_are_spelled_once, write_header};
pub use header_view::{HeaderView, TargetView, read_header, take_header};
pub use ids::{Digest, GroupId, Ids, MemberId, MessageId};
pub use ids_view::IdsView;
use std::alloc::AllocError;
pub use text::Text;
pub use writers::{
    append_bytes, append_counted_ids, append_digest, append_ids, append_known, append_u8,
    append_u16, append_u32, is_ascending,
};

/// Want of memory: an allocation was refused.
pub type Memory = AllocError;

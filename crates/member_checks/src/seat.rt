//! What a member's refusals are judged by.

use causal_history::History;
use group_fields::MemberId;

/// What a member's refusals are judged by: its history, its own id, the only one that may take it into a group, and the
/// height of its signing tree.
#[derive(Drop)]
pub struct Seat<'a> {
    pub history: &'a History,
    pub me: MemberId,
    pub inviter: MemberId,
    pub height: u32,
}

use group_fields::{CardView, Cards, MemberId};

/// What a member is given for a step, beside the step's random bytes.
#[derive(Drop)]
pub enum Input<'a> {
    /// Makes the member: with the only one that may take it into a group, which 32 zero bytes say is nobody, and the
    /// height of its signing tree.
    Init(MemberId, u32),
    /// Opens a group with the members of these cards.
    Create(&'a Cards),
    /// Adds the member of a card.
    Add(CardView<'a>),
    /// Removes a member.
    Remove(MemberId),
    /// Brings new secrets.
    Update,
    /// Says a text.
    Send(&'a [u8]),
    /// Takes a packet.
    Packet(&'a [u8]),
}

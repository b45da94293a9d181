use group_fields::MessageId;

/// What a member finds of a packet. Of all that hold, the first in this order is answered.
#[derive(Clone, Copy, Debug, PartialEq, Eq)]
pub enum Verdict {
    /// No packet has these bytes. With the least refused place.
    Malformed(u32),
    /// The member is out of its group.
    Out,
    /// The member is in no group yet, and the packet takes it into none.
    NotInvited,
    /// The packet is of another set or another group.
    OtherGroup,
    /// The message is in the history.
    Known,
    /// A predecessor is not in the history. With the least such.
    Waits(MessageId),
    /// The history that an add hands on is refused. With the least refused row, from 1, or 0 for its cards.
    BadWelcome(u32),
    /// No create or add in the past of the message names its sender, or the sender is this member itself.
    Stranger,
    /// The sender is no member of the past of its message.
    NotMember,
    /// The history has another message with this sender and sequence number. With the first such.
    Forked(MessageId),
    /// The sequence number, what the sender has to answer first, or the predecessors are not those of the past.
    BadOrder,
    /// The conditions of the message's kind don't hold, or the parts are not for exactly those that get one.
    BadKind,
    /// With the message, and with the answer that it needs, the history passes a limit. With the messages that it has.
    HistoryFull(u32),
    /// The message needs an answer, and no leaf is left to sign one. With the messages that this member made.
    KeysSpent(u32),
    /// The sender did not sign the message, or with another leaf than that of its sequence number.
    BadSignature,
    /// The packet may be taken.
    Ready,
}

use causal_cast::Verdict;
use group_fields::MemberId;

/// Why a member refuses a step. Of all refusals that apply, the first in this order is answered.
#[derive(Clone, Copy, Debug, PartialEq, Eq)]
pub enum Refusal {
    /// There is no member yet.
    NotMade,
    /// There is a member already.
    AlreadyMade,
    /// The member is out of its group.
    Out,
    /// The member is in no group yet.
    NotJoined,
    /// The member is in a group already.
    AlreadyJoined,
    /// The card with this number, from 1, is of another set (place 2), or its key is no public key (place 91).
    NotCard(u64, u32),
    /// The member itself is to be added or removed.
    SelfTarget,
    /// A card is given twice, or its member is named in the history. With the first such.
    AlreadyMember(MemberId),
    /// A card names another inviter than this member. With the first such.
    WrongInviter(MemberId),
    /// Who is to be removed is no member.
    UnknownTarget(MemberId),
    /// The group would name more than 32 members.
    MembersFull,
    /// The text has more than 4,096 bytes. With their number.
    TextTooLong(u64),
    /// No message of this member has stepped its ratchet yet.
    NoSecret,
    /// The history is full. With the number of its messages.
    HistoryFull(u32),
    /// Every leaf of the member's tree was used. With the number of its messages.
    KeysSpent(u32),
    /// The random bytes give no usable key.
    NoUsableKey,
    /// The packet is not to be taken, by this verdict.
    Packet(Verdict),
}

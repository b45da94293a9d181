ghost use Rattle.std.specs.Prelude.{◌≡◌};
ghost use Rattle.reference_member.specs.Inputs.{input_of};
ghost use Rattle.step_records.specs.Records.{recorded_input};

use group_fields::{CardView, Cards, MemberId, read_card};
use reference_member::Input;

/// What a member was given for a step, as its record tells it.
#[derive(Drop)]
pub enum Recorded<'a> {
    /// Made the member: with the only one that may take it into a group, which 32 zero bytes say is nobody, and the
    /// height of its signing tree.
    Init(MemberId, u32),
    /// Opened a group with the members of these cards.
    Create(Cards),
    /// Added the member of a card, which is lent out of the record.
    Add(CardView<'a>),
    /// Removed a member.
    Remove(MemberId),
    /// Brought new secrets.
    Update,
    /// Said a text, which is lent out of the record.
    Send(&'a [u8]),
    /// Took a packet, which is lent out of the record.
    Packet(&'a [u8]),
}

impl Recorded<'_> {
    /// The same, lent out. No memory is taken; the card of an add is read again.
    pub fn input(&self) -> Input<'_>
        ensures { input_of result ≡ recorded_input self.now }
    {
        match self {
            Recorded::Init(inviter, height) => Input::Init(*inviter, *height),
            Recorded::Create(cards) => Input::Create(cards),
            Recorded::Add(card) => Input::Add(read_card(card.bytes()).unwrap()),
            Recorded::Remove(target) => Input::Remove(*target),
            Recorded::Update => Input::Update,
            Recorded::Send(text) => Input::Send(text),
            Recorded::Packet(packet) => Input::Packet(packet),
        }
    }
}

/// A step that was read: what the member was given, and the step's random bytes.
#[derive(Drop)]
pub struct StepRecord<'a> {
    pub random: [u8; 32],
    pub input: Recorded<'a>,
}

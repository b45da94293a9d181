//! What a message does, with what it is about.

ghost use Rattle.std.specs.Prelude.{◌≡◌, ◌↔◌, IsTrue};
ghost use Rattle.group_fields.specs.declared.header.Target.{Target};
ghost use Rattle.group_messages.specs.Messages.{header_kind, kind_by, kind_of};
ghost use Rattle.group_model.specs.Membership.{IsSeeded};
ghost use Rattle.group_model.specs.Messages.{Kind as MessageKind};
ghost use Rattle.group_model.specs.Validity.{IsOperation};
ghost use Rattle.member_view.specs.Acts.{act_kind};

use group_fields::{HeaderView, IdsView, Kind, MemberId, MessageId, TargetView};

/// What a message does, and whom or what it is about.
#[derive(Debug, Drop)]
pub enum Act<'a> {
    /// Makes the group, of these members.
    Create(IdsView<'a>),
    /// Brings new secrets.
    Update,
    /// Removes a member.
    Remove(MemberId),
    /// Adds a member.
    Add(MemberId),
    /// Answers a create, an update, a remove, or the add of its sender, and says whether its sender took the secret.
    Ack(MessageId, bool),
    /// Answers the add of another.
    AddAck(MessageId),
    /// Says something.
    Text,
}

/// What the message of the header does.
pub fn act_of<'a>(header: &HeaderView<'a>) -> Act<'a>
    ensures { act_kind result ≡ kind_of header.now }
{
    let _bytes = header.bytes();
    let kind = header.kind();
    match header.target() {
        TargetView::Members(ids) => Act::Create(ids),
        TargetView::Nothing => {
            if kind == Kind::Update {
                Act::Update
            } else {
                Act::Text
            }
        }
        TargetView::Member(id) => {
            if kind == Kind::Remove {
                Act::Remove(id)
            } else {
                Act::Add(id)
            }
        }
        TargetView::Answer(id, took) => {
            if kind == Kind::Ack {
                Act::Ack(id, took)
            } else {
                Act::AddAck(id)
            }
        }
    }
}

/// Whether a message of the kind is an operation: a create, an update, a remove or an add.
pub fn is_operation(kind: Kind) -> bool
    ensures { (k : MessageKind) → header_kind k ≡ kind → IsTrue result ↔ IsOperation k }
{
    match kind {
        Kind::Create | Kind::Update | Kind::Remove | Kind::Add => true,
        Kind::Ack | Kind::AddAck | Kind::Text => false,
    }
}

/// Whether a message of the kind sends a seed: a create, an update or a remove.
pub fn is_seeded(kind: Kind) -> bool
    ensures { (target : Target) → IsTrue result ↔ IsSeeded (kind_by kind target) }
{
    match kind {
        Kind::Create | Kind::Update | Kind::Remove => true,
        Kind::Add | Kind::Ack | Kind::AddAck | Kind::Text => false,
    }
}

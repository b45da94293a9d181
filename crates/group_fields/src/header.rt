ghost use Rattle.std.specs.Prelude.{◌≡◌, ◌↔◌, List, ℕ, true, length, IsTrue, IfOk, OnOk};
ghost use Rattle.group_fields.specs.Headers.{AreCounted, HasSpelling, Spells, SuitsKind, kind, kind_number, spelling};
ghost use Rattle.group_fields.specs.Headers.{target, took_flag};
ghost use Rattle.group_fields.specs.LayoutWrites.{Appends};
ghost use Rattle.group_fields.specs.declared.header.Header.{Header};

use crate::Memory;
use crate::bytes::Bytes;
use crate::ids::{Digest, GroupId, Ids, MemberId, MessageId};
use crate::writers::{
    append_counted_ids, append_digest, append_known, append_u8, append_u32, is_ascending,
};
use std::alloc::Global;

pub(crate) const TAG: u8 = 0x48;

pub(crate) const VERSION: u8 = 1;

// How many members a new group may have, and how many predecessors a message.
pub(crate) const GREATEST_COUNT: u8 = 32;

/// What a message does.
#[derive(Clone, Copy, Debug, PartialEq, Eq)]
pub enum Kind {
    /// Makes the group.
    Create,
    /// Brings new secrets.
    Update,
    /// Removes a member.
    Remove,
    /// Adds a member.
    Add,
    /// Acknowledges a create, an update, a remove, or the add of its sender.
    Ack,
    /// Acknowledges the add of somebody else.
    AddAck,
    /// Carries a sealed text.
    Text,
}

/// Whom or what a message is about, by its kind.
#[derive(Debug, Drop)]
pub enum Target {
    /// The members of a new group (create): 1 to 32, each id above the one before it.
    Members(Ids),
    /// Update and text.
    Nothing,
    /// The member that is removed or added.
    Member(MemberId),
    /// The message that is acknowledged, and whether its operation was taken. An add-ack always has `true`.
    Answer(MessageId, bool),
}

/// The header of a message. What is left of the message has the digest `body`.
#[derive(Debug, Drop)]
pub struct Header {
    /// The parameters that the group's keys are of: 1 or 2.
    pub set: u8,
    /// The group whose message it is.
    pub group: GroupId,
    /// The member that made the message.
    pub sender: MemberId,
    /// The number of this message among those of its sender, from 1.
    pub seq: u32,
    /// What the message does.
    pub kind: Kind,
    /// Whom or what the message is about: one of those that its kind may have.
    pub target: Target,
    /// The messages that the sender knew of and no other that it knew of has as its predecessor: at most 32, each id
    /// above the one before it.
    pub predecessors: Ids,
    /// SHA-256 of the message's body.
    pub body: Digest,
}

impl Kind {
    // The number by which a header names the kind.
    pub(crate) fn number(self) -> u8
        ensures { result ≡ kind_number self }
    {
        match self {
            Kind::Create => 1,
            Kind::Update => 2,
            Kind::Remove => 3,
            Kind::Add => 4,
            Kind::Ack => 5,
            Kind::AddAck => 6,
            Kind::Text => 7,
        }
    }
}

impl Header {
    /// Whether the header has a spelling, which `write_header` asks for.
    pub fn has_spelling(&self) -> bool
        ensures { IsTrue result ↔ HasSpelling self.now }
    {
        (self.set == 1 || self.set == 2)
            && self.seq >= 1
            && suits_kind(self.kind, &self.target)
            && are_counted(0, self.predecessors.as_slice())
    }
}

// Whether the ids are at least so many and at most 32, each above the one before it.
fn are_counted(least: usize, ids: &[Digest]) -> bool
    ensures { IsTrue result ↔ AreCounted least 32 ids.now }
{
    least <= ids.len() && ids.len() <= GREATEST_COUNT as usize && is_ascending(ids)
}

// Whether a message of the kind may have the target.
fn suits_kind(kind: Kind, target: &Target) -> bool
    ensures { IsTrue result ↔ SuitsKind kind target.now }
{
    match (kind, target) {
        (Kind::Create, Target::Members(ids)) => are_counted(1, ids.as_slice()),
        (Kind::Update | Kind::Text, Target::Nothing) => true,
        (Kind::Remove | Kind::Add, Target::Member(_)) => true,
        (Kind::Ack, Target::Answer(_, _)) => true,
        (Kind::AddAck, Target::Answer(_, took)) => *took,
        _ => false,
    }
}

// Appends the number of a kind.
fn append_kind(bytes: &mut Vec<u8>, value: Kind) -> Result<(), Memory>
    ensures { OnOk result (Appends kind value bytes.old.items bytes.new.items) }
{
    append_u8(bytes, value.number())
}

// Appends whether an operation was taken.
fn append_flag(bytes: &mut Vec<u8>, took: bool) -> Result<(), Memory>
    ensures { OnOk result (Appends took_flag took bytes.old.items bytes.new.items) }
{
    append_u8(bytes, u8::from(took))
}

// Appends what a message of a kind is about.
fn append_target(bytes: &mut Vec<u8>, kind: Kind, about: &Target) -> Result<(), Memory>
    requires { SuitsKind kind about.now }
    ensures { OnOk result (Appends (target kind) about.now bytes.old.items bytes.new.items) }
{
    match about {
        Target::Members(ids) => append_counted_ids(bytes, ids.as_slice()),
        Target::Nothing => Ok(()),
        Target::Member(id) => append_digest(bytes, id.0),
        Target::Answer(id, took) => {
            append_digest(bytes, id.0)?;
            match kind {
                Kind::Ack => append_flag(bytes, *took),
                _ => Ok(()),
            }
        }
    }
}

/// The one spelling of a header.
pub fn write_header(alloc: Global, header: &Header) -> Result<Bytes, Memory>
    requires { HasSpelling header.now }
    ensures spells { IfOk result (λ bytes. Spells header.now bytes) }
    ensures whole { IfOk result (λ bytes. bytes ≡ spelling header.now) }
{
    let mut bytes = Vec::new(alloc);
    append_known(&mut bytes, &[TAG])?;
    append_known(&mut bytes, &[VERSION])?;
    append_u8(&mut bytes, header.set)?;
    append_digest(&mut bytes, header.group.0)?;
    append_digest(&mut bytes, header.sender.0)?;
    append_u32(&mut bytes, header.seq)?;
    append_kind(&mut bytes, header.kind)?;
    append_target(&mut bytes, header.kind, &header.target)?;
    append_counted_ids(&mut bytes, header.predecessors.as_slice())?;
    append_digest(&mut bytes, header.body)?;
    Ok(Bytes::from(bytes))
}

/// The law of spellings: bytes spell one header at most, a header has one spelling, and what bytes spell has one.
#[tactic(auto, using(crate::proofs::HeaderBytes::one_header, crate::proofs::HeaderBytes::one_header_spelling, crate::proofs::HeaderBytes::spelled_has))]
pub fn headers_are_spelled_once()
    ensures one_header { (bytes : List ℕ) (a b : Header) → Spells a bytes → Spells b bytes → a ≡ b }
    ensures one_spelling { (header : Header) (a b : List ℕ) → Spells header a → Spells header b → a ≡ b }
    ensures has_spelling { (header : Header) (bytes : List ℕ) → Spells header bytes → HasSpelling header }
{}

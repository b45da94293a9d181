ghost use Rattle.std.specs.Prelude.{◌≡◌, ◌<◌, ◌≤◌, ◌+◌, ◌^◌, length, IfOk, IfErr, OnOk};
ghost use Rattle.group_fields.specs.HeaderViews.{header_of, target_of};
ghost use Rattle.group_fields.specs.Headers.{HasSpelling, IsHeaderFault, Spells, header, kind, kind_of, message_id};
ghost use Rattle.group_fields.specs.Headers.{spelling, target, took_flag};
ghost use Rattle.group_fields.specs.LayoutReads.{Takes, read_whole, whole_seen};
ghost use Rattle.group_fields.specs.declared.fault.FieldFault.{FieldFault};
ghost use Rattle.group_fields.specs.declared.header.Header.{Header};

use crate::Memory;
use crate::cursor::Cursor;
use crate::fault::FieldFault;
use crate::fields::{end, take_counted_ids, take_digest, take_known, take_u8, take_u32};
use crate::header::{GREATEST_COUNT, Header, Kind, TAG, Target, VERSION};
use crate::ids::{Digest, GroupId, MemberId, MessageId};
use crate::ids_view::IdsView;
use sha2::{Digest as Hasher, Sha256};
use std::alloc::Global;
use std::marker::Model;

/// Whom or what a message is about, as `Target` has it, with ids that are lent.
#[derive(Debug, Drop)]
pub enum TargetView<'a> {
    /// The members of a new group (create).
    Members(IdsView<'a>),
    /// Update and text.
    Nothing,
    /// The member that is removed or added.
    Member(MemberId),
    /// The message that is acknowledged, and whether its operation was taken. An add-ack always has `true`.
    Answer(MessageId, bool),
}

impl<'a> TargetView<'a> {
    /// The same target once more.
    pub fn again(&self) -> TargetView<'a>
        ensures { result ≡ self.now }
    {
        match self {
            TargetView::Members(ids) => TargetView::Members(ids.again()),
            TargetView::Nothing => TargetView::Nothing,
            TargetView::Member(id) => TargetView::Member(*id),
            TargetView::Answer(id, took) => TargetView::Answer(*id, *took),
        }
    }

    /// The target as a value of its own.
    pub fn to_target(&self, alloc: Global) -> Result<Target, Memory>
        ensures { IfOk result (λ value. value ≡ target_of self.now) }
    {
        Ok(match self {
            TargetView::Members(ids) => Target::Members(ids.to_ids(alloc)?),
            TargetView::Nothing => Target::Nothing,
            TargetView::Member(id) => Target::Member(*id),
            TargetView::Answer(id, took) => Target::Answer(*id, *took),
        })
    }
}

// The values of a header's fields.
#[derive(Debug, Drop)]
pub struct HeaderParts<'a> {
    set: u8,
    group: GroupId,
    sender: MemberId,
    seq: u32,
    kind: Kind,
    target: TargetView<'a>,
    predecessors: IdsView<'a>,
    body: Digest,
}

impl<'a> HeaderParts<'a> {
    fn again(&self) -> HeaderParts<'a>
        ensures { result ≡ self.now }
    {
        HeaderParts {
            set: self.set,
            group: self.group,
            sender: self.sender,
            seq: self.seq,
            kind: self.kind,
            target: self.target.again(),
            predecessors: self.predecessors.again(),
            body: self.body,
        }
    }
}

/// A header that is lent out of the bytes that spell it. Contracts see the header.
#[derive(Debug, Drop)]
pub struct HeaderView<'a> {
    bytes: &'a [u8],
    parts: HeaderParts<'a>,
}

impl<'a> Model for HeaderView<'a> {
    ghost use Rattle.group_fields.specs.declared.header.Header.{Header};

    ghost Value = { Header };

    ghost use Rattle.group_fields.specs.HeaderViews.{header_of};
    ghost use Rattle.group_fields.specs.Headers.{Spells};

    ghost view = { λ header. header_of header.parts };

    ghost invariant = { λ header. Spells (header_of header.parts) header.bytes.now };
}

impl<'a> HeaderView<'a> {
    /// The bytes that were read, at most 2,154.
    #[tactic(auto, using(crate::proofs::HeaderBytes::spelling_is, crate::proofs::HeaderBytes::spelled_has, crate::proofs::HeaderBytes::header_short))]
    pub fn bytes(&self) -> &'a [u8]
        ensures spells { Spells self.now result.now }
        ensures exact { result.now ≡ spelling self.now }
        ensures has { HasSpelling self.now }
        ensures short { length result.now ≤ 2154 }
    {
        self.bytes
    }

    /// The message that the header is of: SHA-256 of its bytes.
    #[tactic(auto, using(crate::proofs::HeaderBytes::id_is))]
    pub fn id(&self) -> MessageId
        ensures { result.0.0 ≡ message_id self.now }
    {
        MessageId(Digest(Sha256::digest(self.bytes)))
    }

    /// Which parameters the group's keys are of: 1 or 2.
    pub fn set(&self) -> u8
        ensures { result ≡ self.now.set }
    {
        self.parts.set
    }

    /// The group whose message it is.
    pub fn group(&self) -> GroupId
        ensures { result ≡ self.now.group }
    {
        self.parts.group
    }

    /// The member that made the message.
    pub fn sender(&self) -> MemberId
        ensures { result ≡ self.now.sender }
    {
        self.parts.sender
    }

    /// The number of the message among those of its sender, from 1.
    pub fn seq(&self) -> u32
        ensures { result ≡ self.now.seq }
    {
        self.parts.seq
    }

    /// What the message does.
    pub fn kind(&self) -> Kind
        ensures { result ≡ self.now.kind }
    {
        self.parts.kind
    }

    /// Whom or what the message is about.
    pub fn target(&self) -> TargetView<'a>
        ensures { target_of result ≡ self.now.target }
    {
        self.parts.target.again()
    }

    /// The messages that the sender knew of and no other that it knew of has as its predecessor.
    pub fn predecessors(&self) -> IdsView<'a>
        ensures { result ≡ self.now.predecessors }
    {
        self.parts.predecessors.again()
    }

    /// SHA-256 of the message's body.
    pub fn body(&self) -> Digest
        ensures { result ≡ self.now.body }
    {
        self.parts.body
    }

    /// The same header once more.
    pub fn again(&self) -> HeaderView<'a>
        ensures { result ≡ self.now }
    {
        HeaderView {
            bytes: self.bytes,
            parts: self.parts.again(),
        }
    }

    /// The header as a value of its own.
    pub fn to_header(&self, alloc: Global) -> Result<Header, Memory>
        ensures { IfOk result (λ header. header ≡ self.now) }
    {
        let about = self.target().to_target(alloc)?;
        let predecessors = self.predecessors().to_ids(alloc)?;
        Ok(Header {
            set: self.set(),
            group: self.group(),
            sender: self.sender(),
            seq: self.seq(),
            kind: self.kind(),
            target: about,
            predecessors,
            body: self.body(),
        })
    }
}

// The kind of a number from 1 to 7.
fn kind_of(number: u8) -> Kind
    ensures { result ≡ kind_of number }
{
    match number {
        1 => Kind::Create,
        2 => Kind::Update,
        3 => Kind::Remove,
        4 => Kind::Add,
        5 => Kind::Ack,
        6 => Kind::AddAck,
        _ => Kind::Text,
    }
}

// A kind, by its number.
fn take_kind(cursor: &mut Cursor<'_>) -> Result<Kind, FieldFault>
    requires { cursor.old.place < 2 ^ 32 }
    ensures takes { Takes (λ kind. kind) kind cursor.old cursor.new result }
    ensures moved { OnOk result (cursor.new.place ≡ cursor.old.place + 1) }
{
    let number = take_u8(cursor, 1, 7)?;
    Ok(kind_of(number))
}

// Whether an operation was taken.
fn take_flag(cursor: &mut Cursor<'_>) -> Result<bool, FieldFault>
    requires { cursor.old.place < 2 ^ 32 }
    ensures takes { Takes (λ took. took) took_flag cursor.old cursor.new result }
    ensures moved { OnOk result (cursor.new.place ≡ cursor.old.place + 1) }
{
    let number = take_u8(cursor, 0, 1)?;
    Ok(number == 1)
}

// What a message of a kind is about.
#[tactic(auto, unfolding(crate::specs::Headers::members, crate::specs::Headers::member, crate::specs::Headers::answer, crate::specs::Headers::taken_answer, crate::specs::LayoutReads::read))]
fn take_target<'a>(cursor: &mut Cursor<'a>, kind: Kind) -> Result<TargetView<'a>, FieldFault>
    requires within { cursor.old.place ≤ length cursor.old.whole }
    requires room { cursor.old.place < 2 ^ 30 }
    ensures takes { Takes target_of (target kind) cursor.old cursor.new result }
    ensures moved { OnOk result (cursor.new.place ≤ cursor.old.place + 1025) }
{
    match kind {
        Kind::Create => {
            let ids = take_counted_ids(cursor, 1, GREATEST_COUNT)?;
            Ok(TargetView::Members(ids))
        }
        Kind::Update | Kind::Text => Ok(TargetView::Nothing),
        Kind::Remove | Kind::Add => {
            let id = take_digest(cursor)?;
            Ok(TargetView::Member(MemberId(id)))
        }
        Kind::Ack => {
            let id = take_digest(cursor)?;
            let took = take_flag(cursor)?;
            Ok(TargetView::Answer(MessageId(id), took))
        }
        Kind::AddAck => {
            let id = take_digest(cursor)?;
            Ok(TargetView::Answer(MessageId(id), true))
        }
    }
}

// The fields of a header.
#[tactic(auto, unfolding(crate::specs::Headers::header, crate::specs::LayoutReads::read))]
fn take_parts<'a>(cursor: &mut Cursor<'a>) -> Result<HeaderParts<'a>, FieldFault>
    requires { cursor.old.place < 2 ^ 29 }
    ensures takes { Takes header_of header cursor.old cursor.new result }
    ensures moved { OnOk result (cursor.new.place ≤ cursor.old.place + 2154) }
{
    take_known(cursor, &[TAG])?;
    take_known(cursor, &[VERSION])?;
    let set = take_u8(cursor, 1, 2)?;
    let group = take_digest(cursor)?;
    let sender = take_digest(cursor)?;
    let seq = take_u32(cursor, 1, u32::MAX)?;
    let kind = take_kind(cursor)?;
    let target = take_target(cursor, kind)?;
    let predecessors = take_counted_ids(cursor, 0, GREATEST_COUNT)?;
    let body = take_digest(cursor)?;
    Ok(HeaderParts {
        set,
        group: GroupId(group),
        sender: MemberId(sender),
        seq,
        kind,
        target,
        predecessors,
        body,
    })
}

/// Takes a header. It lends its ids out of its bytes, of which there are at most 2,154.
pub fn take_header<'a>(cursor: &mut Cursor<'a>) -> Result<HeaderView<'a>, FieldFault>
    requires { cursor.old.place < 2 ^ 29 }
    ensures takes { Takes (λ header. header) header cursor.old cursor.new result }
    ensures moved { OnOk result (cursor.new.place ≤ cursor.old.place + 2154) }
{
    let from = cursor.place();
    let parts = take_parts(cursor)?;
    let _end = cursor.place();
    Ok(HeaderView {
        bytes: cursor.since(from),
        parts,
    })
}

// A header, and nothing may be left over.
#[tactic(auto, using(crate::proofs::WholeReads::whole_end, crate::proofs::WholeReads::whole_stop))]
fn read_whole_header(bytes: &[u8]) -> Result<HeaderView<'_>, FieldFault>
    ensures { read_whole header 0 bytes.now ≡ whole_seen (λ header. header) result }
{
    let mut cursor = Cursor::new(bytes);
    let header = take_header(&mut cursor)?;
    end(&mut cursor)?;
    Ok(header)
}

/// The header that the bytes spell, all of them. It lends its ids out of them.
///
/// A fault is the one with the least place: `Short` the first field that does not fit, `Range` the first with a value
/// that is not allowed, `Excess` the first byte that is left over. Each id of a list is a field of its own.
pub fn read_header(bytes: &[u8]) -> Result<HeaderView<'_>, FieldFault>
    // What reading the layout from left to right gives.
    ensures exact { read_whole header 0 bytes.now ≡ whole_seen (λ header. header) result }

    // What is read is what the bytes spell.
    ensures found { IfOk result (λ header. Spells header bytes.now) }

    // Each header that they spell is read.
    ensures only { (header : Header) → Spells header bytes.now → result ≡ Ok header }

    // Bytes that spell no header have a least fault, which is the one that is answered.
    ensures refused { IfErr result (λ fault. IsHeaderFault bytes.now fault) }
    ensures least { (fault : FieldFault) → IsHeaderFault bytes.now fault → result ≡ Err fault }
{
    read_whole_header(bytes)
}

ghost use Rattle.std.specs.Prelude.{◌≡◌, ◌<◌, ◌≤◌, ◌↔◌, ℕ, Ok, Err, Some, length, slice_get, IfOk, IfErr, IsSome};
ghost use Rattle.std.specs.Option.{option_map};
ghost use Rattle.std.specs.Int.{w16, w32};
ghost use Rattle.group_fields.specs.Headers as headers;
ghost use Rattle.group_fields.specs.LayoutReads.{Takes, read_whole, whole_seen};
ghost use Rattle.group_fields.specs.Layouts.{number, sized};
ghost use Rattle.group_fields.specs.declared.header.Kind.TheVariants.{Add, Text};
ghost use Rattle.wire_codec.specs.Packets.{IsMalformed, IsPacket, Packet, body, greatest_size, is_body_of, packet};
ghost use Rattle.wire_codec.specs.Readings.{IsIn};
ghost use Rattle.wire_codec.specs.Views.{body_seen, packet_of};

use crate::body::{BodyView, read_body};
use crate::faults::{fault_behind, place_of};
use crate::history::HistoryView;
use crate::rows::take_row;
use crate::signature::take_signature;
use group_fields::{
    CardView, Cursor, FieldFault, HeaderView, MemberId, end, read_card, take_bytes, take_known,
    take_u32,
};
use sha2::{Digest as Hasher, Sha256};
use std::marker::Model;

pub(crate) const MAGIC: [u8; 4] = *b"DCGP";

// The most bytes that a packet has.
const GREATEST_SIZE: usize = 8_388_608;

/// Bytes that are no packet, with the least place at which they are refused.
#[derive(Clone, Copy, Debug, PartialEq, Eq)]
pub struct Malformed(pub u32);

// The values of a packet's fields.
#[derive(Debug, Drop)]
pub struct PacketFields<'a> {
    header: HeaderView<'a>,
    body: BodyView<'a>,
    signature: &'a [u8],
}

/// A packet that is lent out of the bytes that spell it. Contracts see the packet.
#[derive(Debug, Drop)]
pub struct PacketView<'a> {
    bytes: &'a [u8],
    fields: PacketFields<'a>,
}

impl<'a> Model for PacketView<'a> {
    ghost use Rattle.wire_codec.specs.Packets.{IsPacket, Packet};

    ghost Value = { Packet };

    ghost use Rattle.wire_codec.specs.Views.{packet_of};

    ghost view = { λ packet. packet_of packet.fields };

    ghost invariant = { λ packet. IsPacket (packet_of packet.fields) packet.bytes.now };
}

// Whether a body has the digest that the header names.
fn has_digest(bytes: &[u8], header: &HeaderView<'_>) -> bool
    ensures { result ≡ is_body_of header.now bytes.now }
{
    Sha256::digest(bytes) == header.body().0
}

// The body behind a header, with its length before it. Its digest has to be the one that the header names.
fn take_sized_body<'a>(
    cursor: &mut Cursor<'a>,
    header: &HeaderView<'_>,
) -> Result<BodyView<'a>, FieldFault>
    requires { IsIn greatest_size cursor.old }
    ensures { Takes body_seen (sized (number w32 0 0xffff_ffff) (is_body_of header.now)
        (body header.now.set header.now.kind header.now.target)) cursor.old cursor.new result }
{
    let size = take_u32(cursor, 0, u32::MAX)?;
    let place = cursor.place() as u32;
    let bytes = take_bytes(cursor, size as usize)?;
    if !has_digest(bytes, header) {
        return Err(FieldFault::Range(place));
    }
    match read_body(bytes, header) {
        Ok(body) => Ok(body),
        Err(fault) => Err(fault_behind(place, fault)),
    }
}

// The fields of a packet.
#[tactic(auto, unfolding(crate::specs::Packets::packet, group_fields::specs::LayoutReads::read))]
fn take_fields<'a>(cursor: &mut Cursor<'a>) -> Result<PacketFields<'a>, FieldFault>
    requires { IsIn greatest_size cursor.old }
    ensures { Takes packet_of packet cursor.old cursor.new result }
{
    take_known(cursor, &MAGIC)?;
    let header = take_row(cursor)?;
    let body = take_sized_body(cursor, &header)?;
    let signature = take_signature(cursor, header.set())?;
    Ok(PacketFields {
        header,
        body,
        signature,
    })
}

// The fields of a packet, and nothing may be left over.
fn read_fields(bytes: &[u8]) -> Result<PacketFields<'_>, FieldFault>
    requires { length bytes.now ≤ greatest_size }
    ensures { read_whole packet 0 bytes.now ≡ whole_seen packet_of result }
{
    let mut cursor = Cursor::new(bytes);
    let fields = take_fields(&mut cursor)?;
    end(&mut cursor)?;
    Ok(fields)
}

impl<'a> PacketView<'a> {
    /// The packet that the bytes spell, all of them. It lends its parts out of them.
    ///
    /// Bytes that are no packet are refused at the least place where a field does not fit, has a value that is not
    /// allowed, or is left over. More than 8,388,608 bytes are refused at place 8388608, before all else.
    pub fn parse(bytes: &'a [u8]) -> Result<PacketView<'a>, Malformed>
        // What is read is what the bytes spell.
        ensures found { IfOk result (λ packet. IsPacket packet bytes.now) }

        // Each packet that they spell is read.
        ensures only { (packet : Packet) → IsPacket packet bytes.now → result ≡ Ok packet }

        // Bytes that spell no packet have a least place at which they are refused, which is the one that is answered.
        ensures refused { IfErr result (λ malformed. IsMalformed bytes.now malformed.0) }
        ensures least { (place : ℕ) → IsMalformed bytes.now place → result ≡ Err (record { 0 = place }) }
    {
        if bytes.len() > GREATEST_SIZE {
            return Err(Malformed(GREATEST_SIZE as u32));
        }
        match read_fields(bytes) {
            Ok(fields) => Ok(PacketView { bytes, fields }),
            Err(fault) => Err(Malformed(place_of(fault))),
        }
    }

    /// The bytes that were read.
    pub fn bytes(&self) -> &'a [u8]
        ensures { IsPacket self.now result.now }
    {
        self.bytes
    }

    /// The header of the message.
    pub fn header(&self) -> HeaderView<'a>
        ensures { result ≡ self.now.header }
    {
        self.fields.header.again()
    }

    /// How many cards there are: those of a create, or the one of an add. It is 0 for the other kinds.
    pub fn cards(&self) -> u8
        ensures { result ≡ length self.now.cards }
    {
        match &self.fields.body {
            BodyView::Create(view) => view.cards.count(),
            BodyView::Add(_) => 1,
            BodyView::Parts(_) | BodyView::Text(_) => 0,
        }
    }

    /// The card at an index below the count.
    pub fn card(&self, index: u8) -> CardView<'a>
        requires { index < length self.now.cards }
        ensures { slice_get self.now.cards index ≡ Some result }
    {
        match &self.fields.body {
            BodyView::Create(view) => view.cards.card(index),
            BodyView::Add(view) => read_card(view.card.bytes()).unwrap(),
            BodyView::Parts(_) | BodyView::Text(_) => unreachable!(),
        }
    }

    /// How many parts there are, at most 31: 1 for an add, at most 1 for an add-ack, and 0 for a text.
    pub fn parts(&self) -> u8
        ensures { result ≡ length self.now.parts }
    {
        match &self.fields.body {
            BodyView::Create(view) => view.parts.count(),
            BodyView::Parts(parts) => parts.count(),
            BodyView::Add(_) => 1,
            BodyView::Text(_) => 0,
        }
    }

    /// The part at an index below the count, and the member that it is for: of an add, the member that it adds.
    pub fn part(&self, index: u8) -> (MemberId, &'a [u8])
        requires { index < length self.now.parts }
        ensures { slice_get self.now.parts index ≡ Some (record { to = result.0; bytes = result.1.now }) }
    {
        match &self.fields.body {
            BodyView::Create(view) => view.parts.part(index),
            BodyView::Parts(parts) => parts.part(index),
            BodyView::Add(view) => (view.to, view.part),
            BodyView::Text(_) => unreachable!(),
        }
    }

    /// The history that an add hands on.
    pub fn history(&self) -> Option<HistoryView<'a>>
        ensures history { result ≡ self.now.history }
        ensures add { IsSome result ↔ (self.now.header.kind ≡ Add) }
    {
        match &self.fields.body {
            BodyView::Add(view) => Some(view.history.again()),
            BodyView::Create(_) | BodyView::Parts(_) | BodyView::Text(_) => None,
        }
    }

    /// The sealed text of a text, and its tag.
    pub fn text(&self) -> Option<(&'a [u8], &'a [u8; 32])>
        ensures text { option_map (λ pair. record { body = pair.0.now; tag = pair.1.now }) result ≡ self.now.text }
        ensures is_text { IsSome result ↔ (self.now.header.kind ≡ Text) }
    {
        match &self.fields.body {
            BodyView::Text(view) => Some((view.body, view.tag)),
            BodyView::Create(_) | BodyView::Parts(_) | BodyView::Add(_) => None,
        }
    }

    /// The bytes of the signature.
    pub fn signature(&self) -> &'a [u8]
        ensures { result.now ≡ self.now.signature }
    {
        self.fields.signature
    }
}

mod fixtures;

use super::*;
use fixtures::Piece::{Bytes, Fill};
use fixtures::*;
use group_fields::{Kind, MemberId};
use std::alloc::{AllocError, Global};
use std::test::Fail;

// The sizes of the fields of a card and of a part of set 2.
const CARD: [u32; 9] = [1, 1, 1, 4, 4, 16, 32, 32, 33];

const PART: [u32; 5] = [1, 4, 58, 164, 32];

// The sizes of the fields of the body of a kind.
fn body_fields(alloc: Global, kind: u8) -> Result<Vec<u32>, AllocError> {
    match kind {
        1 => in_order(alloc, &[&CARD, &CARD, &[1, 32], &PART]),
        4 => in_order(
            alloc,
            &[&CARD, &PART, &[1], &CARD, &CARD, &[2, 2, 105, 2, 105]],
        ),
        6 => in_order(alloc, &[&[1, 32], &PART]),
        7 => in_order(alloc, &[&[2, 5, 32]]),
        _ => in_order(alloc, &[&[1, 32], &PART, &[32], &PART]),
    }
}

fn in_order(alloc: Global, lists: &[&[u32]]) -> Result<Vec<u32>, AllocError> {
    let mut all = Vec::new(alloc);
    for list in lists {
        all.extend_from_slice(list)?;
    }
    Ok(all)
}

// The place of the first field that does not fit into so many bytes.
fn place_of_cut(fields: &[u32], length: u32) -> u32 {
    let mut place: u32 = 0;
    for size in fields {
        let end = place.saturating_add(*size);
        if end > length {
            return place;
        }
        place = end;
    }
    place
}

fn sum(fields: &[u32]) -> u32 {
    place_of_cut(fields, u32::MAX)
}

// Where a packet is refused of which only so many bytes are there.
fn refused_cut(bytes: &[u8], length: u32) -> Option<u32> {
    refused_at(bytes.get(..length as usize)?)
}

// How many bytes are left, and where they are refused, if at all.
type Cut = (u32, Option<u32>);

// The first length to which bytes are cut without being refused at the field that does not fit. Bytes that have the
// fields and nothing more are not to be refused.
fn differing_cut(bytes: &[u8], fields: &[u32]) -> Option<Cut> {
    let whole = sum(fields);
    for length in 0..=whole.saturating_add(1) {
        let place = Some(place_of_cut(fields, length));
        let wanted = if length == whole { None } else { place };
        let refused = refused_cut(bytes, length);
        if refused != wanted {
            return Some((length, refused));
        }
    }
    None
}

// The same for the packet of a kind, with its header of so many bytes, and one byte behind it.
fn differing_packet(alloc: Global, kind: u8, header: u32) -> Result<Option<Cut>, AllocError> {
    let size = sum(&body_fields(alloc, kind)?);
    let fields = [4, 2, header, 4, size, 4, 4, 32, 2144, 4, 160];
    let packet = packet_of(alloc, kind)?;
    let bytes = spelled(alloc, &[Bytes(&packet), Fill(0, 1)])?;
    Ok(differing_cut(&bytes, &fields))
}

// Where a message of set 2 with this body is refused.
fn refused_body(
    alloc: Global,
    kind: u8,
    target: &[u8],
    body: &[u8],
    signature: &[u8],
) -> Result<Option<u32>, AllocError> {
    let header = header(alloc, 2, kind, target, 1, digest_of(body))?;
    refused_joined(alloc, &header, body, signature)
}

// The first length to which the body of a kind is cut without being refused at the field that does not fit.
fn differing_body(alloc: Global, kind: u8, header: u32) -> Result<Option<Cut>, AllocError> {
    let before = sum(&[4, 2, header, 4]);
    let fields = body_fields(alloc, kind)?;
    let target = target(alloc, kind)?;
    let body = body(alloc, kind)?;
    let signature = signature(alloc, 5)?;
    for length in 0..sum(&fields) {
        let place = before.saturating_add(place_of_cut(&fields, length));
        let cut = body.get(..length as usize).unwrap_or(&body);
        let refused = refused_body(alloc, kind, &target, cut, &signature)?;
        if refused != Some(place) {
            return Ok(Some((length, refused)));
        }
    }
    Ok(None)
}

// The bytes of a header of a kind of set 2: those of its target beside 138.
const HEADERS: [(u8, u32); 7] = [
    (1, 202),
    (2, 137),
    (3, 169),
    (4, 169),
    (5, 170),
    (6, 169),
    (7, 137),
];

#[test]
fn refuses_cut_packets_at_the_field_that_does_not_fit(rt: HostRuntime) -> Result<(), Fail> {
    let alloc = rt.alloc();
    for (kind, header) in HEADERS {
        assert_eq!(rt; differing_packet(alloc, kind, header)?, None, "kind {kind}");
        assert_eq!(rt;
            differing_body(alloc, kind, header)?,
            None,
            "body of kind {kind}"
        );
    }
    Ok(())
}

// A create of one member of set 1, of the sizes that the format gives.
fn worked_create(alloc: Global) -> Result<Vec<u8>, AllocError> {
    let card = card(alloc, 1, 1)?;
    let target = spelled(alloc, &[Fill(1, 1), Bytes(&digest_of(&card))])?;
    let body = spelled(alloc, &[Bytes(&card), Fill(0, 1)])?;
    let header = header(alloc, 1, 1, &target, 0, digest_of(&body))?;
    joined(alloc, &header, &body, &signature(alloc, 6)?)
}

// A text of set 1 likewise.
fn worked_text(alloc: Global) -> Result<Vec<u8>, AllocError> {
    packet(alloc, 1, 7, &[], &text_body(alloc, 5)?)
}

// Where a packet is refused with one byte changed to its inverse.
fn refused_inverted(alloc: Global, bytes: &[u8], place: u32) -> Result<Option<u32>, AllocError> {
    let mut inverted = bytes.to_vec(alloc)?;
    if let Some(byte) = inverted.get_mut(place as usize) {
        *byte = !*byte;
    }
    Ok(refused_at(&inverted))
}

// How many bytes of the text are left, and where these are refused.
const CUTS: [(u32, u32); 6] = [
    (0, 0),
    (5, 4),
    (2693, 2374),
    (2370, 2370),
    (226, 226),
    (194, 194),
];

// Bytes of the text, and where it is refused with one of them inverted.
const INVERTED: [(&[u32], Option<u32>); 9] = [
    (&[0, 1, 2, 3], Some(0)),
    (&[4, 6], Some(6)),
    (&[5], Some(111)),
    (&[7], Some(7)),
    (&[8], Some(8)),
    (&[143, 144, 145, 146, 147, 148, 185], Some(147)),
    (&[190, 191, 192, 193], Some(190)),
    (&[2370, 2371, 2372, 2373], Some(2370)),
    (&[186, 189, 194, 225, 226, 2369, 2374, 2693], None),
];

#[test]
fn worked_packets_have_their_sizes_and_places(rt: HostRuntime) -> Result<(), Fail> {
    let alloc = rt.alloc();
    let create = worked_create(alloc)?;
    let text = worked_text(alloc)?;
    assert_eq!(rt; (create.len(), text.len()), (3906, 2694));
    assert_eq!(rt; (refused_at(&create), refused_at(&text)), (None, None));
    for (length, place) in CUTS {
        assert_eq!(rt; refused_cut(&text, length), Some(place), "cut at {length}");
    }
    for (bytes, place) in INVERTED {
        for byte in bytes {
            assert_eq!(rt;
                refused_inverted(alloc, &text, *byte)?,
                place,
                "byte {byte}"
            );
        }
    }
    Ok(())
}

// A case, and where its body is refused.
const CASES: [(Case, Option<u32>); 32] = [
    (Case::Parts(2, 0), None),
    (Case::Parts(2, 31), None),
    (Case::Parts(2, 32), Some(0)),
    (Case::Parts(3, 31), None),
    (Case::Parts(3, 32), Some(0)),
    (Case::Parts(5, 31), None),
    (Case::Parts(5, 32), Some(0)),
    (Case::Parts(6, 0), None),
    (Case::Parts(6, 1), None),
    (Case::Parts(6, 2), Some(0)),
    (Case::Order(4, 5), None),
    (Case::Order(4, 4), Some(292)),
    (Case::Order(5, 4), Some(292)),
    (Case::Text(0), None),
    (Case::Text(4096), None),
    (Case::Text(4097), Some(0)),
    (Case::Create(0, 1), None),
    (Case::Create(1, 0), Some(0)),
    (Case::Create(0, 2), Some(124)),
    (Case::OtherSet, Some(2)),
    (Case::Add(2), None),
    (Case::Add(1), Some(0)),
    (Case::History(0, 0), None),
    (Case::History(32, 1), None),
    (Case::History(33, 0), Some(383)),
    (Case::History(1, 4095), None),
    (Case::History(1, 4096), Some(508)),
    (Case::Cards(1, 0), Some(508)),
    (Case::Cards(1, 1), Some(508)),
    (Case::CardInside, Some(509)),
    (Case::Row(104), Some(461)),
    (Case::Row(106), Some(493)),
];

// The first case that is refused elsewhere, and where.
fn differing_case(alloc: Global) -> Result<Option<(Case, Option<u32>)>, AllocError> {
    for (case, place) in CASES {
        let refused = refused_case(alloc, case)?;
        if refused != place {
            return Ok(Some((case, refused)));
        }
    }
    Ok(None)
}

// Where an update is refused whose parts do not ascend, and whose header names another digest.
fn refused_with_other_digest(alloc: Global) -> Result<Option<u32>, AllocError> {
    let body = parts(alloc, &[5, 4])?;
    let header = header(alloc, 2, 2, &[], 1, [0; 32])?;
    refused_joined(alloc, &header, &body, &signature(alloc, 5)?)
}

// Where a text of a set is refused whose signature has an LMS type.
fn refused_with_type(alloc: Global, set: u8, lms_type: u8) -> Result<Option<u32>, AllocError> {
    let body = text_body(alloc, 5)?;
    let header = header(alloc, set, 7, &[], 1, digest_of(&body))?;
    refused_joined(alloc, &header, &body, &signature(alloc, lms_type)?)
}

fn zeros(alloc: Global, count: usize) -> Result<Vec<u8>, AllocError> {
    vec![in alloc; 0; count]
}

// Where so many zeros are refused.
fn refused_zeros(alloc: Global, count: usize) -> Result<Option<u32>, AllocError> {
    let zeros = zeros(alloc, count)?;
    Ok(refused_at(&zeros))
}

#[test]
fn refuses_bodies_at_their_least_place(rt: HostRuntime) -> Result<(), Fail> {
    let alloc = rt.alloc();
    let differing = differing_case(alloc)?;
    assert!(rt; differing.is_none(), "{differing:?}");
    // a digest that differs comes before each fault inside the body
    assert_eq!(rt; refused_with_other_digest(alloc)?, Some(147));
    // the LMS type decides how long the path is
    for (set, lms_type, place) in [
        (2, 5, None),
        (2, 6, None),
        (1, 5, Some(2370)),
        (2, 7, Some(2370)),
    ] {
        let refused = refused_with_type(alloc, set, lms_type)?;
        assert_eq!(rt; refused, place, "type {lms_type} of set {set}");
    }
    for (count, place) in [(8_388_609, 8_388_608), (8_388_608, 0)] {
        assert_eq!(rt; refused_zeros(alloc, count)?, Some(place), "{count} zeros");
    }
    Ok(())
}

// A kind of set 2, and what its packet lends: how many cards, and where the last begins; how many parts, where the
// last begins, and what its member's id is filled with. Where there is none, the place is 0.
const LENT: [(u8, (u8, usize), (u8, usize, u8)); 7] = [
    (1, (2, 336), (1, 493, 4)),
    (2, (0, 0), (2, 471, 5)),
    (3, (0, 0), (2, 503, 5)),
    (4, (1, 179), (1, 303, 0)),
    (5, (0, 0), (2, 504, 5)),
    (6, (0, 0), (1, 212, 4)),
    (7, (0, 0), (0, 0, 0)),
];

// So many bytes from a place on.
fn slice(bytes: &[u8], from: usize, size: usize) -> Option<&[u8]> {
    bytes.get(from..)?.get(..size)
}

fn last_card<'a>(packet: &PacketView<'a>) -> Option<&'a [u8]> {
    let count = packet.cards();
    if count == 0 {
        return None;
    }
    Some(packet.card(count - 1).bytes())
}

fn last_part<'a>(packet: &PacketView<'a>) -> Option<(MemberId, &'a [u8])> {
    let count = packet.parts();
    if count == 0 {
        return None;
    }
    Some(packet.part(count - 1))
}

// Whether a packet lends all its bytes, and the signature at their end.
fn lends_ends(bytes: &[u8]) -> Option<bool> {
    let packet = view(bytes).ok()?;
    let signature = slice(bytes, bytes.len().checked_sub(2348)?, 2348);
    Some(packet.bytes() == bytes && Some(packet.signature()) == signature)
}

// Whether a packet lends so many cards, of which the last begins at a place.
fn lends_cards(bytes: &[u8], count: u8, from: usize) -> Option<bool> {
    let packet = view(bytes).ok()?;
    let card = if count == 0 {
        None
    } else {
        slice(bytes, from, 124)
    };
    Some(packet.cards() == count && last_card(&packet) == card)
}

// Whether a packet lends so many parts, of which the last begins at a place, and is for a member whose id is filled
// with a byte. That of an add is for its target.
fn lends_parts(bytes: &[u8], count: u8, from: usize, id: u8) -> Option<bool> {
    let packet = view(bytes).ok()?;
    if packet.parts() != count {
        return Some(false);
    }
    let Some((member, part)) = last_part(&packet) else {
        return Some(count == 0);
    };
    let filled = [id; 32];
    let is_add = packet.header().kind() == Kind::Add;
    let id = if is_add {
        slice(bytes, 78, 32)
    } else {
        Some(filled.as_slice())
    };
    Some(Some(member.0.0.as_slice()) == id && Some(part) == slice(bytes, from, 259))
}

fn history_card<'a>(history: &HistoryView<'a>, index: u8) -> Option<&'a [u8]> {
    if index >= history.cards() {
        return None;
    }
    Some(history.card(index).bytes())
}

fn history_row<'a>(history: &HistoryView<'a>, index: u16) -> Option<&'a [u8]> {
    if index >= history.rows() {
        return None;
    }
    Some(history.row(index).bytes())
}

// What a walk meets that skips the first header, where it meets one header and no other.
fn walked<'a>(history: &HistoryView<'a>) -> Option<&'a [u8]> {
    let mut walk = history.all_rows();
    if walk.count() > 0 {
        walk.skip();
    }
    let row = walk.next()?;
    if walk.next().is_some() {
        return None;
    }
    Some(row.bytes())
}

// Whether the history of an add is its two cards and its two headers, by number and in a walk.
fn lends_history(bytes: &[u8]) -> Option<bool> {
    let history = view(bytes).ok()?.history()?;
    if history.cards() != 2 || history.rows() != 2 {
        return Some(false);
    }
    for (lent, from, size) in [
        (history_card(&history, 0), 563, 124),
        (history_card(&history, 1), 687, 124),
        (history_row(&history, 0), 815, 105),
        (history_row(&history, 1), 922, 105),
        (walked(&history), 922, 105),
    ] {
        if lent.is_none() || lent != slice(bytes, from, size) {
            return Some(false);
        }
    }
    Some(true)
}

fn text<'a>(packet: &PacketView<'a>) -> Option<(&'a [u8], &'a [u8; 32])> {
    packet.text()
}

// Whether a packet lends the sealed text and the tag behind it, and has no history.
fn lends_text(bytes: &[u8]) -> Option<bool> {
    let packet = view(bytes).ok()?;
    let (body, tag) = text(&packet)?;
    if packet.history().is_some() {
        return Some(false);
    }
    Some(Some(body) == slice(bytes, 149, 5) && Some(tag.as_slice()) == slice(bytes, 154, 32))
}

#[test]
fn lends_slices_of_the_packet(rt: HostRuntime) -> Result<(), Fail> {
    let alloc = rt.alloc();
    for (kind, (cards, card), (parts, part, id)) in LENT {
        let bytes = packet_of(alloc, kind)?;
        let history = if kind == 4 { Some(true) } else { None };
        let text = if kind == 7 { Some(true) } else { None };
        assert_eq!(rt; lends_ends(&bytes), Some(true), "kind {kind}");
        assert_eq!(rt;
            lends_cards(&bytes, cards, card),
            Some(true),
            "cards of kind {kind}"
        );
        assert_eq!(rt;
            lends_parts(&bytes, parts, part, id),
            Some(true),
            "parts of kind {kind}"
        );
        assert_eq!(rt; lends_history(&bytes), history, "history of kind {kind}");
        assert_eq!(rt; lends_text(&bytes), text, "text of kind {kind}");
    }
    Ok(())
}

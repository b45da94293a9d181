use crate::*;
use sha2::{Digest as Hasher, Sha256};
use std::alloc::{AllocError, Global};

// The tags of 33 cards of set 2 in the order of their ids, by Python's hashlib.
pub const TAGS: [u8; 33] = [
    18, 31, 13, 11, 6, 3, 5, 27, 30, 17, 1, 15, 20, 4, 32, 21, 2, 12, 9, 22, 7, 29, 14, 26, 23, 33,
    24, 16, 25, 10, 19, 8, 28,
];

// Bytes of a fixture: those of a slice, or one byte so many times.
#[derive(Clone, Copy)]
pub enum Piece<'a> {
    Bytes(&'a [u8]),
    Fill(u8, usize),
}

use Piece::{Bytes, Fill};

fn fill(bytes: &mut Vec<u8>, value: u8, count: usize) -> Result<(), AllocError> {
    for _ in 0..count {
        bytes.push(value)?;
    }
    Ok(())
}

fn append_piece(bytes: &mut Vec<u8>, piece: Piece<'_>) -> Result<(), AllocError> {
    match piece {
        Bytes(some) => bytes.extend_from_slice(some),
        Fill(value, count) => fill(bytes, value, count),
    }
}

// Appends the pieces, one behind the other.
fn append(bytes: &mut Vec<u8>, pieces: &[Piece<'_>]) -> Result<(), AllocError> {
    for piece in pieces {
        append_piece(bytes, *piece)?;
    }
    Ok(())
}

// The pieces, one behind the other.
pub fn spelled(alloc: Global, pieces: &[Piece<'_>]) -> Result<Vec<u8>, AllocError> {
    let mut bytes = Vec::new(alloc);
    append(&mut bytes, pieces)?;
    Ok(bytes)
}

fn count_of(items: &[u8]) -> u8 {
    u8::try_from(items.len()).unwrap_or(u8::MAX)
}

pub fn digest_of(bytes: &[u8]) -> [u8; 32] {
    Sha256::digest(bytes)
}

// Appends a card, whose fields of any value are filled with its tag.
fn append_card(bytes: &mut Vec<u8>, set: u8, tag: u8) -> Result<(), AllocError> {
    let front = [0x43, 1, set, 0, 0, 0, 6, 0, 0, 0, 3];
    let rest = if set == 1 { 1238 } else { 113 };
    append(bytes, &[Bytes(&front), Fill(tag, rest)])
}

pub fn card(alloc: Global, set: u8, tag: u8) -> Result<Vec<u8>, AllocError> {
    let mut bytes = Vec::new(alloc);
    append_card(&mut bytes, set, tag)?;
    Ok(bytes)
}

// The cards of set 2 with these tags.
fn cards(alloc: Global, tags: &[u8]) -> Result<Vec<u8>, AllocError> {
    let mut bytes = Vec::new(alloc);
    for tag in tags {
        append_card(&mut bytes, 2, *tag)?;
    }
    Ok(bytes)
}

// The id of the card of set 2 with a tag.
fn id(alloc: Global, tag: u8) -> Result<[u8; 32], AllocError> {
    let card = card(alloc, 2, tag)?;
    Ok(digest_of(&card))
}

// Appends a part of set 2 for a member whose id is filled with one byte, as its part is.
fn append_part(bytes: &mut Vec<u8>, id: u8) -> Result<(), AllocError> {
    append(bytes, &[Fill(id, 32), Fill(1, 1), Fill(id, 258)])
}

// A count, and the parts of set 2 for these members.
pub fn parts(alloc: Global, ids: &[u8]) -> Result<Vec<u8>, AllocError> {
    let mut bytes = vec![in alloc; count_of(ids)]?;
    for id in ids {
        append_part(&mut bytes, *id)?;
    }
    Ok(bytes)
}

// The header of a message, with one predecessor or none.
pub fn header(
    alloc: Global,
    set: u8,
    kind: u8,
    target: &[u8],
    predecessors: u8,
    digest: [u8; 32],
) -> Result<Vec<u8>, AllocError> {
    spelled(
        alloc,
        &[
            Bytes(&[0x48, 1, set]),
            Fill(0x11, 32),
            Fill(0x22, 32),
            Bytes(&[0, 0, 0, 5, kind]),
            Bytes(target),
            Fill(predecessors, 1),
            Fill(0x33, if predecessors == 1 { 32 } else { 0 }),
            Bytes(&digest),
        ],
    )
}

// A header of 105 bytes.
fn row(alloc: Global) -> Result<Vec<u8>, AllocError> {
    header(alloc, 1, 7, &[], 0, [7; 32])
}

// A count of so many headers, and these, each behind its length.
fn rows(alloc: Global, count: u16) -> Result<Vec<u8>, AllocError> {
    let row = row(alloc)?;
    let mut bytes = spelled(alloc, &[Bytes(&count.to_be_bytes())])?;
    for _ in 0..count {
        append(&mut bytes, &[Bytes(&[0, 105]), Bytes(&row)])?;
    }
    Ok(bytes)
}

// A count and cards of set 2, and a count and so many headers.
fn history(alloc: Global, tags: &[u8], count: u16) -> Result<Vec<u8>, AllocError> {
    let cards = cards(alloc, tags)?;
    let rows = rows(alloc, count)?;
    spelled(
        alloc,
        &[Fill(count_of(tags), 1), Bytes(&cards), Bytes(&rows)],
    )
}

// The body of an add of set 2 that adds the member with this card.
fn add_body(alloc: Global, tag: u8, history: &[u8]) -> Result<Vec<u8>, AllocError> {
    let mut bytes = card(alloc, 2, tag)?;
    append(&mut bytes, &[Fill(1, 1), Fill(9, 258), Bytes(history)])?;
    Ok(bytes)
}

// The body of a text.
pub fn text_body(alloc: Global, length: u16) -> Result<Vec<u8>, AllocError> {
    spelled(
        alloc,
        &[
            Bytes(&length.to_be_bytes()),
            Fill(0x61, length as usize),
            Fill(0x74, 32),
        ],
    )
}

// A signature of an LMS type.
pub fn signature(alloc: Global, lms_type: u8) -> Result<Vec<u8>, AllocError> {
    spelled(
        alloc,
        &[
            Bytes(&[0, 0, 0, 4, 0, 0, 0, 3]),
            Fill(1, 32),
            Fill(2, 2144),
            Bytes(&[0, 0, 0, lms_type]),
            Fill(3, if lms_type == 5 { 160 } else { 320 }),
        ],
    )
}

// The bytes of a packet, joined of its parts.
pub fn joined(
    alloc: Global,
    header: &[u8],
    body: &[u8],
    signature: &[u8],
) -> Result<Vec<u8>, AllocError> {
    if header.len() >= 65536 || body.len() >= 4_294_967_296 {
        return Ok(Vec::new(alloc));
    }
    Ok(write_packet(alloc, header, body, signature)?.into_vec())
}

// The packet of a message with this target and body.
pub fn packet(
    alloc: Global,
    set: u8,
    kind: u8,
    target: &[u8],
    body: &[u8],
) -> Result<Vec<u8>, AllocError> {
    let header = header(alloc, set, kind, target, 1, digest_of(body))?;
    let signature = signature(alloc, if set == 1 { 6 } else { 5 })?;
    joined(alloc, &header, body, &signature)
}

// The target of a kind, where the create names the members of two cards, and the add that of a third.
pub fn target(alloc: Global, kind: u8) -> Result<Vec<u8>, AllocError> {
    match kind {
        1 => {
            let first = id(alloc, TAGS[0])?;
            let second = id(alloc, TAGS[1])?;
            spelled(alloc, &[Fill(2, 1), Bytes(&first), Bytes(&second)])
        }
        3 | 6 => spelled(alloc, &[Fill(8, 32)]),
        4 => spelled(alloc, &[Bytes(&id(alloc, TAGS[2])?)]),
        5 => spelled(alloc, &[Fill(8, 32), Fill(1, 1)]),
        _ => Ok(Vec::new(alloc)),
    }
}

// The body of a kind of set 2.
pub fn body(alloc: Global, kind: u8) -> Result<Vec<u8>, AllocError> {
    match kind {
        1 => {
            let cards = cards(alloc, &[TAGS[0], TAGS[1]])?;
            let parts = parts(alloc, &[4])?;
            spelled(alloc, &[Bytes(&cards), Bytes(&parts)])
        }
        4 => {
            let history = history(alloc, &[TAGS[0], TAGS[1]], 2)?;
            add_body(alloc, TAGS[2], &history)
        }
        6 => parts(alloc, &[4]),
        7 => text_body(alloc, 5),
        _ => parts(alloc, &[4, 5]),
    }
}

// The packet of a kind of set 2.
pub fn packet_of(alloc: Global, kind: u8) -> Result<Vec<u8>, AllocError> {
    let target = target(alloc, kind)?;
    let body = body(alloc, kind)?;
    packet(alloc, 2, kind, &target, &body)
}

// The packet that the bytes spell. It has no clause, so that a test carries none of it.
pub fn view(bytes: &[u8]) -> Result<PacketView<'_>, Malformed> {
    PacketView::parse(bytes)
}

// The place at which bytes are refused as a packet.
pub fn refused_at(bytes: &[u8]) -> Option<u32> {
    match view(bytes) {
        Ok(_) => None,
        Err(Malformed(place)) => Some(place),
    }
}

// The place at which a packet is refused that is joined of these.
pub fn refused_joined(
    alloc: Global,
    header: &[u8],
    body: &[u8],
    signature: &[u8],
) -> Result<Option<u32>, AllocError> {
    let bytes = joined(alloc, header, body, signature)?;
    Ok(refused_at(&bytes))
}

// A body of set 2 that a test asks about.
#[derive(Clone, Copy, Debug)]
pub enum Case {
    // parts of a kind for so many members
    Parts(u8, u8),
    // an update with parts for these two members
    Order(u8, u8),
    // a text of so many bytes
    Text(u16),
    // the cards of a create, by their places in the order of their ids
    Create(usize, usize),
    // a create whose first card is of set 1
    OtherSet,
    // the card of an add
    Add(usize),
    // how many cards and headers a history has
    History(usize, u16),
    // the cards of a history
    Cards(usize, usize),
    // the second card of a history has another version, and is not above the first
    CardInside,
    // a history's one header has another length
    Row(u8),
}

fn tag(index: usize) -> u8 {
    TAGS.get(index).copied().unwrap_or(0)
}

fn kind_of(case: Case) -> u8 {
    match case {
        Case::Parts(kind, _) => kind,
        Case::Order(_, _) => 2,
        Case::Text(_) => 7,
        Case::Create(_, _) | Case::OtherSet => 1,
        _ => 4,
    }
}

// The members from 0 on, so many of them.
fn first_members(alloc: Global, count: u8) -> Result<Vec<u8>, AllocError> {
    let mut ids = Vec::new(alloc);
    for id in 0..count {
        ids.push(id)?;
    }
    Ok(ids)
}

// A history of two cards that do not ascend, of which the second has another version.
fn history_with_version(alloc: Global) -> Result<Vec<u8>, AllocError> {
    let mut history = history(alloc, &[TAGS[1], TAGS[0]], 0)?;
    if let Some(version) = history.get_mut(126) {
        *version = 2;
    }
    Ok(history)
}

// A history of one header, with this length before it, and one byte more.
fn history_with_length(alloc: Global, length: u8) -> Result<Vec<u8>, AllocError> {
    let row = row(alloc)?;
    spelled(
        alloc,
        &[Bytes(&[0, 0, 1, 0, length]), Bytes(&row), Fill(0, 1)],
    )
}

// The history that the add of a case hands on.
fn history_of(alloc: Global, case: Case) -> Result<Vec<u8>, AllocError> {
    match case {
        Case::History(count, rows) => {
            let tags = TAGS.get(..count).unwrap_or(&TAGS);
            history(alloc, tags, rows)
        }
        Case::Cards(first, second) => history(alloc, &[tag(first), tag(second)], 0),
        Case::CardInside => history_with_version(alloc),
        Case::Row(length) => history_with_length(alloc, length),
        _ => history(alloc, &[], 0),
    }
}

// The body of a case.
fn body_of(alloc: Global, case: Case) -> Result<Vec<u8>, AllocError> {
    match case {
        Case::Parts(_, count) => parts(alloc, &first_members(alloc, count)?),
        Case::Order(first, second) => parts(alloc, &[first, second]),
        Case::Text(length) => text_body(alloc, length),
        Case::Create(first, second) => {
            let cards = cards(alloc, &[tag(first), tag(second)])?;
            spelled(alloc, &[Bytes(&cards), Fill(0, 1)])
        }
        Case::OtherSet => card(alloc, 1, 1),
        Case::Add(index) => add_body(alloc, tag(index), &history_of(alloc, case)?),
        _ => add_body(alloc, TAGS[2], &history_of(alloc, case)?),
    }
}

// Where the packet of a case is refused, counted from its body.
pub fn refused_case(alloc: Global, case: Case) -> Result<Option<u32>, AllocError> {
    let kind = kind_of(case);
    let target = target(alloc, kind)?;
    let before = u32::try_from(target.len()).unwrap_or(0).saturating_add(147);
    let bytes = packet(alloc, 2, kind, &target, &body_of(alloc, case)?)?;
    Ok(refused_at(&bytes).map(|place| place.saturating_sub(before)))
}

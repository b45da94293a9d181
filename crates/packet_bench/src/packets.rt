//! The packet of an add that hands on the history of the group, its reading, and the digest of its body.

use crate::group::{Group, Member, Size, key_of_nobody};
use group_fields::{Bytes, Kind, MemberId, Target};
use sha2::{Digest, Sha256};
use std::alloc::{AllocError, Global};
use wire_codec::{PacketView, write_packet};

/// How many bytes a part has, and a signature of a tree of height 10.
const PART: usize = 259;

pub(crate) const SIGNATURE: usize = 2508;

/// Who is added.
const ADDED: u8 = 32;

/// Who is added by an add, and the bytes of its header and of its body.
#[derive(Drop)]
pub(crate) struct Add {
    pub(crate) added: MemberId,
    pub(crate) header: Bytes,
    pub(crate) body: Vec<u8>,
}

/// How many headers and cards were read, and the id of the last message.
#[derive(Clone, Copy)]
struct Read {
    headers: u32,
    cards: u32,
    id: [u8; 32],
}

/// The bytes of a packet, joined. Empty where the header or the body is too long.
pub(crate) fn joined(
    alloc: Global,
    header: &[u8],
    body: &[u8],
    signature: &[u8],
) -> Result<Bytes, AllocError> {
    if header.len() < 65_536 && body.len() < 4_294_967_296 {
        write_packet(alloc, header, body, signature)
    } else {
        Ok(Bytes::from(Vec::new(alloc)))
    }
}

/// The body of the add: a card, a part, and the history.
fn add_body(alloc: Global, group: &Group, added: &Member) -> Result<Vec<u8>, AllocError> {
    let mut bytes = added.card.as_slice().to_vec(alloc)?;
    bytes.extend_from_slice(&[0; PART])?;
    append_cards(&mut bytes, group.members.as_slice())?;
    append_rows(&mut bytes, group.rows.as_slice())?;
    Ok(bytes)
}

fn append_cards(bytes: &mut Vec<u8>, members: &[Member]) -> Result<(), AllocError> {
    bytes.push(u8::try_from(members.len()).unwrap_or(0))?;
    for member in members {
        bytes.extend_from_slice(member.card.as_slice())?;
    }
    Ok(())
}

fn append_rows(bytes: &mut Vec<u8>, rows: &[Bytes]) -> Result<(), AllocError> {
    let count = u16::try_from(rows.len()).unwrap_or(0);
    bytes.extend_from_slice(&count.to_be_bytes())?;
    for row in rows {
        let size = u16::try_from(row.len()).unwrap_or(0);
        bytes.extend_from_slice(&size.to_be_bytes())?;
        bytes.extend_from_slice(row.as_slice())?;
    }
    Ok(())
}

/// The group with keys that nobody signs by.
pub(crate) fn unsigned_group(alloc: Global) -> Result<Group, AllocError> {
    Group::make(alloc, Size::Full, &key_of_nobody(0))
}

/// The fixed fields of a signature of height 10, and zeros.
fn form_of_signature() -> [u8; SIGNATURE] {
    let mut bytes = [0; SIGNATURE];
    bytes[7] = 3;
    bytes[2187] = 6;
    bytes
}

/// The add by which the creator takes in one member more.
pub(crate) fn make_add(alloc: Global, group: &Group) -> Result<Add, AllocError> {
    let member = group.invited(alloc, ADDED)?;
    let added = member.id;
    let body = add_body(alloc, group, &member)?;
    let header = group.next(alloc, Kind::Add, Target::Member(added), body.as_slice())?;
    Ok(Add {
        added,
        header,
        body,
    })
}

/// The add in the group with keys that nobody signs by.
fn unsigned_add(alloc: Global) -> Result<Add, AllocError> {
    let group = unsigned_group(alloc)?;
    make_add(alloc, &group)
}

/// Digests of the body. After each its first byte is changed by the digest.
pub(crate) fn digest(alloc: Global, count: u32) -> Result<[u8; 32], AllocError> {
    let mut add = unsigned_add(alloc)?;
    let mut last = [0u8; 32];
    for _ in 0..count {
        last = Sha256::digest(add.body.as_slice());
        change(add.body.first_mut(), last[0]);
    }
    Ok(last)
}

/// Adds a number to a byte.
fn change(byte: Option<&mut u8>, more: u8) {
    if let Some(byte) = byte {
        *byte = byte.wrapping_add(more);
    }
}

/// Readings of the packet. After each the last byte of its signature is changed.
pub(crate) fn parse(alloc: Global, count: u32) -> Result<[u8; 32], AllocError> {
    let add = unsigned_add(alloc)?;
    let signature = form_of_signature();
    let packet = joined(
        alloc,
        add.header.as_slice(),
        add.body.as_slice(),
        &signature,
    )?;
    let mut bytes = packet.into_vec();
    let mut read = Read {
        headers: 0,
        cards: 0,
        id: [0; 32],
    };
    for _ in 0..count {
        read = read_once(bytes.as_slice(), read);
        change(bytes.last_mut(), 1);
    }
    Ok(digest_of(&read))
}

/// What was read, with one packet more.
fn read_once(bytes: &[u8], read: Read) -> Read {
    match PacketView::parse(bytes) {
        Ok(packet) => with_packet(&packet, read),
        Err(_) => read,
    }
}

fn with_packet(packet: &PacketView<'_>, read: Read) -> Read {
    let Some(history) = packet.history() else {
        return read;
    };
    let id = packet.header().id().0.0;
    Read {
        headers: read.headers.wrapping_add(u32::from(history.rows())),
        cards: read.cards.wrapping_add(u32::from(history.cards())),
        id,
    }
}

fn digest_of(read: &Read) -> [u8; 32] {
    let mut hasher = Sha256::new();
    hasher.update(read.headers.to_be_bytes().as_slice());
    hasher.update(read.cards.to_be_bytes().as_slice());
    hasher.update(read.id.as_slice());
    hasher.finalize()
}

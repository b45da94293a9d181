//! Members, messages and the histories that are handed on, for the tests. Few calls stand in one function, and none has
//! a clause of its own: so what calls it is proved fast.

ghost use Rattle.std.specs.Prelude.{◌≡◌};

use group_fields::{
    Bytes, Card, Digest, GroupId, Header, Ids, Kind, MemberId, MessageId, Target, write_card,
    write_header,
};
use kem_trait::{Kem, SeedWords};
use lms_sign::Tree;
use ntru_prime::Drill37;
use sha2::{Digest as Hasher, Sha256};
use std::alloc::Global;
use std::test::Fail;
use wire_codec::{PacketView, write_packet};

/// The bytes of a public key of the smaller set, whose number is 2, and of one of the other.
const PUBLIC: usize = 33;

const OTHER_PUBLIC: usize = 1158;

/// The bytes of a part of the smaller set.
const PART: usize = 259;

/// The bytes of a signature of height 5, and of one of height 10, which the other set has.
const SIGNED: usize = 2348;

const OTHER_SIGNED: usize = 2508;

/// A signing tree of height 5.
#[derive(Drop)]
struct Signer {
    tree: Tree,
    ghost height: { tree.height ≡ 5 },
}

/// A member with its card, and its signing tree where its signatures are to be good.
#[derive(Drop)]
pub struct Person {
    signer: Option<Signer>,
    pub id: MemberId,
    card: Bytes,
}

/// What a member is made of.
#[derive(Clone, Copy)]
pub struct Traits {
    pub number: u8,
    pub set: u8,
    pub inviter: MemberId,
    pub signs: bool,
    pub has_key: bool,
}

/// So many bytes of one value.
pub fn filled(alloc: Global, byte: u8, count: usize) -> Result<Vec<u8>, Fail> {
    Ok(vec![in alloc; byte; count]?)
}

/// The SHA-256 of bytes.
pub fn digest(bytes: &[u8]) -> Digest {
    Digest(Sha256::digest(bytes))
}

/// The tree of a member that signs.
fn new_signer(alloc: Global, number: u8) -> Result<Signer, Fail> {
    let tree = Tree::make(alloc, 5, &[number; 16], &[number; 32])?;
    Ok(Signer { tree })
}

/// The LMS type of the signatures of a set.
fn lms_type(set: u8) -> u8 {
    if set == 1 { 6 } else { 5 }
}

/// An LMS public key that nobody signs by.
fn key_of_nobody(number: u8, set: u8) -> [u8; 56] {
    let mut key = [number; 56];
    key[..8].copy_from_slice(&[0, 0, 0, lms_type(set), 0, 0, 0, 3]);
    key
}

/// The LMS public key of a member.
fn lms_public(traits: &Traits, signer: &Option<Signer>) -> [u8; 56] {
    match signer {
        Some(signer) => signer.tree.public(),
        None => key_of_nobody(traits.number, traits.set),
    }
}

/// A pair of the smaller set.
fn new_pair(alloc: Global, number: u8) -> Result<<Drill37 as Kem>::Pair, Fail> {
    Ok(Drill37::make(alloc, &mut SeedWords::new(&[number; 32]))?)
}

/// The public key of a pair.
fn kem_public(alloc: Global, pair: &<Drill37 as Kem>::Pair) -> Result<Vec<u8>, Fail> {
    let mut public = filled(alloc, 0, PUBLIC)?;
    if public.len() != PUBLIC {
        return Err(Fail::new("another length"));
    }
    Drill37::public(pair, public.as_mut_slice());
    Ok(public)
}

/// A public key that a pair has.
fn pair_public(alloc: Global, number: u8) -> Result<Vec<u8>, Fail> {
    let pair = new_pair(alloc, number)?;
    kem_public(alloc, &pair)
}

/// A public key that a pair has, or bytes that are none.
fn public_key(alloc: Global, traits: &Traits) -> Result<Vec<u8>, Fail> {
    if traits.set == 1 {
        filled(alloc, 255, OTHER_PUBLIC)
    } else if traits.has_key {
        pair_public(alloc, traits.number)
    } else {
        filled(alloc, 255, PUBLIC)
    }
}

/// The bytes of a card.
fn card_bytes(alloc: Global, card: &Card) -> Result<Bytes, Fail> {
    if !card.has_spelling() {
        return Err(Fail::new("a card without a spelling"));
    }
    Ok(write_card(alloc, card)?)
}

/// The bytes of the card of a member.
fn own_card(alloc: Global, traits: &Traits, signer: &Option<Signer>) -> Result<Bytes, Fail> {
    let public = public_key(alloc, traits)?;
    let card = Card {
        set: traits.set,
        lms_public: lms_public(traits, signer),
        inviter: traits.inviter,
        kem_public: Bytes::from(public),
    };
    card_bytes(alloc, &card)
}

/// The tree of a member, where it signs.
fn signer_of(alloc: Global, traits: &Traits) -> Result<Option<Signer>, Fail> {
    if traits.signs {
        Ok(Some(new_signer(alloc, traits.number)?))
    } else {
        Ok(None)
    }
}

/// A member of these traits.
pub fn new_person(alloc: Global, traits: &Traits) -> Result<Person, Fail> {
    let signer = signer_of(alloc, traits)?;
    let card = own_card(alloc, traits, &signer)?;
    let id = MemberId(digest(card.as_slice()));
    Ok(Person { signer, id, card })
}

/// Whether the bytes are the person's card.
pub fn is_card_of(person: &Person, bytes: &[u8]) -> bool {
    person.card.as_slice() == bytes
}

/// The bytes of the person's card.
pub fn card_of(person: &Person) -> &[u8] {
    person.card.as_slice()
}

/// A message as it is handed on.
#[derive(Drop)]
pub struct Letter {
    pub id: MessageId,
    pub header: Bytes,
    pub packet: Bytes,
}

/// What a message says beside what it carries.
#[derive(Drop)]
pub struct Says {
    pub set: u8,
    pub group: GroupId,
    pub sender: MemberId,
    pub seq: u32,
    pub kind: Kind,
    pub target: Target,
    pub after: Ids,
}

/// The ids in ascending order.
pub fn sorted(mut list: Vec<Digest>) -> Ids {
    list.as_mut_slice().sort_unstable();
    Ids::from(list)
}

/// The header of what is said, with the digest of a body.
fn header_of(says: Says, body: &[u8]) -> Header {
    Header {
        set: says.set,
        group: says.group,
        sender: says.sender,
        seq: says.seq,
        kind: says.kind,
        target: says.target,
        predecessors: says.after,
        body: digest(body),
    }
}

/// The bytes of a header.
fn header_bytes(alloc: Global, header: &Header) -> Result<Bytes, Fail> {
    if !header.has_spelling() {
        return Err(Fail::new("a header without a spelling"));
    }
    Ok(write_header(alloc, header)?)
}

/// The header of what is said, with a body.
pub fn header_with(alloc: Global, says: Says, body: &[u8]) -> Result<Bytes, Fail> {
    header_bytes(alloc, &header_of(says, body))
}

/// The signature of a message by a leaf of a tree.
fn signature_by(alloc: Global, by: &Signer, leaf: u32, id: MessageId) -> Result<Vec<u8>, Fail> {
    let mut bytes = filled(alloc, 0, SIGNED)?;
    if bytes.len() != SIGNED {
        return Err(Fail::new("another length"));
    }
    match by.tree.leaf(leaf, id) {
        Ok(leaf) => by.tree.sign(leaf, bytes.as_mut_slice()),
        Err(_) => return Err(Fail::new("no leaf is left")),
    }
    Ok(bytes)
}

/// Bytes of the form of a signature of a set.
fn signature_by_nobody(alloc: Global, set: u8) -> Result<Vec<u8>, Fail> {
    let size = if set == 1 { OTHER_SIGNED } else { SIGNED };
    let mut bytes = filled(alloc, 0, size)?;
    for (place, value) in [(7, 3), (2187, lms_type(set))] {
        if let Some(byte) = bytes.as_mut_slice().get_mut(place) {
            *byte = value;
        }
    }
    Ok(bytes)
}

/// The signature of a message by a leaf of somebody. Of who has no tree it has the form of one of the set.
fn signature(
    alloc: Global,
    by: &Person,
    leaf: u32,
    set: u8,
    id: MessageId,
) -> Result<Vec<u8>, Fail> {
    match &by.signer {
        Some(signer) => signature_by(alloc, signer, leaf, id),
        None => signature_by_nobody(alloc, set),
    }
}

/// The packet of a header, a body and a signature.
fn packet_of(alloc: Global, header: &[u8], body: &[u8], signed: &[u8]) -> Result<Bytes, Fail> {
    if header.len() > 65_535 || body.len() > 8_388_608 {
        return Err(Fail::new("a packet that is too long"));
    }
    Ok(write_packet(alloc, header, body, signed)?)
}

/// What is said, with a body, signed by a leaf of somebody.
pub fn new_letter(
    alloc: Global,
    says: Says,
    body: &[u8],
    signer: &Person,
    leaf: u32,
) -> Result<Letter, Fail> {
    let set = says.set;
    let header = header_with(alloc, says, body)?;
    let id = MessageId(digest(header.as_slice()));
    let signed = signature(alloc, signer, leaf, set, id)?;
    let packet = packet_of(alloc, header.as_slice(), body, signed.as_slice())?;
    Ok(Letter { id, header, packet })
}

/// The count of a list, as one byte.
fn count_of(ids: &[Digest]) -> [u8; 1] {
    [u8::try_from(ids.len()).unwrap_or(u8::MAX)]
}

/// Parts for members, which nobody opens.
pub fn parts(alloc: Global, to: &[Digest]) -> Result<Vec<u8>, Fail> {
    let part = filled(alloc, 0, PART)?;
    let mut bytes = count_of(to).to_vec(alloc)?;
    for id in to {
        bytes.extend_from_slice(&id.0)?;
        bytes.extend_from_slice(part.as_slice())?;
    }
    Ok(bytes)
}

/// Appends the card of the person with an id.
fn append_card(bytes: &mut Vec<u8>, people: &[Person], id: &Digest) -> Result<(), Fail> {
    for person in people {
        if person.id.0 == *id {
            bytes.extend_from_slice(person.card.as_slice())?;
        }
    }
    Ok(())
}

/// Appends the cards of those with these ids, in their order.
fn append_cards(bytes: &mut Vec<u8>, people: &[Person], ids: &[Digest]) -> Result<(), Fail> {
    for id in ids {
        append_card(bytes, people, id)?;
    }
    Ok(())
}

/// The body of a create: the cards of its members, and parts.
pub fn creation_body(
    alloc: Global,
    people: &[Person],
    members: &[Digest],
    to: &[Digest],
) -> Result<Vec<u8>, Fail> {
    let mut bytes = Vec::new(alloc);
    append_cards(&mut bytes, people, members)?;
    bytes.extend_from_slice(parts(alloc, to)?.as_slice())?;
    Ok(bytes)
}

/// The rows of a history that is handed on: how many, and for each its length and its header.
#[derive(Drop)]
pub struct Rows {
    count: u16,
    bytes: Vec<u8>,
}

/// A history without rows.
pub fn no_rows(alloc: Global) -> Rows {
    Rows {
        count: 0,
        bytes: Vec::new(alloc),
    }
}

/// One row more.
pub fn append_row(rows: &mut Rows, header: &[u8]) -> Result<(), Fail> {
    let size = u16::try_from(header.len()).unwrap_or(u16::MAX);
    rows.bytes.extend_from_slice(&size.to_be_bytes())?;
    rows.bytes.extend_from_slice(header)?;
    rows.count = rows.count.wrapping_add(1);
    Ok(())
}

/// A history: the cards of those with these ids, and rows.
pub fn history_bytes(
    alloc: Global,
    people: &[Person],
    ids: &[Digest],
    rows: &Rows,
) -> Result<Vec<u8>, Fail> {
    let mut bytes = count_of(ids).to_vec(alloc)?;
    append_cards(&mut bytes, people, ids)?;
    bytes.extend_from_slice(&rows.count.to_be_bytes())?;
    bytes.extend_from_slice(rows.bytes.as_slice())?;
    Ok(bytes)
}

/// The body of an add: the card of whom it adds, a part without an id, and a history.
pub fn addition_body(alloc: Global, added: &Person, history: &[u8]) -> Result<Vec<u8>, Fail> {
    let mut bytes = added.card.as_slice().to_vec(alloc)?;
    bytes.extend_from_slice(filled(alloc, 0, PART)?.as_slice())?;
    bytes.extend_from_slice(history)?;
    Ok(bytes)
}

/// The packet that bytes spell.
pub fn packet_in(bytes: &[u8]) -> Result<PacketView<'_>, Fail> {
    match PacketView::parse(bytes) {
        Ok(packet) => Ok(packet),
        Err(_) => Err(Fail::new("a packet that can't be read")),
    }
}

//! Members, messages and histories for the tests. Few calls stand in one function, and none has a clause of its own: so
//! what calls it is proved fast.

ghost use Rattle.std.specs.Prelude.{◌≡◌};

use causal_history::History;
use group_fields::{
    Bytes, Card, Cards, Digest, GroupId, Header, HeaderView, Ids, Kind, MemberId, MessageId,
    Target, read_header, write_card, write_header,
};
use kem_trait::{Kem, SeedWords};
use lms_sign::Tree;
use ntru_prime::Drill37;
use sha2::{Digest as Hasher, Sha256};
use std::alloc::Global;
use std::test::Fail;
use wire_codec::{PacketView, write_packet};

/// The bytes of a public key and of a part of the smaller set, and of a signature of height 5.
const PUBLIC: usize = 33;

const PART: usize = 259;

const SIGNED: usize = 2348;

/// A signing tree of height 5.
#[derive(Drop)]
struct Signer {
    tree: Tree,
    ghost height: { tree.height ≡ 5 },
}

/// A member with its card, and its signing tree where its signatures are to be good.
#[derive(Drop)]
pub struct Person {
    signer: Option<Signer>,
    pub id: MemberId,
    card: Bytes,
}

/// So many bytes of one value.
pub fn filled(alloc: Global, byte: u8, count: usize) -> Result<Vec<u8>, Fail> {
    Ok(vec![in alloc; byte; count]?)
}

/// The SHA-256 of bytes.
fn digest(bytes: &[u8]) -> Digest {
    Digest(Sha256::digest(bytes))
}

/// The tree of a member that signs.
fn new_signer(alloc: Global, number: u8) -> Result<Signer, Fail> {
    let tree = Tree::make(alloc, 5, &[number; 16], &[number; 32])?;
    Ok(Signer { tree })
}

/// An LMS public key that nobody signs by.
fn key_of_nobody(number: u8) -> [u8; 56] {
    let mut key = [number; 56];
    key[..8].copy_from_slice(&[0, 0, 0, 5, 0, 0, 0, 3]);
    key
}

/// The LMS public key of a member.
fn lms_public(number: u8, signer: &Option<Signer>) -> [u8; 56] {
    match signer {
        Some(signer) => signer.tree.public(),
        None => key_of_nobody(number),
    }
}

/// A pair of the smaller set.
fn new_pair(alloc: Global, number: u8) -> Result<<Drill37 as Kem>::Pair, Fail> {
    Ok(Drill37::make(alloc, &mut SeedWords::new(&[number; 32]))?)
}

/// The public key of a pair.
fn kem_public(alloc: Global, pair: &<Drill37 as Kem>::Pair) -> Result<Vec<u8>, Fail> {
    let mut public = filled(alloc, 0, PUBLIC)?;
    if public.len() != PUBLIC {
        return Err(Fail::new("another length"));
    }
    Drill37::public(pair, public.as_mut_slice());
    Ok(public)
}

/// The bytes of a card.
fn card_bytes(alloc: Global, card: &Card) -> Result<Bytes, Fail> {
    if !card.has_spelling() {
        return Err(Fail::new("a card without a spelling"));
    }
    Ok(write_card(alloc, card)?)
}

/// A public key that a pair has, or bytes that are none.
fn public_key(alloc: Global, number: u8, has_key: bool) -> Result<Vec<u8>, Fail> {
    if has_key {
        let pair = new_pair(alloc, number)?;
        kem_public(alloc, &pair)
    } else {
        filled(alloc, 255, PUBLIC)
    }
}

/// A member by a number, with a public key that a pair has, or with none.
pub fn new_person(
    alloc: Global,
    number: u8,
    inviter: MemberId,
    signs: bool,
    has_key: bool,
) -> Result<Person, Fail> {
    let public = public_key(alloc, number, has_key)?;
    let signer = if signs {
        Some(new_signer(alloc, number)?)
    } else {
        None
    };
    let card = Card {
        set: 2,
        lms_public: lms_public(number, &signer),
        inviter,
        kem_public: Bytes::from(public),
    };
    let card = card_bytes(alloc, &card)?;
    let id = MemberId(digest(card.as_slice()));
    Ok(Person { signer, id, card })
}

/// A message as it is handed on.
#[derive(Drop)]
pub struct Letter {
    pub id: MessageId,
    pub header: Bytes,
    pub packet: Bytes,
}

/// What a message says beside what it carries.
#[derive(Drop)]
pub struct Says {
    pub group: GroupId,
    pub sender: MemberId,
    pub seq: u32,
    pub kind: Kind,
    pub target: Target,
    pub after: Ids,
}

/// The ids in ascending order.
pub fn sorted(mut list: Vec<Digest>) -> Ids {
    list.as_mut_slice().sort_unstable();
    Ids::from(list)
}

/// The header of what is said, with the digest of a body.
fn header_of(says: Says, body: &[u8]) -> Header {
    Header {
        set: 2,
        group: says.group,
        sender: says.sender,
        seq: says.seq,
        kind: says.kind,
        target: says.target,
        predecessors: says.after,
        body: digest(body),
    }
}

/// The bytes of a header.
fn header_bytes(alloc: Global, header: &Header) -> Result<Bytes, Fail> {
    if !header.has_spelling() {
        return Err(Fail::new("a header without a spelling"));
    }
    Ok(write_header(alloc, header)?)
}

/// The signature of a message by a leaf of a tree.
fn signature_by(alloc: Global, by: &Signer, leaf: u32, id: MessageId) -> Result<Vec<u8>, Fail> {
    let mut bytes = filled(alloc, 0, SIGNED)?;
    if bytes.len() != SIGNED {
        return Err(Fail::new("another length"));
    }
    match by.tree.leaf(leaf, id) {
        Ok(leaf) => by.tree.sign(leaf, bytes.as_mut_slice()),
        Err(_) => return Err(Fail::new("no leaf is left")),
    }
    Ok(bytes)
}

/// Bytes of the form of a signature.
fn signature_by_nobody(alloc: Global) -> Result<Vec<u8>, Fail> {
    let mut bytes = filled(alloc, 0, SIGNED)?;
    for (place, value) in [(7, 3), (2187, 5)] {
        if let Some(byte) = bytes.as_mut_slice().get_mut(place) {
            *byte = value;
        }
    }
    Ok(bytes)
}

/// The signature of a message by a leaf of somebody. Of who has no tree it has the form of one.
fn signature(alloc: Global, by: &Person, leaf: u32, id: MessageId) -> Result<Vec<u8>, Fail> {
    match &by.signer {
        Some(signer) => signature_by(alloc, signer, leaf, id),
        None => signature_by_nobody(alloc),
    }
}

/// The packet of a header, a body and a signature.
fn packet_of(alloc: Global, header: &[u8], body: &[u8], signed: &[u8]) -> Result<Bytes, Fail> {
    if header.len() > 65_535 || body.len() > 65_535 {
        return Err(Fail::new("a packet that is too long"));
    }
    Ok(write_packet(alloc, header, body, signed)?)
}

/// What is said, with a body, signed by a leaf of somebody.
pub fn new_letter(
    alloc: Global,
    says: Says,
    body: &[u8],
    signer: &Person,
    leaf: u32,
) -> Result<Letter, Fail> {
    let header = header_bytes(alloc, &header_of(says, body))?;
    let id = MessageId(digest(header.as_slice()));
    let signed = signature(alloc, signer, leaf, id)?;
    let packet = packet_of(alloc, header.as_slice(), body, signed.as_slice())?;
    Ok(Letter { id, header, packet })
}

/// Parts for members, which nobody opens.
pub fn parts(alloc: Global, to: Vec<Digest>) -> Result<Vec<u8>, Fail> {
    let to = sorted(to);
    let part = filled(alloc, 0, PART)?;
    let mut bytes = filled(alloc, (to.len() % 256) as u8, 1)?;
    for id in to.as_slice() {
        bytes.extend_from_slice(&id.0)?;
        bytes.extend_from_slice(part.as_slice())?;
    }
    Ok(bytes)
}

/// Appends the card of the person with an id.
fn append_card(bytes: &mut Vec<u8>, people: &[Person], id: &Digest) -> Result<(), Fail> {
    for person in people {
        if person.id.0 == *id {
            bytes.extend_from_slice(person.card.as_slice())?;
        }
    }
    Ok(())
}

/// The cards of some of the people, in the order of their ids.
pub fn cards_of(alloc: Global, people: &[Person], ids: &[Digest]) -> Result<Vec<u8>, Fail> {
    let mut bytes = Vec::new(alloc);
    for id in ids {
        append_card(&mut bytes, people, id)?;
    }
    Ok(bytes)
}

/// The body of an add: a card, a part, and a history without cards and rows, which a member of the group doesn't read.
pub fn addition_body(alloc: Global, added: &Person) -> Result<Vec<u8>, Fail> {
    let mut bytes = added.card.as_slice().to_vec(alloc)?;
    bytes.extend_from_slice(filled(alloc, 0, PART + 3)?.as_slice())?;
    Ok(bytes)
}

/// The packet that bytes spell.
fn packet_in(bytes: &[u8]) -> Result<PacketView<'_>, Fail> {
    match PacketView::parse(bytes) {
        Ok(packet) => Ok(packet),
        Err(_) => Err(Fail::new("a packet that can't be read")),
    }
}

/// The header that bytes spell.
pub fn header_in(bytes: &[u8]) -> Result<HeaderView<'_>, Fail> {
    match read_header(bytes) {
        Ok(header) => Ok(header),
        Err(_) => Err(Fail::new("a header that can't be read")),
    }
}

/// The cards of a packet.
fn cards(alloc: Global, packet: &PacketView<'_>) -> Result<Cards, Fail> {
    let mut list = Cards::new(alloc);
    for index in 0..packet.cards() {
        list.push(&packet.card(index))?;
    }
    Ok(list)
}

/// Pushes a row, whatever is judged of it.
fn push(history: &mut History, header: &HeaderView<'_>, cards: &Cards) -> Result<(), Fail> {
    if !history.may_push(header, cards)? {
        return Err(Fail::new("a row that may not be pushed"));
    }
    Ok(history.push(header, cards)?)
}

/// Takes a packet into a history.
pub fn take(alloc: Global, history: &mut History, letter: &Letter) -> Result<(), Fail> {
    let packet = packet_in(letter.packet.as_slice())?;
    let list = cards(alloc, &packet)?;
    push(history, &packet.header(), &list)
}

/// Takes the header of what is said into a history, and answers its id. It names nobody.
pub fn put(alloc: Global, history: &mut History, says: Says) -> Result<Digest, Fail> {
    let bytes = header_bytes(alloc, &header_of(says, &[]))?;
    let header = header_in(bytes.as_slice())?;
    push(history, &header, &Cards::new(alloc))?;
    Ok(header.id().0)
}

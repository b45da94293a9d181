//! Cards and headers, and the same messages as the plain program of the model has them.

use group_fields::{
    Bytes, Card, Cards, Digest, GroupId, Header, HeaderView, Ids, Kind, MemberId, Memory, Target,
    read_card, write_card, write_header,
};
use group_model::plain::messages::{PlainKind, PlainMessage};
use std::alloc::Global;

// A made-up card, of which a number makes each another.
fn card(alloc: Global, number: u8) -> Result<Card, Memory> {
    let mut lms_public = [number; 56];
    lms_public[..8].copy_from_slice(&[0, 0, 0, 5, 0, 0, 0, 3]);
    Ok(Card {
        set: 2,
        lms_public,
        inviter: MemberId(Digest([0; 32])),
        kem_public: Bytes::copy_of(alloc, &[number; 33])?,
    })
}

fn card_bytes(alloc: Global, number: u8) -> Result<Bytes, Memory> {
    let card = card(alloc, number)?;
    if !card.has_spelling() {
        return Bytes::copy_of(alloc, &[]);
    }
    write_card(alloc, &card)
}

fn append_card(cards: &mut Cards, bytes: &Bytes) -> Result<(), Memory> {
    match read_card(bytes.as_slice()) {
        Ok(card) => cards.push(&card),
        Err(_) => Ok(()),
    }
}

/// The cards with these numbers.
pub fn cards(alloc: Global, numbers: &[u8]) -> Result<Cards, Memory> {
    let mut cards = Cards::new(alloc);
    for number in numbers {
        append_card(&mut cards, &card_bytes(alloc, *number)?)?;
    }
    Ok(cards)
}

/// The id of the card with a number.
pub fn card_id(alloc: Global, number: u8) -> Result<Digest, Memory> {
    let bytes = card_bytes(alloc, number)?;
    Ok(match read_card(bytes.as_slice()) {
        Ok(card) => card.id().0,
        Err(_) => Digest([0; 32]),
    })
}

/// The ids of the cards with these numbers.
pub fn card_ids(alloc: Global, numbers: &[u8]) -> Result<Vec<Digest>, Memory> {
    let mut ids = Vec::new(alloc);
    for number in numbers {
        ids.push(card_id(alloc, *number)?)?;
    }
    Ok(ids)
}

/// The first so many numbers, in the order of the ids of their cards.
pub fn in_order(alloc: Global, count: u8) -> Result<Vec<u8>, Memory> {
    let mut order = Vec::new(alloc);
    for number in 0..count {
        order.push((card_id(alloc, number)?, number))?;
    }
    order.sort()?;
    let mut numbers = Vec::new(alloc);
    for (_, number) in &order {
        numbers.push(*number)?;
    }
    Ok(numbers)
}

fn spelled(alloc: Global, header: &Header) -> Result<Bytes, Memory> {
    if !header.has_spelling() {
        return Bytes::copy_of(alloc, &[]);
    }
    write_header(alloc, header)
}

/// The bytes of a header.
pub fn header(
    alloc: Global,
    sender: MemberId,
    seq: u32,
    kind: Kind,
    target: Target,
    predecessors: Vec<Digest>,
) -> Result<Bytes, Memory> {
    let header = Header {
        set: 2,
        group: GroupId(Digest([9; 32])),
        sender,
        seq,
        kind,
        target,
        predecessors: Ids::from(predecessors),
        body: Digest([7; 32]),
    };
    spelled(alloc, &header)
}

fn owned(alloc: Global, view: &HeaderView<'_>) -> Result<Header, Memory> {
    view.to_header(alloc)
}

fn id(view: &HeaderView<'_>) -> [u8; 32] {
    view.id().0.0
}

fn arrays(alloc: Global, ids: &[Digest]) -> Result<Vec<[u8; 32]>, Memory> {
    let mut arrays = Vec::new(alloc);
    for id in ids {
        arrays.push(id.0)?;
    }
    Ok(arrays)
}

fn plain_kind(alloc: Global, kind: Kind, target: &Target) -> Result<PlainKind, Memory> {
    Ok(match (kind, target) {
        (Kind::Create, Target::Members(ids)) => PlainKind::Create(arrays(alloc, ids.as_slice())?),
        (Kind::Update, _) => PlainKind::Update,
        (Kind::Remove, Target::Member(id)) => PlainKind::Remove(id.0.0),
        (Kind::Add, Target::Member(id)) => PlainKind::Add(id.0.0),
        (Kind::Ack, Target::Answer(id, took)) => PlainKind::Ack(id.0.0, *took),
        (Kind::AddAck, Target::Answer(id, _)) => PlainKind::AddAck(id.0.0),
        _ => PlainKind::Text,
    })
}

/// The message of a header.
pub fn plain_message(alloc: Global, view: &HeaderView<'_>) -> Result<PlainMessage, Memory> {
    let header = owned(alloc, view)?;
    Ok(PlainMessage {
        id: id(view),
        set: header.set,
        group: header.group.0.0,
        sender: header.sender.0.0,
        seq: header.seq,
        kind: plain_kind(alloc, header.kind, &header.target)?,
        predecessors: arrays(alloc, header.predecessors.as_slice())?,
        body: header.body.0,
    })
}

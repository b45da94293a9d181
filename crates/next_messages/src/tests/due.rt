//! Whom headers are due to, over a group of three members, worked out by hand.

use crate::*;
use body_parts::Receiver;
use causal_history::{Crowd, History};
use group_fields::{
    Bytes, Card, Cards, Digest, GroupId, Header, HeaderView, Ids, Kind, MemberId, Memory, Target,
    read_card, read_header, write_card, write_header,
};
use member_view::RemoveWins;
use std::alloc::Global;
use std::test::Fail;

// ---- members, by the numbers of their cards

fn card_bytes(alloc: Global, number: u8) -> Result<Bytes, Memory> {
    let mut lms_public = [number; 56];
    lms_public[..8].copy_from_slice(&[0, 0, 0, 5, 0, 0, 0, 3]);
    let card = Card {
        set: 2,
        lms_public,
        inviter: MemberId(Digest([0; 32])),
        kem_public: Bytes::copy_of(alloc, &[number; 33])?,
    };
    if card.has_spelling() {
        return write_card(alloc, &card);
    }
    Bytes::copy_of(alloc, &[])
}

fn member(alloc: Global, number: u8) -> Result<MemberId, Memory> {
    let bytes = card_bytes(alloc, number)?;
    Ok(match read_card(bytes.as_slice()) {
        Ok(card) => card.id(),
        Err(_) => MemberId(Digest([0; 32])),
    })
}

// The ids of the members with these numbers, in ascending order.
fn members(alloc: Global, numbers: &[u8]) -> Result<Ids, Memory> {
    let mut ids = Vec::new(alloc);
    for number in numbers {
        ids.push(member(alloc, *number)?.0)?;
    }
    ids.sort()?;
    Ok(Ids::from(ids))
}

fn append_card(cards: &mut Cards, bytes: &Bytes, id: &Digest) -> Result<(), Memory> {
    match read_card(bytes.as_slice()) {
        Ok(card) if card.id().0 == *id => cards.push(&card),
        _ => Ok(()),
    }
}

// The cards of the members 0 to 2, in the order of their ids.
fn founders(alloc: Global) -> Result<Cards, Memory> {
    let ids = members(alloc, &[0, 1, 2])?;
    let mut cards = Cards::new(alloc);
    for id in ids.as_slice() {
        for number in 0..3 {
            append_card(&mut cards, &card_bytes(alloc, number)?, id)?;
        }
    }
    Ok(cards)
}

// ---- headers

#[derive(Clone, Copy)]
enum Does {
    Create,
    Update,
    Remove(u8),
    Add(u8),
    Text,
}

fn kind_of(does: Does) -> Kind {
    match does {
        Does::Create => Kind::Create,
        Does::Update => Kind::Update,
        Does::Remove(_) => Kind::Remove,
        Does::Add(_) => Kind::Add,
        Does::Text => Kind::Text,
    }
}

fn target_of(alloc: Global, does: Does) -> Result<Target, Memory> {
    Ok(match does {
        Does::Create => Target::Members(members(alloc, &[0, 1, 2])?),
        Does::Remove(number) | Does::Add(number) => Target::Member(member(alloc, number)?),
        Does::Update | Does::Text => Target::Nothing,
    })
}

fn header(alloc: Global, history: &History, me: u8, does: Does) -> Result<Header, Memory> {
    Ok(Header {
        set: 2,
        group: GroupId(Digest([9; 32])),
        sender: member(alloc, me)?,
        seq: 2,
        kind: kind_of(does),
        target: target_of(alloc, does)?,
        predecessors: history.heads()?,
        body: Digest([0; 32]),
    })
}

fn cards_of(alloc: Global, does: Does) -> Result<Cards, Memory> {
    let mut cards = Cards::new(alloc);
    match does {
        Does::Create => return founders(alloc),
        Does::Add(number) => {
            let id = member(alloc, number)?.0;
            append_card(&mut cards, &card_bytes(alloc, number)?, &id)?;
        }
        _ => {}
    }
    Ok(cards)
}

fn push_view(
    history: &mut History,
    header: &HeaderView<'_>,
    cards: &Cards,
) -> Result<bool, Memory> {
    if !history.may_push(header, cards)? {
        return Ok(false);
    }
    history.push(header, cards)?;
    Ok(true)
}

// Pushes the create of member 0. Answers whether that could be.
fn open(alloc: Global, history: &mut History) -> Result<bool, Memory> {
    let header = header(alloc, history, 0, Does::Create)?;
    if !header.has_spelling() {
        return Ok(false);
    }
    let bytes = write_header(alloc, &header)?;
    let cards = cards_of(alloc, Does::Create)?;
    match read_header(bytes.as_slice()) {
        Ok(view) => push_view(history, &view, &cards),
        Err(_) => Ok(false),
    }
}

// ---- what is asked, without clauses: what calls it is proved fast

// The crowd that a header is due to. None where it may not be asked.
fn crowd(alloc: Global, history: &History, header: Header) -> Result<Option<Crowd>, Memory> {
    let mut header = header;
    header.predecessors = history.heads()?;
    if !header.has_spelling() {
        return Ok(None);
    }
    match header.kind {
        Kind::Create => Ok(None),
        _ => addressees_of::<RemoveWins>(alloc, history, &header),
    }
}

// Those of a crowd, where the history may name who the header names.
fn receivers(
    alloc: Global,
    history: &History,
    view: &HeaderView<'_>,
    cards: &Cards,
    to: Crowd,
) -> Result<Vec<Receiver>, Memory> {
    let header = view.to_header(alloc)?;
    if !header.has_spelling() || !history.may_push(view, cards)? {
        return Ok(Vec::new(alloc));
    }
    receivers_of(alloc, history, &header, to)
}

// Those whom the next message is due to.
fn due(alloc: Global, history: &History, me: u8, does: Does) -> Result<Vec<Receiver>, Memory> {
    let cards = cards_of(alloc, does)?;
    let asked = header(alloc, history, me, does)?;
    let bytes = bytes_of(alloc, &asked)?;
    match (crowd(alloc, history, asked)?, read_header(bytes.as_slice())) {
        (Some(to), Ok(view)) => receivers(alloc, history, &view, &cards, to),
        _ => Ok(Vec::new(alloc)),
    }
}

fn bytes_of(alloc: Global, header: &Header) -> Result<Bytes, Memory> {
    if header.has_spelling() {
        return write_header(alloc, header);
    }
    Bytes::copy_of(alloc, &[])
}

// Whether the message is due to exactly the members with these numbers.
fn is_due(alloc: Global, history: &History, me: u8, does: Does, to: &[u8]) -> Result<bool, Memory> {
    let wanted = members(alloc, to)?;
    let mut ids = Vec::new(alloc);
    for receiver in &due(alloc, history, me, does)? {
        ids.push(receiver.member.0)?;
    }
    Ok(ids.as_slice() == wanted.as_slice())
}

// Who makes what, behind the create, and whom it is due to.
const CASES: [(u8, Does, &[u8]); 5] = [
    (1, Does::Update, &[0, 2]),
    (0, Does::Remove(2), &[1]),
    (2, Does::Remove(0), &[1]),
    (0, Does::Add(3), &[3]),
    (1, Does::Text, &[]),
];

// How many cases are due to others.
fn amiss(alloc: Global) -> Result<u32, Fail> {
    let mut history = History::new(alloc);
    if !open(alloc, &mut history)? {
        return Err(Fail::new("the create can't be pushed"));
    }
    let mut count: u32 = 0;
    for (me, does, to) in &CASES {
        if !is_due(alloc, &history, *me, *does, to)? {
            count = count.wrapping_add(1);
        }
    }
    Ok(count)
}

#[test]
fn headers_are_due_to_whom_they_are_for(rt: HostRuntime) -> Result<(), Fail> {
    assert_eq!(rt; amiss(rt.alloc())?, 0);
    Ok(())
}

//! An update of the first of three, whose part to the second has a wrong tag: the part of the third opens all the same.

use super::making::{CARD, CARRIED, create_with, meet_places, others, part_for, updated};
use super::{
    Drill, Group, Known, NOTHING, ack_says, after_step, answer_says, create_says, first_of,
    first_step, member, message, message_id, new_group, pair, ratchet, seed, stepped, take,
    was_met,
};
use group_fields::{Bytes, Kind, Target};
use hkdf_seal::kdf;
use secret_book::Book;
use std::alloc::Global;
use std::test::Fail;

/// What the first member sends: the bodies of its create and of its update, whose header this is, and a text behind
/// both, sealed, with its tag.
#[derive(Drop)]
struct Sent {
    create: Bytes,
    update: Bytes,
    header: Bytes,
    text: [u8; 5],
    tag: [u8; 32],
}

/// The second step of the first member, behind that of its create.
fn second_step(group: &Group) -> Known {
    let id = member(group, 0);
    let (_, ratchet) = first_step(&seed(CARRIED), &id);
    after_step(stepped(&ratchet, &kdf(&seed(CARRIED), b"member", &id)))
}

/// Whether taking the update says so much.
fn update_says(
    alloc: Global,
    book: &mut Drill,
    group: &Group,
    header: &[u8],
    part: Option<&[u8]>,
    took: bool,
    is: Known,
) -> Result<bool, Fail> {
    let own = seed(CARRIED);
    let drawn = if part.is_none() { Some(&own) } else { None };
    let taken = take(alloc, book, &group.behind, header, part, drawn)?;
    Ok(taken.learned == is.secret && ratchet(book, 0) == is.ratchet && taken.took == took)
}

fn header_of(alloc: Global, group: &Group) -> Result<Bytes, Fail> {
    let before = message_id(group.create.as_slice())?;
    let first = member(group, 0);
    message(alloc, first, Kind::Update, Target::Nothing, Some(before))
}

/// Seals a text of the first member.
fn sealed(book: &mut Drill, text: &mut [u8; 5]) -> Result<[u8; 32], Fail> {
    if !was_met(book, 0) {
        return Err(Fail::new("a place that was not met"));
    }
    match book.text_key(0) {
        Some(key) => Ok(key.seal(text)),
        None => Err(Fail::new("no text key")),
    }
}

/// Whether the text opens to what was sealed.
fn reads(book: &mut Drill, sent: &Sent) -> bool {
    let mut text = sent.text;
    if !was_met(book, 0) {
        return false;
    }
    match book.text_key(0) {
        Some(key) => key.open(&mut text, &sent.tag).is_some() && text == *b"hello",
        None => false,
    }
}

/// The first member makes its create and takes it.
fn opens_the_group(alloc: Global, book: &mut Drill, group: &Group) -> Result<Bytes, Fail> {
    let body = create_with(alloc, book, group, 3)?;
    let is = first_of(group, 0, CARRIED);
    if !create_says(alloc, book, group, 0, None, Some(&seed(CARRIED)), is)? {
        return Err(Fail::new("an own create"));
    }
    Ok(body)
}

/// The same of its update.
fn updates(alloc: Global, book: &mut Drill, group: &Group, header: &[u8]) -> Result<Bytes, Fail> {
    let body = updated(alloc, book, &group.behind, others(3), false)?;
    if !update_says(alloc, book, group, header, None, false, second_step(group))? {
        return Err(Fail::new("an own update"));
    }
    Ok(body)
}

fn sends(alloc: Global, book: &mut Drill, group: &Group) -> Result<Sent, Fail> {
    let header = header_of(alloc, group)?;
    let create = opens_the_group(alloc, book, group)?;
    let update = updates(alloc, book, group, header.as_slice())?;
    let mut text = *b"hello";
    let tag = sealed(book, &mut text)?;
    Ok(Sent {
        create,
        update,
        header,
        text,
        tag,
    })
}

fn made_by_the_first(alloc: Global, group: &Group) -> Result<Sent, Fail> {
    let mut book = Book::start(alloc, pair(alloc, 0)?);
    let sent = sends(alloc, &mut book, group);
    book.close();
    sent
}

/// The part for the member at a place, with another last byte for the second.
fn part_of(alloc: Global, sent: &Sent, place: u8) -> Result<Vec<u8>, Fail> {
    let mut part = part_for(sent.update.as_slice(), 0, place).to_vec(alloc)?;
    if let Some(last) = part.as_mut_slice().last_mut() {
        if place == 1 {
            *last ^= 1;
        }
    }
    Ok(part)
}

/// Whether a member takes the create, and the second's ack of it.
fn hears_the_create(
    alloc: Global,
    book: &mut Drill,
    group: &Group,
    sent: &Sent,
    place: u8,
) -> Result<bool, Fail> {
    meet_places(alloc, book, 3, place)?;
    let part = part_for(sent.create.as_slice(), 3 * CARD, place);
    let maker = first_of(group, 0, CARRIED);
    let heard = create_says(alloc, book, group, 0, Some(part), None, maker)?;
    let second = first_of(group, 1, CARRIED);
    Ok(ack_says(alloc, book, group, 1, true, None, second)? && heard)
}

/// Whether the second's ack, which tells that it took nothing, leaves its ratchet, and the third's gives so much.
fn hears_the_acks(
    alloc: Global,
    book: &mut Drill,
    group: &Group,
    header: &[u8],
    third: Known,
) -> Result<bool, Fail> {
    let stays = Known {
        secret: None,
        ratchet: first_of(group, 1, CARRIED).ratchet,
    };
    let refused = answer_says(alloc, book, group, header, 1, false, None, stays)?;
    Ok(answer_says(alloc, book, group, header, 2, true, None, third)? && refused)
}

/// Whether a member knows what is to be known: the second forgets the first, and reads nothing of it any more.
fn hears(
    alloc: Global,
    book: &mut Drill,
    group: &Group,
    sent: &Sent,
    place: u8,
) -> Result<bool, Fail> {
    let opens = place != 1;
    let (first, third) = if opens {
        (second_step(group), first_of(group, 2, CARRIED))
    } else {
        (NOTHING, NOTHING)
    };
    let before = hears_the_create(alloc, book, group, sent, place)?;
    let header = sent.header.as_slice();
    let part = part_of(alloc, sent, place)?;
    let taken = update_says(
        alloc,
        book,
        group,
        header,
        Some(part.as_slice()),
        opens,
        first,
    )?;
    let acks = hears_the_acks(alloc, book, group, header, third)?;
    Ok(before && taken && acks && reads(book, sent) == opens)
}

fn is_heard(alloc: Global, group: &Group, sent: &Sent, place: u8) -> Result<bool, Fail> {
    let mut book = Book::start(alloc, pair(alloc, place)?);
    let right = hears(alloc, &mut book, group, sent, place);
    book.close();
    right
}

fn both_hear(alloc: Global) -> Result<bool, Fail> {
    let group = new_group(alloc, 3, 0)?;
    let sent = made_by_the_first(alloc, &group)?;
    Ok(is_heard(alloc, &group, &sent, 1)? && is_heard(alloc, &group, &sent, 2)?)
}

#[test]
fn an_update_with_a_wrong_tag(rt: HostRuntime) -> Result<(), Fail> {
    assert!(rt; both_hear(rt.alloc())?);
    Ok(())
}

//! The history that an add hands on, as it is written for a small group.

ghost use Rattle.std.specs.Prelude.{◌≡◌, All, IsTrue};
ghost use Rattle.group_fields.specs.declared.card.Card.{Card};
ghost use Rattle.group_model.specs.Sets.{In};
ghost use Rattle.causal_history.specs.Rows.{cards_of};

use super::making::*;
use crate::{append_welcome, welcome_len};
use causal_history::History;
use group_fields::{
    Card, Cards, Digest, GroupId, HeaderView, Ids, Kind, MemberId, Target, read_card, read_header,
};
use ntru_prime::Drill37;
use std::alloc::Global;
use std::test::Fail;

/// A history whose cards are of the smaller set.
#[derive(Drop)]
struct Told {
    history: History,
    ghost of_set: { (card : Card) → In card (cards_of history) → card.set ≡ 2 },
}

/// Whether all cards are of the smaller set.
fn are_of_set(cards: &[Card]) -> bool
    ensures { IsTrue result → All (λ card. card.set ≡ 2) cards.now }
{
    cards.iter().all(|card| card.set == 2)
}

/// No rows.
fn nothing(alloc: Global) -> Told {
    Told {
        history: History::new(alloc),
    }
}

/// Pushes a row, where it may stand.
fn push(told: &mut Told, header: &HeaderView<'_>, cards: &Cards) -> Result<(), Fail> {
    if !are_of_set(cards.as_slice()) || !told.history.may_push(header, cards)? {
        return Err(Fail::new("a row that may not be pushed"));
    }
    told.history.push(header, cards)?;
    Ok(())
}

/// A person that has a number, and keys of the smaller set.
fn person(alloc: Global, number: u8) -> Result<Person, Fail> {
    let traits = Traits {
        number,
        set: 2,
        inviter: MemberId(Digest([0; 32])),
        signs: false,
        has_key: false,
    };
    new_person(alloc, &traits)
}

/// Three people, in the order of their ids.
fn three(alloc: Global) -> Result<Vec<Person>, Fail> {
    let mut people = Vec::new(alloc);
    for number in 1..4 {
        people.push(person(alloc, number)?)?;
    }
    people.sort_by_key(|person| person.id)?;
    Ok(people)
}

/// The cards of people, in their order.
fn cards_of(alloc: Global, people: &[Person]) -> Result<Cards, Fail> {
    let mut cards = Cards::new(alloc);
    for person in people {
        match read_card(card_of(person)) {
            Ok(card) => cards.push(&card)?,
            Err(_) => return Err(Fail::new("no card")),
        }
    }
    Ok(cards)
}

/// The ids of people, in their order.
fn ids_of(alloc: Global, people: &[Person]) -> Result<Ids, Fail> {
    let mut ids = Vec::new(alloc);
    for person in people {
        ids.push(person.id.0)?;
    }
    Ok(Ids::from(ids))
}

/// What a message of somebody says that follows one other, or none.
fn says(
    alloc: Global,
    by: &Person,
    seq: u32,
    kind: Kind,
    target: Target,
    after: &[Digest],
) -> Result<Says, Fail> {
    Ok(Says {
        set: 2,
        group: GroupId(Digest([1; 32])),
        sender: by.id,
        seq,
        kind,
        target,
        after: Ids::from(after.to_vec(alloc)?),
    })
}

/// Tells a message with the cards of whom it names, and writes its row. Answers its id.
fn tell(
    alloc: Global,
    told: &mut Told,
    rows: &mut Rows,
    says: Says,
    named: &[Person],
) -> Result<Digest, Fail> {
    let header = header_with(alloc, says, &[])?;
    let cards = cards_of(alloc, named)?;
    match read_header(header.as_slice()) {
        Ok(view) => push(told, &view, &cards)?,
        Err(_) => return Err(Fail::new("no header")),
    }
    append_row(rows, header.as_slice())?;
    Ok(digest(header.as_slice()))
}

/// The second opens a group with the third, and updates; the third adds the first. So the ids don't ascend by place.
fn tell_all(
    alloc: Global,
    told: &mut Told,
    rows: &mut Rows,
    people: &[Person],
) -> Result<(), Fail> {
    let [first, second, third] = people else {
        return Err(Fail::new("three people"));
    };
    let members = Target::Members(ids_of(alloc, &people[1..])?);
    let create = says(alloc, second, 1, Kind::Create, members, &[])?;
    let create = tell(alloc, told, rows, create, &people[1..])?;
    let update = says(alloc, second, 2, Kind::Update, Target::Nothing, &[create])?;
    let update = tell(alloc, told, rows, update, &[])?;
    let add = says(
        alloc,
        third,
        1,
        Kind::Add,
        Target::Member(first.id),
        &[update],
    )?;
    tell(alloc, told, rows, add, &people[..1])?;
    Ok(())
}

/// What is written behind one byte.
fn written(alloc: Global, told: &Told) -> Result<Vec<u8>, Fail> {
    if told.history.count() > 4095 {
        return Err(Fail::new("too many rows"));
    }
    let mut bytes = vec![in alloc; 7; 1]?;
    append_welcome::<Drill37>(alloc, &told.history, &mut bytes)?;
    Ok(bytes)
}

/// Whether bytes are one byte and a history, and as long as was measured.
fn is_history(told: &Told, bytes: &[u8], history: &[u8]) -> bool {
    bytes.len() == welcome_len(&told.history).saturating_add(1)
        && bytes.first() == Some(&7)
        && bytes.get(1..) == Some(history)
}

/// Whether the history is written as it is told.
fn is_written(alloc: Global, told: &Told, rows: &Rows, people: &[Person]) -> Result<bool, Fail> {
    let bytes = written(alloc, told)?;
    let ids = ids_of(alloc, people)?;
    let wanted = history_bytes(alloc, people, ids.as_slice(), rows)?;
    Ok(is_history(told, bytes.as_slice(), wanted.as_slice()))
}

/// Whether a history without rows, and then that of three people, is written as it is told.
fn both_are_written(alloc: Global) -> Result<bool, Fail> {
    let people = three(alloc)?;
    let mut told = nothing(alloc);
    let mut rows = no_rows(alloc);
    let empty = is_history(&told, written(alloc, &told)?.as_slice(), &[0, 0, 0]);
    tell_all(alloc, &mut told, &mut rows, people.as_slice())?;
    Ok(empty && is_written(alloc, &told, &rows, people.as_slice())?)
}

#[test]
fn a_history_is_written(rt: HostRuntime) -> Result<(), Fail> {
    assert!(rt; both_are_written(rt.alloc())?);
    Ok(())
}

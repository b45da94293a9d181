//! Bodies that carry a seed: those of creates of one, two and three, whose parts the others take, and that of an
//! update.
ghost use Rattle.std.specs.Prelude.{◌≡◌, All, IfOk, IsTrue, map};
ghost use Rattle.causal_history.specs.Rows.{history_of};
ghost use Rattle.group_fields.specs.Cards.{card_id};
ghost use Rattle.group_model.specs.Membership.{ids_named};
ghost use Rattle.secret_book.specs.HeldBooks.{held};
ghost use Rattle.body_parts.specs.Sending.{CanReach};
ghost use Rattle.group_ops.specs.Making.{AreFounders};

use super::{Drill, Group, create_says, first_of, meet, meet_own, member, new_group, pair, seed};
use crate::make_seeded;
use body_parts::{Receiver, can_reach, draw_for, parts_body, receivers};
use causal_history::{Crowd, History};
use group_fields::{Bytes, Card, Cards, HeaderView, read_card, read_header};
use group_messages::named_ids_are_few;
use ntru_prime::Drill37;
use secret_book::Book;
use std::alloc::Global;
use std::test::Fail;

/// The bytes of a card and of a part of this set, and of a part behind its id.
pub(super) const CARD: usize = 124;

const PART: usize = 259;

const ADDRESSED: usize = 291;

/// The number of the seed that a body carries.
pub(super) const CARRIED: u8 = 20;

fn refused() -> Fail {
    Fail::new("a body that may not be made")
}

/// Whether all cards are of the set.
fn are_of_set(cards: &[Card]) -> bool
    ensures { IsTrue result → All (λ card. card.set ≡ 2) cards.now }
{
    cards.iter().all(|card| card.set == 2)
}

/// Whether parts can be sent to each of the receivers.
fn can_reach_each(book: &Drill, to: &[Receiver]) -> bool
    ensures { IsTrue result → All (λ r. CanReach (held book.now) r.place) to.now }
{
    for i in 0..to.len() {
        if !can_reach(book, to[i].place) {
            return false;
        }
    }
    true
}

/// The history that a create with these cards opens.
fn opened(alloc: Global, create: &HeaderView<'_>, cards: &Cards) -> Result<History, Fail>
    ensures founders { IfOk result (λ history. AreFounders 2 cards.now) }
    ensures ids { IfOk result (λ history. ids_named (history_of history) ≡ map card_id cards.now) }
{
    named_ids_are_few();
    let _bytes = create.bytes();
    let mut history = History::new(alloc);
    let of_set = are_of_set(cards.as_slice());
    let may = history.may_push(create, cards)?;
    if !of_set || !may {
        return Err(refused());
    }
    history.push(create, cards)?;
    Ok(history)
}

/// The body of a create for a crowd of whom it names.
fn created(
    alloc: Global,
    book: &mut Drill,
    create: &HeaderView<'_>,
    cards: &Cards,
    to: Crowd,
) -> Result<Bytes, Fail> {
    let behind = opened(alloc, create, cards)?;
    let list = receivers(alloc, &behind, to)?;
    let all = list.as_slice();
    if cards.is_empty() || !can_reach_each(book, all) {
        return Err(refused());
    }
    let draws = draw_for::<Drill37>(alloc, &seed(30), all)?;
    let before = History::new(alloc);
    let carried = seed(CARRIED);
    Ok(make_seeded(alloc, book, &before, to, cards, &carried, draws)?)
}

/// The body of an update for a crowd, or, plain, of parts alone with the same draws.
pub(super) fn updated(
    alloc: Global,
    book: &mut Drill,
    history: &History,
    to: Crowd,
    plain: bool,
) -> Result<Bytes, Fail> {
    let list = receivers(alloc, history, to)?;
    let all = list.as_slice();
    if !can_reach_each(book, all) {
        return Err(refused());
    }
    let draws = draw_for::<Drill37>(alloc, &seed(31), all)?;
    let carried = seed(CARRIED);
    if plain {
        return Ok(parts_body(alloc, book, history, to, &carried, draws)?);
    }
    let none = Cards::new(alloc);
    Ok(make_seeded(alloc, book, history, to, &none, &carried, draws)?)
}

/// All but the first of so many members.
pub(super) fn others(count: u8) -> Crowd {
    let mut to = Crowd::new();
    for place in 1..3 {
        if place < count {
            to = to.with(place);
        }
    }
    to
}

/// Meets so many members, of whom the one at a place is the owner: their pairs have the numbers of their places.
pub(super) fn meet_places(alloc: Global, book: &mut Drill, count: u8, own: u8) -> Result<(), Fail> {
    for place in 0..count {
        if place == own {
            meet_own(alloc, book)?;
        } else {
            meet(alloc, book, place)?;
        }
    }
    Ok(())
}

/// The body of a group's create by the first of its members.
pub(super) fn create_with(
    alloc: Global,
    book: &mut Drill,
    group: &Group,
    count: u8,
) -> Result<Bytes, Fail> {
    meet_places(alloc, book, count, 0)?;
    let Ok(create) = read_header(group.create.as_slice()) else {
        return Err(refused());
    };
    created(alloc, book, &create, &group.cards, others(count))
}

fn create_body(alloc: Global, group: &Group, count: u8) -> Result<Bytes, Fail> {
    let mut book = Book::start(alloc, pair(alloc, 0)?);
    let body = create_with(alloc, &mut book, group, count);
    book.close();
    body
}

/// The body of an update by the first member of three.
fn update_with(alloc: Global, book: &mut Drill, group: &Group, plain: bool) -> Result<Bytes, Fail> {
    meet_places(alloc, book, 3, 0)?;
    updated(alloc, book, &group.behind, others(3), plain)
}

fn update_body(alloc: Global, group: &Group, plain: bool) -> Result<Bytes, Fail> {
    let mut book = Book::start(alloc, pair(alloc, 0)?);
    let body = update_with(alloc, &mut book, group, plain);
    book.close();
    body
}

/// So many bytes from a place on; none where there are fewer.
fn piece(bytes: &[u8], at: usize, count: usize) -> &[u8] {
    match bytes.get(at..) {
        Some(rest) if rest.len() >= count => &rest[..count],
        _ => &[],
    }
}

/// Whether the card of the member at a place stands at its place of a create's body.
fn card_stands(alloc: Global, group: &Group, body: &[u8], place: u8) -> Result<bool, Fail> {
    let bytes = piece(body, CARD * place as usize, CARD);
    Ok(match read_card(bytes) {
        Ok(card) => card.id().0.0 == member(group, place),
        Err(_) => false,
    })
}

/// Whether the cards of so many members stand at the front, in the order of their ids.
fn cards_stand(alloc: Global, group: &Group, body: &[u8], count: u8) -> Result<bool, Fail> {
    let mut right = true;
    for place in 0..count {
        right = card_stands(alloc, group, body, place)? && right;
    }
    Ok(right)
}

/// Whether parts for all but the first of so many members stand from a place on, each behind its id.
fn parts_stand(group: &Group, body: &[u8], at: usize, count: u8) -> bool {
    let mut right = piece(body, at, 1) == [count.wrapping_sub(1)].as_slice();
    let mut next = at.wrapping_add(1);
    for place in 1..count {
        right = right && piece(body, next, 32) == member(group, place).as_slice();
        next = next.wrapping_add(ADDRESSED);
    }
    right && next == body.len()
}

/// The part for the member at a place, behind the first, where the parts stand from a place on.
pub(super) fn part_for(body: &[u8], at: usize, place: u8) -> &[u8] {
    let before = ADDRESSED * place as usize;
    piece(body, at.wrapping_add(before).wrapping_sub(PART - 1), PART)
}

/// Whether the member at a place opens a part of the create, and learns the first member's first step.
fn hears(
    alloc: Global,
    book: &mut Drill,
    group: &Group,
    count: u8,
    place: u8,
    part: &[u8],
) -> Result<bool, Fail> {
    meet_places(alloc, book, count, place)?;
    let is = first_of(group, 0, CARRIED);
    create_says(alloc, book, group, 0, Some(part), None, is)
}

fn takes(alloc: Global, group: &Group, count: u8, place: u8, part: &[u8]) -> Result<bool, Fail> {
    let mut book = Book::start(alloc, pair(alloc, place)?);
    let right = hears(alloc, &mut book, group, count, place, part);
    book.close();
    right
}

/// Whether the body of a create of so many is laid out as it is to be, and each of the others takes its part.
fn create_is_right(alloc: Global, count: u8) -> Result<bool, Fail> {
    let group = new_group(alloc, count, 0)?;
    let made = create_body(alloc, &group, count)?;
    let body = made.as_slice();
    let at = CARD * count as usize;
    let mut right = cards_stand(alloc, &group, body, count)?
        && parts_stand(&group, body, at, count);
    for place in 1..count {
        let part = part_for(body, at, place);
        right = takes(alloc, &group, count, place, part)? && right;
    }
    Ok(right)
}

/// Whether the body of an update is that of parts alone with the same draws.
fn update_is_right(alloc: Global) -> Result<bool, Fail> {
    let group = new_group(alloc, 3, 0)?;
    let made = update_body(alloc, &group, false)?;
    let plain = update_body(alloc, &group, true)?;
    Ok(made.as_slice() == plain.as_slice() && parts_stand(&group, made.as_slice(), 0, 3))
}

#[test]
fn bodies_with_a_seed(rt: HostRuntime) -> Result<(), Fail> {
    for count in 1..4 {
        assert!(rt; create_is_right(rt.alloc(), count)?, "of {count}");
    }
    assert!(rt; update_is_right(rt.alloc())?);
    Ok(())
}

//! Bodies of parts for some members of a small history, opened by the books of who they are for.
ghost use Rattle.std.specs.Prelude.{◌≡◌, ◌<◌, true, length, All, IsTrue};
ghost use Rattle.secret_book.specs.HeldBooks.{held};
ghost use Rattle.body_parts.specs.Sending.{CanReach};

use crate::{Receiver, append_part, can_reach, draw_for, parts_body, receivers};
use causal_history::{Crowd, History};
use group_fields::{
    Bytes, Card, Cards, Digest, GroupId, Header, HeaderView, Ids, Kind, MemberId, Memory, Target,
    read_card, read_header, write_card, write_header,
};
use kem_trait::{Kem, SeedWords};
use ntru_prime::Drill37;
use secret_book::Book;
use std::alloc::Global;
use std::test::Fail;

type Drill = Book<Drill37>;

/// The bytes of a part of this set.
const PART: usize = 259;

const PAYLOAD: [u8; 32] = [0x5a; 32];

/// A card, by the number that its bytes have.
fn card_bytes(alloc: Global, number: u8) -> Result<Bytes, Memory> {
    let mut lms_public = [number; 56];
    for (at, byte) in [0, 0, 0, 5, 0, 0, 0, 3].iter().enumerate() {
        lms_public[at] = *byte;
    }
    let card = Card {
        set: 2,
        lms_public,
        inviter: MemberId(Digest([0; 32])),
        kem_public: Bytes::copy_of(alloc, &[number; 33])?,
    };
    if !card.has_spelling() {
        return Bytes::copy_of(alloc, &[]);
    }
    write_card(alloc, &card)
}

fn id_of(alloc: Global, number: u8) -> Result<Digest, Fail> {
    match read_card(card_bytes(alloc, number)?.as_slice()) {
        Ok(card) => Ok(card.id().0),
        Err(_) => Err(Fail::new("no card")),
    }
}

/// The numbers of so many cards, in the order of their ids.
fn in_order(alloc: Global, count: u8) -> Result<Vec<u8>, Fail> {
    let mut order = Vec::new(alloc);
    for number in 0..count {
        order.push((id_of(alloc, number)?, number))?;
    }
    order.sort()?;
    let mut numbers = Vec::new(alloc);
    for (_, number) in &order {
        numbers.push(*number)?;
    }
    Ok(numbers)
}

/// The cards of these numbers.
fn cards_of(alloc: Global, numbers: &[u8]) -> Result<Cards, Fail> {
    let mut cards = Cards::new(alloc);
    for number in numbers {
        if let Ok(card) = read_card(card_bytes(alloc, *number)?.as_slice()) {
            cards.push(&card)?;
        }
    }
    Ok(cards)
}

/// The ids of these members.
fn ids_of(alloc: Global, numbers: &[u8]) -> Result<Ids, Fail> {
    let mut ids = Ids::new(alloc);
    for number in numbers {
        ids.push(id_of(alloc, *number)?)?;
    }
    Ok(ids)
}

/// The first row, where there is one.
fn first_row(alloc: Global, history: &History) -> Result<Ids, Fail> {
    let mut ids = Ids::new(alloc);
    if history.count() > 0 {
        ids.push(history.id(0).0)?;
    }
    Ok(ids)
}

/// The header of the first member's next message.
fn header_of(alloc: Global, history: &History, kind: Kind, target: Target) -> Result<Header, Fail> {
    Ok(Header {
        set: 2,
        group: GroupId(Digest([9; 32])),
        sender: MemberId(Digest([1; 32])),
        seq: history.count().wrapping_add(1),
        kind,
        target,
        predecessors: first_row(alloc, history)?,
        body: Digest([7; 32]),
    })
}

fn header_bytes(alloc: Global, header: &Header) -> Result<Bytes, Fail> {
    if !header.has_spelling() {
        return Err(Fail::new("no header"));
    }
    Ok(write_header(alloc, header)?)
}

/// Pushes a row.
fn push_view(history: &mut History, header: &HeaderView<'_>, cards: &Cards) -> Result<(), Fail> {
    if !history.may_push(header, cards)? {
        return Err(Fail::new("a row that may not be pushed"));
    }
    Ok(history.push(header, cards)?)
}

/// Pushes the row of a header with the cards of these numbers.
fn push(alloc: Global, history: &mut History, header: &Header, numbers: &[u8]) -> Result<(), Fail> {
    let bytes = header_bytes(alloc, header)?;
    let cards = cards_of(alloc, numbers)?;
    match read_header(bytes.as_slice()) {
        Ok(view) => push_view(history, &view, &cards),
        Err(_) => Err(Fail::new("no header")),
    }
}

/// Opens the group of the members of these cards, in the order of their ids.
fn create(alloc: Global, history: &mut History, numbers: &[u8]) -> Result<(), Fail> {
    let members = Target::Members(ids_of(alloc, numbers)?);
    let header = header_of(alloc, history, Kind::Create, members)?;
    push(alloc, history, &header, numbers)
}

/// Adds the member of a card.
fn add(alloc: Global, history: &mut History, number: u8) -> Result<(), Fail> {
    let target = Target::Member(MemberId(id_of(alloc, number)?));
    let header = header_of(alloc, history, Kind::Add, target)?;
    push(alloc, history, &header, &[number])
}

fn pair(alloc: Global, number: u8) -> Result<<Drill37 as Kem>::Pair, Fail> {
    Ok(Drill37::make(alloc, &mut SeedWords::new(&[number; 32]))?)
}

/// Meets the next place: a member whose pair is made by the seed of a number, or, without one, the own place.
fn meet(alloc: Global, book: &mut Drill, number: Option<u8>) -> Result<(), Fail> {
    let place = book.met();
    let Some(number) = number else {
        if place != 0 {
            return Err(Fail::new("the own place is the first here"));
        }
        return Ok(book.meet(alloc, 0, None)?);
    };
    let theirs = pair(alloc, number)?;
    let mut public = vec![in alloc; 0; Drill37::PUBLIC_LEN]?;
    Drill37::public(&theirs, public.as_mut_slice());
    if place > 255 || !Drill37::public_ok(public.as_slice()) {
        return Err(Fail::new("no place, or the public key of a pair is none"));
    }
    Ok(book.meet(alloc, place as u8, Some(public.as_slice()))?)
}

/// Whether parts can be sent to each of the receivers.
fn can_reach_each(book: &Drill, to: &[Receiver]) -> bool
    ensures { IsTrue result → All (λ r. CanReach (held book.now) r.place) to.now }
{
    for i in 0..to.len() {
        if !can_reach(book, to[i].place) {
            return false;
        }
    }
    true
}

/// The body of parts for a crowd.
fn body(alloc: Global, book: &mut Drill, history: &History, to: Crowd) -> Result<Bytes, Fail> {
    let list = receivers(alloc, history, to)?;
    let all = list.as_slice();
    if !can_reach_each(book, all) {
        return Err(Fail::new("a place that no part can be sent to"));
    }
    let draws = draw_for::<Drill37>(alloc, &[3; 32], all)?;
    Ok(parts_body(alloc, book, history, to, &PAYLOAD, draws)?)
}

/// The part alone, for the first of a crowd, behind one byte.
fn first_part(
    alloc: Global,
    book: &mut Drill,
    history: &History,
    to: Crowd,
) -> Result<Vec<u8>, Fail> {
    let list = receivers(alloc, history, to)?;
    let mut into = vec![in alloc; 8; 1]?;
    let [first, ..] = list.as_slice() else {
        return Err(Fail::new("nobody"));
    };
    let first = *first;
    if !can_reach(book, first.place) {
        return Err(Fail::new("a place that no part can be sent to"));
    }
    let mut draws = draw_for::<Drill37>(alloc, &[4; 32], &[first])?;
    append_part(alloc, book, &first, &PAYLOAD, &mut draws, &mut into)?;
    Ok(into)
}

/// Whether a part of the member at place 1 opens to the payload.
fn opens(alloc: Global, book: &mut Drill, part: &[u8]) -> Result<bool, Fail> {
    if !can_reach(book, 1) {
        return Err(Fail::new("a place that was not met"));
    }
    Ok(book.open_from(alloc, 1, part)? == Some(PAYLOAD))
}

/// Meets the own place, and then members whose pairs have these numbers.
fn meet_all(alloc: Global, book: &mut Drill, others: &[u8]) -> Result<(), Fail> {
    meet(alloc, book, None)?;
    for other in others {
        meet(alloc, book, Some(*other))?;
    }
    Ok(())
}

/// Whether the bytes from a place on begin with a member's id.
fn names(alloc: Global, bytes: &[u8], at: usize, number: u8) -> Result<bool, Fail> {
    let id = id_of(alloc, number)?;
    Ok(match bytes.get(at..) {
        Some(rest) => rest.starts_with(&id.0),
        None => false,
    })
}

/// The part that stands at a place.
fn part_at(bytes: &[u8], at: usize) -> &[u8] {
    match bytes.get(at..) {
        Some(rest) if rest.len() >= PART => &rest[..PART],
        _ => &[],
    }
}

/// A history of three members, with the numbers of the cards of the least and of the greatest id. The places are of the
/// second id, of the greatest, and of the least.
#[derive(Drop)]
struct SmallGroup {
    history: History,
    least: u8,
    most: u8,
}

/// The numbers of three cards, in the order of their ids.
fn three(alloc: Global) -> Result<(u8, u8, u8), Fail> {
    match in_order(alloc, 3)?.as_slice() {
        [least, own, most] => Ok((*least, *own, *most)),
        _ => Err(Fail::new("three numbers")),
    }
}

/// A member adds the one with the least id to a group of its own and the one with the greatest.
fn small_history(alloc: Global, least: u8, own: u8, most: u8) -> Result<History, Fail> {
    let mut history = History::new(alloc);
    create(alloc, &mut history, &[own, most])?;
    add(alloc, &mut history, least)?;
    Ok(history)
}

fn small_group(alloc: Global) -> Result<SmallGroup, Fail> {
    let (least, own, most) = three(alloc)?;
    Ok(SmallGroup {
        history: small_history(alloc, least, own, most)?,
        least,
        most,
    })
}

/// Whether two parts stand in the bytes, for the least id and for the greatest.
fn two_stand(alloc: Global, bytes: &[u8], group: &SmallGroup) -> Result<bool, Fail> {
    let first = names(alloc, bytes, 1, group.least)?;
    let second = names(alloc, bytes, 292, group.most)?;
    Ok(first && second && bytes.len() == 583 && bytes.first() == Some(&2))
}

/// Whether the parts of a body stand in the order of ids, and each opens where it is for.
fn both_open(alloc: Global, bytes: &[u8], bob: &mut Drill, cyd: &mut Drill) -> Result<bool, Fail> {
    let shut = !opens(alloc, bob, part_at(bytes, 33))?;
    let to_bob = opens(alloc, bob, part_at(bytes, 324))?;
    let to_cyd = opens(alloc, cyd, part_at(bytes, 33))?;
    Ok(shut && to_bob && to_cyd)
}

/// Whether a part alone stands behind the byte before it, and opens.
fn alone_opens(alloc: Global, part: &[u8], cyd: &mut Drill) -> Result<bool, Fail> {
    let opened = opens(alloc, cyd, part_at(part, 1))?;
    Ok(opened && part.len() == 260 && part.first() == Some(&8))
}

/// The books of ada, bob and cyd, who meet.
fn meet_three(
    alloc: Global,
    ada: &mut Drill,
    bob: &mut Drill,
    cyd: &mut Drill,
) -> Result<(), Fail> {
    meet_all(alloc, ada, &[2, 3])?;
    meet_all(alloc, bob, &[1])?;
    meet_all(alloc, cyd, &[1])
}

/// The parts of ada to bob and cyd.
fn to_both(
    alloc: Global,
    ada: &mut Drill,
    bob: &mut Drill,
    cyd: &mut Drill,
    group: &SmallGroup,
) -> Result<bool, Fail> {
    let both = body(alloc, ada, &group.history, Crowd::new().with(1).with(2))?;
    let stand = two_stand(alloc, both.as_slice(), group)?;
    Ok(both_open(alloc, both.as_slice(), bob, cyd)? && stand)
}

/// The body for nobody.
fn to_nobody(alloc: Global, ada: &mut Drill, group: &SmallGroup) -> Result<bool, Fail> {
    let nobody = body(alloc, ada, &group.history, Crowd::new())?;
    Ok(nobody.as_slice() == [0].as_slice())
}

/// A part to cyd alone.
fn to_cyd(
    alloc: Global,
    ada: &mut Drill,
    cyd: &mut Drill,
    group: &SmallGroup,
) -> Result<bool, Fail> {
    let alone = first_part(alloc, ada, &group.history, Crowd::new().with(2))?;
    alone_opens(alloc, alone.as_slice(), cyd)
}

/// The parts of ada to bob and cyd, to nobody, and to cyd alone.
fn story(alloc: Global, ada: &mut Drill, bob: &mut Drill, cyd: &mut Drill) -> Result<bool, Fail> {
    meet_three(alloc, ada, bob, cyd)?;
    let group = small_group(alloc)?;
    let both = to_both(alloc, ada, bob, cyd, &group)?;
    let nobody = to_nobody(alloc, ada, &group)?;
    Ok(to_cyd(alloc, ada, cyd, &group)? && both && nobody)
}

#[test]
fn parts_of_a_small_group(rt: HostRuntime) -> Result<(), Fail> {
    let first = pair(rt.alloc(), 1)?;
    let second = pair(rt.alloc(), 2)?;
    let third = pair(rt.alloc(), 3)?;
    let mut ada = Book::start(rt.alloc(), first);
    let mut bob = Book::start(rt.alloc(), second);
    let mut cyd = Book::start(rt.alloc(), third);
    let right = story(rt.alloc(), &mut ada, &mut bob, &mut cyd);
    ada.close();
    bob.close();
    cyd.close();
    assert!(rt; right?);
    Ok(())
}

/// A history of 32 members.
fn large_history(alloc: Global, numbers: &[u8]) -> Result<History, Fail> {
    let mut history = History::new(alloc);
    create(alloc, &mut history, numbers)?;
    Ok(history)
}

/// All but the first of 32 places.
fn all_others() -> Crowd {
    let mut to = Crowd::new();
    for place in 1..32 {
        to = to.with(place);
    }
    to
}

/// The body for all but the first of 32 members.
fn large_body(alloc: Global, ada: &mut Drill, numbers: &[u8]) -> Result<Bytes, Fail> {
    let history = large_history(alloc, numbers)?;
    body(alloc, ada, &history, all_others())
}

/// Whether the ids of all but the first member stand, one part apart.
fn all_stand(alloc: Global, bytes: &[u8], numbers: &[u8]) -> Result<bool, Fail> {
    let mut right = bytes.len() == 9022 && bytes.first() == Some(&31);
    let mut at = 1usize;
    for number in numbers.get(1..).unwrap_or(&[]) {
        right = names(alloc, bytes, at, *number)? && right;
        at = at.wrapping_add(291);
    }
    Ok(right && at == 9022)
}

/// A body for all but the first of 32 members, who have one pair.
fn crowded(alloc: Global, ada: &mut Drill, bob: &mut Drill) -> Result<bool, Fail> {
    meet_all(alloc, ada, &[2; 31])?;
    meet_all(alloc, bob, &[1])?;
    let numbers = in_order(alloc, 32)?;
    let all = large_body(alloc, ada, numbers.as_slice())?;
    let right = all_stand(alloc, all.as_slice(), numbers.as_slice())?;
    Ok(opens(alloc, bob, part_at(all.as_slice(), 8763))? && right)
}

#[test]
fn parts_of_a_large_group(rt: HostRuntime) -> Result<(), Fail> {
    let first = pair(rt.alloc(), 1)?;
    let second = pair(rt.alloc(), 2)?;
    let mut ada = Book::start(rt.alloc(), first);
    let mut bob = Book::start(rt.alloc(), second);
    let right = crowded(rt.alloc(), &mut ada, &mut bob);
    ada.close();
    bob.close();
    assert!(rt; right?);
    Ok(())
}

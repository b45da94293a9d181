//! The body of an add, which the book of who is added opens.

ghost use Rattle.std.specs.Prelude.{◌≡◌, ◌<◌, ◌∷◌, ℕ, All, IsSome, IsTrue, length, true};
ghost use Rattle.group_fields.specs.declared.card.Card.{Card};
ghost use Rattle.group_messages.specs.Messages.{message_of};
ghost use Rattle.group_model.specs.Membership.{ids_named};
ghost use Rattle.group_model.specs.Messages.{Message};
ghost use Rattle.group_model.specs.Sets.{In, has};
ghost use Rattle.causal_history.specs.Rows.{cards_of, history_of};
ghost use Rattle.secret_book.specs.HeldBooks.{held};

use crate::make_add;
use body_parts::{Receiver, can_reach, draw_for};
use causal_history::History;
use group_fields::{
    Bytes, Card, CardView, Cards, Digest, GroupId, Header, HeaderView, Ids, Kind, MemberId, Memory,
    Target, read_card, read_header, write_card, write_header,
};
use kem_trait::{Kem, SeedWords};
use member_view::place_with;
use ntru_prime::Drill37;
use secret_book::Book;
use std::alloc::Global;
use std::test::Fail;
use welcome_history::append_welcome;

pub(super) type Drill = Book<Drill37>;

/// The bytes of a card and of a part of this set.
pub(super) const CARD: usize = 124;

pub(super) const PART: usize = 259;

pub(super) const RATCHET: [u8; 32] = [0x5a; 32];

/// A history whose cards are of the set, and whose senders are named.
#[derive(Drop)]
pub(super) struct Told {
    pub history: History,
    ghost of_set: { (card : Card) → In card (cards_of history) → card.set ≡ 2 },
    ghost senders: { (m : Message) → In m (history_of history)
        → has (ids_named (history_of history)) m.sender ≡ true },
}

/// Whether all cards are of the set.
fn are_of_set(cards: &[Card]) -> bool
    ensures { IsTrue result → All (λ card. card.set ≡ 2) cards.now }
{
    cards.iter().all(|card| card.set == 2)
}

/// Whether the sender of a message is named by the history or the message.
pub(super) fn is_placed(history: &History, header: &HeaderView<'_>) -> bool
    ensures { IsTrue result
        → In (message_of header.now).sender (ids_named (message_of header.now ∷ history_of history.now)) }
{
    match place_with(history, Some(header), &header.sender()) {
        Some(_) => true,
        None => false,
    }
}

/// Pushes a row, where it may stand.
fn push(told: &mut Told, header: &HeaderView<'_>, cards: &Cards) -> Result<(), Fail> {
    let placed = is_placed(&told.history, header);
    let may = told.history.may_push(header, cards)?;
    if !are_of_set(cards.as_slice()) || !placed || !may {
        return Err(Fail::new("a row that may not be pushed"));
    }
    told.history.push(header, cards)?;
    Ok(())
}

/// Pushes the row of a header's bytes with the cards of these numbers.
pub(super) fn tell(
    alloc: Global,
    told: &mut Told,
    bytes: &[u8],
    numbers: &[u8],
) -> Result<(), Fail> {
    let cards = cards_of(alloc, numbers)?;
    match read_header(bytes) {
        Ok(header) => push(told, &header, &cards),
        Err(_) => Err(Fail::new("no header")),
    }
}

/// A card, by the number that its bytes have.
pub(super) fn card_bytes(alloc: Global, number: u8) -> Result<Bytes, Memory> {
    let mut lms_public = [number; 56];
    lms_public[..8].copy_from_slice(&[0, 0, 0, 5, 0, 0, 0, 3]);
    let card = Card {
        set: 2,
        lms_public,
        inviter: MemberId(Digest([0; 32])),
        kem_public: Bytes::copy_of(alloc, &[number; 33])?,
    };
    if !card.has_spelling() {
        return Bytes::copy_of(alloc, &[]);
    }
    write_card(alloc, &card)
}

/// The card that the bytes spell.
pub(super) fn card_in(bytes: &[u8]) -> Result<CardView<'_>, Fail> {
    match read_card(bytes) {
        Ok(card) => Ok(card),
        Err(_) => Err(Fail::new("no card")),
    }
}

/// The id of the member whose card has a number.
pub(super) fn id_of(alloc: Global, number: u8) -> Result<MemberId, Fail> {
    Ok(card_in(card_bytes(alloc, number)?.as_slice())?.id())
}

/// The cards of these numbers.
fn cards_of(alloc: Global, numbers: &[u8]) -> Result<Cards, Fail> {
    let mut cards = Cards::new(alloc);
    for number in numbers {
        cards.push(&card_in(card_bytes(alloc, *number)?.as_slice())?)?;
    }
    Ok(cards)
}

/// The header of a message that follows these.
pub(super) fn header_bytes(
    alloc: Global,
    sender: MemberId,
    kind: Kind,
    target: Target,
    after: &[Digest],
) -> Result<Bytes, Fail> {
    let header = Header {
        set: 2,
        group: GroupId(Digest([9; 32])),
        sender,
        seq: 1,
        kind,
        target,
        predecessors: Ids::from(after.to_vec(alloc)?),
        body: Digest([7; 32]),
    };
    if !header.has_spelling() {
        return Err(Fail::new("no header"));
    }
    Ok(write_header(alloc, &header)?)
}

/// A create by the first of the members of these cards.
fn create_bytes(alloc: Global, numbers: &[u8]) -> Result<Bytes, Fail> {
    let mut ids = Vec::new(alloc);
    for number in numbers {
        ids.push(id_of(alloc, *number)?.0)?;
    }
    let Some(first) = ids.as_slice().first().copied() else {
        return Err(Fail::new("nobody"));
    };
    let members = Target::Members(Ids::from(ids));
    header_bytes(alloc, MemberId(first), Kind::Create, members, &[])
}

/// No rows.
fn nothing(alloc: Global) -> Told {
    Told {
        history: History::new(alloc),
    }
}

/// A history in which the first of the members of these cards, in the order of their ids, opens a group of all.
pub(super) fn history_of(alloc: Global, numbers: &[u8]) -> Result<Told, Fail> {
    let mut told = nothing(alloc);
    let create = create_bytes(alloc, numbers)?;
    tell(alloc, &mut told, create.as_slice(), numbers)?;
    Ok(told)
}

pub(super) fn pair(alloc: Global, number: u8) -> Result<<Drill37 as Kem>::Pair, Fail> {
    Ok(Drill37::make(alloc, &mut SeedWords::new(&[number; 32]))?)
}

/// Whether each place that was met has a pairing, as where the own one wasn't met yet.
fn all_paired(book: &Drill) -> bool
    ensures { IsTrue result → (q : ℕ) → q < length book.now.places → IsSome ((held book.now).pairing q) }
{
    for place in 0..book.met() {
        if place > 255 {
            return false;
        }
        match book.sends(place as u8) {
            Some(_) => {}
            None => return false,
        }
    }
    true
}

/// Meets the own place.
fn meet_own(alloc: Global, book: &mut Drill) -> Result<(), Fail> {
    let place = book.met();
    if place > 255 || !all_paired(book) {
        return Err(Fail::new("no place, or a second own one"));
    }
    Ok(book.meet(alloc, place as u8, None)?)
}

/// Meets a member whose pair is made by the seed of a number.
fn meet(alloc: Global, book: &mut Drill, number: u8) -> Result<(), Fail> {
    let place = book.met();
    let theirs = pair(alloc, number)?;
    let mut public = vec![in alloc; 0; Drill37::PUBLIC_LEN]?;
    Drill37::public(&theirs, public.as_mut_slice());
    if place > 255 || !Drill37::public_ok(public.as_slice()) {
        return Err(Fail::new("no place, or no public key"));
    }
    Ok(book.meet(alloc, place as u8, Some(public.as_slice()))?)
}

/// Meets the members of these numbers, of whom one is the owner.
pub(super) fn meet_all(
    alloc: Global,
    book: &mut Drill,
    numbers: &[u8],
    own: u8,
) -> Result<(), Fail> {
    for number in numbers {
        if *number == own {
            meet_own(alloc, book)?;
        } else {
            meet(alloc, book, *number)?;
        }
    }
    Ok(())
}

/// Hands the ratchet of a place.
pub(super) fn hand(book: &mut Drill, place: u8, ratchet: [u8; 32]) {
    if (place as usize) < book.met() {
        book.hand(place, ratchet);
    }
}

/// The body of an add of the member of a card.
pub(super) fn added(
    alloc: Global,
    book: &mut Drill,
    told: &Told,
    card: &CardView<'_>,
) -> Result<Bytes, Fail> {
    let history = &told.history;
    let to = Receiver {
        place: history.places(),
        member: card.id(),
    };
    if history.count() > 4095 || card.set() != 2 || !can_reach(book, to.place) {
        return Err(Fail::new("who can't be added"));
    }
    if book.met() == 0 || book.ratchet(0).is_none() {
        return Err(Fail::new("no own ratchet"));
    }
    let draws = draw_for::<Drill37>(alloc, &[5; 32], &[to])?;
    Ok(make_add::<Drill37>(alloc, book, history, 0, card, draws)?)
}

/// What is handed on of a history.
fn welcome(alloc: Global, told: &Told) -> Result<Vec<u8>, Fail> {
    if told.history.count() > 4095 {
        return Err(Fail::new("too many rows"));
    }
    let mut bytes = Vec::new(alloc);
    append_welcome::<Drill37>(alloc, &told.history, &mut bytes)?;
    Ok(bytes)
}

/// Whether a part of the member at the second place opens to the ratchet.
fn opens(alloc: Global, book: &mut Drill, part: &[u8]) -> Result<bool, Fail> {
    if !can_reach(book, 1) {
        return Err(Fail::new("a place that was not met"));
    }
    Ok(book.open_from(alloc, 1, part)? == Some(RATCHET))
}

/// Whether the body is the card, a part that who is added opens, and what is handed on.
fn is_add(
    alloc: Global,
    body: &[u8],
    card: &[u8],
    bob: &mut Drill,
    handed_on: &[u8],
) -> Result<bool, Fail> {
    match (
        body.get(..CARD),
        body.get(CARD..CARD + PART),
        body.get(CARD + PART..),
    ) {
        (Some(first), Some(part), Some(rest)) => {
            Ok(first == card && rest == handed_on && opens(alloc, bob, part)?)
        }
        _ => Ok(false),
    }
}

/// ada, who opened a group of her own, adds bob.
fn story(alloc: Global, ada: &mut Drill, bob: &mut Drill) -> Result<bool, Fail> {
    meet_all(alloc, ada, &[1, 2], 1)?;
    meet_all(alloc, bob, &[2, 1], 2)?;
    hand(ada, 0, RATCHET);
    let told = history_of(alloc, &[1])?;
    let card = card_bytes(alloc, 2)?;
    let body = added(alloc, ada, &told, &card_in(card.as_slice())?)?;
    let handed_on = welcome(alloc, &told)?;
    is_add(
        alloc,
        body.as_slice(),
        card.as_slice(),
        bob,
        handed_on.as_slice(),
    )
}

#[test]
fn an_add_is_made(rt: HostRuntime) -> Result<(), Fail> {
    let first = pair(rt.alloc(), 1)?;
    let second = pair(rt.alloc(), 2)?;
    let mut ada = Book::start(rt.alloc(), first);
    let mut bob = Book::start(rt.alloc(), second);
    let right = story(rt.alloc(), &mut ada, &mut bob);
    ada.close();
    bob.close();
    assert!(rt; right?);
    Ok(())
}

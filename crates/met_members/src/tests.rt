//! Books that meet a founder, who is added, and nobody.
ghost use Rattle.std.specs.Prelude.{◌≡◌, true, [], ◌∷◌, IsTrue, IfOk};
ghost use Rattle.group_fields.specs.Cards.{HasSpelling};
ghost use Rattle.met_members.specs.Meeting.{CanMeet};

use crate::{is_met, meet_added, meet_founders, meet_history};
use causal_history::History;
use group_fields::{
    Bytes, Card, CardView, Cards, Digest, MemberId, Memory, cards_are_spelled_once, read_card,
    write_card,
};
use kem_trait::{Kem, SeedWords};
use ntru_prime::Drill37;
use secret_book::Book;
use std::alloc::Global;
use std::test::Fail;

type Drill = Book<Drill37>;

/// How the places of a book were met: how many there are, what was sent to the first, and whether they are exactly
/// those of an empty history.
type Met = (usize, Option<u32>, bool);

/// The bytes of a card with the public key of a pair.
fn card_bytes(alloc: Global, public: &[u8]) -> Result<Bytes, Memory> {
    let mut lms_public = [7; 56];
    for (at, byte) in [0, 0, 0, 5, 0, 0, 0, 3].iter().enumerate() {
        lms_public[at] = *byte;
    }
    let card = Card {
        set: 2,
        lms_public,
        inviter: MemberId(Digest([0; 32])),
        kem_public: Bytes::copy_of(alloc, public)?,
    };
    if !card.has_spelling() {
        return Bytes::copy_of(alloc, &[]);
    }
    write_card(alloc, &card)
}

/// A new book, and the bytes of a card with the key of its pair.
fn new_book(alloc: Global) -> Result<(Drill, Bytes), Fail> {
    let pair = Drill37::make(alloc, &mut SeedWords::new(&[3; 32]))?;
    let mut public = [0u8; 33];
    Drill37::public(&pair, &mut public);
    let card = card_bytes(alloc, &public)?;
    Ok((Book::start(alloc, pair), card))
}

/// What was met; the book is closed.
fn met(alloc: Global, book: Drill) -> Met {
    let count = book.met();
    let first = if count == 0 { None } else { book.sends(0) };
    let history = History::new(alloc);
    let none = is_met(&book, &history, &member(&[], true));
    book.close();
    (count, first, none)
}

/// Who is the member: the owner of a card, or somebody else.
fn member(card: &[u8], own: bool) -> MemberId {
    match read_card(card) {
        Ok(card) if own => card.id(),
        _ => MemberId(Digest([0; 32])),
    }
}

/// Whether the key on a card is a public key.
fn has_key(card: &CardView<'_>) -> bool
    ensures { IsTrue result → ⟦<Drill37 as Kem>⟧.is_public card.now.kem_public ≡ true }
{
    card.kem_public().len() == 33 && Drill37::public_ok(card.kem_public())
}

/// The list of one card.
fn one(alloc: Global, card: &CardView<'_>) -> Result<Cards, Fail>
    ensures only { IfOk result (λ cards. cards ≡ card.now ∷ []) }
    ensures spelled { HasSpelling card.now }
{
    cards_are_spelled_once();
    let _bytes = card.bytes();
    let mut cards = Cards::new(alloc);
    cards.push(card)?;
    Ok(cards)
}

/// A group of one founder.
fn found(alloc: Global, book: &mut Drill, bytes: &[u8], own: bool) -> Result<(), Fail> {
    let me = member(bytes, own);
    let card = read_card(bytes)?;
    let cards = one(alloc, &card)?;
    if has_key(&card) && book.met() == 0 {
        meet_founders(alloc, book, &me, &cards)?;
    }
    Ok(())
}

/// Who is added to nobody.
fn add(alloc: Global, book: &mut Drill, bytes: &[u8], own: bool) -> Result<(), Fail> {
    let me = member(bytes, own);
    let history = History::new(alloc);
    let card = read_card(bytes)?;
    if has_key(&card) && book.met() == 0 {
        meet_history(alloc, book, &history, &me)?;
        meet_added(alloc, book, &history, &me, &card)?;
    }
    Ok(())
}

/// What is met by one of the two.
fn met_by(alloc: Global, founds: bool, own: bool) -> Result<Met, Fail> {
    let (mut book, bytes) = new_book(alloc)?;
    let done = if founds {
        found(alloc, &mut book, bytes.as_slice(), own)
    } else {
        add(alloc, &mut book, bytes.as_slice(), own)
    };
    let met = met(alloc, book);
    done?;
    Ok(met)
}

/// What a new book has met.
fn met_by_none(alloc: Global) -> Result<Met, Fail> {
    let (book, _) = new_book(alloc)?;
    Ok(met(alloc, book))
}

#[test]
fn the_own_place_alone_has_no_pairing(rt: HostRuntime) -> Result<(), Fail> {
    let rows = [
        (met_by_none(rt.alloc())?, (0, None, true)),
        (met_by(rt.alloc(), true, true)?, (1, None, false)),
        (met_by(rt.alloc(), true, false)?, (1, Some(0), false)),
        (met_by(rt.alloc(), false, true)?, (1, None, false)),
        (met_by(rt.alloc(), false, false)?, (1, Some(0), false)),
    ];
    for (found, wanted) in rows.iter() {
        assert_eq!(rt; *found, *wanted);
    }
    Ok(())
}

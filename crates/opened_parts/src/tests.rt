//! Parts of two members, and the places of senders.
ghost use Rattle.std.specs.Prelude.{◌≡◌, ◌<◌, true, length};

use crate::{open_part, sender_place};
use causal_history::History;
use group_fields::{
    Bytes, Card, Cards, Digest, GroupId, Header, HeaderView, Ids, Kind, MemberId, Target,
    read_card, read_header, write_card, write_header,
};
use hkdf_seal::kdf;
use kem_trait::{Kem, SeedWords};
use member_view::place_with;
use ntru_prime::Drill37;
use secret_book::Book;
use std::alloc::Global;
use std::test::Fail;
use two_party::{PartDraw, draw_parts};

type Drill = Book<Drill37>;

const MEMBER: MemberId = MemberId(Digest([9; 32]));

/// 32 bytes for each number.
fn seed(number: u8) -> [u8; 32] {
    kdf(&[7; 32], b"seed", &[number])
}

fn pair(alloc: Global, number: u8) -> Result<<Drill37 as Kem>::Pair, Fail> {
    Ok(Drill37::make(alloc, &mut SeedWords::new(&seed(number)))?)
}

fn draw(alloc: Global, number: u8) -> Result<PartDraw<Drill37>, Fail> {
    let mut draws = draw_parts::<Drill37>(alloc, &seed(number), &[MEMBER])?;
    match draws.take(&MEMBER) {
        Some(draw) => Ok(draw),
        None => Err(Fail::new("nothing was drawn for a member of the list")),
    }
}

/// Meets the own place first, and then the member whose pair is made by the seed of a number.
fn meet(alloc: Global, book: &mut Drill, number: u8) -> Result<(), Fail> {
    if book.met() != 0 {
        return Err(Fail::new("the own place is the first here"));
    }
    book.meet(alloc, 0, None)?;
    let theirs = pair(alloc, number)?;
    let mut public = vec![in alloc; 0; Drill37::PUBLIC_LEN]?;
    Drill37::public(&theirs, public.as_mut_slice());
    if !Drill37::public_ok(public.as_slice()) || book.met() != 1 {
        return Err(Fail::new("the public key of a pair is none"));
    }
    Ok(book.meet(alloc, 1, Some(public.as_slice()))?)
}

fn was_met(book: &Drill, place: u8) -> bool
    ensures { result ≡ true → place < length book.now.places }
{
    (place as usize) < book.met()
}

/// The part of the seed of a number to the other place; its payload is the seed.
fn seal(alloc: Global, book: &mut Drill, number: u8) -> Result<Bytes, Fail> {
    if !was_met(book, 1) {
        return Err(Fail::new("a place that was not met"));
    }
    match book.sends(1) {
        Some(sends) if sends < u32::MAX => {}
        _ => return Err(Fail::new("the own place, or too many parts")),
    }
    let draw = draw(alloc, number)?;
    Ok(book.seal_to(alloc, 1, &seed(number), draw)?)
}

/// Opens a part of the other place.
fn open(alloc: Global, book: &mut Drill, part: Option<&[u8]>) -> Result<Option<[u8; 32]>, Fail> {
    if !was_met(book, 1) {
        return Err(Fail::new("a place that was not met"));
    }
    match book.sends(1) {
        Some(_) => {}
        None => return Err(Fail::new("the own place")),
    }
    Ok(open_part(alloc, book, 1, part)?)
}

/// All but the first byte.
fn tail(bytes: &[u8]) -> &[u8] {
    bytes.get(1..).unwrap_or(&[])
}

/// A part opens once, to its payload; without a part, and where it doesn't open, the next one opens all the same.
fn story(alloc: Global, ada: &mut Drill, bob: &mut Drill) -> Result<bool, Fail> {
    meet(alloc, ada, 2)?;
    meet(alloc, bob, 1)?;
    let part = seal(alloc, ada, 11)?;
    let next = seal(alloc, ada, 12)?;
    Ok(
        open(alloc, bob, None)?.is_none()
            && open(alloc, bob, Some(&[]))?.is_none()
            && open(alloc, bob, Some(tail(part.as_slice())))?.is_none()
            && open(alloc, bob, Some(next.as_slice()))?.is_none()
            && open(alloc, bob, Some(part.as_slice()))? == Some(seed(11))
            && open(alloc, bob, Some(part.as_slice()))?.is_none()
            && open(alloc, bob, None)?.is_none()
            && open(alloc, bob, Some(next.as_slice()))? == Some(seed(12)),
    )
}

#[test]
fn parts_of_two_members(rt: HostRuntime) -> Result<(), Fail> {
    let mine = pair(rt.alloc(), 1)?;
    let theirs = pair(rt.alloc(), 2)?;
    let mut ada = Book::start(rt.alloc(), mine);
    let mut bob = Book::start(rt.alloc(), theirs);
    let right = story(rt.alloc(), &mut ada, &mut bob);
    ada.close();
    bob.close();
    assert!(rt; right?);
    Ok(())
}

// ---- places

fn card_bytes(alloc: Global, number: u8) -> Result<Bytes, Fail> {
    let mut lms_public = [number; 56];
    lms_public[..8].copy_from_slice(&[0, 0, 0, 5, 0, 0, 0, 3]);
    let card = Card {
        set: 2,
        lms_public,
        inviter: MemberId(Digest([0; 32])),
        kem_public: Bytes::copy_of(alloc, &[number; 33])?,
    };
    if !card.has_spelling() {
        return Err(Fail::new("a card that has no spelling"));
    }
    Ok(write_card(alloc, &card)?)
}

/// The cards of four members, in the order of their ids, and these.
fn roster(alloc: Global) -> Result<(Cards, Vec<[u8; 32]>), Fail> {
    let mut ids = Vec::new(alloc);
    for number in 0..4 {
        let bytes = card_bytes(alloc, number)?;
        match read_card(bytes.as_slice()) {
            Ok(card) => ids.push(card.id().0.0)?,
            Err(_) => return Err(Fail::new("a card that can't be read")),
        }
    }
    ids.sort()?;
    let mut cards = Cards::new(alloc);
    for id in ids.as_slice() {
        push_card(alloc, &mut cards, id)?;
    }
    Ok((cards, ids))
}

fn push_card(alloc: Global, cards: &mut Cards, id: &[u8; 32]) -> Result<(), Fail> {
    for number in 0..4 {
        let bytes = card_bytes(alloc, number)?;
        if let Ok(card) = read_card(bytes.as_slice()) {
            if card.id().0.0 == *id {
                cards.push(&card)?;
            }
        }
    }
    Ok(())
}

fn header_bytes(
    alloc: Global,
    sender: &[u8; 32],
    kind: Kind,
    target: Target,
) -> Result<Bytes, Fail> {
    let header = Header {
        set: 2,
        group: GroupId(Digest([9; 32])),
        sender: MemberId(Digest(*sender)),
        seq: 1,
        kind,
        target,
        predecessors: Ids::new(alloc),
        body: Digest([7; 32]),
    };
    if !header.has_spelling() {
        return Err(Fail::new("a header that has no spelling"));
    }
    Ok(write_header(alloc, &header)?)
}

fn create_bytes(alloc: Global, sender: &[u8; 32], ids: &[[u8; 32]]) -> Result<Bytes, Fail> {
    let mut list = Ids::new(alloc);
    for id in ids {
        list.push(Digest(*id))?;
    }
    header_bytes(alloc, sender, Kind::Create, Target::Members(list))
}

/// The place of the sender, where it has one.
fn place(history: &History, header: &HeaderView<'_>) -> Option<u8> {
    match place_with(history, Some(header), &header.sender()) {
        None => None,
        Some(_) => Some(sender_place(history, header)),
    }
}

fn sender_of(history: &History, bytes: &[u8]) -> Option<u8> {
    match read_header(bytes) {
        Ok(header) => place(history, &header),
        Err(_) => None,
    }
}

fn push(history: &mut History, bytes: &[u8], cards: &Cards) -> Result<bool, Fail> {
    let Ok(header) = read_header(bytes) else {
        return Ok(false);
    };
    if !history.may_push(&header, cards)? {
        return Ok(false);
    }
    history.push(&header, cards)?;
    Ok(true)
}

/// The place of each member is its number in the order of ids: before the create is a row, and behind it.
#[test]
fn places_of_senders(rt: HostRuntime) -> Result<(), Fail> {
    let (cards, ids) = roster(rt.alloc())?;
    let mut history = History::new(rt.alloc());
    for (number, id) in ids.as_slice().iter().enumerate() {
        let create = create_bytes(rt.alloc(), id, ids.as_slice())?;
        assert!(rt; sender_of(&history, create.as_slice()).map(usize::from) == Some(number));
    }
    let create = create_bytes(rt.alloc(), &[5; 32], ids.as_slice())?;
    assert!(rt; sender_of(&history, create.as_slice()).is_none());
    assert!(rt; push(&mut history, create.as_slice(), &cards)?);
    for (number, id) in ids.as_slice().iter().enumerate() {
        let update = header_bytes(rt.alloc(), id, Kind::Update, Target::Nothing)?;
        assert!(rt; sender_of(&history, update.as_slice()).map(usize::from) == Some(number));
    }
    Ok(())
}

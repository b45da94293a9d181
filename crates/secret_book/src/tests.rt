//! The keys of a place against values of an independent program, and a story of two members whose parts are compared
//! with those of a pairing of its own.
ghost use Rattle.std.specs.Prelude.{◌≡◌, ◌<◌, true, length};

use crate::Book;
use group_fields::{Bytes, Digest, MemberId, MessageId};
use hkdf_seal::kdf;
use kem_trait::{Kem, SeedWords};
use ntru_prime::Drill37;
use std::alloc::Global;
use std::test::Fail;
use two_party::{Pairing, PartDraw, draw_parts};

type Drill = Book<Drill37>;

const MEMBER: MemberId = MemberId(Digest([9; 32]));

/// A ratchet that is handed, the input of a step, the update secret and the ratchet after it, and the tags of two empty
/// texts under the next keys.
struct Turn {
    handed: Option<[u8; 32]>,
    input: Option<&'static [u8]>,
    secret: Option<[u8; 32]>,
    ratchet: Option<[u8; 32]>,
    tags: [Option<[u8; 32]>; 2],
}

/// Steps from the empty ratchet on. Computed by Python's hmac and hashlib.
const TURNS: [Turn; 4] = [
    Turn {
        handed: None,
        input: Some(b"welcome"),
        secret: Some([
            0xbc, 0xc0, 0x5c, 0xd8, 0x2a, 0xff, 0x00, 0x6b, 0xa8, 0xe8, 0x09, 0x05, 0x20, 0xa7,
            0x3a, 0xec, 0x8d, 0x92, 0x67, 0xc8, 0xfb, 0x75, 0xf7, 0x41, 0xb9, 0x9c, 0x06, 0xba,
            0x8a, 0x46, 0x4c, 0x70,
        ]),
        ratchet: Some([
            0x32, 0x81, 0xe9, 0x44, 0xdb, 0xce, 0x3b, 0x46, 0xf4, 0x93, 0x39, 0x1b, 0x7b, 0x38,
            0xaa, 0x36, 0xb6, 0x9e, 0xb8, 0xbb, 0x74, 0xd3, 0x80, 0xb7, 0x1b, 0xd7, 0x3c, 0xad,
            0x87, 0x06, 0x6e, 0xe2,
        ]),
        tags: [
            Some([
                0x9c, 0x62, 0xf0, 0xe9, 0x98, 0x4b, 0x6f, 0x3a, 0x2f, 0x3e, 0x9a, 0xd3, 0x44, 0x7d,
                0x9b, 0x02, 0xcb, 0xa8, 0x5e, 0x01, 0xc4, 0x73, 0x0a, 0xcb, 0x43, 0x65, 0x34, 0x25,
                0x2b, 0x24, 0x97, 0x69,
            ]),
            Some([
                0x95, 0x2d, 0xb5, 0xd9, 0x33, 0x46, 0x85, 0x40, 0x74, 0x18, 0x48, 0xe3, 0x38, 0x26,
                0xf5, 0x56, 0x65, 0x90, 0x06, 0x4a, 0x41, 0x54, 0xb7, 0x83, 0x31, 0xda, 0xf6, 0x00,
                0x83, 0x68, 0x2d, 0x24,
            ]),
        ],
    },
    Turn {
        handed: None,
        input: None,
        secret: None,
        ratchet: None,
        tags: [None, None],
    },
    Turn {
        handed: None,
        input: Some(b"add"),
        secret: None,
        ratchet: None,
        tags: [None, None],
    },
    Turn {
        handed: Some([
            0x32, 0x81, 0xe9, 0x44, 0xdb, 0xce, 0x3b, 0x46, 0xf4, 0x93, 0x39, 0x1b, 0x7b, 0x38,
            0xaa, 0x36, 0xb6, 0x9e, 0xb8, 0xbb, 0x74, 0xd3, 0x80, 0xb7, 0x1b, 0xd7, 0x3c, 0xad,
            0x87, 0x06, 0x6e, 0xe2,
        ]),
        input: Some(b"add"),
        secret: Some([
            0x0e, 0x0b, 0xa4, 0x79, 0x2f, 0x1c, 0xf3, 0xb5, 0x25, 0xe3, 0x92, 0x6e, 0x78, 0x94,
            0x04, 0x78, 0x9f, 0x50, 0xee, 0x1b, 0xa7, 0xac, 0xc6, 0xad, 0x28, 0xe4, 0xa6, 0x40,
            0x05, 0x31, 0xfa, 0xfb,
        ]),
        ratchet: Some([
            0x98, 0x75, 0x03, 0x02, 0x0f, 0x6d, 0xbe, 0x45, 0xd6, 0xf2, 0xb0, 0xac, 0xe1, 0x55,
            0xdd, 0xb5, 0x7f, 0xac, 0x93, 0xcc, 0x5c, 0xb1, 0x33, 0x79, 0xe1, 0x9f, 0x8d, 0xf6,
            0xf9, 0xa1, 0xe9, 0xe6,
        ]),
        tags: [
            Some([
                0x28, 0x66, 0x19, 0x19, 0x67, 0xd8, 0x73, 0x83, 0xdd, 0x98, 0xfb, 0xc9, 0x13, 0x15,
                0xa9, 0xa3, 0x90, 0xe2, 0x1c, 0xe5, 0xec, 0x78, 0xb2, 0xfe, 0xc3, 0x18, 0x69, 0x38,
                0xd4, 0x7f, 0x29, 0x95,
            ]),
            Some([
                0x87, 0x91, 0x37, 0x12, 0x40, 0x3c, 0xdc, 0xac, 0x46, 0xdb, 0x5e, 0x28, 0x26, 0x0b,
                0x01, 0xd4, 0x4c, 0x2f, 0xb4, 0x5a, 0xae, 0xcb, 0x4c, 0x36, 0x8e, 0x09, 0xe9, 0x08,
                0x9f, 0x99, 0xaf, 0x1e,
            ]),
        ],
    },
];

/// 32 bytes for each number.
fn seed(number: u32) -> [u8; 32] {
    kdf(&[7; 32], b"seed", &number.to_be_bytes())
}

fn pair(alloc: Global, number: u32) -> Result<<Drill37 as Kem>::Pair, Fail> {
    Ok(Drill37::make(alloc, &mut SeedWords::new(&seed(number)))?)
}

fn draw(alloc: Global, number: u32) -> Result<PartDraw<Drill37>, Fail> {
    let mut draws = draw_parts::<Drill37>(alloc, &seed(number), &[MEMBER])?;
    match draws.take(&MEMBER) {
        Some(draw) => Ok(draw),
        None => Err(Fail::new("nothing was drawn for a member of the list")),
    }
}

/// Meets the own place first.
fn meet_own(alloc: Global, book: &mut Drill) -> Result<(), Fail> {
    if book.met() != 0 {
        return Err(Fail::new("the own place is the first here"));
    }
    Ok(book.meet(alloc, 0, None)?)
}

/// Meets the own place second.
fn meet_own_second(alloc: Global, book: &mut Drill) -> Result<(), Fail> {
    if book.met() != 1 {
        return Err(Fail::new("the own place is the second here"));
    }
    match book.sends(0) {
        Some(_) => Ok(book.meet(alloc, 1, None)?),
        None => Err(Fail::new("the own place was met before")),
    }
}

/// Meets the member whose pair is made by the seed of a number.
fn meet(alloc: Global, book: &mut Drill, number: u32) -> Result<(), Fail> {
    let place = book.met();
    let theirs = pair(alloc, number)?;
    let mut public = vec![in alloc; 0; Drill37::PUBLIC_LEN]?;
    Drill37::public(&theirs, public.as_mut_slice());
    if place > 255 || !Drill37::public_ok(public.as_slice()) {
        return Err(Fail::new("no place, or the public key of a pair is none"));
    }
    Ok(book.meet(alloc, place as u8, Some(public.as_slice()))?)
}

fn was_met(book: &Drill, place: u8) -> bool
    ensures { result ≡ true → place < length book.now.places }
{
    (place as usize) < book.met()
}

fn sends(book: &Drill, place: u8) -> Option<u32> {
    if was_met(book, place) {
        book.sends(place)
    } else {
        None
    }
}

fn ratchet(book: &Drill, place: u8) -> Option<[u8; 32]> {
    if was_met(book, place) {
        book.ratchet(place)
    } else {
        None
    }
}

fn hand(book: &mut Drill, place: u8, ratchet: Option<[u8; 32]>) {
    if let Some(ratchet) = ratchet {
        if was_met(book, place) {
            book.hand(place, ratchet);
        }
    }
}

fn step(book: &mut Drill, place: u8, input: Option<&[u8]>) -> Option<[u8; 32]> {
    if was_met(book, place) {
        book.step(place, input)
    } else {
        None
    }
}

/// The tag of an empty text under the next key.
fn tag(book: &mut Drill, place: u8) -> Option<[u8; 32]> {
    if !was_met(book, place) {
        return None;
    }
    let key = book.text_key(place)?;
    Some(key.seal(&mut []))
}

fn keep(book: &mut Drill, of: u8, place: u8, secret: u8) -> Result<(), Fail> {
    if !was_met(book, place) {
        return Err(Fail::new("a place that was not met"));
    }
    Ok(book.keep(MessageId(Digest([of; 32])), place, [secret; 32])?)
}

fn spend(book: &mut Drill, of: u8, place: u8) -> Option<[u8; 32]> {
    if was_met(book, place) {
        book.spend(&MessageId(Digest([of; 32])), place)
    } else {
        None
    }
}

/// Whether the ratchets of these places are those that they were met with.
fn are_fresh(book: &Drill, places: &[u8]) -> bool {
    let mut fresh = true;
    for place in places {
        fresh = fresh && ratchet(book, *place) == Some([0; 32]);
    }
    fresh
}

/// Whether the turns of a place are those of the table, and the ratchets of others stay.
fn turns(book: &mut Drill, place: u8, others: &[u8]) -> bool {
    let mut right = ratchet(book, place) == Some([0; 32]) && tag(book, place).is_none();
    for turn in &TURNS {
        let handed = turn.handed;
        let input = turn.input;
        let secret = turn.secret;
        let after = turn.ratchet;
        let [first, second] = turn.tags;
        hand(book, place, handed);
        right = right
            && step(book, place, input) == secret
            && ratchet(book, place) == after
            && tag(book, place) == first
            && tag(book, place) == second
            && are_fresh(book, others);
    }
    right
}

/// Whether what was kept is given once, of its operation and place alone.
fn keeps(book: &mut Drill) -> Result<bool, Fail> {
    for (of, place, secret) in [(5, 1, 51), (4, 0, 40), (5, 0, 50), (4, 1, 41), (5, 0, 59)] {
        keep(book, of, place, secret)?;
    }
    Ok(
        spend(book, 5, 1) == Some([51; 32])
            && spend(book, 5, 1).is_none()
            && spend(book, 5, 0) == Some([59; 32])
            && spend(book, 3, 0).is_none()
            && spend(book, 4, 1) == Some([41; 32])
            && spend(book, 4, 0) == Some([40; 32])
            && spend(book, 4, 0).is_none(),
    )
}

fn keys(alloc: Global, book: &mut Drill) -> Result<bool, Fail> {
    meet_own(alloc, book)?;
    meet(alloc, book, 2)?;
    Ok(book.met() == 2 && turns(book, 1, &[0]) && keeps(book)?)
}

#[test]
fn keys_of_places(rt: HostRuntime) -> Result<(), Fail> {
    let mut book = Book::start(rt.alloc(), pair(rt.alloc(), 1)?);
    let right = keys(rt.alloc(), &mut book);
    book.close();
    assert!(rt; right?);
    Ok(())
}

/// The part of the seed of a number to a place; its payload is the seed.
fn seal(alloc: Global, book: &mut Drill, place: u8, number: u32) -> Result<Bytes, Fail> {
    if !was_met(book, place) {
        return Err(Fail::new("a place that was not met"));
    }
    match book.sends(place) {
        Some(sends) if sends < u32::MAX => {}
        _ => return Err(Fail::new("the own place, or too many parts")),
    }
    let draw = draw(alloc, number)?;
    Ok(book.seal_to(alloc, place, &seed(number), draw)?)
}

fn open(alloc: Global, book: &mut Drill, place: u8, part: &[u8]) -> Result<Option<[u8; 32]>, Fail> {
    if !was_met(book, place) {
        return Err(Fail::new("a place that was not met"));
    }
    match book.sends(place) {
        Some(_) => {}
        None => return Err(Fail::new("the own place")),
    }
    Ok(book.open_from(alloc, place, part)?)
}

/// The first part that a pairing of its own sends, of the pairs and the draw of these numbers.
fn first_part(alloc: Global, mine: u32, theirs: u32, number: u32) -> Result<Bytes, Fail> {
    let mine = pair(alloc, mine)?;
    let theirs = pair(alloc, theirs)?;
    let mut public = vec![in alloc; 0; Drill37::PUBLIC_LEN]?;
    Drill37::public(&theirs, public.as_mut_slice());
    if !Drill37::public_ok(public.as_slice()) {
        return Err(Fail::new("the public key of a pair is none"));
    }
    let mut pairing = Pairing::<Drill37>::start(alloc, &mine, public.as_slice())?;
    if pairing.sends() == u32::MAX {
        return Err(Fail::new("too many parts"));
    }
    Ok(pairing.send(alloc, &seed(number), draw(alloc, number)?)?)
}

/// Parts of two members cross, and a third member's stay apart; what doesn't open changes nothing.
fn story(alloc: Global, ada: &mut Drill, bob: &mut Drill) -> Result<bool, Fail> {
    meet_own(alloc, ada)?;
    meet(alloc, ada, 2)?;
    meet(alloc, ada, 3)?;
    meet_own(alloc, bob)?;
    meet(alloc, bob, 1)?;
    let to_bob = seal(alloc, ada, 1, 11)?;
    let to_cyd = seal(alloc, ada, 2, 12)?;
    let to_ada = seal(alloc, bob, 1, 13)?;
    let right = to_bob.as_slice() == first_part(alloc, 1, 2, 11)?.as_slice()
        && to_cyd.as_slice() == first_part(alloc, 1, 3, 12)?.as_slice()
        && to_ada.as_slice() == first_part(alloc, 2, 1, 13)?.as_slice()
        && open(alloc, bob, 1, to_cyd.as_slice())?.is_none()
        && open(alloc, bob, 1, &[])?.is_none()
        && open(alloc, bob, 1, to_bob.as_slice())? == Some(seed(11))
        && open(alloc, bob, 1, to_bob.as_slice())?.is_none()
        && open(alloc, ada, 1, to_ada.as_slice())? == Some(seed(13));
    let answer = seal(alloc, bob, 1, 14)?;
    Ok(
        right
            && open(alloc, ada, 2, answer.as_slice())?.is_none()
            && open(alloc, ada, 1, answer.as_slice())? == Some(seed(14)),
    )
}

#[test]
fn parts_of_two_members(rt: HostRuntime) -> Result<(), Fail> {
    let mine = pair(rt.alloc(), 1)?;
    let theirs = pair(rt.alloc(), 2)?;
    let mut ada = Book::start(rt.alloc(), mine);
    let mut bob = Book::start(rt.alloc(), theirs);
    let right = story(rt.alloc(), &mut ada, &mut bob);
    ada.close();
    bob.close();
    assert!(rt; right?);
    Ok(())
}

/// The places of three members, of whom the second is the owner.
fn meet_around(alloc: Global, book: &mut Drill) -> Result<bool, Fail> {
    meet(alloc, book, 2)?;
    meet_own_second(alloc, book)?;
    meet(alloc, book, 3)?;
    Ok(
        book.met() == 3
            && sends(book, 0) == Some(0)
            && sends(book, 1).is_none()
            && sends(book, 2) == Some(0),
    )
}

/// Meets the own place first, and then the member whose pair is made by the seed of number 1.
fn meet_ada(alloc: Global, book: &mut Drill) -> Result<(), Fail> {
    meet_own(alloc, book)?;
    meet(alloc, book, 1)
}

/// Whether the parts to the places on both sides of the own one are those of pairings of their own, and open there.
fn sends_around(
    alloc: Global,
    ada: &mut Drill,
    bob: &mut Drill,
    cyd: &mut Drill,
) -> Result<bool, Fail> {
    let to_bob = seal(alloc, ada, 0, 11)?;
    let to_cyd = seal(alloc, ada, 2, 12)?;
    let again_to_cyd = seal(alloc, ada, 2, 13)?;
    Ok(
        to_bob.as_slice() == first_part(alloc, 1, 2, 11)?.as_slice()
            && to_cyd.as_slice() == first_part(alloc, 1, 3, 12)?.as_slice()
            && sends(ada, 0) == Some(1)
            && sends(ada, 1).is_none()
            && sends(ada, 2) == Some(2)
            && open(alloc, bob, 1, to_bob.as_slice())? == Some(seed(11))
            && open(alloc, cyd, 1, to_cyd.as_slice())? == Some(seed(12))
            && open(alloc, cyd, 1, again_to_cyd.as_slice())? == Some(seed(13)),
    )
}

/// Whether the answers open at the places of their senders alone.
fn takes_around(
    alloc: Global,
    ada: &mut Drill,
    bob: &mut Drill,
    cyd: &mut Drill,
) -> Result<bool, Fail> {
    let of_bob = seal(alloc, bob, 1, 15)?;
    let of_cyd = seal(alloc, cyd, 1, 16)?;
    Ok(
        open(alloc, ada, 2, of_bob.as_slice())?.is_none()
            && open(alloc, ada, 0, of_cyd.as_slice())?.is_none()
            && open(alloc, ada, 0, of_bob.as_slice())? == Some(seed(15))
            && open(alloc, ada, 2, of_cyd.as_slice())? == Some(seed(16)),
    )
}

/// The ratchets of a book whose owner was met second turn each by itself, and its parts are told apart.
fn around(alloc: Global, ada: &mut Drill, bob: &mut Drill, cyd: &mut Drill) -> Result<bool, Fail> {
    meet_ada(alloc, bob)?;
    meet_ada(alloc, cyd)?;
    Ok(
        meet_around(alloc, ada)?
            && turns(ada, 2, &[0, 1])
            && sends_around(alloc, ada, bob, cyd)?
            && turns(ada, 0, &[1])
            && takes_around(alloc, ada, bob, cyd)?
            && turns(ada, 1, &[]),
    )
}

#[test]
fn own_place_is_the_second(rt: HostRuntime) -> Result<(), Fail> {
    let mine = pair(rt.alloc(), 1)?;
    let second = pair(rt.alloc(), 2)?;
    let third = pair(rt.alloc(), 3)?;
    let mut ada = Book::start(rt.alloc(), mine);
    let mut bob = Book::start(rt.alloc(), second);
    let mut cyd = Book::start(rt.alloc(), third);
    let right = around(rt.alloc(), &mut ada, &mut bob, &mut cyd);
    ada.close();
    bob.close();
    cyd.close();
    assert!(rt; right?);
    Ok(())
}

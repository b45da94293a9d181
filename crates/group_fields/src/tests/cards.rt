use crate::*;
use std::alloc::{AllocError, Global};
use std::test::Fail;

// The digests are those of Python's hashlib.
const CASES: [(u8, u8, usize, [u8; 32]); 3] = [
    (1, 6, 1249, ID_ONE),
    (2, 5, 124, ID_TWO),
    (2, 6, 124, ID_THREE),
];

const ID_ONE: [u8; 32] = [
    0xef, 0x8b, 0x05, 0x57, 0xf3, 0x34, 0xb3, 0xcf, 0x5f, 0x85, 0x81, 0xc6, 0x6d, 0xd9, 0xd7, 0x4b,
    0x10, 0xa4, 0x54, 0x60, 0x24, 0x50, 0xf9, 0x81, 0xd2, 0xd8, 0x37, 0x80, 0x5a, 0x05, 0x00, 0x1d,
];

const ID_TWO: [u8; 32] = [
    0xfb, 0x87, 0x4d, 0x22, 0xc2, 0xe7, 0xd1, 0x96, 0xc7, 0xa5, 0xf0, 0x86, 0xc0, 0x49, 0x57, 0x18,
    0x01, 0xd3, 0x3e, 0x98, 0xdf, 0x75, 0x86, 0xad, 0xab, 0x50, 0xb9, 0x1a, 0x4e, 0xc0, 0x86, 0x28,
];

const ID_THREE: [u8; 32] = [
    0x77, 0xe3, 0x2d, 0x19, 0xd6, 0x57, 0x46, 0x4a, 0x72, 0xb8, 0x20, 0xfe, 0x31, 0xf1, 0x61, 0x89,
    0xb0, 0xa7, 0xf0, 0xe9, 0xc9, 0x67, 0x24, 0x2f, 0x94, 0x7d, 0x77, 0x7c, 0x3e, 0x2c, 0x4b, 0xfe,
];

// Where the fields begin: tag, version, set, LMS type, one-time type, I, T[1], inviter, public key.
const PLACES: [u32; 9] = [0, 1, 2, 3, 7, 11, 27, 59, 91];

// A card's bytes, where byte i behind the types is i mod 251.
fn spelled(alloc: Global, set: u8, lms_type: u8, length: usize) -> Result<Vec<u8>, AllocError> {
    let mut bytes = Vec::new(alloc);
    bytes.extend_from_slice(&[0x43, 1, set, 0, 0, 0, lms_type, 0, 0, 0, 3])?;
    for place in 11..length {
        bytes.push((place % 251) as u8)?;
    }
    Ok(bytes)
}

fn fault_of(bytes: &[u8]) -> Option<FieldFault> {
    read_card(bytes).err()
}

// The fault of the first bytes of a card with one byte changed.
fn fault_with(
    alloc: Global,
    (set, lms_type, length): (u8, u8, usize),
    place: usize,
    value: u8,
) -> Result<Option<FieldFault>, AllocError> {
    let mut bytes = spelled(alloc, set, lms_type, length)?;
    if let Some(byte) = bytes.get_mut(place) {
        *byte = value;
    }
    Ok(fault_of(&bytes))
}

// A card's id, where each of its fields is lent from its place.
fn id_of(bytes: &[u8]) -> Option<MemberId> {
    let card = read_card(bytes).ok()?;
    let lent = card.bytes() == bytes
        && Some(card.lms_public().as_slice()) == bytes.get(3..59)
        && Some(card.inviter().0.0.as_slice()) == bytes.get(59..91)
        && Some(card.kem_public()) == bytes.get(91..)
        && Some(&card.set()) == bytes.get(2);
    if lent { Some(card.id()) } else { None }
}

// The id of a card at the front, and the place behind it.
fn taken(bytes: &[u8]) -> Result<(MemberId, usize), FieldFault> {
    let mut cursor = Cursor::new(bytes);
    let card = take_card(&mut cursor, 1, 2)?;
    Ok((card.id(), cursor.place()))
}

// The fault at the front where a card of set 2 is wanted.
fn fault_of_set_2(bytes: &[u8]) -> Option<FieldFault> {
    take_card(&mut Cursor::new(bytes), 2, 2).err()
}

// A card that was read, kept in a list and written again.
fn written_again(alloc: Global, bytes: &[u8]) -> Result<Option<Bytes>, AllocError> {
    let mut cards = Cards::new(alloc);
    let Ok(card) = read_card(bytes) else {
        return Ok(None);
    };
    cards.push(&card)?;
    let kept = Cards::from(cards.into_vec());
    if kept.is_empty() || kept.len() != 1 {
        return Ok(None);
    }
    match kept.as_slice().first() {
        Some(card) if card.has_spelling() => Ok(Some(write_card(alloc, card)?)),
        _ => Ok(None),
    }
}

fn has_spelling(
    alloc: Global,
    set: u8,
    lms_type: u8,
    one_time_type: u8,
    length: usize,
) -> Result<bool, AllocError> {
    let mut lms_public = [0; 56];
    lms_public[3] = lms_type;
    lms_public[7] = one_time_type;
    let card = Card {
        set,
        lms_public,
        inviter: MemberId(Digest([0; 32])),
        kem_public: Bytes::from(vec![in alloc; 0; length]?),
    };
    Ok(card.has_spelling())
}

#[test]
fn reads_and_writes_cards_of_both_sets(rt: HostRuntime) -> Result<(), Fail> {
    let alloc = rt.alloc();
    for (set, lms_type, length, id) in CASES {
        let mut bytes = spelled(alloc, set, lms_type, length)?;
        let fault = if set == 2 {
            None
        } else {
            Some(FieldFault::Range(2))
        };
        assert_eq!(rt; bytes.len(), length);
        assert_eq!(rt; fault_of_set_2(&bytes), fault);
        assert_eq!(rt; id_of(&bytes), Some(MemberId(Digest(id))));
        let again = written_again(alloc, &bytes)?.ok_or("the bytes are a card")?;
        assert_eq!(rt; again.as_slice(), bytes.as_slice());
        bytes.push(0x43)?;
        assert_eq!(rt; taken(&bytes), Ok((MemberId(Digest(id)), length)));
    }
    Ok(())
}

// The place of the field in which a card's byte stands.
fn place_of(byte: u32) -> u32 {
    let mut place = 0;
    for begins in PLACES {
        if begins <= byte {
            place = begins;
        }
    }
    place
}

// The fault of the first bytes of a card.
fn fault_of_cut(bytes: &[u8], length: u32) -> Option<FieldFault> {
    fault_of(bytes.get(..length as usize)?)
}

#[test]
fn refuses_the_least_place(rt: HostRuntime) -> Result<(), Fail> {
    let alloc = rt.alloc();
    let one = (1, 6, 1249);
    let two = (2, 5, 124);
    let cases = [
        (two, 0, 0x42, Some(FieldFault::Range(0))),
        (two, 0, 0x44, Some(FieldFault::Range(0))),
        (two, 1, 0, Some(FieldFault::Range(1))),
        (two, 1, 2, Some(FieldFault::Range(1))),
        (two, 2, 0, Some(FieldFault::Range(2))),
        (two, 2, 3, Some(FieldFault::Range(2))),
        (one, 6, 5, Some(FieldFault::Range(3))),
        (one, 6, 7, Some(FieldFault::Range(3))),
        (two, 6, 4, Some(FieldFault::Range(3))),
        (two, 6, 7, Some(FieldFault::Range(3))),
        (two, 3, 1, Some(FieldFault::Range(3))),
        (two, 10, 2, Some(FieldFault::Range(7))),
        (two, 10, 4, Some(FieldFault::Range(7))),
        (two, 7, 1, Some(FieldFault::Range(7))),
        (two, 11, 255, None),
        (two, 27, 255, None),
        (two, 59, 255, None),
        (two, 91, 255, None),
        // The set decides which type and which length are asked for.
        (two, 2, 1, Some(FieldFault::Range(3))),
        ((2, 6, 124), 2, 1, Some(FieldFault::Short(91))),
        ((1, 6, 1248), 11, 11, Some(FieldFault::Short(91))),
        (one, 2, 2, Some(FieldFault::Excess(124))),
        ((2, 5, 125), 11, 11, Some(FieldFault::Excess(124))),
        ((1, 6, 1289), 11, 11, Some(FieldFault::Excess(1249))),
        // The least place wins.
        ((9, 9, 2000), 0, 0, Some(FieldFault::Range(0))),
        ((9, 9, 2000), 1, 1, Some(FieldFault::Range(2))),
        ((2, 9, 11), 1, 1, Some(FieldFault::Range(3))),
    ];
    for (card, place, value, want) in cases {
        let fault = fault_with(alloc, card, place, value)?;
        assert_eq!(rt; fault, want, "byte {place} is {value}");
    }
    let bytes = spelled(alloc, 2, 5, 124)?;
    for length in 0..124 {
        let want = Some(FieldFault::Short(place_of(length)));
        assert_eq!(rt; fault_of_cut(&bytes, length), want, "cut at {length}");
    }
    Ok(())
}

#[test]
fn tells_which_cards_have_a_spelling(rt: HostRuntime) -> Result<(), Fail> {
    let alloc = rt.alloc();
    let cases = [
        (1, 6, 3, 1158, true),
        (1, 5, 3, 1158, false),
        (1, 6, 3, 33, false),
        (2, 5, 3, 33, true),
        (2, 6, 3, 33, true),
        (2, 7, 3, 33, false),
        (2, 6, 4, 33, false),
        (2, 6, 3, 34, false),
        (0, 6, 3, 33, false),
        (3, 6, 3, 33, false),
    ];
    for (set, lms_type, one_time_type, length, want) in cases {
        let has = has_spelling(alloc, set, lms_type, one_time_type, length)?;
        assert_eq!(rt; has, want, "set {set}, type {lms_type}");
    }
    Ok(())
}

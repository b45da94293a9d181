//! Records by hand, byte for byte.

use crate::{Recorded, StepRecord, fits_record, read_record, write_record};
use group_fields::{Cards, Digest, MemberId, read_card};
use kem_trait::Kem;
use ntru_prime::{Drill37, Sntrup761};
use reference_member::Input;
use std::alloc::Global;
use std::test::Fail;

const RANDOM: &str = "0707070707070707070707070707070707070707070707070707070707070707";

const ID: &str = "1f1f1f1f1f1f1f1f1f1f1f1f1f1f1f1f1f1f1f1f1f1f1f1f1f1f1f1f1f1f1f1f";

const NOBODY: &str = "0000000000000000000000000000000000000000000000000000000000000000";

/// A card of the smaller set at height 5, as another program writes it: 124 bytes.
const CARD: &str = concat!(
    "430102",
    "0000000500000003484829a7d2d074a491a7d1fe254a4206e7bf9a9d978f324e9b2013bc21641c95a0f70241de803060dcb1a11f5bc1b3c2",
    "1f1f1f1f1f1f1f1f1f1f1f1f1f1f1f1f1f1f1f1f1f1f1f1f1f1f1f1f1f1f1f1f",
    "81e5ddc1303a3a2414e94adfdf071dad89a88eca6bc27f2d29027f65a3c09dd703",
);

// What a step is by its record: its kind, how long or how many what comes with it is, and the first byte of it.
type Summary = (u8, usize, u8);

// The bytes of digits, one part behind the other, and so many cards behind them.
fn joined(alloc: Global, parts: &[&str], cards: u8) -> Result<Vec<u8>, Fail> {
    let mut bytes = Vec::new(alloc);
    for part in parts {
        bytes.extend_from_slice(hex::decode(alloc, *part)?.as_slice())?;
    }
    let card = hex::decode(alloc, CARD)?;
    for _ in 0..cards {
        bytes.extend_from_slice(card.as_slice())?;
    }
    Ok(bytes)
}

fn first(bytes: &[u8]) -> u8 {
    bytes.first().copied().unwrap_or(0)
}

fn summary(step: &StepRecord<'_>) -> Summary {
    match &step.input {
        Recorded::Init(inviter, height) => (1, *height as usize, first(&inviter.0.0)),
        Recorded::Create(cards) => (2, cards.len(), 0),
        Recorded::Add(card) => (3, card.bytes().len(), first(&card.inviter().0.0)),
        Recorded::Remove(target) => (4, 0, first(&target.0.0)),
        Recorded::Update => (5, 0, 0),
        Recorded::Send(text) => (6, text.len(), first(text)),
        Recorded::Packet(packet) => (7, packet.len(), first(packet)),
    }
}

// What is read of bytes, if it is also written as these bytes, and its random bytes are the ones of all rows.
fn read_and_written<K: Kem>(alloc: Global, bytes: &[u8]) -> Result<Option<Summary>, Fail> {
    let Some(step) = read_record::<K>(alloc, bytes)? else {
        return Ok(None);
    };
    let written = write_record::<K>(alloc, &step.input.input(), &step.random)?;
    let fits = fits_record::<K>(&step.input.input());
    let same = fits && written.as_slice() == bytes && step.random == [7; 32];
    Ok(if same { Some(summary(&step)) } else { None })
}

// Whether an `init` with a height fits into a record.
fn height_fits<K: Kem>(height: u32) -> bool {
    fits_record::<K>(&Input::Init(MemberId(Digest([1; 32])), height))
}

// Whether a create of so many cards fits into a record.
fn cards_fit(alloc: Global, count: u8) -> Result<bool, Fail> {
    let bytes = hex::decode(alloc, CARD)?;
    let card = read_card(bytes.as_slice())?;
    let mut cards = Cards::new(alloc);
    for _ in 0..count {
        cards.push(&card)?;
    }
    Ok(fits_record::<Drill37>(&Input::Create(&cards)))
}

fn is_read<K: Kem>(alloc: Global, bytes: &[u8]) -> Result<bool, Fail> {
    Ok(read_record::<K>(alloc, bytes)?.is_some())
}

// How many of the beginnings of bytes are records, and whether the bytes with one more are.
fn odd_ones<K: Kem>(alloc: Global, mut bytes: Vec<u8>) -> Result<(usize, bool), Fail> {
    let mut count = 0usize;
    for end in 0..bytes.len() {
        if is_read::<K>(alloc, &bytes[..end])? {
            count = count.saturating_add(1);
        }
    }
    bytes.push(0)?;
    let longer = is_read::<K>(alloc, bytes.as_slice())?;
    Ok((count, longer))
}

// The digits of the record of an `init` of the larger set without inviter, of 32 zero bytes.
fn first_record(alloc: Global) -> Result<String, Fail> {
    let input = Input::Init(MemberId(Digest([0; 32])), 10);
    let bytes = write_record::<Sntrup761>(alloc, &input, &[0; 32])?;
    Ok(hex::encode(alloc, bytes.as_slice())?)
}

#[test]
fn records_are_read_and_written(rt: HostRuntime) -> Result<(), Fail> {
    let rows: [(&[&str], u8, Summary); 12] = [
        (&["01020a", ID, RANDOM], 0, (1, 10, 0x1f)),
        (&["010205", NOBODY, RANDOM], 0, (1, 5, 0)),
        (&["02", RANDOM, "00"], 0, (2, 0, 0)),
        (&["02", RANDOM, "02"], 2, (2, 2, 0)),
        (&["02", RANDOM, "1f"], 31, (2, 31, 0)),
        (&["03", RANDOM], 1, (3, 124, 0x1f)),
        (&["04", RANDOM, ID], 0, (4, 0, 0x1f)),
        (&["05", RANDOM], 0, (5, 0, 0)),
        (&["06", RANDOM], 0, (6, 0, 0)),
        (&["06", RANDOM, "68656c6c6f"], 0, (6, 5, 0x68)),
        (&["07", RANDOM], 0, (7, 0, 0)),
        (&["07", RANDOM, "5001"], 0, (7, 2, 0x50)),
    ];
    for (parts, cards, wanted) in rows.iter() {
        let bytes = joined(rt.alloc(), parts, *cards)?;
        assert_eq!(rt;
            read_and_written::<Drill37>(rt.alloc(), bytes.as_slice())?,
            Some(*wanted)
        );
    }
    let zeros = joined(rt.alloc(), &["01010a", NOBODY, NOBODY], 0)?;
    assert_eq!(rt;
        first_record(rt.alloc())?.as_str(),
        hex::encode(rt.alloc(), zeros.as_slice())?.as_str()
    );
    assert!(rt; is_read::<Sntrup761>(rt.alloc(), zeros.as_slice())?);
    Ok(())
}

#[test]
fn other_bytes_are_no_records(rt: HostRuntime) -> Result<(), Fail> {
    // How many beginnings are records, and whether one byte more makes one: so it is of a text and of a packet alone.
    let rows: [(&[&str], u8, (usize, bool)); 9] = [
        (&["01020a", ID, RANDOM], 0, (0, false)),
        (&["02", RANDOM, "00"], 0, (0, false)),
        (&["02", RANDOM, "02"], 2, (0, false)),
        (&["03", RANDOM], 1, (0, false)),
        (&["04", RANDOM, ID], 0, (0, false)),
        (&["05", RANDOM], 0, (0, false)),
        (&["06", RANDOM, "6868"], 0, (2, true)),
        (&["07", RANDOM, "5001"], 0, (2, true)),
        (&["02", RANDOM, "20"], 32, (0, false)),
    ];
    for (parts, cards, wanted) in rows.iter() {
        let bytes = joined(rt.alloc(), parts, *cards)?;
        assert_eq!(rt; odd_ones::<Drill37>(rt.alloc(), bytes)?, *wanted);
    }

    // A kind below the first, one behind the last, the other set, a height of no set, too many cards, another count.
    let others: [(&[&str], u8); 8] = [
        (&["00", RANDOM], 0),
        (&["08", RANDOM], 0),
        (&["00", RANDOM, ID], 0),
        (&["01010a", ID, RANDOM], 0),
        (&["010206", ID, RANDOM], 0),
        (&["02", RANDOM, "20"], 32),
        (&["02", RANDOM, "01"], 2),
        (&["02", RANDOM, "03"], 2),
    ];
    for (parts, cards) in others.iter() {
        let bytes = joined(rt.alloc(), parts, *cards)?;
        assert!(rt; !is_read::<Drill37>(rt.alloc(), bytes.as_slice())?);
    }
    for parts in [["01020a", NOBODY, NOBODY], ["010105", NOBODY, NOBODY]] {
        let bytes = joined(rt.alloc(), &parts, 0)?;
        assert!(rt; !is_read::<Sntrup761>(rt.alloc(), bytes.as_slice())?);
    }
    Ok(())
}

#[test]
fn what_fits_is_told(rt: HostRuntime) -> Result<(), Fail> {
    for (height, small, large) in [
        (10, true, true),
        (5, true, false),
        (6, false, false),
        (266, false, false),
    ] {
        assert_eq!(rt; height_fits::<Drill37>(height), small);
        assert_eq!(rt; height_fits::<Sntrup761>(height), large);
    }
    for (count, fits) in [(0, true), (31, true), (32, false)] {
        assert_eq!(rt; cards_fit(rt.alloc(), count)?, fits);
    }
    Ok(())
}

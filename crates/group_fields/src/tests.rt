mod cards;
mod fields;
mod headers;

use super::*;
use std::alloc::{AllocError, Global};

// Whether copies of a text, and what is made of them, are what they were made of.
fn copies(alloc: Global, case: &str) -> Result<bool, AllocError> {
    let bytes = Bytes::copy_of(alloc, case.as_bytes())?;
    let text = Text::copy_of(alloc, case)?;
    let same = bytes.as_slice() == case.as_bytes()
        && bytes.len() == case.len()
        && bytes.is_empty() == case.is_empty()
        && text.as_str() == case
        && text.as_bytes() == case.as_bytes();
    let bytes = Bytes::from(bytes.into_vec());
    let text = Text::from(text.into_string());
    Ok(same && bytes.as_slice() == case.as_bytes() && text.as_str() == case)
}

// What a reader takes, and where it is then.
fn taken(cursor: &mut Cursor<'static>, count: usize) -> (Option<&'static [u8]>, usize) {
    let part = cursor.take(count);
    (part, cursor.place())
}

// Counts with one failure and one want more.
fn raised(mut counts: Counts) -> Counts {
    counts.add_fault();
    counts.add_want();
    counts
}

#[test]
fn values_are_what_they_were_made_of(rt: HostRuntime) -> Result<(), AllocError> {
    let alloc = rt.alloc();
    for case in ["", "a", "caf\u{e9}"] {
        assert!(rt; copies(alloc, case)?, "copies of {case}");
    }

    let mut cursor = Cursor::new(b"abcde");
    let cases: [(usize, Option<&[u8]>, usize); 7] = [
        (2, Some(b"ab"), 2),
        (0, Some(b""), 2),
        (4, None, 2),
        (usize::MAX, None, 2),
        (3, Some(b"cde"), 5),
        (1, None, 5),
        (0, Some(b""), 5),
    ];
    for (count, part, place) in cases {
        assert_eq!(rt; taken(&mut cursor, count), (part, place), "take {count}");
    }

    for (faults, wants) in [(0, u64::MAX), (7, 0), (u64::MAX, 7)] {
        let want = Counts {
            faults: faults.saturating_add(1),
            wants: wants.saturating_add(1),
        };
        assert_eq!(rt; raised(Counts { faults, wants }), want);
    }
    assert_eq!(rt; Counts::NONE.faults + Counts::NONE.wants, 0);
    Ok(())
}

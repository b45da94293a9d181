use crate::*;
use std::alloc::{AllocError, Global};

// Two known bytes, three numbers, a digest and ids.
#[derive(Debug, Drop, PartialEq, Eq)]
struct Fields {
    small: u8,
    middle: u16,
    large: u32,
    digest: Digest,
    last_id: Option<Digest>,
}

fn read_fields(bytes: &[u8]) -> Result<Fields, FieldFault> {
    let mut cursor = Cursor::new(bytes);
    take_known(&mut cursor, b"DC")?;
    let small = take_u8(&mut cursor, 1, 2)?;
    let middle = take_u16(&mut cursor, 3, 500)?;
    let large = take_u32(&mut cursor, 4, 70000)?;
    let digest = take_digest(&mut cursor)?;
    let ids = take_counted_ids(&mut cursor, 1, 2)?;
    // `end` asks for a place that fits 32 bits
    if cursor.place() > 1000 {
        return Err(FieldFault::Excess(1000));
    }
    end(&mut cursor)?;
    let count = ids.count();
    let last_id = if count == 0 {
        None
    } else {
        Some(ids.id(count - 1))
    };
    Ok(Fields {
        small,
        middle,
        large,
        digest,
        last_id,
    })
}

fn fault_of(bytes: &[u8]) -> Option<FieldFault> {
    read_fields(bytes).err()
}

// The bytes of the fields, with one byte changed.
fn spelled(alloc: Global, place: usize, value: u8) -> Result<Vec<u8>, AllocError> {
    let mut bytes = vec![in alloc; 0x44, 0x43, 2, 1, 0xf4, 0, 1, 0x11, 0x70]?;
    bytes.extend_from_slice(&[7; 32])?;
    bytes.push(2)?;
    bytes.extend_from_slice(&[8; 32])?;
    bytes.extend_from_slice(&[9; 32])?;
    if let Some(byte) = bytes.get_mut(place) {
        *byte = value;
    }
    Ok(bytes)
}

// The same fields, as the writers append them.
fn written(alloc: Global) -> Result<Vec<u8>, AllocError> {
    let mut bytes = Vec::new(alloc);
    append_known(&mut bytes, b"DC")?;
    append_u8(&mut bytes, 2)?;
    append_u16(&mut bytes, 500)?;
    append_u32(&mut bytes, 70000)?;
    append_digest(&mut bytes, Digest([7; 32]))?;
    let ids = [Digest([8; 32]), Digest([9; 32])];
    if is_ascending(&ids) {
        append_counted_ids(&mut bytes, &ids)?;
    }
    Ok(bytes)
}

// Two bytes and two ids without their count, where the ids ascend.
fn written_apart(alloc: Global, first: u8, second: u8) -> Result<Vec<u8>, AllocError> {
    let mut bytes = Vec::new(alloc);
    append_bytes(&mut bytes, &[first, second])?;
    let ids = [Digest([first; 32]), Digest([second; 32])];
    if is_ascending(&ids) {
        append_ids(&mut bytes, &ids)?;
    }
    Ok(bytes)
}

#[test]
fn reads_and_writes_fields_one_behind_the_other(rt: HostRuntime) -> Result<(), AllocError> {
    let alloc = rt.alloc();
    let bytes = spelled(alloc, 0, 0x44)?;
    assert_eq!(rt; bytes.len(), 106);
    assert_eq!(rt; written(alloc)?, bytes);
    for (first, second, length) in [(8, 9, 66), (8, 8, 2), (9, 8, 2)] {
        let bytes = written_apart(alloc, first, second)?;
        assert_eq!(rt; bytes.len(), length, "ids of {first} and {second}");
    }
    let want = Fields {
        small: 2,
        middle: 500,
        large: 70000,
        digest: Digest([7; 32]),
        last_id: Some(Digest([9; 32])),
    };
    assert_eq!(rt; read_fields(&bytes), Ok(want));
    let cuts = [
        (1, 0),
        (2, 2),
        (4, 3),
        (8, 5),
        (40, 9),
        (41, 41),
        (73, 42),
        (105, 74),
    ];
    for (length, place) in cuts {
        let fault = fault_of(bytes.get(..length).unwrap_or(b"DC"));
        assert_eq!(rt; fault, Some(FieldFault::Short(place)), "cut at {length}");
    }
    let changes = [
        (1, 0x42, FieldFault::Range(0)),
        (2, 0, FieldFault::Range(2)),
        (2, 3, FieldFault::Range(2)),
        (3, 2, FieldFault::Range(3)),
        (4, 0xf5, FieldFault::Range(3)),
        (5, 1, FieldFault::Range(5)),
        (8, 0x71, FieldFault::Range(5)),
        (41, 0, FieldFault::Range(41)),
        (41, 3, FieldFault::Range(41)),
        (41, 1, FieldFault::Excess(74)),
        (42, 10, FieldFault::Range(74)),
    ];
    for (place, value, want) in changes {
        let bytes = spelled(alloc, place, value)?;
        assert_eq!(rt; fault_of(&bytes), Some(want), "byte {place} is {value}");
    }
    Ok(())
}

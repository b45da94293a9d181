use crate::*;
use std::alloc::{AllocError, Global};
use std::test::Fail;

// Kind, members, predecessors, the flag of an ack, length, id. The ids are those of Python's hashlib.
const CASES: [(u8, u8, u8, u8, usize, [u8; 32]); 9] = [
    (1, 1, 0, 0, 138, ID_0),
    (1, 32, 32, 0, 2154, ID_1),
    (2, 0, 0, 0, 105, ID_2),
    (3, 0, 1, 0, 169, ID_3),
    (4, 0, 2, 0, 201, ID_4),
    (5, 0, 32, 0, 1162, ID_5),
    (5, 0, 0, 1, 138, ID_6),
    (6, 0, 3, 0, 233, ID_7),
    (7, 0, 1, 0, 137, ID_8),
];

const ID_0: [u8; 32] = [
    0x5c, 0x12, 0x47, 0xab, 0x68, 0x49, 0x5f, 0x17, 0x82, 0xfd, 0xbb, 0xd3, 0x85, 0x37, 0x4f, 0x86,
    0xcd, 0x69, 0xf5, 0xbd, 0xad, 0xb2, 0xb2, 0xf0, 0xa4, 0x63, 0xd8, 0xac, 0x45, 0x0e, 0x01, 0x68,
];

const ID_1: [u8; 32] = [
    0x83, 0xbf, 0x97, 0x25, 0x64, 0xea, 0x50, 0x3e, 0xff, 0xa1, 0x92, 0x59, 0x68, 0x29, 0x39, 0xb1,
    0x92, 0x5b, 0x64, 0xb7, 0x95, 0xbd, 0x37, 0x8a, 0xe8, 0x28, 0xf9, 0x41, 0xdb, 0xf7, 0x99, 0x83,
];

const ID_2: [u8; 32] = [
    0x8b, 0xf4, 0xca, 0x0e, 0x70, 0x19, 0xdb, 0x10, 0x91, 0x2e, 0xee, 0xad, 0x55, 0x87, 0x81, 0x38,
    0xd2, 0x97, 0x97, 0x9a, 0x88, 0x84, 0x85, 0x7b, 0x78, 0xd7, 0xa2, 0x80, 0xf6, 0xd2, 0x18, 0x43,
];

const ID_3: [u8; 32] = [
    0x1c, 0x9c, 0x74, 0xce, 0xe2, 0xfb, 0x48, 0x8b, 0x60, 0xdd, 0x76, 0x77, 0xe9, 0xea, 0x3d, 0xdb,
    0xf6, 0x8c, 0x2b, 0x01, 0xb3, 0xc4, 0x21, 0x1d, 0x3c, 0x7c, 0xa6, 0xd8, 0xaf, 0x93, 0xc2, 0xd6,
];

const ID_4: [u8; 32] = [
    0xb8, 0xbb, 0x2d, 0xc2, 0x65, 0x12, 0xe4, 0x4b, 0x09, 0xb2, 0x58, 0x8f, 0xd4, 0x70, 0x62, 0xff,
    0xb7, 0x73, 0x5f, 0xb3, 0x31, 0x94, 0x05, 0x15, 0xa1, 0xfe, 0xa9, 0x1b, 0xf9, 0x64, 0x48, 0xf8,
];

const ID_5: [u8; 32] = [
    0x46, 0xdd, 0xe0, 0x23, 0x96, 0xf0, 0x64, 0x79, 0xa3, 0xa2, 0xd6, 0x6e, 0xd5, 0xc8, 0xc2, 0x48,
    0xb2, 0x18, 0x50, 0x2b, 0x3d, 0x98, 0xa0, 0xa3, 0x72, 0x82, 0x77, 0xff, 0x6f, 0x05, 0x4e, 0x73,
];

const ID_6: [u8; 32] = [
    0x09, 0x36, 0xbf, 0x41, 0x37, 0xdc, 0x07, 0x3f, 0x1c, 0xbf, 0x01, 0x42, 0xfd, 0x39, 0x5d, 0xf0,
    0xb9, 0x8a, 0xee, 0xd7, 0x88, 0x29, 0xaa, 0xef, 0x59, 0x3c, 0xdf, 0x26, 0xbd, 0x49, 0x6b, 0x98,
];

const ID_7: [u8; 32] = [
    0x0e, 0xff, 0x5f, 0xbf, 0xfc, 0x3c, 0x34, 0xb3, 0x1e, 0x73, 0x03, 0x0f, 0xeb, 0x18, 0x73, 0xe2,
    0x6d, 0xea, 0xef, 0xeb, 0xdf, 0x39, 0x89, 0xc1, 0xd4, 0x8f, 0xf5, 0x2d, 0x41, 0x50, 0x15, 0x1e,
];

const ID_8: [u8; 32] = [
    0x0d, 0xd0, 0x59, 0x15, 0x1f, 0x86, 0x63, 0x4b, 0xeb, 0x3f, 0xb0, 0x20, 0x50, 0xc2, 0x4b, 0x59,
    0xce, 0x16, 0x3d, 0xc0, 0xb7, 0x4b, 0xac, 0x87, 0x3c, 0xa7, 0x37, 0x89, 0x14, 0x31, 0x33, 0xae,
];

// Headers that are cut and changed: kind, members, predecessors, the flag of an ack.
const BASES: [(u8, u8, u8, u8); 4] = [(1, 2, 2, 0), (5, 0, 1, 1), (7, 0, 0, 0), (3, 0, 1, 0)];

// Where their fields begin.
const PLACES: [(usize, u32); 46] = [
    (0, 0),
    (0, 1),
    (0, 2),
    (0, 3),
    (0, 35),
    (0, 67),
    (0, 71),
    (0, 72),
    (0, 73),
    (0, 105),
    (0, 137),
    (0, 138),
    (0, 170),
    (0, 202),
    (1, 0),
    (1, 1),
    (1, 2),
    (1, 3),
    (1, 35),
    (1, 67),
    (1, 71),
    (1, 72),
    (1, 104),
    (1, 105),
    (1, 106),
    (1, 138),
    (2, 0),
    (2, 1),
    (2, 2),
    (2, 3),
    (2, 35),
    (2, 67),
    (2, 71),
    (2, 72),
    (2, 73),
    (3, 0),
    (3, 1),
    (3, 2),
    (3, 3),
    (3, 35),
    (3, 67),
    (3, 71),
    (3, 72),
    (3, 104),
    (3, 105),
    (3, 137),
];

// One byte of a base is changed: base, place, value, and the fault: 0 none, 1 short, 2 range, 3 excess, at which place.
const CHANGES: [(usize, usize, u8, u8, u32); 46] = [
    (0, 0, 71, 2, 0),
    (0, 0, 73, 2, 0),
    (0, 1, 0, 2, 1),
    (0, 1, 2, 2, 1),
    (0, 2, 0, 2, 2),
    (0, 2, 2, 0, 0),
    (0, 2, 3, 2, 2),
    (0, 3, 255, 0, 0),
    (0, 35, 255, 0, 0),
    (0, 70, 0, 2, 67),
    (0, 70, 1, 0, 0),
    (0, 67, 255, 0, 0),
    (2, 71, 0, 2, 71),
    (2, 71, 2, 0, 0),
    (2, 71, 8, 2, 71),
    (2, 71, 255, 2, 71),
    (2, 71, 3, 2, 104),
    (2, 71, 1, 2, 72),
    (0, 72, 0, 2, 72),
    (0, 72, 1, 2, 138),
    (0, 72, 3, 2, 137),
    (0, 72, 32, 2, 137),
    (0, 72, 33, 2, 72),
    (0, 105, 1, 2, 105),
    (0, 105, 0, 2, 105),
    (0, 105, 2, 0, 0),
    (0, 73, 8, 2, 105),
    (0, 136, 30, 0, 0),
    (0, 137, 1, 3, 202),
    (0, 137, 33, 2, 137),
    (0, 137, 32, 1, 234),
    (0, 170, 1, 2, 170),
    (0, 170, 0, 2, 170),
    (0, 138, 8, 2, 170),
    (0, 202, 0, 0, 0),
    (1, 71, 6, 3, 169),
    (1, 71, 4, 3, 169),
    (1, 104, 0, 0, 0),
    (1, 104, 2, 2, 104),
    (1, 104, 255, 2, 104),
    (1, 105, 0, 3, 138),
    (3, 71, 1, 2, 72),
    (2, 72, 33, 2, 72),
    (2, 72, 1, 1, 105),
    (2, 72, 32, 1, 105),
    (3, 104, 0, 3, 137),
];

// Set, sequence number, kind, target (1 members, 2 nothing, 3 member, 4 answer), whether it was taken, members,
// predecessors, the order of both (0 ascending, 1 equal, 2 descending), and whether the header has a spelling.
const SPELLINGS: [(u8, u32, u8, u8, u8, u8, u8, u8, bool); 43] = [
    (1, 1, 1, 1, 1, 1, 0, 0, true),
    (1, 1, 1, 2, 1, 1, 0, 0, false),
    (1, 1, 1, 3, 1, 1, 0, 0, false),
    (1, 1, 1, 4, 1, 1, 0, 0, false),
    (1, 1, 2, 1, 1, 1, 0, 0, false),
    (1, 1, 2, 2, 1, 1, 0, 0, true),
    (1, 1, 2, 3, 1, 1, 0, 0, false),
    (1, 1, 2, 4, 1, 1, 0, 0, false),
    (1, 1, 3, 1, 1, 1, 0, 0, false),
    (1, 1, 3, 2, 1, 1, 0, 0, false),
    (1, 1, 3, 3, 1, 1, 0, 0, true),
    (1, 1, 3, 4, 1, 1, 0, 0, false),
    (1, 1, 4, 1, 1, 1, 0, 0, false),
    (1, 1, 4, 2, 1, 1, 0, 0, false),
    (1, 1, 4, 3, 1, 1, 0, 0, true),
    (1, 1, 4, 4, 1, 1, 0, 0, false),
    (1, 1, 5, 1, 1, 1, 0, 0, false),
    (1, 1, 5, 2, 1, 1, 0, 0, false),
    (1, 1, 5, 3, 1, 1, 0, 0, false),
    (1, 1, 5, 4, 1, 1, 0, 0, true),
    (1, 1, 6, 1, 1, 1, 0, 0, false),
    (1, 1, 6, 2, 1, 1, 0, 0, false),
    (1, 1, 6, 3, 1, 1, 0, 0, false),
    (1, 1, 6, 4, 1, 1, 0, 0, true),
    (1, 1, 7, 1, 1, 1, 0, 0, false),
    (1, 1, 7, 2, 1, 1, 0, 0, true),
    (1, 1, 7, 3, 1, 1, 0, 0, false),
    (1, 1, 7, 4, 1, 1, 0, 0, false),
    (0, 1, 2, 2, 0, 0, 0, 0, false),
    (2, 1, 2, 2, 0, 0, 0, 0, true),
    (3, 1, 2, 2, 0, 0, 0, 0, false),
    (1, 0, 2, 2, 0, 0, 0, 0, false),
    (2, 4294967295, 7, 2, 0, 0, 32, 0, true),
    (1, 1, 7, 2, 0, 0, 33, 0, false),
    (1, 1, 7, 2, 0, 0, 2, 1, false),
    (1, 1, 7, 2, 0, 0, 2, 2, false),
    (1, 1, 1, 1, 0, 0, 0, 0, false),
    (1, 1, 1, 1, 0, 32, 0, 0, true),
    (1, 1, 1, 1, 0, 33, 0, 0, false),
    (1, 1, 1, 1, 0, 2, 0, 1, false),
    (1, 1, 1, 1, 0, 2, 0, 2, false),
    (1, 1, 5, 4, 0, 0, 1, 0, true),
    (1, 1, 6, 4, 0, 0, 1, 0, false),
];

// Bytes that count up from a number.
fn push_filled(bytes: &mut Vec<u8>, from: u8, count: u8) -> Result<(), AllocError> {
    for index in 0..count {
        bytes.push(((u32::from(from) + u32::from(index)) % 251) as u8)?;
    }
    Ok(())
}

// The first byte of one of the ids, of which the first 36 ascend.
fn id_byte(index: u8) -> u8 {
    ((u32::from(index) * 7 + 1) % 256) as u8
}

// A count and so many ascending ids.
fn push_ids(bytes: &mut Vec<u8>, count: u8) -> Result<(), AllocError> {
    bytes.push(count)?;
    for index in 0..count {
        bytes.push(id_byte(index))?;
        push_filled(bytes, 1, 31)?;
    }
    Ok(())
}

// A header's bytes.
fn spelled(
    alloc: Global,
    (kind, members, predecessors, took): (u8, u8, u8, u8),
) -> Result<Vec<u8>, AllocError> {
    let mut bytes = Vec::new(alloc);
    bytes.extend_from_slice(&[0x48, 1, if kind <= 3 { 1 } else { 2 }])?;
    push_filled(&mut bytes, 3, 32)?;
    push_filled(&mut bytes, 35, 32)?;
    bytes.extend_from_slice(&[0, 0, 0, 9, kind])?;
    if kind == 1 {
        push_ids(&mut bytes, members)?;
    } else if kind >= 3 && kind <= 6 {
        push_filled(&mut bytes, 72, 32)?;
    }
    if kind == 5 {
        bytes.push(took)?;
    }
    push_ids(&mut bytes, predecessors)?;
    push_filled(&mut bytes, 200, 32)?;
    Ok(bytes)
}

fn kind_number(kind: Kind) -> u8 {
    match kind {
        Kind::Create => 1,
        Kind::Update => 2,
        Kind::Remove => 3,
        Kind::Add => 4,
        Kind::Ack => 5,
        Kind::AddAck => 6,
        Kind::Text => 7,
    }
}

// The ids of a view behind their number.
fn push_view(bytes: &mut Vec<u8>, ids: &IdsView<'_>) -> Result<(), AllocError> {
    bytes.push(u8::try_from(ids.count()).unwrap_or(255))?;
    for index in 0..ids.count() {
        bytes.extend_from_slice(&ids.id(index).0)?;
    }
    Ok(())
}

fn push_target(bytes: &mut Vec<u8>, kind: Kind, about: &TargetView<'_>) -> Result<(), AllocError> {
    match about {
        TargetView::Members(ids) => push_view(bytes, ids),
        TargetView::Nothing => Ok(()),
        TargetView::Member(id) => bytes.extend_from_slice(&id.0.0),
        TargetView::Answer(id, took) => {
            bytes.extend_from_slice(&id.0.0)?;
            // An add-ack has no flag, so one that was not taken is no byte of its header.
            if kind == Kind::Ack || !*took {
                bytes.push(u8::from(*took))?;
            }
            Ok(())
        }
    }
}

// What a view lends, field behind field.
fn joined(alloc: Global, header: &HeaderView<'_>) -> Result<Vec<u8>, AllocError> {
    let mut bytes = Vec::new(alloc);
    bytes.extend_from_slice(&[0x48, 1, header.set()])?;
    bytes.extend_from_slice(&header.group().0.0)?;
    bytes.extend_from_slice(&header.sender().0.0)?;
    bytes.extend_from_slice(&header.seq().to_be_bytes())?;
    bytes.push(kind_number(header.kind()))?;
    push_target(&mut bytes, header.kind(), &header.target().again())?;
    push_view(&mut bytes, &header.predecessors().again())?;
    bytes.extend_from_slice(&header.body().0)?;
    Ok(bytes)
}

// The id of a header at the front and the place behind it, where each of its fields is lent and it is written again.
fn taken(alloc: Global, bytes: &[u8]) -> Result<Option<(MessageId, usize)>, AllocError> {
    let mut cursor = Cursor::new(bytes);
    let Ok(header) = take_header(&mut cursor) else {
        return Ok(None);
    };
    let lent = joined(alloc, &header.again())?;
    let value = header.to_header(alloc)?;
    if !value.has_spelling() {
        return Ok(None);
    }
    let again = write_header(alloc, &value)?;
    if lent.as_slice() == header.bytes() && again.as_slice() == header.bytes() {
        Ok(Some((header.id(), cursor.place())))
    } else {
        Ok(None)
    }
}

fn id_of(bytes: &[u8]) -> Option<MessageId> {
    Some(read_header(bytes).ok()?.id())
}

#[test]
fn reads_and_writes_headers_of_each_kind(rt: HostRuntime) -> Result<(), Fail> {
    let alloc = rt.alloc();
    for (kind, members, predecessors, took, length, id) in CASES {
        let mut bytes = spelled(alloc, (kind, members, predecessors, took))?;
        let want = MessageId(Digest(id));
        assert_eq!(rt; bytes.len(), length);
        assert_eq!(rt; id_of(&bytes), Some(want));
        bytes.push(0x48)?;
        assert_eq!(rt; taken(alloc, &bytes)?, Some((want, length)));
        assert_eq!(rt; fault_of(&bytes), (3, length as u32));
    }
    Ok(())
}

// The fault of bytes as a header: 0 none, 1 short, 2 range, 3 excess, and its place.
fn fault_of(bytes: &[u8]) -> (u8, u32) {
    match read_header(bytes) {
        Ok(_) => (0, 0),
        Err(FieldFault::Short(place)) => (1, place),
        Err(FieldFault::Range(place)) => (2, place),
        Err(FieldFault::Excess(place)) => (3, place),
    }
}

// The place of the field in which a byte of a base stands.
fn place_of(base: usize, byte: u32) -> u32 {
    let mut place = 0;
    for (of, begins) in PLACES {
        if of == base && begins <= byte {
            place = begins;
        }
    }
    place
}

// The first length at which a base is not refused as cut there. All bases are shorter than 300 bytes.
fn first_wrong_cut(base: usize, bytes: &[u8]) -> Option<u32> {
    for length in 0..300 {
        let front = bytes.get(..length as usize)?;
        if front.len() == bytes.len() {
            return None;
        }
        if fault_of(front) != (1, place_of(base, length)) {
            return Some(length);
        }
    }
    Some(300)
}

// The first change after which a base is not refused as it should be: the base and the place.
fn first_wrong_change(alloc: Global) -> Result<Option<(usize, usize)>, AllocError> {
    for (base, place, value, fault, at) in CHANGES {
        let mut bytes = spelled(alloc, BASES[base % 4])?;
        if let Some(byte) = bytes.get_mut(place) {
            *byte = value;
        }
        if fault_of(&bytes) != (fault, at) {
            return Ok(Some((base, place)));
        }
    }
    Ok(None)
}

#[test]
fn refuses_the_least_place_of_a_header(rt: HostRuntime) -> Result<(), Fail> {
    let alloc = rt.alloc();
    for base in 0..4 {
        let bytes = spelled(alloc, BASES[base])?;
        assert_eq!(rt; first_wrong_cut(base, &bytes), None);
    }
    assert_eq!(rt; first_wrong_change(alloc)?, None);
    Ok(())
}

fn kind_of(number: u8) -> Kind {
    match number {
        1 => Kind::Create,
        2 => Kind::Update,
        3 => Kind::Remove,
        4 => Kind::Add,
        5 => Kind::Ack,
        6 => Kind::AddAck,
        _ => Kind::Text,
    }
}

// So many ids that ascend, are equal, or descend.
fn ids(alloc: Global, count: u8, order: u8) -> Result<Ids, AllocError> {
    let mut ids = Ids::new(alloc);
    for index in 0..count {
        let number = match order {
            0 => index,
            1 => 0,
            _ => 255 - index,
        };
        ids.push(Digest([number; 32]))?;
    }
    Ok(Ids::from(ids.into_vec()))
}

fn has_spelling(
    alloc: Global,
    (set, seq, kind, about, took): (u8, u32, u8, u8, u8),
    (members, predecessors, order): (u8, u8, u8),
) -> Result<bool, AllocError> {
    let id = Digest([7; 32]);
    let target = match about {
        1 => Target::Members(ids(alloc, members, order)?),
        2 => Target::Nothing,
        3 => Target::Member(MemberId(id)),
        _ => Target::Answer(MessageId(id), took == 1),
    };
    let predecessors = ids(alloc, predecessors, order)?;
    let header = Header {
        set,
        group: GroupId(id),
        sender: MemberId(id),
        seq,
        kind: kind_of(kind),
        target,
        predecessors,
        body: id,
    };
    Ok(header.has_spelling())
}

#[test]
fn tells_which_headers_have_a_spelling(rt: HostRuntime) -> Result<(), Fail> {
    let alloc = rt.alloc();
    for (set, seq, kind, about, took, members, predecessors, order, want) in SPELLINGS {
        let fields = (set, seq, kind, about, took);
        let has = has_spelling(alloc, fields, (members, predecessors, order))?;
        assert_eq!(rt; has, want, "kind {kind}, target {about}");
    }
    let none = ids(alloc, 0, 0)?;
    assert!(rt; none.is_empty() && none.len() == 0);
    assert_eq!(rt; ids(alloc, 3, 0)?.len(), 3);
    Ok(())
}

//! What a history and the plain program answer, by calls that have no clause, so that a test carries none of theirs.

use crate::{History, Marks};
use group_fields::{Bytes, Cards, Digest, HeaderView, MemberId, Memory, MessageId, read_header};
use group_model::plain::messages::{PlainKind, PlainMessage, has, heads, past};
use std::alloc::Global;

pub fn view(bytes: &Bytes) -> Option<HeaderView<'_>> {
    read_header(bytes.as_slice()).ok()
}

/// The id of the message of a header.
pub fn message_id(bytes: &Bytes) -> Digest {
    match read_header(bytes.as_slice()) {
        Ok(view) => view.id().0,
        Err(_) => Digest([0; 32]),
    }
}

/// Pushes a row where it may be pushed, and answers whether it was.
pub fn push(history: &mut History, view: &HeaderView<'_>, cards: &Cards) -> Result<bool, Memory> {
    if !history.may_push(view, cards)? {
        return Ok(false);
    }
    history.push(view, cards)?;
    Ok(true)
}

pub fn count(history: &History) -> u32 {
    history.count()
}

pub fn row(history: &History, index: u32) -> Option<HeaderView<'_>> {
    if index >= history.count() {
        return None;
    }
    Some(history.row(index))
}

/// The id of a row, or zeros where there is no such row.
pub fn id(history: &History, index: u32) -> [u8; 32] {
    if index >= history.count() {
        return [0; 32];
    }
    history.id(index).0.0
}

/// The number of the row with an id.
pub fn number(history: &History, id: [u8; 32]) -> Option<u32> {
    history.find(&MessageId(Digest(id)))
}

pub fn seq(history: &History, index: u32) -> Option<u32> {
    if index >= history.count() {
        return None;
    }
    Some(history.seq(index))
}

/// Whether the row's sender has the number that is kept for this id.
pub fn is_of_sender(history: &History, index: u32, sender: [u8; 32]) -> bool {
    if index >= history.count() {
        return false;
    }
    let number = history.number_of_sender(&MemberId(Digest(sender)));
    number == Some(history.sender_number(index))
}

/// The id of the row that a row answers, or zeros.
pub fn answered(history: &History, index: u32) -> [u8; 32] {
    if index >= history.count() {
        return [0; 32];
    }
    match history.answered(index) {
        Some(at) => id(history, at),
        None => [0; 32],
    }
}

/// The id that a message answers, or zeros.
pub fn operation(row: &PlainMessage) -> [u8; 32] {
    match &row.kind {
        PlainKind::Ack(operation, _) => *operation,
        PlainKind::AddAck(operation) => *operation,
        _ => [0; 32],
    }
}

/// The rows of a header's past, where its predecessors are there.
pub fn past_of(history: &History, view: &HeaderView<'_>) -> Option<Marks> {
    let mut marks = Marks::new();
    match history.past(view, &mut marks) {
        Ok(()) => Some(marks),
        Err(_) => None,
    }
}

/// The rows of the past of the last row.
pub fn past_of_last(history: &History) -> Marks {
    let mut marks = Marks::new();
    let count = history.count();
    if count > 0 {
        history.mark_past(&history.row(count - 1), &mut marks);
    }
    marks
}

pub fn has_mark(marks: &Marks, index: u32) -> bool {
    index < 4096 && marks.has(index)
}

/// The heads of the rows that are marked.
pub fn heads_of(history: &History, marks: &Marks) -> Marks {
    let mut heads = Marks::new();
    history.mark_heads(marks, &mut heads);
    heads
}

pub fn follows(history: &History, marks: &Marks, view: &HeaderView<'_>) -> bool {
    history.follows_heads(marks, view)
}

/// The ids of the heads of the whole history.
pub fn all_heads(alloc: Global, history: &History) -> Result<Vec<[u8; 32]>, Memory> {
    let mut ids = Vec::new(alloc);
    for id in history.heads()?.as_slice() {
        ids.push(id.0)?;
    }
    Ok(ids)
}

pub fn count_of_heads(history: &History) -> Result<u32, Memory> {
    Ok(u32::try_from(history.heads()?.len()).unwrap_or(0))
}

/// The least predecessor of a header that is missing, or zeros.
pub fn missing(history: &History, bytes: &Bytes) -> [u8; 32] {
    let Some(view) = view(bytes) else {
        return [0; 32];
    };
    match history.missing(&view) {
        Some(id) => id.0.0,
        None => [0; 32],
    }
}

pub fn places(history: &History) -> u8 {
    history.places()
}

/// Whether a place has its member, and the card of its id.
pub fn place_agrees(history: &History, place: u8) -> bool {
    if place >= history.places() {
        return false;
    }
    let member = history.member(place);
    history.place(&member) == Some(place) && history.card(place).id() == member
}

pub fn has_place(history: &History, id: [u8; 32]) -> bool {
    history.place(&MemberId(Digest(id))).is_some()
}

pub fn plain_past(
    alloc: Global,
    rows: &[PlainMessage],
    ids: &[[u8; 32]],
) -> Result<Vec<PlainMessage>, Memory> {
    past(alloc, rows, ids)
}

pub fn plain_heads(alloc: Global, rows: &[PlainMessage]) -> Result<Vec<[u8; 32]>, Memory> {
    heads(alloc, rows)
}

pub fn plain_ids(alloc: Global, rows: &[PlainMessage]) -> Result<Vec<[u8; 32]>, Memory> {
    let mut ids = Vec::new(alloc);
    for row in rows {
        ids.push(row.id)?;
    }
    Ok(ids)
}

pub fn has_id(ids: &[[u8; 32]], id: [u8; 32]) -> bool {
    has(ids, &id)
}

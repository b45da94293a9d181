//! Histories of the group, built row by row.

use crate::group::Group;
use crate::packets::unsigned_group;
use causal_history::History;
use group_fields::{Cards, HeaderView, Kind};
use sha2::{Digest, Sha256};
use std::alloc::{AllocError, Global};

/// What is pushed: the headers, and the cards of the create.
#[derive(Drop)]
pub(crate) struct Rows<'a> {
    headers: Vec<HeaderView<'a>>,
    cards: Cards,
    none: Cards,
}

/// The rows of the group, read from their bytes.
pub(crate) fn rows_of(alloc: Global, group: &Group) -> Result<Rows<'_>, AllocError> {
    Ok(Rows {
        headers: group.headers(alloc)?,
        cards: group.cards(alloc)?,
        none: Cards::new(alloc),
    })
}

/// The history of the rows.
pub(crate) fn history_of(alloc: Global, rows: &Rows<'_>) -> Result<History, AllocError> {
    let mut history = History::new(alloc);
    for header in rows.headers.as_slice() {
        let cards = match header.kind() {
            Kind::Create => &rows.cards,
            _ => &rows.none,
        };
        push_one(&mut history, header, cards)?;
    }
    Ok(history)
}

/// Pushes a row, where it may be pushed.
fn push_one(
    history: &mut History,
    header: &HeaderView<'_>,
    cards: &Cards,
) -> Result<(), AllocError> {
    if history.may_push(header, cards)? {
        history.push(header, cards)?;
    }
    Ok(())
}

/// Histories, each dropped before the next is built.
pub(crate) fn push(alloc: Global, count: u32) -> Result<[u8; 32], AllocError> {
    let group = unsigned_group(alloc)?;
    let rows = rows_of(alloc, &group)?;
    let mut pushed = 0u32;
    let mut last = [0u8; 32];
    for _ in 0..count {
        let history = history_of(alloc, &rows)?;
        pushed = pushed.wrapping_add(history.count());
        last = last_id(&history);
    }
    Ok(digest_of(pushed, &last))
}

/// The id of the last row. Zeros where there is none.
fn last_id(history: &History) -> [u8; 32] {
    match history.count() {
        0 => [0; 32],
        count => history.id(count - 1).0.0,
    }
}

/// The digest of a count and an id.
pub(crate) fn digest_of(count: u32, id: &[u8; 32]) -> [u8; 32] {
    let mut hasher = Sha256::new();
    hasher.update(count.to_be_bytes().as_slice());
    hasher.update(id.as_slice());
    hasher.finalize()
}

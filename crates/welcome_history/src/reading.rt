ghost use Rattle.std.specs.Prelude.{◌≡◌, ℕ, ◌++◌, ◌∷◌, List, [], length, map, take, IfOk, OnOk, IfSome, Some};
ghost use Rattle.group_fields.specs.Cards.{card_id};
ghost use Rattle.causal_history.specs.Rows.{MayBePushed};
ghost use Rattle.wire_codec.specs.Order.{IsWelcome};
ghost use Rattle.wire_codec.specs.Packets.{WelcomeRows};
ghost use Rattle.welcome_history.specs.Welcomes.{IsReadable, row_of, rows_of};

use crate::cards::{card_ids, cards_of};
use causal_history::History;
use group_fields::{HeaderView, MemberId, Memory};
use std::alloc::Global;
use wire_codec::{HistoryView, PacketView, packets_are_in_order};

/// Pushes a header as a row, with the cards of the ids that it names.
pub(crate) fn push_row(
    alloc: Global,
    history: &mut History,
    welcome: &HistoryView<'_>,
    ids: &[MemberId],
    header: &HeaderView<'_>,
) -> Result<(), Memory>
    requires ids { map (λ id. id.0.0) ids.now ≡ map card_id welcome.now.cards }
    requires may { MayBePushed history.old (row_of welcome.now.cards header.now) }
    ensures { OnOk result (history.new ≡ history.old ++ row_of welcome.now.cards header.now ∷ []) }
{
    let cards = cards_of(alloc, welcome, ids, header)?;
    history.push(header, &cards)
}

// The history of the welcome.
fn read_rows(alloc: Global, welcome: &HistoryView<'_>) -> Result<History, Memory>
    requires ordered { (set : ℕ) × IsWelcome set welcome.now }
    requires readable { IsReadable welcome.now }
    ensures { IfOk result (λ history. history ≡ rows_of welcome.now) }
{
    let ids = card_ids(alloc, welcome)?;
    let mut history = History::new(alloc);
    let mut rows = welcome.all_rows();
    for index in 0..welcome.rows() {
        if let Some(header) = rows.next() {
            push_row(alloc, &mut history, welcome, ids.as_slice(), &header)?;
        }
    }
    Ok(history)
}

/// Reads the history that an add hands on: its headers in their order, each with the cards of the ids that it names.
///
/// The packet is an add whose headers are a history, with a card of each id that they name. `Memory` where an
/// allocation was refused.
pub fn read_welcome(alloc: Global, packet: &PacketView<'_>) -> Result<History, Memory>
    requires { (welcome : WelcomeRows) × (packet.now.history ≡ Some welcome) × IsReadable welcome }
    ensures { IfOk result (λ history. IfSome packet.now.history (λ welcome. history ≡ rows_of welcome)) }
{
    let _bytes = packet.bytes();
    packets_are_in_order();
    match packet.history() {
        Some(welcome) => read_rows(alloc, &welcome),
        None => Ok(History::new(alloc)),
    }
}

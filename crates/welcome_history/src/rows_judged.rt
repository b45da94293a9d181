//! Whether the rows that an add hands on are the history of a group, one behind the other.

ghost use Rattle.std.specs.Prelude.{◌≡◌, ◌↔◌, ◌++◌, ◌∷◌, ℕ, List, [], true, map, IsTrue, IfOk, MatchResult};
ghost use Rattle.group_fields.specs.Cards.{card_id};
ghost use Rattle.group_messages.specs.Messages.{message_of};
ghost use Rattle.group_model.specs.Sets.{Id, In};
ghost use Rattle.group_model.specs.Messages.{Stands};
ghost use Rattle.group_model.specs.Membership.{ids_named};
ghost use Rattle.causal_history.specs.Rows.{MayBePushed, history_of, row_message};
ghost use Rattle.member_view.specs.Causes.{GivesNone, IsFirst};
ghost use Rattle.wire_codec.specs.Order.{IsWelcome};
ghost use Rattle.causal_cast.specs.declared.verdict.Verdict.TheVariants.{BadWelcome};
ghost use Rattle.welcome_history.specs.Joining.{EndHolds, Joining, RowHolds, on_rows};
ghost use Rattle.welcome_history.specs.Welcomes.{row_of, rows_of};

use crate::reading::push_row;
use crate::row_held::{is_new, row_holds};
use causal_history::{History, Marks};
use group_fields::{GroupId, HeaderView, MemberId, Memory};
use kem_trait::Kem;
use member_view::Membership;
use std::alloc::Global;
use wire_codec::{HistoryView, PacketView};

// Whether the message follows all the rows, of which there are some, and is none of them.
fn end_holds(history: &History, header: &HeaderView<'_>) -> bool
    ensures { IsTrue result ↔ EndHolds history.now (message_of header.now) }
{
    let mut all = Marks::new();
    history.mark_all(&mut all);
    history.count() > 0 && history.follows_heads(&all, header) && is_new(history, header)
}

// Pushes a row where it holds behind the older ones, and answers whether it does.
fn take_row<K: Kem, G: Membership>(
    alloc: Global,
    history: &mut History,
    welcome: &HistoryView<'_>,
    ids: &[MemberId],
    group: &GroupId,
    row: &HeaderView<'_>,
) -> Result<bool, Memory>
    requires ids { map (λ id. id.0.0) ids.now ≡ map card_id welcome.now.cards }
    requires ordered { IsWelcome K.SET welcome.now }
    requires may { ((i : Id) → In i (message_of row.now).predecessors → Stands (history_of history.old) i)
        → (Stands (history_of history.old) (message_of row.now).id → ⊥)
        → MayBePushed history.old (row_of welcome.now.cards row.now) }
    ensures holds { IfOk result (λ held. (F : Joining) → F.rule ≡ G.rule → F.set ≡ K.SET → F.is_public ≡ K.is_public
        → IsTrue held ↔ RowHolds F group.now.0.0 welcome.now.cards history.old row.now) }
    ensures pushed { IfOk result (λ held. held ≡ true
        → history.new ≡ history.old ++ row_of welcome.now.cards row.now ∷ []) }
{
    if !row_holds::<K, G>(history, welcome, ids, group, row) {
        return Ok(false);
    }
    push_row(alloc, history, welcome, ids, row)?;
    Ok(true)
}

/// Judges the rows that an add hands on, one behind the other, and the add behind them: the history that they are, or
/// the least number of what doesn't hold, from 1.
///
/// The cards are there of all whom the rows name. `Memory` where an allocation was refused.
pub(crate) fn judge_rows<K: Kem, G: Membership>(
    alloc: Global,
    packet: &PacketView<'_>,
    welcome: &HistoryView<'_>,
    ids: &[MemberId],
) -> Result<Result<History, u32>, Memory>
    requires ids { map (λ id. id.0.0) ids.now ≡ map card_id welcome.now.cards }
    requires ordered { IsWelcome K.SET welcome.now }
    requires named { (x : Id) → In x (ids_named (history_of (rows_of welcome.now)))
        → In x (map card_id welcome.now.cards) }
    ensures rows { IfOk result (λ judged. IfOk judged (λ history. history ≡ rows_of welcome.now)) }
    ensures end { IfOk result (λ judged. IfOk judged (λ history. EndHolds history (message_of packet.now.header))) }
    ensures causes { IfOk result (λ judged. (F : Joining) → F.rule ≡ G.rule → F.set ≡ K.SET
        → F.is_public ≡ K.is_public → let causes = on_rows F packet.now welcome.now.cards 1 [] welcome.now.rows in
        MatchResult judged (λ _. GivesNone causes) (λ number. IsFirst causes (BadWelcome number))) }
{
    let header = packet.header();
    let group = header.group();
    let mut history = History::new(alloc);
    let mut rows = welcome.all_rows();
    for index in 0..welcome.rows() {
        if let Some(row) = rows.next() {
            if !take_row::<K, G>(alloc, &mut history, welcome, ids, &group, &row)? {
                return Ok(Err(u32::from(index) + 1));
            }
        }
    }
    if !end_holds(&history, &header) {
        return Ok(Err(u32::from(welcome.rows()) + 1));
    }
    Ok(Ok(history))
}
